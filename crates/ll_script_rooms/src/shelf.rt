//! The values of open requests, by numbers.
ghost use Rattle.std.specs.Prelude.{◌≡◌, ◌↔◌, ◌++◌, ◌∷◌, [], None, IfErr, IfOk, IsOk};
ghost use Rattle.ll_script_rooms.specs.Shelf.{found, taken_off};

use ll_room::Parked;
use std::alloc::{AllocFailed, Global};
use std::collections::BTreeMap;
use std::marker::Model;

/// The values of open requests, each under a number of its own, in the order in which they were put there. Only an empty shelf can be
/// dropped.
pub struct Shelf {
    slots: BTreeMap<u64, Parked>,
    next: u64,
}

impl Model for Shelf {
    ghost use Rattle.std.specs.Prelude.{◌<◌, List, ℕ};
    ghost use Rattle.std.specs.List.{All};
    ghost use Rattle.std.specs.Map.{keys_of};
    ghost use Rattle.ll_room.specs.Ticket.{Ticket};

    ghost Value = { List (ℕ × Ticket) };

    ghost view = { λ s. s.slots.entries };

    ghost invariant = { λ s. All (λ k. k < s.next) (keys_of s.slots.entries) };
}

/// Only an empty shelf can be dropped, so forgetting a value on it is a failed proof.
impl Drop for Shelf {
    fn drop(self)
        requires { self ≡ [] }
    {
        let Shelf { slots, next: _ } = self;
        slots.destroy_empty();
    }
}

impl Shelf {
    /// Returns an empty shelf.
    pub fn new(alloc: Global) -> Shelf
        ensures { result ≡ [] }
    {
        Shelf {
            slots: BTreeMap::new(alloc),
            next: 0,
        }
    }

    /// Puts `parked` after the others and returns its number, which none of them has. Hands `parked` back if it is out of memory, or if
    /// all 2^64 - 1 numbers were used.
    pub fn put(&mut self, parked: Parked) -> Result<u64, Parked>
        ensures fresh { IfOk result (λ k. found k self.old ≡ None) }
        ensures put { IfOk result (λ k. self.new ≡ self.old ++ (k, parked) ∷ []) }
        ensures handed_back { IfErr result (λ p. (p ≡ parked) × (self.new ≡ self.old)) }
    {
        let number = self.next;
        if number == u64::MAX {
            return Err(parked);
        }
        // All numbers on the shelf are below `next`, so this one is free.
        match self.slots.insert(number, parked) {
            Ok(None) => {
                self.next = number + 1;
                Ok(number)
            }
            Ok(Some(_other)) => unreachable!(),
            Err(AllocFailed { value: (_, parked) }) => Err(parked),
        }
    }

    /// Removes and returns the value under `number`.
    pub fn take(&mut self, number: u64) -> Option<Parked>
        ensures value { result ≡ found number self.old }
        ensures left { self.new ≡ taken_off number self.old }
    {
        self.slots.remove(&number)
    }

    /// Consumes an empty shelf; hands any other back.
    pub fn finish(self) -> Result<(), Shelf>
        ensures empty { IsOk result ↔ (self ≡ []) }
        ensures handed_back { IfErr result (λ s. s ≡ self) }
    {
        if self.slots.is_empty() {
            Ok(())
        } else {
            Err(self)
        }
    }
}
