//! The requests that wait in several rooms, with the values that stand for them.
ghost use Rattle.std.specs.Prelude.{◌≡◌, ◌↔◌, ◌++◌, ◌∷◌, [], IfErr, IsOk, OnOk, length, option_map, slice_get};
ghost use Rattle.ll_script_rooms.specs.Waits.{parked_of, under, wait_of, without};

use crate::held_request::{HeldRequest, insert};
use crate::owner::Owner;
use crate::spot::first_of;
use crate::wait::Wait;
use ll_book::Order;
use ll_room::Parked;
use std::alloc::Global;
use std::collections::BTreeMap;
use std::marker::Model;

/// The requests that wait in several rooms, in order of asking, with the values that stand for them. Only an empty collection can be
/// dropped.
pub struct Held {
    /// The requests by their numbers, which rise in order of asking.
    rows: BTreeMap<u64, HeldRequest>,
    /// The same requests by room and ticket.
    tickets: Order,
    /// The same requests by owner.
    owners: Order,
    /// The number that was given last; the first is 1.
    last: u64,
}

impl Model for Held {
    ghost use Rattle.std.specs.Prelude.{List, map};
    ghost use Rattle.std.specs.Map.{values_of};
    ghost use Rattle.ll_script_rooms.specs.Book.{IsBook, wait_in};
    ghost use Rattle.ll_script_rooms.specs.declared.wait.Wait.{Wait};

    ghost Value = { List Wait };

    ghost view = { λ h. map wait_in (values_of h.rows.entries) };

    ghost invariant = { λ h. IsBook h.rows.entries h.tickets h.owners h.last };
}

/// Only an empty collection can be dropped, so forgetting a request in it is a failed proof.
impl Drop for Held {
    fn drop(self)
        requires { self ≡ [] }
    {
        let Held {
            rows,
            tickets: _,
            owners: _,
            last: _,
        } = self;
        rows.destroy_empty();
    }
}

impl Held {
    /// Returns an empty collection.
    pub fn new(alloc: Global) -> Held
        ensures { result ≡ [] }
    {
        Held {
            rows: BTreeMap::new(alloc),
            tickets: Order::new(alloc),
            owners: Order::new(alloc),
            last: 0,
        }
    }

    /// Adds the request `parked`, whose reply is for `owner`. Hands `parked` back if it is out of memory, or once 2^64 - 1 requests were
    /// added.
    pub fn put(&mut self, owner: Owner, parked: Parked) -> Result<(), Parked>
        ensures put { OnOk result (self.new ≡ self.old ++ (record { owner = owner; place = parked.channel; ticket = parked.ticket }) ∷ []) }
        ensures handed_back { IfErr result (λ p. (p ≡ parked) × (self.new ≡ self.old)) }
    {
        if self.last == u64::MAX {
            return Err(parked);
        }
        let row = HeldRequest {
            number: self.last + 1,
            owner,
            parked,
        };
        let (by_ticket, by_owner) = (row.by_ticket(), row.by_owner());
        let Ok(()) = self.tickets.add(by_ticket) else {
            return Err(row.into_parked());
        };
        let Ok(()) = self.owners.add(by_owner) else {
            self.tickets.remove(by_ticket);
            return Err(row.into_parked());
        };
        match insert(&mut self.rows, row) {
            Ok(()) => {
                self.last += 1;
                Ok(())
            }
            Err(row) => {
                self.tickets.remove(by_ticket);
                self.owners.remove(by_owner);
                Err(row.into_parked())
            }
        }
    }

    /// Returns the number of requests that wait.
    pub fn count(&self) -> usize
        ensures { result ≡ length self.now }
    {
        self.rows.len()
    }

    /// Returns the request that was asked first.
    pub fn first(&self) -> Option<Wait>
        ensures { result ≡ slice_get self.now 0 }
    {
        let (_, row) = self.rows.first_key_value()?;
        Some(row.wait())
    }

    /// Returns the request that waits at `place` under `ticket`.
    pub fn under(&self, place: usize, ticket: u64) -> Option<Wait>
        ensures { result ≡ under place ticket self.now }
    {
        let number = first_of(&self.tickets, place as u64, ticket)?;
        let row = self.rows.get(&number)?;
        Some(row.wait())
    }

    /// Returns the first request that waits for `owner`.
    pub fn of(&self, owner: Owner) -> Option<Wait>
        ensures { result ≡ wait_of owner self.now }
    {
        let (kind, id) = owner.key();
        let number = first_of(&self.owners, kind, id)?;
        let row = self.rows.get(&number)?;
        Some(row.wait())
    }

    /// Removes the request that waits at `place` under `ticket`, and returns its value.
    pub fn take(&mut self, place: usize, ticket: u64) -> Option<Parked>
        ensures value { result ≡ option_map parked_of (under place ticket self.old) }
        ensures left { self.new ≡ without place ticket self.old }
    {
        let number = first_of(&self.tickets, place as u64, ticket)?;
        match self.rows.remove(&number) {
            Some(row) => {
                self.tickets.remove(row.by_ticket());
                self.owners.remove(row.by_owner());
                Some(row.into_parked())
            }
            None => unreachable!(),
        }
    }

    /// Consumes an empty collection; hands any other back.
    pub fn finish(self) -> Result<(), Held>
        ensures empty { IsOk result ↔ (self ≡ []) }
        ensures handed_back { IfErr result (λ h. h ≡ self) }
    {
        if self.rows.is_empty() {
            Ok(())
        } else {
            Err(self)
        }
    }
}
