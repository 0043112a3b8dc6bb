//! The open requests that have their reply.
ghost use Rattle.std.specs.Prelude.{◌≡◌, ◌≤◌, ◌<◌, ◌+◌, ◌==◌, ℕ, [], Some, cond, OnOk, find, length, slice_get};
ghost use Rattle.ll_book.specs.Numbers.{AreRising, all_but, has_number};

use std::alloc::{AllocError, Global};
use std::collections::VecDeque;
use std::marker::Model;

/// The tickets of the requests that have their reply, in order. A ticket is added in memory that was reserved before.
#[derive(Drop)]
pub(crate) struct Ready {
    tickets: VecDeque<u64>,
}

impl Model for Ready {
    ghost use Rattle.std.specs.VecDeque.{deque_capacity};
    ghost use Rattle.ll_book.specs.Orders.{Kept};
    ghost use Rattle.ll_book.specs.Numbers.{AreRising};

    ghost Value = { Kept };

    ghost view = { λ r. record { tickets = r.tickets.items; memory = deque_capacity r.tickets } };

    ghost invariant = { λ r. AreRising (λ t. t) 0 r.tickets.items };
}

impl Ready {
    /// Returns the list without tickets.
    pub(crate) fn new(alloc: Global) -> Ready
        ensures { result.tickets ≡ [] }
    {
        Ready {
            tickets: VecDeque::new(alloc),
        }
    }

    /// Reserves memory for `more` further tickets.
    pub(crate) fn reserve(&mut self, more: usize) -> Result<(), AllocError>
        ensures memory { OnOk result (length self.new.tickets + more ≤ self.new.memory) }
        ensures no_less { self.old.memory ≤ self.new.memory }
        ensures tickets { self.new.tickets ≡ self.old.tickets }
    {
        self.tickets.reserve(more)
    }

    /// Adds `ticket`, unless it is there.
    pub(crate) fn put(&mut self, ticket: u64)
        requires first { 0 < ticket }
        requires memory { length self.old.tickets < self.old.memory }
        ensures found { (n : ℕ) → find (has_number (λ t. t) n) self.new.tickets ≡ cond (ticket == n) (Some ticket) (find (has_number (λ t. t) n) self.old.tickets) }
        ensures rising { AreRising (λ t. t) 0 self.new.tickets }
        ensures count { length self.new.tickets ≤ length self.old.tickets + 1 }
        ensures memory { self.old.memory ≤ self.new.memory }
    {
        if let Err(place) = self.tickets.binary_search(&ticket) {
            match self.tickets.insert(place, ticket) {
                Ok(()) => {}
                Err(_) => unreachable!(),
            }
        }
    }

    /// Removes `ticket`, if it is there.
    pub(crate) fn remove(&mut self, ticket: u64)
        ensures tickets { self.new.tickets ≡ all_but (λ t. t) ticket self.old.tickets }
        ensures memory { self.old.memory ≤ self.new.memory }
    {
        if let Ok(place) = self.tickets.binary_search(&ticket) {
            match self.tickets.remove(place) {
                Some(_) => {}
                None => unreachable!(),
            }
        }
    }

    /// Returns the smallest ticket.
    pub(crate) fn first(&self) -> Option<u64>
        ensures { result ≡ slice_get self.now.tickets 0 }
    {
        let ticket = self.tickets.front()?;
        Some(*ticket)
    }

    /// Returns how many tickets there are.
    pub(crate) fn len(&self) -> usize
        ensures { result ≡ length self.now.tickets }
    {
        self.tickets.len()
    }
}
