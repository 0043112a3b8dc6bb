//! Open requests by their tickets.
ghost use Rattle.std.specs.Prelude.{◌≡◌, ◌<◌, ◌^◌, ◌++◌, ◌∷◌, [], None, Some, OnErr, OnOk, find, length, map};
ghost use Rattle.std.specs.BTreeMap.{insert_entry, is_at};
ghost use Rattle.std.specs.Map.{lookup, set_value};
ghost use Rattle.std.specs.Ordering.{nat_cmp};
ghost use Rattle.ll_verdict.specs.declared.entry.Slot.{Slot};
ghost use Rattle.std.specs.Option.{option_copied};
ghost use Rattle.ll_book.specs.Orders.{settle_with};
ghost use Rattle.ll_book.specs.Numbers.{changed};
ghost use Rattle.ll_verdict.specs.Waiting.{AreBelow, has_ticket, ticket_in, without};

use ll_verdict::{Settled, Slot};
use std::alloc::{AllocError, Global};
use std::collections::BTreeMap;
use std::marker::Model;

/// Open requests, in order of their tickets. A request is found only by its ticket.
#[derive(Drop)]
pub(crate) struct Slots {
    under: BTreeMap<u64, Slot>,
}

impl Model for Slots {
    ghost use Rattle.std.specs.Prelude.{List};
    ghost use Rattle.std.specs.Map.{values_of};
    ghost use Rattle.ll_verdict.specs.declared.entry.Slot.{Slot};
    ghost use Rattle.ll_book.specs.Numbers.{AreKeyed};
    ghost use Rattle.ll_verdict.specs.Waiting.{ticket_in};

    ghost Value = { List Slot };

    ghost view = { λ s. values_of s.under.entries };

    ghost invariant = { λ s. AreKeyed ticket_in 0 s.under.entries };
}

impl Slots {
    /// Returns the list without requests.
    pub(crate) fn new(alloc: Global) -> Slots
        ensures { result ≡ [] }
    {
        Slots {
            under: BTreeMap::new(alloc),
        }
    }

    /// Adds an open request, whose ticket is above all others.
    pub(crate) fn push(&mut self, slot: Slot) -> Result<(), AllocError>
        requires first { 0 < slot.entry.ticket }
        requires newest { AreBelow slot.entry.ticket self.old }
        ensures pushed { OnOk result (self.new ≡ self.old ++ slot ∷ []) }
        ensures unchanged { OnErr result (self.new ≡ self.old) }
    {
        put(&mut self.under, slot)?;
        Ok(())
    }

    /// Returns how many requests are open.
    pub(crate) fn len(&self) -> usize
        ensures value { result ≡ length self.now }
        ensures few { result < 2 ^ 63 }
    {
        self.under.len()
    }

    /// Returns the open request `ticket`.
    pub(crate) fn get(&self, ticket: u64) -> Option<&Slot>
        ensures { option_copied result ≡ find (has_ticket ticket) self.now }
    {
        self.under.get(&ticket)
    }

    /// Removes the open request `ticket` and returns it.
    pub(crate) fn remove(&mut self, ticket: u64) -> Option<Slot>
        ensures value { result ≡ find (has_ticket ticket) self.old }
        ensures left { self.new ≡ without ticket self.old }
    {
        self.under.remove(&ticket)
    }

    /// Gives request `ticket` its reply, if it is open.
    pub(crate) fn settle(&mut self, ticket: u64, settled: Settled)
        ensures { self.new ≡ changed ticket_in ticket (settle_with settled) self.old }
    {
        settle(&mut self.under, ticket, settled);
    }
}

/// Adds `slot` under its ticket.
fn put(under: &mut BTreeMap<u64, Slot>, slot: Slot) -> Result<(), AllocError>
    ensures put { OnOk result (under.new.entries ≡ insert_entry nat_cmp under.old.entries slot.entry.ticket slot) }
    ensures unchanged { OnErr result (under.new.entries ≡ under.old.entries) }
{
    under.insert(slot.entry.ticket, slot)?;
    Ok(())
}

/// Gives the slot under `ticket` its reply, if there is one.
fn settle(under: &mut BTreeMap<u64, Slot>, ticket: u64, settled: Settled)
    ensures settled { (s : Slot) → lookup (is_at (nat_cmp ticket)) under.old.entries ≡ Some s
        → under.new.entries ≡ set_value (is_at (nat_cmp ticket)) under.old.entries (settle_with settled s) }
    ensures none { lookup (is_at (nat_cmp ticket)) under.old.entries ≡ None → under.new.entries ≡ under.old.entries }
{
    if let Some(slot) = under.get_mut(&ticket) {
        slot.settled = Some(settled);
    }
}
