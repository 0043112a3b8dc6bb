//! A request that waits, with the value that stands for it.
ghost use Rattle.std.specs.Prelude.{◌≡◌, IfErr, None, OnOk};
ghost use Rattle.std.specs.BTreeMap.{insert_entry, is_at};
ghost use Rattle.std.specs.Map.{lookup};
ghost use Rattle.std.specs.Ordering.{nat_cmp};
ghost use Rattle.ll_script_rooms.specs.Book.{by_owner, by_ticket, wait_in};

use crate::owner::Owner;
use crate::spot::spot;
use crate::wait::Wait;
use ll_book::OrderKey;
use ll_room::Parked;
use std::alloc::AllocFailed;
use std::collections::BTreeMap;

/// A request that waits, with its owner, its number and the value that stands for it.
pub(crate) struct HeldRequest {
    /// Its number in order of asking, from 1.
    pub(crate) number: u64,
    pub(crate) owner: Owner,
    pub(crate) parked: Parked,
}

impl HeldRequest {
    /// Returns the request without its value.
    pub(crate) fn wait(&self) -> Wait
        ensures { result ≡ wait_in self.now }
    {
        Wait {
            owner: self.owner,
            place: self.parked.channel() as usize,
            ticket: self.parked.ticket(),
        }
    }

    /// Returns its place in the order by room and ticket.
    pub(crate) fn by_ticket(&self) -> OrderKey
        ensures { result ≡ by_ticket self.now }
    {
        spot(self.parked.channel(), self.parked.ticket(), self.number)
    }

    /// Returns its place in the order by owner.
    pub(crate) fn by_owner(&self) -> OrderKey
        ensures { result ≡ by_owner self.now }
    {
        let (kind, id) = self.owner.key();
        spot(kind, id, self.number)
    }

    /// Returns the value that stands for it.
    pub(crate) fn into_parked(self) -> Parked
        ensures { result ≡ self.parked }
    {
        let HeldRequest {
            number: _,
            owner: _,
            parked,
        } = self;
        parked
    }
}

/// Inserts `row` under its number, under which there must be none. Hands it back if it is out of memory.
pub(crate) fn insert(
    rows: &mut BTreeMap<u64, HeldRequest>,
    row: HeldRequest,
) -> Result<(), HeldRequest>
    requires { lookup (is_at (nat_cmp row.number)) rows.old.entries ≡ None }
    ensures put { OnOk result (rows.new.entries ≡ insert_entry nat_cmp rows.old.entries row.number row) }
    ensures handed_back { IfErr result (λ r. (r ≡ row) × (rows.new.entries ≡ rows.old.entries)) }
{
    match rows.insert(row.number, row) {
        Ok(None) => Ok(()),
        Ok(Some(_other)) => unreachable!(),
        Err(AllocFailed { value: (_, row) }) => Err(row),
    }
}
