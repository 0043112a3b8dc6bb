//! Connections that are listed.
ghost use Rattle.std.specs.Prelude.{◌≡◌};
ghost use Rattle.ll_witness.specs.Sources.{IsNext};

use crate::link::MemoryLink;
use ll_device::Source;
use std::collections::VecDeque;
use std::sync::ledger::Ledger;

/// A source of the connections of a list, in order.
#[derive(Drop)]
pub struct ListSource<'a, L: Ledger> {
    links: VecDeque<MemoryLink<'a, L>>,
}

impl<'a, L: Ledger> ListSource<'a, L> {
    /// Returns a source of `links`.
    pub fn new(links: VecDeque<MemoryLink<'a, L>>) -> ListSource<'a, L>
        ensures { result.links.items ≡ links.entry.items }
    {
        ListSource { links }
    }
}

impl<'a, L: Ledger + Send> Source for ListSource<'a, L> {
    type Peer = MemoryLink<'a, L>;

    ghost next_gives = { λ old link new. IsNext old.links.items link new.links.items };

    fn next(&mut self) -> Option<MemoryLink<'a, L>> {
        self.links.pop_front()
    }
}
