//! A beginning of the history that somebody has seen.
ghost use Rattle.std.specs.Prelude.{◌≡◌, []};
ghost use mathlib.Core.List.{IsPrefix};

use crate::deed::Logged;
use crate::law::Law;
use crate::names::Named;
use logbook::Seen;
use std::marker::{Model, PhantomData};

/// The history of a hub as far as its holder has seen it. It takes no bytes.
pub struct Past<L: Named> {
    pub(crate) seen: Seen<Logged, u64, Law>,
    of: PhantomData<L>,
}

impl<L: Named> Drop for Past<L> {
    fn drop(self) {
        let Past {
            seen: _seen,
            of: _of,
        } = self;
    }
}

impl<L: Named> Model for Past<L> {
    ghost use Rattle.std.specs.Prelude.{◌≡◌, List, []};
    ghost use Rattle.ll_history.specs.declared.deed.Logged.{Logged};

    ghost Value = { List Logged };

    ghost view = { λ p. p.seen.log };

    ghost invariant = { λ p. (p.seen.book ≡ L.names.book) × (p.seen.names ≡ []) };
}

impl<L: Named> Past<L> {
    /// Returns what `seen` says of the history that `L` names.
    pub(crate) fn new(seen: Seen<Logged, u64, Law>) -> Past<L>
        requires { (seen.book ≡ L.names.book) × (seen.names ≡ []) }
        ensures { result ≡ seen.log }
    {
        Past {
            seen,
            of: PhantomData,
        }
    }

    /// Returns another handle of the same.
    pub fn again(&self) -> Past<L>
        ensures { result ≡ self.now }
    {
        Past {
            seen: self.seen.again(),
            of: PhantomData,
        }
    }

    /// Sees what `other` has seen, too.
    pub fn learn(&mut self, other: &Past<L>)
        ensures own { IsPrefix self.old self.new }
        ensures other { IsPrefix other.now self.new }
    {
        self.seen.learn(&other.seen);
    }
}
