//! The rule of a history, and what may be done to its words.
use crate::deed::{Deed, Logged};
use ll_directive::Want;
use ll_item::Item;
use logbook::{Gain, Opening, Plain, Play, Rule};

/// The rule: each word is the number of deeds of the channel at its place.
pub(crate) struct Law;

impl Rule<Logged, u64> for Law {
    ghost use Rattle.std.specs.Prelude.{[]};
    ghost use base.Fml.{ftrue};
    ghost use Rattle.ll_history.specs.Rules.{IsKept};

    ghost holds = { λ cells history. IsKept cells history };

    ghost first = { [] };

    ghost hinted = { λ n history. Unit {0} };

    ghost shows = { λ history. [] };

    ghost keeps = { λ names history. ftrue };

    ghost moves = { λ ask before after answer. Unit {0} };
}

/// A history begins without deeds.
impl Opening<(), Logged> for Law {
    ghost use Rattle.std.specs.Prelude.{[]};

    ghost log = { λ count about. [] };
}

/// Callers trade nothing for a step.
pub(crate) struct Nothing;

impl Gain<Logged, u64> for Nothing {
    ghost use base.Fml.{ftrue};

    ghost after = { λ names about answer. ftrue };
}

/// A step that looks at the history.
pub(crate) struct Look;

impl Play<Logged, u64> for Look {
    ghost use Rattle.ll_history.specs.Rules.{Looks};

    ghost then = { Looks };
}

/// A step that adds a deed.
pub(crate) struct Add;

impl Play<Logged, u64> for Add {
    ghost use Rattle.ll_history.specs.Rules.{Adds};

    ghost then = { Adds };
}

// What a step is to add; its word gives the place.

impl Plain<Item, Logged, u64> for Add {
    ghost use Rattle.std.specs.Prelude.{None};
    ghost use Rattle.ll_history.specs.History.{done_at};
    ghost use Rattle.ll_history.specs.declared.deed.Deed.TheVariants.{Publish};

    ghost ask = { λ item. done_at 0 (Publish item) };

    ghost state = { λ item. None };
}

impl Plain<Want, Logged, u64> for Add {
    ghost use Rattle.std.specs.Prelude.{None};
    ghost use Rattle.ll_history.specs.History.{done_at};
    ghost use Rattle.ll_history.specs.declared.deed.Deed.TheVariants.{Ask};

    ghost ask = { λ want. done_at 0 (Ask want) };

    ghost state = { λ want. None };
}

impl Plain<Deed, Logged, u64> for Add {
    ghost use Rattle.std.specs.Prelude.{None};
    ghost use Rattle.ll_history.specs.History.{done_at};

    ghost ask = { λ deed. done_at 0 deed };

    ghost state = { λ deed. None };
}
