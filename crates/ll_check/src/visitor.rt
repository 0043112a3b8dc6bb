//! What the lines of a record are passed to while it is read in pieces.
ghost use Rattle.std.specs.Prelude.{◌≡◌, ◌≤◌, ◌⊎◌, ◌^◌, List, false, true, ℕ};
ghost use Rattle.ll_check.specs.Found.{so_far};
ghost use Rattle.ll_check.specs.Steps.{Tells};
ghost use Rattle.ll_check.specs.Visiting.{Holds};
ghost use Rattle.ll_entry.specs.Chain.{Position, entries};

use crate::told::Told;

/// What the lines of a record are passed to, one after another, and what changes a sink by them.
pub trait Visitor<S> {
    /// What holds of the sink as it was first, of the visitor, and of the sink, after the lines up to the rest, which lead to a position.
    ghost holds: { Holds S Self };

    /// Changes `sink` by the next lines, which say `told`, and returns whether the record is to be read on.
    fn visit(&mut self, sink: &mut S, told: &Told<'_>) -> bool
        ensures on { (first : S) (p next : Position) (lines mid rest : List (List ℕ)) → holds first self.old sink.old p lines mid
            → Tells p told.now next mid rest → entries (so_far p) ≤ 2 ^ 63 → result ≡ true → holds first self.new sink.new next lines rest }
        ensures ended { (first : S) (p next : Position) (lines mid rest : List (List ℕ)) → holds first self.old sink.old p lines mid
            → Tells p told.now next mid rest → entries (so_far p) ≤ 2 ^ 63 → result ≡ false
            → (holds first self.new sink.new p lines mid) ⊎ (holds first self.new sink.new next lines rest) };
}

/// A visitor to whom all lines are the same.
#[derive(Drop)]
pub(crate) struct Silent;

impl Visitor<()> for Silent {
    ghost use Rattle.std.specs.Prelude.{⊤};

    ghost holds = { λ first silent sink p lines rest. ⊤ };

    fn visit(&mut self, _sink: &mut (), _told: &Told<'_>) -> bool {
        true
    }
}
