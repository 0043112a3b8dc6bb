//! Gives the messages of an encoder's bytes to several origins.
ghost use Rattle.std.specs.Prelude.{◌≡◌, ◌≢◌, ◌+◌, ◌<◌, ◌≤◌, ◌⊎◌, ℕ, List, Option, Some, IfErr, IfOk, IsErrOf, OnOk, false, true};
ghost use Rattle.ll_announce.specs.Messages.{MessageValue};
ghost use Rattle.ll_mp4.specs.declared.fault.StreamFault.{StreamFault};
ghost use Rattle.ll_pair.specs.Feeding.{HasFed, HasGivenAll, HasGivenMost, IsGiven, IsGivenSo};
ghost use Rattle.ll_push.specs.Faults.{IsOfSource, most};
ghost use Rattle.ll_push.specs.Meaning.{targeted};
ghost use Rattle.ll_push.specs.Publishing.{Ahead, at_start, told_ahead};
ghost use Rattle.ll_push.specs.declared.fault.PushFault.{PushFault};

use ll_announce::{Message, Standing};
use ll_device::Reader;
use ll_push::{Calendar, Publication, PushFault, Target};
use std::alloc::{AllocError, Global};

/// Several origins to which messages are given.
pub trait Outlets {
    /// The messages that each origin which isn't left was given, in order, if they are known.
    ghost given: { Self → Option (List MessageValue) };

    /// Gives `message` to each origin that isn't left. Returns false if all are left, and then gives nothing.
    fn give(&mut self, message: Message) -> Result<bool, AllocError>
        ensures { IfOk result (IsGivenSo message (given self.old) (given self.new)) };
}

/// How giving messages ended.
#[derive(Clone, Copy)]
pub enum Fed {
    /// All were given.
    Whole,
    /// All origins are left.
    Left,
}

/// Gives the messages of what an encoder writes, which is read from `source`, as `target` says, to `outlets`, for a rendition that stands
/// at `standing`.
///
/// # Errors
///
/// `Input` if the encoder's bytes are refused, once all before that was given; `Read` and `Clock` if `source` or `clock` fails; `Memory`;
/// `Endless` after 2^64 - 1 reads or messages.
pub fn feed<R: Reader, C: Calendar, O: Outlets>(
    alloc: Global,
    target: &Target<'_>,
    standing: &Standing,
    source: &mut R,
    clock: &mut C,
    outlets: &mut O,
) -> Result<Fed, PushFault>
    ensures fed { (ahead : Ahead) (before : List MessageValue) → told_ahead (R.left source.old) (C.coming clock.old) ≡ Some ahead → O.given outlets.old ≡ Some before
        → IfOk result (HasFed (targeted target.now) (at_start (targeted target.now) standing.now) ahead before (O.given outlets.new)) }
    ensures refused { (ahead : Ahead) (before : List MessageValue) (fault : StreamFault) → told_ahead (R.left source.old) (C.coming clock.old) ≡ Some ahead → O.given outlets.old ≡ Some before
        → IsErrOf result (PushFault.Input fault) → HasGivenAll (targeted target.now) (at_start (targeted target.now) standing.now) ahead before (O.given outlets.new) (Some fault) }
    ensures endless { (ahead : Ahead) (before : List MessageValue) → told_ahead (R.left source.old) (C.coming clock.old) ≡ Some ahead → O.given outlets.old ≡ Some before
        → IsErrOf result PushFault.Endless
        → (R.reads source.old + most ≤ R.reads source.new) ⊎ HasGivenMost (targeted target.now) (at_start (targeted target.now) standing.now) ahead before (O.given outlets.new) }
    ensures read_failed { IsErrOf result PushFault.Read → R.failures source.old < R.failures source.new }
    ensures clock_failed { IsErrOf result PushFault.Clock → C.failures clock.old < C.failures clock.new }
    ensures steady { OnOk result ((R.failures source.new ≡ R.failures source.old) × (C.failures clock.new ≡ C.failures clock.old)) }
    ensures own { IfErr result IsOfSource }
{
    let mut publication = Publication::new(alloc, target, standing);
    feed_on(
        alloc,
        target,
        standing,
        &mut publication,
        source,
        clock,
        outlets,
    )
}

/// Does what [`feed`] does, with a `publication` of which nothing was given yet.
fn feed_on<R: Reader, C: Calendar, O: Outlets>(
    alloc: Global,
    target: &Target<'_>,
    standing: &Standing,
    publication: &mut Publication,
    source: &mut R,
    clock: &mut C,
    outlets: &mut O,
) -> Result<Fed, PushFault>
    requires { publication.old ≡ at_start (targeted target.now) standing.now }
    ensures fed { (ahead : Ahead) (before : List MessageValue) → told_ahead (R.left source.old) (C.coming clock.old) ≡ Some ahead → O.given outlets.old ≡ Some before
        → IfOk result (HasFed (targeted target.now) (at_start (targeted target.now) standing.now) ahead before (O.given outlets.new)) }
    ensures refused { (ahead : Ahead) (before : List MessageValue) (fault : StreamFault) → told_ahead (R.left source.old) (C.coming clock.old) ≡ Some ahead → O.given outlets.old ≡ Some before
        → IsErrOf result (PushFault.Input fault) → HasGivenAll (targeted target.now) (at_start (targeted target.now) standing.now) ahead before (O.given outlets.new) (Some fault) }
    ensures endless { (ahead : Ahead) (before : List MessageValue) → told_ahead (R.left source.old) (C.coming clock.old) ≡ Some ahead → O.given outlets.old ≡ Some before
        → IsErrOf result PushFault.Endless
        → (R.reads source.old + most ≤ R.reads source.new) ⊎ HasGivenMost (targeted target.now) (at_start (targeted target.now) standing.now) ahead before (O.given outlets.new) }
    ensures read_failed { IsErrOf result PushFault.Read → R.failures source.old < R.failures source.new }
    ensures clock_failed { IsErrOf result PushFault.Clock → C.failures clock.old < C.failures clock.new }
    ensures steady { OnOk result ((R.failures source.new ≡ R.failures source.old) × (C.failures clock.new ≡ C.failures clock.old)) }
    ensures own { IfErr result IsOfSource }
{
    for _ in 0..u64::MAX {
        let Some(message) = publication.message(alloc, target, source, clock)? else {
            return Ok(Fed::Whole);
        };
        if !outlets.give(message)? {
            return Ok(Fed::Left);
        }
    }
    Err(PushFault::Endless)
}
