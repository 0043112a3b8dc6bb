//! Brings the messages that come for an origin to it, on as many connections as that takes.
ghost use Rattle.std.specs.Prelude.{◌≡◌, ◌<◌, List, Some, IfOk, IsErrOf};
ghost use Rattle.ll_announce.specs.Meaning.{named};
ghost use Rattle.ll_announce.specs.Messages.{MessageValue};
ghost use Rattle.ll_pair.specs.Carrying.{IsConnectionFault};
ghost use Rattle.ll_pair.specs.History as spec;
ghost use Rattle.ll_pair.specs.History.{EndsByAnswer, HasBroken, HasEnded, HasGivenUp, HasLasted, step_of};
ghost use Rattle.ll_push.specs.Exchanges.{link_value};
ghost use Rattle.ll_push.specs.Faults.{most};
ghost use Rattle.ll_push.specs.History.{idle_after};
ghost use Rattle.ll_push.specs.declared.fault.PushFault.{PushFault};

use crate::coming::Coming;
use crate::progress::{Progress, Step};
use ll_announce::{Names, Place};
use ll_attr::Text;
use ll_device::Source;
use ll_push::{PushFault, Watch};
use std::alloc::Global;

/// How bringing messages to an origin ended.
#[derive(Drop)]
pub enum Carried {
    /// The origin has accepted everything.
    Whole,
    /// The origin refused what was sent last, with this line, which is without its end.
    Refused(Text),
    /// The origin is left.
    Left,
}

/// Brings the messages that come for an origin to it, on the connections of `origin`. Asks on each one first where the rendition stands,
/// which is `place` at first, and goes on with the first message that the origin doesn't have. If a connection is lost, takes the next one,
/// until `origin` has no more or more than `tries` in a row had nothing accepted.
///
/// # Errors
///
/// `Connect` if no connection is left, or too many in a row had nothing accepted; `Elsewhere` if the rendition stands where none of the
/// messages leads; `BadAnswer` if what came isn't an answer to what was sent; `Memory`; `Endless` after 2^64 - 1 messages or connections.
pub fn carry<S: Source, M: Coming, W: Watch>(
    alloc: Global,
    names: &Names<'_>,
    place: Place,
    tries: u64,
    coming: &mut M,
    origin: &mut S,
    watch: &mut W,
) -> Result<Carried, PushFault>
    ensures told { IfOk result EndsByAnswer }
    ensures went { (messages : List MessageValue) → M.coming coming.old ≡ Some messages
        → IfOk result (λ ending. HasEnded (spec.task S.next_gives (link_value S.Peer.written S.Peer.inward S.Peer.failures) tries (named names.now) place messages origin.old) (M.coming coming.new) origin.new (step_of ending)) }
    ensures gave_up { (messages : List MessageValue) → M.coming coming.old ≡ Some messages → IsErrOf result PushFault.Connect
        → HasGivenUp (spec.task S.next_gives (link_value S.Peer.written S.Peer.inward S.Peer.failures) tries (named names.now) place messages origin.old) (M.coming coming.new) origin.new }
    ensures broke { (messages : List MessageValue) (fault : PushFault) → M.coming coming.old ≡ Some messages → IsErrOf result fault → IsConnectionFault fault
        → HasBroken (spec.task S.next_gives (link_value S.Peer.written S.Peer.inward S.Peer.failures) tries (named names.now) place messages origin.old) origin.new fault }
    ensures endless { (messages : List MessageValue) → M.coming coming.old ≡ Some messages → IsErrOf result PushFault.Endless
        → HasLasted (spec.task S.next_gives (link_value S.Peer.written S.Peer.inward S.Peer.failures) tries (named names.now) place messages origin.old) origin.new }
{
    let mut progress = Progress {
        place,
        tried: false,
    };
    let mut idle = 0;
    for _ in 0..u64::MAX {
        let Some(mut link) = origin.next() else {
            return Err(PushFault::Connect);
        };
        let step = progress.carry_on(alloc, names, coming, &mut link, watch);
        drop(link);
        match step {
            Ok(Step::Whole) => return Ok(Carried::Whole),
            Ok(Step::Refused(line)) => return Ok(Carried::Refused(line)),
            Ok(Step::Left) => return Ok(Carried::Left),
            Ok(Step::Gone { accepted }) => idle = after_one_more(accepted, idle),
            Err(fault) => return Err(fault),
        }
        if idle > tries {
            return Err(PushFault::Connect);
        }
        watch.lost();
    }
    Err(PushFault::Endless)
}

/// Returns how many connections in a row had nothing accepted: `idle` before the last one, which had something if `accepted`.
fn after_one_more(accepted: bool, idle: u64) -> u64
    requires { idle < most }
    ensures { result ≡ idle_after accepted idle }
{
    if accepted { 0 } else { idle + 1 }
}
