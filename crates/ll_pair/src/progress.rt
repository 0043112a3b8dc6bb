//! How far an origin is known to be, and one connection on which it gets messages.
ghost use Rattle.std.specs.Prelude.{◌≡◌, ◌≢◌, List, Some, IfErr, IfOk, IsErrOf, false, true};
ghost use Rattle.ll_announce.specs.Meaning.{named};
ghost use Rattle.ll_announce.specs.Messages.{MessageValue};
ghost use Rattle.ll_pair.specs.Carrying.{HasFailed, HasSentMost, IsBroken, IsConnection, IsConnectionFault, IsEndless, IsResumption, IsStep, TakesSteps};
ghost use Rattle.ll_push.specs.Exchanges.{link_value};
ghost use Rattle.ll_push.specs.declared.fault.PushFault.{PushFault};

use crate::coming::{Coming, First};
use ll_announce::{Names, Place};
use ll_attr::Text;
use ll_device::Link;
use ll_push::{Delivery, PushFault, StandingAnswer, Watch, ask, deliver};
use std::alloc::Global;

/// How far an origin is known to be.
#[derive(Clone, Copy)]
pub struct Progress {
    /// The place of the rendition's next part after all that the origin is known to have accepted.
    pub place: Place,
    /// Whether the first message after that was sent already, or a beginning of it, and its answer didn't come.
    pub tried: bool,
}

/// How far a connection went.
#[derive(Drop)]
pub(crate) enum Step {
    /// The origin has accepted everything.
    Whole,
    /// The origin refused what was sent last, with this line, which is without its end.
    Refused(Text),
    /// The origin is left.
    Left,
    /// The connection was lost.
    Gone {
        /// Whether the origin accepted any message on it.
        accepted: bool,
    },
}

/// Where an origin's messages go on.
#[derive(Clone, Copy)]
pub(crate) enum Resumed {
    /// With the first that the origin doesn't have.
    On,
    /// Nowhere: the rendition stands where none of them leads.
    Elsewhere,
    /// Nowhere: the origin is left.
    Left,
}

impl Progress {
    /// Brings the messages that come to the origin on one connection: asks where the rendition stands, and goes on there.
    ///
    /// # Errors
    ///
    /// `Elsewhere` if the rendition stands where none of them leads; `BadAnswer` if what came isn't an answer to what was sent; `Memory`;
    /// `Endless` after 2^64 - 1 messages.
    pub(crate) fn carry_on<M: Coming, P: Link, W: Watch>(
        &mut self,
        alloc: Global,
        names: &Names<'_>,
        coming: &mut M,
        link: &mut P,
        watch: &mut W,
    ) -> Result<Step, PushFault>
        ensures went { (messages : List MessageValue) → M.coming coming.old ≡ Some messages
            → IfOk result (IsConnection (named names.now) self.old messages (link_value P.written P.inward P.failures link.old) self.new (M.coming coming.new) (link_value P.written P.inward P.failures link.new)) }
        ensures broke { (messages : List MessageValue) (fault : PushFault) → M.coming coming.old ≡ Some messages → IsErrOf result fault → IsConnectionFault fault
            → IsBroken (named names.now) self.old messages (link_value P.written P.inward P.failures link.old) (link_value P.written P.inward P.failures link.new) fault }
        ensures endless { (messages : List MessageValue) → M.coming coming.old ≡ Some messages → IsErrOf result PushFault.Endless
            → IsEndless (named names.now) self.old messages (link_value P.written P.inward P.failures link.old) (link_value P.written P.inward P.failures link.new) }
        ensures told { IfOk result TakesSteps }
        ensures connected { IfErr result (λ fault. fault ≢ PushFault.Connect) }
    {
        let standing = match ask(alloc, names, link)? {
            StandingAnswer::Standing(standing) => standing,
            StandingAnswer::Refused(line) => return Ok(Step::Refused(line)),
            StandingAnswer::Lost => return Ok(Step::Gone { accepted: false }),
        };
        match self.resume(standing.place, coming)? {
            Resumed::On => {}
            Resumed::Elsewhere => return Err(PushFault::Elsewhere),
            Resumed::Left => return Ok(Step::Left),
        }
        watch.stands(&standing);
        let step = self.send_on(alloc, coming, link, watch)?;
        Ok(step)
    }

    /// Goes on at `place`, where the rendition's next part stands: if the first message leads there and was sent already, it was accepted,
    /// though its answer didn't come.
    fn resume<M: Coming>(&mut self, place: Place, coming: &mut M) -> Result<Resumed, PushFault>
        ensures resumed { (messages : List MessageValue) → M.coming coming.old ≡ Some messages → IfOk result (IsResumption self.old place messages self.new (M.coming coming.new)) }
        ensures memory { IfErr result (λ fault. fault ≡ PushFault.Memory) }
    {
        if is_same(self.place, place) {
            return Ok(Resumed::On);
        }
        if !self.tried {
            return Ok(Resumed::Elsewhere);
        }
        let message = match coming.first()? {
            First::Message(message) => message,
            First::End => return Ok(Resumed::Elsewhere),
            First::Left => return Ok(Resumed::Left),
        };
        let after = self.place.after(message.message().said());
        if !is_same(after, place) {
            return Ok(Resumed::Elsewhere);
        }
        coming.let_go();
        self.place = after;
        self.tried = false;
        Ok(Resumed::On)
    }

    /// Sends message after message and reads the answers, until no more come, the origin refuses one or is left, or the connection is lost.
    fn send_on<M: Coming, P: Link, W: Watch>(
        &mut self,
        alloc: Global,
        coming: &mut M,
        link: &mut P,
        watch: &mut W,
    ) -> Result<Step, PushFault>
        ensures step { (messages : List MessageValue) → M.coming coming.old ≡ Some messages
            → IfOk result (IsStep self.old messages (link_value P.written P.inward P.failures link.old) self.new (M.coming coming.new) (link_value P.written P.inward P.failures link.new)) }
        ensures unanswered { (messages : List MessageValue) → M.coming coming.old ≡ Some messages → IsErrOf result PushFault.BadAnswer
            → HasFailed messages (link_value P.written P.inward P.failures link.old) (link_value P.written P.inward P.failures link.new) }
        ensures endless { (messages : List MessageValue) → M.coming coming.old ≡ Some messages → IsErrOf result PushFault.Endless
            → HasSentMost messages (link_value P.written P.inward P.failures link.old) (link_value P.written P.inward P.failures link.new) }
        ensures told { IfOk result TakesSteps }
        ensures own { IfErr result (λ fault. (fault ≢ PushFault.Connect) × (fault ≢ PushFault.Elsewhere)) }
    {
        let mut accepted = false;
        for _ in 0..u64::MAX {
            let message = match coming.first()? {
                First::Message(message) => message,
                First::End => return Ok(Step::Whole),
                First::Left => return Ok(Step::Left),
            };
            let message = message.message();
            let unkept = match deliver(alloc, link, message)? {
                Delivery::Accepted { unkept } => unkept,
                Delivery::Refused(line) => return Ok(Step::Refused(line)),
                Delivery::Lost => {
                    self.tried = true;
                    return Ok(Step::Gone { accepted });
                }
            };
            if unkept {
                watch.not_kept();
            }
            coming.let_go();
            self.place = self.place.after(message.said());
            self.tried = false;
            watch.accepted(message.said(), message.bytes().len());
            accepted = true;
        }
        Err(PushFault::Endless)
    }
}

/// Returns whether two places are the same.
fn is_same(place: Place, other: Place) -> bool
    ensures same { result ≡ true → place ≡ other }
    ensures apart { result ≡ false → place ≢ other }
{
    place == other
}
