//! Sends a question or a message on a connection, and reads its answer.
ghost use Rattle.std.specs.Prelude.{◌≡◌, IfErr, IfOk, IsErrOf, OnErr, false, true};
ghost use Rattle.std.specs.Io.KnownBytes.{Appends};
ghost use Rattle.ll_announce.specs.Meaning.{named};
ghost use Rattle.ll_announce.specs.Messages as messages;
ghost use Rattle.ll_device.specs.Written.{AppendsPrefix};
ghost use Rattle.ll_push.specs.Connecting.{AcceptsNothing, TellsUnasked};
ghost use Rattle.ll_push.specs.Exchanges.{IsLost, IsMisread, IsUnanswered, link_value};
ghost use Rattle.ll_push.specs.Next.{IsAskedSo, IsDelivered, IsOwn, IsSent};
ghost use Rattle.ll_push.specs.declared.fault.PushFault.{PushFault};

use crate::answer::{Answer, NoAnswer, read_answer};
use crate::fault::PushFault;
use ll_announce::{Message, Names, Standing, question};
use ll_attr::Text;
use ll_device::{Link, write_all};
use std::alloc::Global;

/// The result of sending a text.
#[derive(Drop)]
enum Sent {
    Answered(Answer),
    /// The connection was lost before it was sent, amid it, or before its answer.
    Lost,
}

/// The result of sending a message.
#[derive(Drop)]
pub enum Delivery {
    /// The origin accepted it.
    Accepted {
        /// Whether the origin says that it couldn't keep it on disk.
        unkept: bool,
    },
    /// The origin refused it with this line, which is without its end.
    Refused(Text),
    /// The connection was lost before it was sent, amid it, or before its answer.
    Lost,
}

/// The result of asking where the rendition stands.
#[derive(Drop)]
pub enum StandingAnswer {
    /// Where it stands.
    Standing(Standing),
    /// The origin refused it with this line, which is without its end.
    Refused(Text),
    /// The connection was lost before it was sent, amid it, or before its answer.
    Lost,
}

/// Asks on `link` where the rendition stands that `names` names.
///
/// # Errors
///
/// `BadAnswer` if what came isn't an answer to that; `Memory`.
pub fn ask<P: Link>(
    alloc: Global,
    names: &Names<'_>,
    link: &mut P,
) -> Result<StandingAnswer, PushFault>
    ensures asked { IfOk result (IsAskedSo (messages.question (named names.now)) (link_value P.written P.inward P.failures link.old) (link_value P.written P.inward P.failures link.new)) }
    ensures own { IfErr result IsOwn }
    ensures unanswered { IsErrOf result PushFault.BadAnswer
        → IsUnanswered AcceptsNothing (messages.question (named names.now)) (link_value P.written P.inward P.failures link.old) (link_value P.written P.inward P.failures link.new) }
    ensures cut { OnErr result (AppendsPrefix (P.written link.old) (P.written link.new) (messages.question (named names.now))) }
{
    let text = question(alloc, names)?;
    match exchange(alloc, link, &text)? {
        Sent::Answered(Answer::Standing(standing)) => Ok(StandingAnswer::Standing(standing)),
        Sent::Answered(Answer::Refused(line)) => Ok(StandingAnswer::Refused(line)),
        Sent::Answered(Answer::Accepted { .. }) => Err(PushFault::BadAnswer),
        Sent::Lost => Ok(StandingAnswer::Lost),
    }
}

/// Sends `message` on `link`, and reads its answer.
///
/// # Errors
///
/// `BadAnswer` if what came isn't an answer to that; `Memory`.
pub fn deliver<P: Link>(
    alloc: Global,
    link: &mut P,
    message: &Message,
) -> Result<Delivery, PushFault>
    ensures said { IfOk result (IsDelivered message.now.bytes (link_value P.written P.inward P.failures link.old) (link_value P.written P.inward P.failures link.new)) }
    ensures own { IfErr result IsOwn }
    ensures unanswered { IsErrOf result PushFault.BadAnswer
        → IsUnanswered TellsUnasked message.now.bytes (link_value P.written P.inward P.failures link.old) (link_value P.written P.inward P.failures link.new) }
    ensures cut { OnErr result (AppendsPrefix (P.written link.old) (P.written link.new) message.now.bytes) }
{
    match exchange(alloc, link, message.bytes())? {
        Sent::Answered(Answer::Accepted { unkept }) => Ok(Delivery::Accepted { unkept }),
        Sent::Answered(Answer::Refused(line)) => Ok(Delivery::Refused(line)),
        Sent::Answered(Answer::Standing(_)) => Err(PushFault::BadAnswer),
        Sent::Lost => Ok(Delivery::Lost),
    }
}

/// Sends `text`, unless the peer has hung up, and reads its answer.
fn exchange<P: Link>(alloc: Global, link: &mut P, text: &[u8]) -> Result<Sent, PushFault>
    ensures sent { IfOk result (IsSent (link_value P.written P.inward P.failures link.old) (link_value P.written P.inward P.failures link.new) text.now) }
    ensures own { IfErr result IsOwn }
    ensures misread { IsErrOf result PushFault.BadAnswer → IsMisread text.now (link_value P.written P.inward P.failures link.old) (link_value P.written P.inward P.failures link.new) }
    ensures cut { OnErr result (AppendsPrefix (P.written link.old) (P.written link.new) text.now) }
{
    if !send(link, text) {
        return Ok(Sent::Lost);
    }
    match read_answer(alloc, link) {
        Ok(answer) => Ok(Sent::Answered(answer)),
        Err(NoAnswer::Lost) => Ok(Sent::Lost),
        Err(NoAnswer::Bad) => Err(PushFault::BadAnswer),
        Err(NoAnswer::Memory) => Err(PushFault::Memory),
    }
}

/// Sends `text`, unless the peer has hung up, and returns whether all of it was sent.
fn send<P: Link>(link: &mut P, text: &[u8]) -> bool
    ensures sent { result ≡ true → Appends (P.written link.old) (P.written link.new) text.now }
    ensures unread { result ≡ true → P.inward link.new ≡ P.inward link.old }
    ensures steady { result ≡ true → P.failures link.new ≡ P.failures link.old }
    ensures lost { result ≡ false → IsLost text.now (link_value P.written P.inward P.failures link.old) (link_value P.written P.inward P.failures link.new) }
{
    if link.gone() {
        return false;
    }
    write_all(link, text).is_ok()
}
