//! Publishes an encoder's bytes on one connection, as far as that goes.
ghost use Rattle.std.specs.Prelude.{◌≡◌, ◌≢◌, ◌⊎◌, ◌+◌, ◌<◌, ◌≤◌, ℕ, List, Option, Some, None, IfErr, IfOk, IsErrOf, MatchOption, OnErr, OnOk, false, true};
ghost use Rattle.ll_device.specs.Written.{AppendsPrefix};
ghost use Rattle.ll_mp4.specs.declared.fault.StreamFault.{StreamFault};
ghost use Rattle.ll_parts.specs.Stream.{advanced_cutter};
ghost use Rattle.ll_push.specs.Answers.{StepsByAnswer};
ghost use Rattle.ll_push.specs.Connecting.{HasFailed, IsElsewhere, IsResumed};
ghost use Rattle.ll_push.specs.Exchanges.{AreExchanged, link_value, text_of};
ghost use Rattle.ll_push.specs.Faults.{IsOfBytes, IsOfSource, most};
ghost use Rattle.ll_push.specs.Meaning.{targeted};
ghost use Rattle.ll_push.specs.Next.{IsAnnounced, IsFed, IsFront, IsLast, IsNothing, IsPieceFault, IsReadily, IsTaken, IsUnitFault};
ghost use Rattle.ll_push.specs.Publishing.{Ahead, HasSent, IsStep, at_start, fault_to_come, messages_to_come, told_ahead};
ghost use Rattle.ll_push.specs.declared.fault.PushFault.{PushFault};

use crate::calendar::Calendar;
use crate::connection::{Delivery, deliver};
use crate::fault::PushFault;
use crate::target::Target;
use crate::watch::Watch;
use ll_announce::{Course, Message, Messages, Place, Standing};
use ll_attr::Text;
use ll_device::{Link, Reader};
use ll_parts::{Cutter, Piece};
use std::alloc::{AllocError, Global};

/// The most bytes of an encoder that one read takes.
const PIECE: usize = 65_536;

/// The part of an encoder's output that the origin isn't known to have.
#[derive(Drop)]
pub struct Publication {
    /// The place of the rendition's next part after all that the origin is known to have accepted.
    pub(crate) place: Place,
    /// The course of the rendition after the messages in `kept`.
    pub(crate) course: Course,
    /// The messages that were made already, and that the origin isn't known to have accepted.
    pub(crate) kept: Messages,
    pub(crate) cutter: Cutter,
    /// Whether the rendition's end is still to be sent after the last piece.
    pub(crate) ends: bool,
}

/// How far publishing went on a connection.
#[derive(Drop)]
pub(crate) enum Step {
    /// The origin has accepted everything.
    Whole,
    /// The origin refused what was sent last, with this line, which is without its end.
    Refused(Text),
    /// The connection was lost.
    Gone {
        /// Whether the origin accepted any message on it.
        accepted: bool,
    },
}

impl Publication {
    /// Returns the publication of a stream of which nothing was read yet, in a rendition that stands at `standing`.
    pub fn new(alloc: Global, target: &Target<'_>, standing: &Standing) -> Publication
        ensures { result ≡ at_start (targeted target.now) standing.now }
    {
        Publication {
            place: standing.place,
            course: Course::of(standing),
            kept: Messages::new(alloc),
            cutter: Cutter::new(alloc, target.lengths, standing.place.end),
            ends: target.ends,
        }
    }

    /// Goes on at `place`, where the rendition's next part stands: if the first message that is kept leads there, it was accepted, though
    /// its answer didn't come. Returns `None` if nothing that was sent leads there.
    pub(crate) fn resume(mut self, place: Place) -> Option<Publication>
        ensures { MatchOption result (IsElsewhere self place) (IsResumed self place) }
    {
        if is_same(self.place, place) {
            return Some(self);
        }
        let message = self.kept.pop()?;
        if !is_same(self.place.after(message.said()), place) {
            return None;
        }
        self.place = place;
        Some(self)
    }

    /// Sends message after message and reads the answers, until everything is published, the origin refuses one, or the connection is lost.
    pub(crate) fn publish<R: Reader, C: Calendar, P: Link, W: Watch>(
        &mut self,
        alloc: Global,
        target: &Target<'_>,
        source: &mut R,
        clock: &mut C,
        link: &mut P,
        watch: &mut W,
    ) -> Result<Step, PushFault>
        ensures step { (ahead : Ahead) → told_ahead (R.left source.old) (C.coming clock.old) ≡ Some ahead
            → IfOk result (IsStep (targeted target.now) self.old ahead (link_value P.written P.inward P.failures link.old) self.new (told_ahead (R.left source.new) (C.coming clock.new)) (link_value P.written P.inward P.failures link.new)) }
        ensures cut { (ahead : Ahead) → told_ahead (R.left source.old) (C.coming clock.old) ≡ Some ahead
            → OnErr result (AppendsPrefix (P.written link.old) (P.written link.new) (text_of (messages_to_come (targeted target.now) self.old ahead))) }
        ensures refused { (ahead : Ahead) (fault : StreamFault) → told_ahead (R.left source.old) (C.coming clock.old) ≡ Some ahead → IsErrOf result (PushFault.Input fault)
            → AreExchanged (messages_to_come (targeted target.now) self.old ahead) (link_value P.written P.inward P.failures link.old) (link_value P.written P.inward P.failures link.new) × (fault_to_come self.old ahead ≡ Some fault) }
        ensures unanswered { (ahead : Ahead) → told_ahead (R.left source.old) (C.coming clock.old) ≡ Some ahead → IsErrOf result PushFault.BadAnswer
            → HasFailed (targeted target.now) self.old ahead (link_value P.written P.inward P.failures link.old) (link_value P.written P.inward P.failures link.new) }
        ensures endless { (ahead : Ahead) → told_ahead (R.left source.old) (C.coming clock.old) ≡ Some ahead → IsErrOf result PushFault.Endless
            → (R.reads source.old + most ≤ R.reads source.new) ⊎ HasSent most (targeted target.now) self.old ahead (link_value P.written P.inward P.failures link.old) (link_value P.written P.inward P.failures link.new) }
        ensures read_failed { IsErrOf result PushFault.Read → R.failures source.old < R.failures source.new }
        ensures clock_failed { IsErrOf result PushFault.Clock → C.failures clock.old < C.failures clock.new }
        ensures steady { OnOk result ((R.failures source.new ≡ R.failures source.old) × (C.failures clock.new ≡ C.failures clock.old)) }
        ensures later { R.reads source.old ≤ R.reads source.new }
        ensures told { IfOk result StepsByAnswer }
        ensures own { IfErr result (λ fault. (fault ≢ PushFault.Connect) × (fault ≢ PushFault.Elsewhere)) }
    {
        let mut accepted = false;
        for _ in 0..u64::MAX {
            let Some(message) = self.message(alloc, target, source, clock)? else {
                return Ok(Step::Whole);
            };
            let unkept = match deliver(alloc, link, &message)? {
                Delivery::Accepted { unkept } => unkept,
                Delivery::Refused(line) => return Ok(Step::Refused(line)),
                Delivery::Lost => {
                    self.kept.put_back(message)?;
                    return Ok(Step::Gone { accepted });
                }
            };
            if unkept {
                watch.not_kept();
            }
            self.place = self.place.after(message.said());
            watch.accepted(message.said(), message.bytes().len());
            accepted = true;
        }
        Err(PushFault::Endless)
    }

    /// Takes the next message: the first that is kept; else the first of the encoder's next piece; after the last piece the rendition's end,
    /// if that is to be sent. Returns `None` if none is left.
    ///
    /// # Errors
    ///
    /// `Input` if the encoder's bytes are refused there; `Read` and `Clock` if `source` or `clock` fails; `Memory`; `Endless` after 2^64 - 1
    /// reads.
    pub fn message<R: Reader, C: Calendar>(
        &mut self,
        alloc: Global,
        target: &Target<'_>,
        source: &mut R,
        clock: &mut C,
    ) -> Result<Option<Message>, PushFault>
        ensures next { (ahead : Ahead) → told_ahead (R.left source.old) (C.coming clock.old) ≡ Some ahead
            → IfOk result (IsTaken (targeted target.now) self.old ahead self.new (told_ahead (R.left source.new) (C.coming clock.new))) }
        ensures refused { (ahead : Ahead) (fault : StreamFault) → told_ahead (R.left source.old) (C.coming clock.old) ≡ Some ahead → IsErrOf result (PushFault.Input fault)
            → IsNothing (targeted target.now) self.old ahead (Some fault) }
        ensures read_failed { IsErrOf result PushFault.Read → R.failures source.old < R.failures source.new }
        ensures clock_failed { IsErrOf result PushFault.Clock → C.failures clock.old < C.failures clock.new }
        ensures steady { OnOk result ((R.failures source.new ≡ R.failures source.old) × (C.failures clock.new ≡ C.failures clock.old)) }
        ensures own { IfErr result IsOfSource }
        ensures endless { IsErrOf result PushFault.Endless → R.reads source.old + most ≤ R.reads source.new }
        ensures later { R.reads source.old ≤ R.reads source.new }
    {
        let mut piece = [0; PIECE];
        for _ in 0..u64::MAX {
            if let Some(message) = self.ready(alloc, target, clock)? {
                return Ok(Some(message));
            }
            if self.cutter.is_over() {
                return Ok(self.last(alloc, target)?);
            }
            read_more(source, &mut piece, &mut self.cutter)?;
        }
        Err(PushFault::Endless)
    }

    /// Takes the next message, or returns `None` if more of the encoder's bytes are needed for it.
    fn ready<C: Calendar>(
        &mut self,
        alloc: Global,
        target: &Target<'_>,
        clock: &mut C,
    ) -> Result<Option<Message>, PushFault>
        ensures next { (left : Option (List ℕ)) (ahead : Ahead) → told_ahead left (C.coming clock.old) ≡ Some ahead
            → IfOk result (IsReadily (targeted target.now) self.old ahead self.new (told_ahead left (C.coming clock.new))) }
        ensures refused { (ahead : Ahead) (fault : StreamFault) → IsErrOf result (PushFault.Input fault) → IsNothing (targeted target.now) self.old ahead (Some fault) }
        ensures clock_failed { IsErrOf result PushFault.Clock → C.failures clock.old < C.failures clock.new }
        ensures steady { OnOk result (C.failures clock.new ≡ C.failures clock.old) }
        ensures own { IfErr result IsOfBytes }
    {
        if let Some(message) = self.kept.pop() {
            return Ok(Some(message));
        }
        let Some(piece) = front_piece(&mut self.cutter)? else {
            return Ok(None);
        };
        self.announce(alloc, target, clock, &piece)?;
        let Some(message) = self.kept.pop() else {
            unreachable!()
        };
        Ok(Some(message))
    }

    /// Adds the messages of `piece` to those that are kept. Reads the clock if a movie begins.
    fn announce<C: Calendar>(
        &mut self,
        alloc: Global,
        target: &Target<'_>,
        clock: &mut C,
        piece: &Piece,
    ) -> Result<(), PushFault>
        ensures said { IfOk result (λ _. IsAnnounced (targeted target.now) piece.now self.old (C.coming clock.old) self.new (C.coming clock.new)) }
        ensures faults { IfErr result (λ fault. fault ≢ PushFault.Memory → (fault ≡ PushFault.Clock) × (C.failures clock.old < C.failures clock.new)) }
        ensures steady { OnOk result (C.failures clock.new ≡ C.failures clock.old) }
    {
        let now = match piece {
            Piece::Begin(_) => match clock.now() {
                Ok(now) => now,
                Err(_) => return Err(PushFault::Clock),
            },
            _ => 0,
        };
        let part = target.lengths.part;
        self.course
            .announce(alloc, &target.names, part, now, piece, &mut self.kept)?;
        Ok(())
    }

    /// Takes the message that ends the rendition, or returns `None` if it isn't to be sent.
    fn last(&mut self, alloc: Global, target: &Target<'_>) -> Result<Option<Message>, AllocError>
        ensures { IfOk result (λ last. IsLast (targeted target.now) self.old self.new last) }
    {
        if !self.ends {
            return Ok(None);
        }
        let message = Message::end(alloc, &target.names)?;
        self.ends = false;
        Ok(Some(message))
    }
}

/// Returns whether two places are the same.
fn is_same(place: Place, other: Place) -> bool
    ensures same { result ≡ true → place ≡ other }
    ensures apart { result ≡ false → place ≢ other }
{
    place == other
}

/// Takes the first piece, or returns `None` if not all of it was read.
fn front_piece(cutter: &mut Cutter) -> Result<Option<Piece>, PushFault>
    ensures piece { IfOk result (IsFront cutter.old cutter.new) }
    ensures fault { IfErr result (IsPieceFault cutter.old) }
{
    loop {
        if let Some(piece) = cutter.pop() {
            return Ok(Some(piece));
        }
        if !take_unit(cutter)? {
            return Ok(None);
        }
    }
}

/// Takes one more unit of the bytes that were read, and returns whether there was one.
fn take_unit(cutter: &mut Cutter) -> Result<bool, PushFault>
    ensures taken { IfOk result (λ taken. (taken, cutter.new) ≡ advanced_cutter cutter.old) }
    ensures going { OnOk result (cutter.old.progress.fault ≡ None) }
    ensures fault { IfErr result (IsUnitFault cutter.old) }
{
    if let Some(fault) = cutter.fault() {
        return Err(fault.into());
    }
    Ok(cutter.advance()?)
}

/// Reads once, with the room of `piece`, and passes `cutter` the bytes that came, or the end.
fn read_more<R: Reader>(
    source: &mut R,
    piece: &mut [u8; PIECE],
    cutter: &mut Cutter,
) -> Result<(), PushFault>
    ensures once { R.reads source.new ≡ R.reads source.old + 1 }
    ensures fed { OnOk result (IsFed cutter.old (R.left source.old) cutter.new (R.left source.new)) }
    ensures faults { IfErr result (λ fault. fault ≢ PushFault.Memory → (fault ≡ PushFault.Read) × (R.failures source.old < R.failures source.new)) }
    ensures steady { OnOk result (R.failures source.new ≡ R.failures source.old) }
{
    let Ok(count) = source.read(piece) else {
        return Err(PushFault::Read);
    };
    if count == 0 {
        cutter.close()?;
        return Ok(());
    }
    cutter.feed(&piece[..count])?;
    Ok(())
}
