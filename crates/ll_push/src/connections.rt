//! Publishes an encoder's bytes on as many connections as it takes.
ghost use Rattle.std.specs.Prelude.{◌≡◌, ◌≢◌, ◌⊎◌, ◌+◌, ◌<◌, ◌≤◌, ℕ, None, Some, IfErr, IfOk, IsErrOf, MatchResult, OnOk};
ghost use Rattle.ll_push.specs.Answers.{EndsByAnswer, StepsByAnswer};
ghost use Rattle.ll_push.specs.Connecting.{HasMoved, IsBroken, IsConnection, IsEndless, IsPlaced, IsPlacedSo};
ghost use Rattle.ll_push.specs.Exchanges.{link_value};
ghost use Rattle.ll_push.specs.Faults.{IsOfConnection, most};
ghost use Rattle.ll_push.specs.History as spec;
ghost use Rattle.ll_push.specs.History.{HasBroken, HasEnded, HasGivenUp, HasLasted, step_of};
ghost use Rattle.ll_push.specs.Meaning.{targeted};
ghost use Rattle.ll_push.specs.Publishing.{Ahead, told_ahead};
ghost use Rattle.ll_push.specs.declared.fault.PushFault.{PushFault};

use crate::calendar::Calendar;
use crate::connection::{StandingAnswer, ask};
use crate::fault::PushFault;
use crate::publication::{Publication, Step};
use crate::target::Target;
use crate::watch::Watch;
use ll_announce::Standing;
use ll_attr::Text;
use ll_device::{Link, Reader, Source};
use std::alloc::Global;
use std::marker::Model;

/// How publishing ended.
#[derive(Drop)]
pub enum Ending {
    /// The origin has accepted everything.
    Whole,
    /// The origin refused what was sent last, with this line, which is without its end.
    Refused(Text),
}

/// Publishes what an encoder writes, which is read from `source`, as `target` says, on the connections of `origin`. Asks on each one first
/// where the rendition stands: on the first connection publishing begins there, on each later one it goes on there. If a connection is
/// lost, takes the next one, until `origin` has no more or more than `tries` in a row had nothing accepted.
///
/// # Errors
///
/// `Input` if the encoder's bytes are refused, once all before that was accepted; `Read` and `Clock` if `source` or `clock` fails; `Connect`
/// if no connection is left, or too many in a row had nothing accepted; `Elsewhere` if the rendition stands where nothing that was sent
/// leads; `BadAnswer` if what came isn't an answer to what was sent; `Memory`; `Endless` after 2^64 - 1 reads, messages or connections.
pub fn push<R: Reader, C: Calendar, S: Source, W: Watch>(
    alloc: Global,
    target: &Target<'_>,
    tries: u64,
    source: &mut R,
    clock: &mut C,
    origin: &mut S,
    watch: &mut W,
) -> Result<Ending, PushFault>
    ensures told { IfOk result EndsByAnswer }
    ensures went { (ahead : Ahead) → told_ahead (R.left source.old) (C.coming clock.old) ≡ Some ahead
        → IfOk result (λ ending. HasEnded (spec.task S.next_gives (link_value S.Peer.written S.Peer.inward S.Peer.failures) tries (targeted target.now) ahead origin.old) (told_ahead (R.left source.new) (C.coming clock.new)) origin.new (step_of ending)) }
    ensures gave_up { (ahead : Ahead) → told_ahead (R.left source.old) (C.coming clock.old) ≡ Some ahead → IsErrOf result PushFault.Connect
        → HasGivenUp (spec.task S.next_gives (link_value S.Peer.written S.Peer.inward S.Peer.failures) tries (targeted target.now) ahead origin.old) (told_ahead (R.left source.new) (C.coming clock.new)) origin.new }
    ensures broke { (ahead : Ahead) (fault : PushFault) → told_ahead (R.left source.old) (C.coming clock.old) ≡ Some ahead → IsErrOf result fault → IsOfConnection fault
        → HasBroken (spec.task S.next_gives (link_value S.Peer.written S.Peer.inward S.Peer.failures) tries (targeted target.now) ahead origin.old) origin.new fault }
    ensures endless { (ahead : Ahead) → told_ahead (R.left source.old) (C.coming clock.old) ≡ Some ahead → IsErrOf result PushFault.Endless
        → (R.reads source.old + most ≤ R.reads source.new)
        ⊎ HasLasted (spec.task S.next_gives (link_value S.Peer.written S.Peer.inward S.Peer.failures) tries (targeted target.now) ahead origin.old) origin.new }
    ensures read_failed { IsErrOf result PushFault.Read → R.failures source.old < R.failures source.new }
    ensures clock_failed { IsErrOf result PushFault.Clock → C.failures clock.old < C.failures clock.new }
    ensures steady { OnOk result ((R.failures source.new ≡ R.failures source.old) × (C.failures clock.new ≡ C.failures clock.old)) }
{
    let mut publisher = Publisher { publication: None };
    publisher.publish_at(alloc, target, tries, source, clock, origin, watch)
}

/// Returns how many connections in a row had nothing accepted: `idle` before the last one, which had something if `accepted`.
fn idle_after(accepted: bool, idle: u64) -> u64
    requires { idle < most }
    ensures { result ≡ spec.idle_after accepted idle }
{
    if accepted { 0 } else { idle + 1 }
}

/// The publication, once a rendition's standing is known.
#[derive(Drop)]
struct Publisher {
    publication: Option<Publication>,
}

impl Model for Publisher {
    ghost use Rattle.std.specs.Prelude.{Option};
    ghost use Rattle.ll_push.specs.declared.publication.Publication.{Publication};

    ghost Value = { Option Publication };

    ghost view = { λ p. p.publication };
}

impl Publisher {
    /// Does what [`push`] does.
    fn publish_at<R: Reader, C: Calendar, S: Source, W: Watch>(
        &mut self,
        alloc: Global,
        target: &Target<'_>,
        tries: u64,
        source: &mut R,
        clock: &mut C,
        origin: &mut S,
        watch: &mut W,
    ) -> Result<Ending, PushFault>
        requires { self.old ≡ None }
        ensures told { IfOk result EndsByAnswer }
        ensures went { (ahead : Ahead) → told_ahead (R.left source.old) (C.coming clock.old) ≡ Some ahead
            → IfOk result (λ ending. HasEnded (spec.task S.next_gives (link_value S.Peer.written S.Peer.inward S.Peer.failures) tries (targeted target.now) ahead origin.old) (told_ahead (R.left source.new) (C.coming clock.new)) origin.new (step_of ending)) }
        ensures gave_up { (ahead : Ahead) → told_ahead (R.left source.old) (C.coming clock.old) ≡ Some ahead → IsErrOf result PushFault.Connect
            → HasGivenUp (spec.task S.next_gives (link_value S.Peer.written S.Peer.inward S.Peer.failures) tries (targeted target.now) ahead origin.old) (told_ahead (R.left source.new) (C.coming clock.new)) origin.new }
        ensures broke { (ahead : Ahead) (fault : PushFault) → told_ahead (R.left source.old) (C.coming clock.old) ≡ Some ahead → IsErrOf result fault → IsOfConnection fault
            → HasBroken (spec.task S.next_gives (link_value S.Peer.written S.Peer.inward S.Peer.failures) tries (targeted target.now) ahead origin.old) origin.new fault }
        ensures endless { (ahead : Ahead) → told_ahead (R.left source.old) (C.coming clock.old) ≡ Some ahead → IsErrOf result PushFault.Endless
            → (R.reads source.old + most ≤ R.reads source.new)
            ⊎ HasLasted (spec.task S.next_gives (link_value S.Peer.written S.Peer.inward S.Peer.failures) tries (targeted target.now) ahead origin.old) origin.new }
        ensures read_failed { IsErrOf result PushFault.Read → R.failures source.old < R.failures source.new }
        ensures clock_failed { IsErrOf result PushFault.Clock → C.failures clock.old < C.failures clock.new }
        ensures steady { OnOk result ((R.failures source.new ≡ R.failures source.old) × (C.failures clock.new ≡ C.failures clock.old)) }
    {
        let mut idle = 0;
        for _ in 0..u64::MAX {
            let Some(mut link) = origin.next() else {
                return Err(PushFault::Connect);
            };
            let step = self.publish_on(alloc, target, source, clock, &mut link, watch);
            drop(link);
            match step {
                Ok(Step::Whole) => return Ok(Ending::Whole),
                Ok(Step::Refused(line)) => return Ok(Ending::Refused(line)),
                Ok(Step::Gone { accepted }) => idle = idle_after(accepted, idle),
                Err(fault) => return Err(fault),
            }
            if idle > tries {
                return Err(PushFault::Connect);
            }
            watch.lost();
        }
        Err(PushFault::Endless)
    }

    /// Publishes on one connection: asks where the rendition stands, and goes on there.
    fn publish_on<R: Reader, C: Calendar, P: Link, W: Watch>(
        &mut self,
        alloc: Global,
        target: &Target<'_>,
        source: &mut R,
        clock: &mut C,
        link: &mut P,
        watch: &mut W,
    ) -> Result<Step, PushFault>
        ensures went { (ahead : Ahead) → told_ahead (R.left source.old) (C.coming clock.old) ≡ Some ahead
            → IfOk result (IsConnection (targeted target.now) self.old ahead (link_value P.written P.inward P.failures link.old) self.new (told_ahead (R.left source.new) (C.coming clock.new)) (link_value P.written P.inward P.failures link.new)) }
        ensures broke { (ahead : Ahead) (fault : PushFault) → told_ahead (R.left source.old) (C.coming clock.old) ≡ Some ahead → IsErrOf result fault → IsOfConnection fault
            → IsBroken (targeted target.now) self.old ahead (link_value P.written P.inward P.failures link.old) (link_value P.written P.inward P.failures link.new) fault }
        ensures endless { (ahead : Ahead) → told_ahead (R.left source.old) (C.coming clock.old) ≡ Some ahead → IsErrOf result PushFault.Endless
            → (R.reads source.old + most ≤ R.reads source.new)
            ⊎ IsEndless (targeted target.now) self.old ahead (link_value P.written P.inward P.failures link.old) (link_value P.written P.inward P.failures link.new) }
        ensures read_failed { IsErrOf result PushFault.Read → R.failures source.old < R.failures source.new }
        ensures clock_failed { IsErrOf result PushFault.Clock → C.failures clock.old < C.failures clock.new }
        ensures steady { OnOk result ((R.failures source.new ≡ R.failures source.old) × (C.failures clock.new ≡ C.failures clock.old)) }
        ensures later { R.reads source.old ≤ R.reads source.new }
        ensures told { IfOk result StepsByAnswer }
        ensures connected { IfErr result (λ fault. fault ≢ PushFault.Connect) }
    {
        let standing = match ask(alloc, &target.names, link)? {
            StandingAnswer::Standing(standing) => standing,
            StandingAnswer::Refused(line) => return Ok(Step::Refused(line)),
            StandingAnswer::Lost => return Ok(Step::Gone { accepted: false }),
        };
        self.place(alloc, target, &standing)?;
        watch.stands(&standing);
        let Some(publication) = &mut self.publication else {
            unreachable!()
        };
        let step = publication.publish(alloc, target, source, clock, link, watch)?;
        Ok(step)
    }

    /// Begins or goes on where the rendition stands.
    ///
    /// # Errors
    ///
    /// `Elsewhere` if nothing that was sent leads there.
    fn place(
        &mut self,
        alloc: Global,
        target: &Target<'_>,
        standing: &Standing,
    ) -> Result<(), PushFault>
        ensures { MatchResult result (λ _. IsPlacedSo (targeted target.now) self.old standing.now self.new) (λ fault. (fault ≡ PushFault.Elsewhere) × HasMoved self.old standing.now) }
    {
        let publication = placed(alloc, target, self.publication.take(), standing)?;
        self.publication = Some(publication);
        Ok(())
    }
}

/// Returns the publication that goes on at `standing`, where the rendition stands: `before`, or a new one if there is none.
///
/// # Errors
///
/// `Elsewhere` if nothing that was sent leads there.
fn placed(
    alloc: Global,
    target: &Target<'_>,
    before: Option<Publication>,
    standing: &Standing,
) -> Result<Publication, PushFault>
    ensures { MatchResult result (IsPlaced (targeted target.now) before standing.now) (λ fault. (fault ≡ PushFault.Elsewhere) × HasMoved before standing.now) }
{
    let Some(before) = before else {
        return Ok(Publication::new(alloc, target, standing));
    };
    match before.resume(standing.place) {
        Some(publication) => Ok(publication),
        None => Err(PushFault::Elsewhere),
    }
}
