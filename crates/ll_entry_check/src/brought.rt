//! The replies of entries, with their playlists.
ghost use Rattle.std.specs.Prelude.{◌≡◌, ◌≢◌, ◌++◌, ◌∷◌, [], List, IfErr, IfOk, OnOk, None, Some, option_map};
ghost use Rattle.ll_entry_check.specs.Brought.{brought_by};
ghost use Rattle.ll_entry.specs.Entered.{event_of, fault_in};
ghost use Rattle.ll_entry.specs.declared.entry.Recorded.TheVariants as recorded;
ghost use Rattle.ll_room.specs.RoomValue.{Stands};
ghost use Rattle.ll_room.specs.StampedValue.{StampedValue};
ghost use Rattle.ll_verdict.specs.Events as event;
ghost use Rattle.ll_verdict.specs.Events.{Event};
ghost use Rattle.ll_verdict.specs.Outcome.{outcome_of};
ghost use Rattle.ll_verdict.specs.declared.reply.Reply as verdict;

use crate::entry::{enter, is_after, is_same, told};
use ll_directive::Want;
use ll_entry::{CheckKind, Recorded, Version};
use ll_room::{Replayer, Stamped};
use ll_verdict::{Outcome, Reply};

/// Takes the event of `entry`, of a record in this format, if the entry is right, and returns its reply.
pub fn bring(
    replayer: &mut Replayer,
    version: Version,
    entry: Recorded,
) -> Result<Option<Reply>, CheckKind>
    ensures right { (events : List Event) → Stands replayer.old events → IfOk result (λ r. (fault_in version replayer.old.settings events entry ≡ None)
        × (r ≡ brought_by replayer.old.settings events (event_of entry))) }
    ensures stands { (events : List Event) → Stands replayer.old events → OnOk result (Stands replayer.new (events ++ event_of entry ∷ [])) }
    ensures wrong { (events : List Event) → Stands replayer.old events
        → IfErr result (λ k. k ≢ CheckKind.Memory → fault_in version replayer.old.settings events entry ≡ Some k) }
    ensures settings { replayer.new.settings ≡ replayer.old.settings }
{
    match entry {
        Recorded::Ask(ask, want, outcome) => answer(replayer, version, ask, want, outcome),
        Recorded::Collect(ask, outcome) => hand_out(replayer, version, ask, outcome),
        entry => {
            enter(replayer, version, entry)?;
            Ok(None)
        }
    }
}

/// Makes the request `want` if it is the next one and `outcome` is its outcome at once, and returns its reply; `None` if it is held.
#[tactic(auto, using(crate::proofs::BroughtLemmas::asked_is))]
fn answer(
    replayer: &mut Replayer,
    version: Version,
    ask: u64,
    want: Want,
    outcome: Option<Outcome>,
) -> Result<Option<Reply>, CheckKind>
    ensures right { (events : List Event) → Stands replayer.old events → IfOk result (λ r. (fault_in version replayer.old.settings events (recorded.Ask ask want outcome) ≡ None)
        × (r ≡ brought_by replayer.old.settings events (event.Ask want))) }
    ensures stands { (events : List Event) → Stands replayer.old events → OnOk result (Stands replayer.new (events ++ event.Ask want ∷ [])) }
    ensures wrong { (events : List Event) → Stands replayer.old events
        → IfErr result (λ k. k ≢ CheckKind.Memory → fault_in version replayer.old.settings events (recorded.Ask ask want outcome) ≡ Some k) }
    ensures settings { replayer.new.settings ≡ replayer.old.settings }
{
    let room = replayer.room();
    if !is_after(ask, room.asks()) || room.is_full() {
        return Err(CheckKind::Refused);
    }
    let reply = match replayer.ask(want) {
        Ok(reply) => value_of(reply),
        Err(_) => return Err(CheckKind::Memory),
    };
    if !is_same(outcome, told(version, outcome_in(&reply))) {
        return Err(CheckKind::WrongReply);
    }
    Ok(reply)
}

/// Hands out the reply to the request with the number `ask`, if it is open and `outcome` is its outcome, and returns it.
#[tactic(auto, using(crate::proofs::BroughtLemmas::collected_is))]
fn hand_out(
    replayer: &mut Replayer,
    version: Version,
    ask: u64,
    outcome: Outcome,
) -> Result<Option<Reply>, CheckKind>
    ensures right { (events : List Event) → Stands replayer.old events → IfOk result (λ r. (fault_in version replayer.old.settings events (recorded.Collect ask outcome) ≡ None)
        × (r ≡ brought_by replayer.old.settings events (event.Collect ask))) }
    ensures stands { (events : List Event) → Stands replayer.old events → OnOk result (Stands replayer.new (events ++ event.Collect ask ∷ [])) }
    ensures wrong { (events : List Event) → Stands replayer.old events
        → IfErr result (λ k. fault_in version replayer.old.settings events (recorded.Collect ask outcome) ≡ Some k) }
    ensures settings { replayer.new.settings ≡ replayer.old.settings }
{
    if !replayer.room().is_open(ask) {
        return Err(CheckKind::Refused);
    }
    let reply = value_of(replayer.collect(ask));
    if !is_same(Some(outcome), told(version, outcome_in(&reply))) {
        return Err(CheckKind::WrongReply);
    }
    Ok(reply)
}

/// Returns the reply without its stamp, if there is one.
fn value_of(reply: Option<Stamped<Reply>>) -> Option<Reply>
    ensures { result ≡ option_map (λ (m : StampedValue verdict.Reply). m.value) reply }
{
    match reply {
        Some(reply) => Some(reply.into_inner()),
        None => None,
    }
}

/// Returns the outcome of a reply, if there is one.
fn outcome_in(reply: &Option<Reply>) -> Option<Outcome>
    ensures { result ≡ option_map outcome_of reply.now }
{
    match reply {
        Some(reply) => Some(reply.outcome()),
        None => None,
    }
}
