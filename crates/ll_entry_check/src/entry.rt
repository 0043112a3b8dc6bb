//! Entries, each checked as the room of its channel takes it.
ghost use Rattle.std.specs.Prelude.{◌≡◌, ◌≢◌, ◌+◌, ◌==◌, ◌++◌, ◌∷◌, [], List, IfErr, IfOk, IsErrOf, OnOk, None, Some, option_map};
ghost use Rattle.ll_entry_check.specs.Full.{without_item};
ghost use Rattle.ll_entry.specs.Entered as spec;
ghost use Rattle.ll_entry.specs.Entered.{event_of, fault_in};
ghost use Rattle.ll_entry.specs.Replies.{told_in};
ghost use Rattle.ll_entry.specs.Told.{entry_after};
ghost use Rattle.ll_entry.specs.declared.version.Version.TheVariants.{Two};
ghost use Rattle.ll_entry.specs.declared.entry.Recorded.TheVariants as recorded;
ghost use Rattle.ll_room.specs.RoomValue.{Stands};
ghost use Rattle.ll_room.specs.StampedValue.{StampedValue};
ghost use Rattle.ll_verdict.specs.Events as event;
ghost use Rattle.ll_verdict.specs.Events.{Event};
ghost use Rattle.ll_verdict.specs.Outcome.{outcome_of};
ghost use Rattle.ll_verdict.specs.declared.reply.Reply as verdict;

use crate::full::FullEntry;
use ll_directive::Want;
use ll_entry::{CheckKind, Recorded, Version};
use ll_item::Item;
use ll_room::{Replayer, Stamped};
use ll_verdict::{Outcome, PublishFault, Reply};
use std::alloc::AllocError;

/// Takes the event of `entry`, of a record in this format, if the entry is right, and returns the entry in full. (Both formats are alike
/// for items, readings and closed requests, so the functions for these, below, speak of one format.)
#[tactic(auto, using(crate::proofs::FullLemmas::full_of))]
pub fn enter(
    replayer: &mut Replayer,
    version: Version,
    entry: Recorded,
) -> Result<FullEntry, CheckKind>
    ensures right { (events : List Event) → Stands replayer.old events → OnOk result
        ((fault_in version replayer.old.settings events entry ≡ None) × Stands replayer.new (events ++ event_of entry ∷ [])) }
    ensures full { (events : List Event) → Stands replayer.old events
        → IfOk result (λ full. option_map without_item (entry_after replayer.old.settings events (event_of entry)) ≡ Some full) }
    ensures wrong { (events : List Event) → Stands replayer.old events
        → IfErr result (λ k. k ≢ CheckKind.Memory → fault_in version replayer.old.settings events entry ≡ Some k) }
    ensures memory { (events : List Event) → Stands replayer.old events → IsErrOf result CheckKind.Memory → fault_in version replayer.old.settings events entry ≡ None }
    ensures settings { replayer.new.settings ≡ replayer.old.settings }
{
    match entry {
        Recorded::Publish(item) => {
            publish(replayer, item)?;
            Ok(FullEntry::Publish)
        }
        Recorded::Ask(ask, want, outcome) => {
            let outcome = make_request(replayer, version, ask, &want, outcome)?;
            Ok(FullEntry::Ask(ask, want, outcome))
        }
        Recorded::Clock(ms) => {
            read_clock(replayer, ms)?;
            Ok(FullEntry::Clock(ms))
        }
        Recorded::Collect(ask, outcome) => {
            let outcome = collect(replayer, version, ask, outcome)?;
            Ok(FullEntry::Collect(ask, outcome))
        }
        Recorded::Close(ask) => {
            close(replayer, ask)?;
            Ok(FullEntry::Close(ask))
        }
    }
}

/// Takes `item`, if no rule refuses it.
fn publish(replayer: &mut Replayer, item: Item) -> Result<(), CheckKind>
    ensures right { (events : List Event) → Stands replayer.old events → OnOk result
        ((fault_in Two replayer.old.settings events (recorded.Publish item) ≡ None) × Stands replayer.new (events ++ event.Publish item ∷ [])) }
    ensures wrong { (events : List Event) → Stands replayer.old events
        → IfErr result (λ k. k ≢ CheckKind.Memory → fault_in Two replayer.old.settings events (recorded.Publish item) ≡ Some k) }
    ensures memory { (events : List Event) → Stands replayer.old events
        → IsErrOf result CheckKind.Memory → fault_in Two replayer.old.settings events (recorded.Publish item) ≡ None }
    ensures settings { replayer.new.settings ≡ replayer.old.settings }
{
    match replayer.publish(item) {
        Ok(_) => Ok(()),
        Err(PublishFault::Memory) => Err(CheckKind::Memory),
        Err(_) => Err(CheckKind::Refused),
    }
}

/// Makes the request `want` if it is the next one and `outcome` is its outcome at once, and returns its whole outcome.
fn make_request(
    replayer: &mut Replayer,
    version: Version,
    ask: u64,
    want: &Want,
    outcome: Option<Outcome>,
) -> Result<Option<Outcome>, CheckKind>
    ensures right { (events : List Event) → Stands replayer.old events → OnOk result
        ((fault_in version replayer.old.settings events (recorded.Ask ask want.now outcome) ≡ None) × Stands replayer.new (events ++ event.Ask want.now ∷ [])) }
    ensures full { (events : List Event) → Stands replayer.old events
        → IfOk result (λ full. fault_in Two replayer.old.settings events (recorded.Ask ask want.now full) ≡ None) }
    ensures wrong { (events : List Event) → Stands replayer.old events
        → IfErr result (λ k. k ≢ CheckKind.Memory → fault_in version replayer.old.settings events (recorded.Ask ask want.now outcome) ≡ Some k) }
    ensures memory { (events : List Event) → Stands replayer.old events
        → IsErrOf result CheckKind.Memory → fault_in version replayer.old.settings events (recorded.Ask ask want.now outcome) ≡ None }
    ensures settings { replayer.new.settings ≡ replayer.old.settings }
{
    let room = replayer.room();
    if !is_after(ask, room.asks()) || room.is_full() {
        return Err(CheckKind::Refused);
    }
    let decision = room.decide(want);
    let reply = decision.outcome(room);
    if !is_same(outcome, told(version, reply)) {
        return Err(CheckKind::WrongReply);
    }
    match replayer.pass(decision) {
        Ok(()) => Ok(reply),
        Err(AllocError) => Err(CheckKind::Memory),
    }
}

/// Takes a reading of the clock, in milliseconds, if it can be one.
fn read_clock(replayer: &mut Replayer, ms: u64) -> Result<(), CheckKind>
    ensures right { (events : List Event) → Stands replayer.old events → OnOk result
        ((fault_in Two replayer.old.settings events (recorded.Clock ms) ≡ None) × Stands replayer.new (events ++ event.Clock ms ∷ [])) }
    ensures wrong { (events : List Event) → Stands replayer.old events → IfErr result (λ k. fault_in Two replayer.old.settings events (recorded.Clock ms) ≡ Some k) }
    ensures settings { replayer.new.settings ≡ replayer.old.settings }
{
    match replayer.clock(ms) {
        Ok(()) => Ok(()),
        Err(_) => Err(CheckKind::Refused),
    }
}

/// Hands out the reply to the request with the number `ask`, if it is open and `outcome` is its outcome, and returns its whole outcome.
fn collect(
    replayer: &mut Replayer,
    version: Version,
    ask: u64,
    outcome: Outcome,
) -> Result<Outcome, CheckKind>
    ensures right { (events : List Event) → Stands replayer.old events → OnOk result
        ((fault_in version replayer.old.settings events (recorded.Collect ask outcome) ≡ None) × Stands replayer.new (events ++ event.Collect ask ∷ [])) }
    ensures full { (events : List Event) → Stands replayer.old events
        → IfOk result (λ full. fault_in Two replayer.old.settings events (recorded.Collect ask full) ≡ None) }
    ensures wrong { (events : List Event) → Stands replayer.old events
        → IfErr result (λ k. fault_in version replayer.old.settings events (recorded.Collect ask outcome) ≡ Some k) }
    ensures settings { replayer.new.settings ≡ replayer.old.settings }
{
    if !replayer.room().is_open(ask) {
        return Err(CheckKind::Refused);
    }
    let reply = outcome_in(replayer.collect(ask));
    if !is_same(Some(outcome), told(version, reply)) {
        return Err(CheckKind::WrongReply);
    }
    match reply {
        Some(reply) => Ok(reply),
        None => unreachable!(),
    }
}

/// Closes the request with the number `ask`, if it is open.
fn close(replayer: &mut Replayer, ask: u64) -> Result<(), CheckKind>
    ensures right { (events : List Event) → Stands replayer.old events → OnOk result
        ((fault_in Two replayer.old.settings events (recorded.Close ask) ≡ None) × Stands replayer.new (events ++ event.Close ask ∷ [])) }
    ensures wrong { (events : List Event) → Stands replayer.old events → IfErr result (λ k. fault_in Two replayer.old.settings events (recorded.Close ask) ≡ Some k) }
    ensures settings { replayer.new.settings ≡ replayer.old.settings }
{
    if replayer.close(ask) {
        Ok(())
    } else {
        Err(CheckKind::Refused)
    }
}

/// Returns whether `ask` is the number of the request after `asks` others.
pub(crate) fn is_after(ask: u64, asks: u64) -> bool
    ensures { result ≡ (ask == asks + 1) }
{
    ask.checked_sub(1) == Some(asks)
}

/// Returns the outcome of a reply, if there is one.
fn outcome_in(reply: Option<Stamped<Reply>>) -> Option<Outcome>
    ensures { result ≡ option_map (λ (m : StampedValue verdict.Reply). outcome_of m.value) reply }
{
    match reply {
        Some(reply) => Some(reply.get().outcome()),
        None => None,
    }
}

/// Returns what a record in this format keeps of an outcome, if there is one.
pub(crate) fn told(version: Version, outcome: Option<Outcome>) -> Option<Outcome>
    ensures { result ≡ option_map (told_in version) outcome }
{
    match outcome {
        Some(outcome) => Some(version.told(outcome)),
        None => None,
    }
}

/// Returns whether two replies have the same outcome, or both requests wait.
pub(crate) fn is_same(a: Option<Outcome>, b: Option<Outcome>) -> bool
    ensures { result ≡ spec.same_answer a b }
{
    a == b
}
