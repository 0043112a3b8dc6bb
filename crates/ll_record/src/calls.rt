//! Items, requests and readings, each with its line.
ghost use Rattle.std.specs.Prelude.{◌≡◌, ◌≢◌, ◌+◌, ◌*◌, ◌<◌, ◌≤◌, ◌^◌, ◌++◌, ◌∷◌, [], List, IfErr, IfOk, IsErrOf, MatchResult, None, OnErr, OnOk, Some, length, string_bytes, true, false, ◌||◌};
ghost use Rattle.ll_entry.specs.Lines.{IsSpelled, entry_line};
ghost use Rattle.ll_entry.specs.declared.entry.Recorded.TheVariants as recorded;
ghost use Rattle.ll_item.specs.Items.{rendition_of};
ghost use Rattle.ll_settings.specs.Settings.{Configuration};
ghost use Rattle.ll_record.specs.Kept.{spare};
ghost use Rattle.ll_record.specs.Recording.{GoesOn, IsRecorded, is_record_full, of_channel, record_end, record_refusal};
ghost use Rattle.ll_room.specs.Answers.{asked, new_tickets, others};
ghost use Rattle.ll_verdict.specs.Full.{event_end, is_full};
ghost use Rattle.ll_room.specs.Full.{refusal_by};
ghost use Rattle.ll_room.specs.RoomValue.{tickets};
ghost use Rattle.ll_room.specs.declared.stamped.Stamp.TheVariants as stamp;
ghost use Rattle.ll_item.specs.ItemLines.{IsTyped};
ghost use Rattle.ll_verdict.specs.Events.{Event, Ask, Clock, Publish};
ghost use Rattle.ll_verdict.specs.Verdict.{at_once, held};

use crate::lines::Lines;
use crate::recorder::{RECORD_END, Recorder};
use ll_directive::Want;
use ll_entry::{ask_line, clock_line, publish_line};
use ll_item::Item;
use ll_room::{AskFault, Asked, LAST_TIME, Room, Stamped};
use ll_verdict::{ClockFault, Outcome, PublishFault};
use std::alloc::{AllocError, Global};

impl Recorder {
    /// Accepts `item`, as [`ll_room::Room::publish`] does, or returns the first rule that refuses it; that the record is full comes after
    /// the other rules, and Memory last.
    pub fn publish(&mut self, item: Item) -> Result<Stamped<u64>, PublishFault>
        ensures accepted { (events : List Event) → IsRecorded self.old events → OnOk result
            ((record_refusal self.old events item ≡ None) × IsRecorded self.new (events ++ Publish item ∷ [])) }
        ensures count { IfOk result (λ n. n ≡ record { room = self.old.room.channel; stamp = stamp.Publish item; value = self.old.room.count + 1 }) }
        ensures refused { (events : List Event) → IsRecorded self.old events
            → IfErr result (λ f. f ≢ PublishFault.Memory → record_refusal self.old events item ≡ Some f) }
        ensures memory { (events : List Event) → IsRecorded self.old events
            → IsErrOf result PublishFault.Memory → record_refusal self.old events item ≡ None }
        ensures still_open { tickets self.new.room ≡ tickets self.old.room }
        ensures goes_on { GoesOn self.old self.new }
        ensures unchanged { OnErr result (self.new ≡ self.old) }
    {
        if let Err(fault) = self.test(&item) {
            return Err(fault);
        }
        match self.take_in(item) {
            Ok(count) => Ok(count),
            Err(AllocError) => Err(PublishFault::Memory),
        }
    }

    /// Returns the first rule that refuses `item`; that the record is full comes after the other rules.
    fn test(&self, item: &Item) -> Result<(), PublishFault>
        ensures allowed { OnOk result (refusal_by self.now.room item.now ≡ None) }
        ensures space { OnOk result (self.now.calls < record_end) }
        ensures refused { (events : List Event) → IsRecorded self.now events
            → MatchResult result (λ u. record_refusal self.now events item.now ≡ None) (λ f. record_refusal self.now events item.now ≡ Some f) }
        ensures rule { IfErr result (λ f. f ≢ PublishFault.Memory) }
    {
        if let Err(fault) = self.room.test(item) {
            return Err(fault);
        }
        if self.calls >= RECORD_END {
            return Err(PublishFault::RecordFull);
        }
        Ok(())
    }

    /// Accepts `item`, which [`Recorder::test`] doesn't refuse. If out of memory, nothing changes.
    fn take_in(&mut self, item: Item) -> Result<Stamped<u64>, AllocError>
        requires allowed { refusal_by self.old.room item ≡ None }
        requires space { self.old.calls < record_end }
        ensures accepted { (events : List Event) → IsRecorded self.old events → OnOk result (IsRecorded self.new (events ++ Publish item ∷ [])) }
        ensures count { IfOk result (λ n. n ≡ record { room = self.old.room.channel; stamp = stamp.Publish item; value = self.old.room.count + 1 }) }
        ensures still_open { tickets self.new.room ≡ tickets self.old.room }
        ensures goes_on { GoesOn self.old self.new }
        ensures unchanged { OnErr result (self.new ≡ self.old) }
    {
        let Recorder {
            alloc,
            room,
            lines,
            at: _,
            calls,
        } = self;
        // Serves the proof alone.
        room.settings().within_limits();
        let line = item_line(*alloc, room, lines, &item)?;
        let count = room.accept(item)?;
        lines.put_line(line);
        *calls += 1;
        Ok(count)
    }

    /// Makes the request `want`, as [`ll_room::Room::ask`] does.
    pub fn ask(&mut self, want: Want) -> Result<Asked, AskFault>
        ensures answer { (events : List Event) → IsRecorded self.old events
            → IfOk result (λ a. a ≡ asked self.old.room want (at_once self.old.room.settings (held self.old.room.settings events) events want)) }
        ensures asked { (events : List Event) → IsRecorded self.old events
            → OnOk result (IsRecorded self.new (events ++ Ask (of_channel self.old.room.settings want) ∷ [])) }
        ensures within { OnOk result ((is_record_full self.old || is_full self.old.room.events) ≡ false) }
        ensures full { IsErrOf result AskFault.RecordFull → (is_record_full self.old || is_full self.old.room.events) ≡ true }
        ensures memory { IsErrOf result AskFault.Memory → (is_record_full self.old || is_full self.old.room.events) ≡ false }
        ensures opened { IfOk result (λ a. tickets self.new.room ≡ tickets self.old.room ++ new_tickets a) }
        ensures newest { IfOk result (λ a. others a (tickets self.new.room) ≡ tickets self.old.room) }
        ensures goes_on { GoesOn self.old self.new }
        ensures unchanged { OnErr result (self.new ≡ self.old) }
    {
        if self.calls >= RECORD_END || self.room.is_full() {
            return Err(AskFault::RecordFull);
        }
        match self.make_request(want) {
            Ok(asked) => Ok(asked),
            Err(AllocError) => Err(AskFault::Memory),
        }
    }

    /// Makes the request `want`, which can still be recorded. If out of memory, nothing changes.
    fn make_request(&mut self, want: Want) -> Result<Asked, AllocError>
        requires few { is_full self.old.room.events ≡ false }
        requires space { self.old.calls < record_end }
        ensures answer { (events : List Event) → IsRecorded self.old events
            → IfOk result (λ a. a ≡ asked self.old.room want (at_once self.old.room.settings (held self.old.room.settings events) events want)) }
        ensures asked { (events : List Event) → IsRecorded self.old events
            → OnOk result (IsRecorded self.new (events ++ Ask (of_channel self.old.room.settings want) ∷ [])) }
        ensures opened { IfOk result (λ a. tickets self.new.room ≡ tickets self.old.room ++ new_tickets a) }
        ensures newest { IfOk result (λ a. others a (tickets self.new.room) ≡ tickets self.old.room) }
        ensures goes_on { GoesOn self.old self.new }
        ensures unchanged { OnErr result (self.new ≡ self.old) }
    {
        let Recorder {
            alloc,
            room,
            lines,
            at: _,
            calls,
        } = self;
        // Serves the proof alone.
        room.settings().within_limits();
        let decision = room.decide(&want);
        let outcome = decision.outcome(room);
        let line = request_line(*alloc, room, lines, &want, outcome)?;
        let asked = room.ask_decided(want, decision)?;
        lines.put_line(line);
        *calls += 1;
        Ok(asked)
    }

    /// Takes a reading of the clock, in milliseconds, as [`ll_room::Room::clock`] does. The first of these that applies refuses it:
    /// ClockRange, RecordFull, Memory.
    pub fn clock(&mut self, ms: u64) -> Result<(), ClockFault>
        ensures passed { (events : List Event) → IsRecorded self.old events → OnOk result (IsRecorded self.new (events ++ Clock ms ∷ [])) }
        ensures within { OnOk result ((ms ≤ 2 ^ 60) × ((is_record_full self.old || is_full self.old.room.events) ≡ false)) }
        ensures range { IsErrOf result ClockFault.ClockRange → 2 ^ 60 < ms }
        ensures full { IsErrOf result ClockFault.RecordFull
            → (ms ≤ 2 ^ 60) × ((is_record_full self.old || is_full self.old.room.events) ≡ true) }
        ensures memory { IsErrOf result ClockFault.Memory
            → (ms ≤ 2 ^ 60) × ((is_record_full self.old || is_full self.old.room.events) ≡ false) }
        ensures still_open { tickets self.new.room ≡ tickets self.old.room }
        ensures goes_on { GoesOn self.old self.new }
        ensures unchanged { OnErr result (self.new ≡ self.old) }
    {
        let Recorder {
            alloc: _,
            room,
            lines,
            at: _,
            calls,
        } = self;
        if ms > LAST_TIME {
            return Err(ClockFault::ClockRange);
        }
        if *calls >= RECORD_END || room.is_full() {
            return Err(ClockFault::RecordFull);
        }
        // Serves the proof alone.
        room.settings().within_limits();
        let line = clock_line(ms);
        let Ok(()) = lines.reserve(line.len(), room.open_requests()) else {
            return Err(ClockFault::Memory);
        };
        match room.clock(ms) {
            Ok(()) => {
                lines.put(line.as_str());
                *calls += 1;
                Ok(())
            }
            Err(_) => unreachable!(),
        }
    }
}

/// Returns the line of `item`, for which it has reserved memory in the record.
fn item_line(
    alloc: Global,
    room: &Room,
    lines: &mut Lines,
    item: &Item,
) -> Result<String, AllocError>
    ensures text { IfOk result (λ t. string_bytes t ≡ entry_line room.now.settings (recorded.Publish item.now)) }
    ensures spelled { OnOk result (IsTyped item.now) }
    ensures free { IfOk result (λ t. length (string_bytes t) + 1 + spare * length room.now.slots ≤ lines.new.free) }
    ensures no_less { lines.old.free ≤ lines.new.free }
    ensures lines { lines.new.lines ≡ lines.old.lines }
{
    let line = publish_line(alloc, room.settings(), item)?;
    lines.reserve(line.len(), room.open_requests())?;
    Ok(line)
}

/// Returns the line of `want` with `outcome`, its result at once, for which it has reserved memory in the record, and for the last line of
/// one more open request.
fn request_line(
    alloc: Global,
    room: &Room,
    lines: &mut Lines,
    want: &Want,
    outcome: Option<Outcome>,
) -> Result<String, AllocError>
    ensures text { (c : Configuration) → IfOk result (λ t. string_bytes t ≡ entry_line c (recorded.Ask (room.now.asks + 1) want.now outcome)) }
    ensures spelled { (c : Configuration) → OnOk result (IsSpelled c (recorded.Ask (room.now.asks + 1) (of_channel c want.now) outcome)) }
    ensures free { IfOk result (λ t. length (string_bytes t) + 1 + spare * (length room.now.slots + 1) ≤ lines.new.free) }
    ensures no_less { lines.old.free ≤ lines.new.free }
    ensures lines { lines.new.lines ≡ lines.old.lines }
{
    let line = ask_line(alloc, room.asks() + 1, want, outcome)?;
    lines.reserve(line.len(), room.open_requests() + 1)?;
    Ok(line)
}
