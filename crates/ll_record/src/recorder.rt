//! A room whose events are recorded, and how its record is handed out.
ghost use Rattle.std.specs.Prelude.{◌≡◌, [], List, IfOk, OnErr, OnOk};
ghost use Rattle.ll_record.specs.Chunk.{IsChunk, IsFaithful, emptied};
ghost use Rattle.ll_record.specs.Recording.{IsRecorded};
ghost use Rattle.ll_room.specs.RoomValue.{room_value};
ghost use Rattle.ll_verdict.specs.Events.{Event};
ghost use Rattle.ll_verdict.specs.State.{state_of};

use crate::chunk::Chunk;
use crate::lines::Lines;
use ll_room::Room;
use ll_settings::Settings;
use std::alloc::{AllocError, Global};
use std::marker::Model;

/// The most items, requests and readings in a record.
pub(crate) const RECORD_END: u64 = 65_536;

/// A room, and the record of its events since the record was last handed out. The record holds 65,536 items, requests and readings; then
/// each further one is refused as RecordFull until the record is handed out. Replies are still handed out and requests closed: the memory
/// for their lines is reserved when a request is made.
pub struct Recorder {
    pub(crate) alloc: Global,
    pub(crate) room: Room,
    pub(crate) lines: Lines,
    /// The number of events before the record.
    pub(crate) at: u64,
    /// The number of items, requests and readings in the record.
    pub(crate) calls: u64,
}

impl Drop for Recorder {
    fn drop(self) {
        let Recorder {
            alloc: _,
            room: _room,
            lines: _lines,
            at: _,
            calls: _,
        } = self;
    }
}

impl Model for Recorder {
    ghost use Rattle.ll_record.specs.Kept.{IsKept};
    ghost use Rattle.ll_record.specs.Recording.{Recording};

    ghost Value = { Recording };

    ghost view = { λ r. record { room = r.room; at = r.at; lines = r.lines.lines; calls = r.calls } };

    ghost invariant = { λ r. IsKept (record { room = r.room; at = r.at; lines = r.lines.lines; calls = r.calls }) r.lines.free };
}

impl Recorder {
    /// Returns the recorder of a room with the number `channel` and these settings, to which nothing has happened.
    pub fn new(alloc: Global, channel: u64, settings: Settings) -> Result<Recorder, AllocError>
        ensures new { IfOk result (λ r. r ≡ record { room = room_value channel settings (state_of settings []); at = 0; lines = []; calls = 0 }) }
        ensures recorded { IfOk result (λ r. IsRecorded r []) }
    {
        Ok(Recorder {
            alloc,
            room: Room::new(alloc, channel, settings)?,
            lines: Lines::new(alloc),
            at: 0,
            calls: 0,
        })
    }

    /// Returns the room, to read what is kept of the channel.
    pub fn room(&self) -> &Room
        ensures { result.now ≡ self.now.room }
    {
        &self.room
    }

    /// Hands out the record, and begins another. No reply changes by it. If out of memory, nothing changes.
    pub fn rotate(&mut self) -> Result<Chunk, AllocError>
        ensures chunk { IfOk result (λ k. IsChunk self.old k) }
        ensures faithful { (events : List Event) → IsRecorded self.old events → IfOk result (λ k. IsFaithful self.old events k) }
        ensures recorded { (events : List Event) → IsRecorded self.old events → OnOk result (IsRecorded self.new events) }
        ensures emptied { OnOk result (self.new ≡ emptied self.old) }
        ensures unchanged { OnErr result (self.new ≡ self.old) }
    {
        let Recorder {
            alloc,
            room,
            lines,
            at,
            calls,
        } = self;
        // Serves the proof alone.
        room.settings().within_limits();
        let events = room.events();
        let chunk = Chunk::new(*alloc, room.settings(), *at, lines.text(), events - *at)?;
        lines.clear();
        *at = events;
        *calls = 0;
        Ok(chunk)
    }
}
