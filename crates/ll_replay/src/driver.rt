//! Runs the lines of a script one after another, and writes their answers.
ghost use Rattle.std.specs.Prelude.{◌≡◌, ◌<◌, ◌+◌, ◌-◌, ◌^◌, [], ℕ, List, Bool, Option, None, Some, IfOk, OnOk, IfErr, IsErrOf, IsSome, if◌then◌else◌, min};
ghost use Rattle.ll_script.specs.Lines.{clocks_from, meant_acts, starved};
ghost use Rattle.ll_connection.specs.Turn as connection;
ghost use Rattle.ll_connection.specs.Visit.{Luck};
ghost use Rattle.ll_script_rooms.specs.Kept.{answers_of};
ghost use Rattle.ll_script_rooms.specs.World as rooms;
ghost use Rattle.ll_replay.specs.Script.{Lot, Script, start, line, summary_of};
ghost use Rattle.ll_replay.specs.Script as script;
ghost use Rattle.ll_replay.specs.Kept.{IsDone, Keeps, Says, Stands, met};
ghost use Rattle.ll_replay.specs.Cuts.{IsCutBetween};

use crate::answers::{refuse, replies_in, say, spell, tell, to_connection};
use crate::outcome::{RunFault, RunSummary};
use ll_connection::{Connections, Sent};
use ll_device::Writer;
use ll_directive::{TargetFault, Want};
use ll_item::Item;
use ll_publish::Refusal;
use ll_script::{Act, Acts, LineFault, clock_line, fault_line, read_line};
use ll_script_rooms::{ActAnswer, AskStop, Owner, Rooms};
use ll_settings::{Channels, Settings};
use ll_verdict::{ClockFault, PublishFault, Reply};
use std::alloc::{AllocError, Global};
use std::marker::Model;

/// The largest number of bytes of a line, without its end.
pub(crate) const LONGEST_LINE: usize = 65_536;

/// The channels of a script with the requests that wait in them, its connections, and its counts. It must be consumed by
/// [`Driver::finish`].
pub(crate) struct Driver {
    alloc: Global,
    rooms: Rooms,
    connections: Connections,
    declared: Channels,
    lines: u64,
    last_id: Option<u64>,
    replies: u64,
}

/// The answer to an act, if it has one, and the place of the channel in which it may have made replies due. An item that was out of memory
/// makes none due.
struct Done {
    answer: Option<Vec<u8>>,
    due: Option<usize>,
}

impl Model for Driver {
    ghost use Rattle.ll_replay.specs.Kept.{Kept};

    ghost Value = { Kept };

    ghost view = { λ d. record { rooms = d.rooms; connections = d.connections; declared = d.declared; lines = d.lines; last_id = d.last_id; replies = d.replies } };
}

impl Done {
    /// Returns `answer` for an act that makes no replies due.
    fn quiet(answer: Option<Vec<u8>>) -> Done
        ensures answer { result.answer ≡ answer }
        ensures due { result.due ≡ None }
    {
        Done { answer, due: None }
    }
}

impl Driver {
    /// Returns a driver before any line.
    pub(crate) fn new(alloc: Global) -> Driver
        ensures stands { (base : Option (List ℕ)) → Stands result base base start }
        ensures lines { result.lines ≡ 0 }
    {
        Driver {
            alloc,
            rooms: Rooms::new(alloc),
            connections: Connections::new(alloc),
            declared: Channels::new(alloc),
            lines: 0,
            last_id: None,
            replies: 0,
        }
    }

    /// Returns the number of lines so far.
    pub(crate) fn lines(&self) -> u64
        ensures { result ≡ self.now.lines }
    {
        self.lines
    }

    /// Returns the counts of the script so far.
    pub(crate) fn summary(&self) -> RunSummary
        ensures { (w : Script) (base written : Option (List ℕ)) → Stands self.now base written w → result ≡ summary_of w }
    {
        RunSummary {
            events: self.rooms.events(),
            replies: self.replies,
        }
    }

    /// Takes a whole line, without its end, and writes its answers. An item or a request that is out of memory is answered so.
    pub(crate) fn take_line<W: Writer>(
        &mut self,
        text: &[u8],
        writer: &mut W,
    ) -> Result<(), RunFault>
        requires { self.old.lines < 2 ^ 64 - 1 }
        ensures ok { OnOk result ((w : Script) (base : Option (List ℕ)) → Stands self.old base (W.written writer.old) w
            → (lots : List Lot) × Stands self.new base (W.written writer.new) (line w (record { text = text.now; lots = lots }))) }
        ensures lines { OnOk result (self.new.lines ≡ self.old.lines + 1) }
        ensures cut { IfErr result (λ f. (w : Script) (base : Option (List ℕ)) → Stands self.old base (W.written writer.old) w
            → (lots : List Lot) × IsCutBetween base (W.written writer.new) w (line w (record { text = text.now; lots = lots })) f) }
        ensures steady { OnOk result (W.failures writer.new ≡ W.failures writer.old) }
        ensures write_failed { IsErrOf result RunFault.Write → W.failures writer.old < W.failures writer.new }
    {
        let line = self.lines + 1;
        if text.len() > LONGEST_LINE {
            return Err(RunFault::LineTooLong { line });
        }
        self.lines = line;
        match read_line(self.alloc, &self.declared, self.last_id, text) {
            Ok(acts) => self.acts(acts, writer),
            Err(LineFault::BadLine) => Err(RunFault::BadLine { line }),
            Err(LineFault::Memory) => Err(RunFault::Memory),
        }
    }

    /// Does what a line makes happen, act by act.
    fn acts<W: Writer>(&mut self, acts: Acts, writer: &mut W) -> Result<(), RunFault>
        ensures ok { OnOk result ((w : Script) (base : Option (List ℕ)) → Stands self.old base (W.written writer.old) w
            → (lots : List Lot) × Stands self.new base (W.written writer.new) (script.acted lots w (Some (meant_acts self.old.declared acts)))) }
        ensures lines { OnOk result (self.new.lines ≡ self.old.lines) }
        ensures cut { IfErr result (λ f. (w : Script) (base : Option (List ℕ)) → Stands self.old base (W.written writer.old) w
            → (lots : List Lot) × IsCutBetween base (W.written writer.new) w (script.acted lots w (Some (meant_acts self.old.declared acts))) f) }
        ensures steady { OnOk result (W.failures writer.new ≡ W.failures writer.old) }
        ensures write_failed { IsErrOf result RunFault.Write → W.failures writer.old < W.failures writer.new }
    {
        match acts {
            Acts::None => Ok(()),
            Acts::One(act) => self.done(act, writer),
            Acts::Clock(ms) => self.clocks(ms, writer),
        }
    }

    /// Passes a reading of the clock, `ms` milliseconds, to each channel in order of declaration. The replies that it makes due in one
    /// channel are written before the next is read.
    fn clocks<W: Writer>(&mut self, ms: u64, writer: &mut W) -> Result<(), RunFault>
        ensures ok { OnOk result ((w : Script) (base : Option (List ℕ)) → Stands self.old base (W.written writer.old) w
            → (lots : List Lot) × Stands self.new base (W.written writer.new) (script.acted lots w (Some (clocks_from 0 self.old.declared ms)))) }
        ensures lines { OnOk result (self.new.lines ≡ self.old.lines) }
        ensures cut { IfErr result (λ f. (w : Script) (base : Option (List ℕ)) → Stands self.old base (W.written writer.old) w
            → (lots : List Lot) × IsCutBetween base (W.written writer.new) w (script.acted lots w (Some (clocks_from 0 self.old.declared ms))) f) }
        ensures steady { OnOk result (W.failures writer.new ≡ W.failures writer.old) }
        ensures write_failed { IsErrOf result RunFault.Write → W.failures writer.old < W.failures writer.new }
    {
        for place in 0..self.declared.len() {
            self.done(Act::Clock { place, ms }, writer)?;
        }
        Ok(())
    }

    /// Does `act`, writes its answer, and then the replies that it made due.
    fn done<W: Writer>(&mut self, act: Act, writer: &mut W) -> Result<(), RunFault>
        ensures ok { OnOk result ((w : Script) (base : Option (List ℕ)) → Stands self.old base (W.written writer.old) w
            → (lot : Lot) × Stands self.new base (W.written writer.new) (script.done w (lot, act))) }
        ensures lines { OnOk result (self.new.lines ≡ self.old.lines) }
        ensures cut { IfErr result (λ f. (w : Script) (base : Option (List ℕ)) → Stands self.old base (W.written writer.old) w
            → (lot : Lot) × IsCutBetween base (W.written writer.new) w (script.done w (lot, act)) f) }
        ensures steady { OnOk result (W.failures writer.new ≡ W.failures writer.old) }
        ensures write_failed { IsErrOf result RunFault.Write → W.failures writer.old < W.failures writer.new }
    {
        let due = self.act(act, writer)?;
        match due {
            Some(place) => self.rest(place, writer),
            None => Ok(()),
        }
    }

    /// Writes the replies of the channel at `place` that are due, in order of asking.
    fn rest<W: Writer>(&mut self, place: usize, writer: &mut W) -> Result<(), RunFault>
        ensures ok { OnOk result ((w : Script) (base : Option (List ℕ)) → Stands self.old base (W.written writer.old) w
            → (replies : List (List Luck)) × Stands self.new base (W.written writer.new) (script.rest_at replies place w)) }
        ensures lines { OnOk result (self.new.lines ≡ self.old.lines) }
        ensures cut { IfErr result (λ f. (w : Script) (base : Option (List ℕ)) → Stands self.old base (W.written writer.old) w
            → (replies : List (List Luck)) × IsCutBetween base (W.written writer.new) w (script.rest_at replies place w) f) }
        ensures steady { OnOk result (W.failures writer.new ≡ W.failures writer.old) }
        ensures write_failed { IsErrOf result RunFault.Write → W.failures writer.old < W.failures writer.new }
    {
        for _ in 0..self.rooms.waiting() {
            match self.next_reply(place) {
                Ok(Some(reply)) => say(Some(reply), writer)?,
                Ok(None) => return Ok(()),
                Err(AllocError) => return Err(RunFault::Memory),
            }
        }
        Ok(())
    }

    /// Hands out the first reply of the channel at `place` that is due. Returns its text, or `None` if none is due.
    fn next_reply(&mut self, place: usize) -> Result<Option<Vec<u8>>, AllocError>
        ensures says { (w : Script) → Keeps self.old w → IfOk result (λ a. (lucks : List Luck) × Says self.new a w (script.next_reply place w lucks)) }
        ensures still { (w : Script) → Keeps self.old w → IfOk result (λ a. a ≡ None → (lucks : List Luck) → script.next_reply place w lucks ≡ w) }
        ensures lines { OnOk result (self.new.lines ≡ self.old.lines) }
    {
        match to_connection(self.rooms.next_due(place)) {
            Ok((number, reply)) => self.reply(number, reply),
            Err(answer) => {
                self.count(&answer);
                spell(self.alloc, answer)
            }
        }
    }

    /// Answers the request of connection `number` with `reply`, and hands in its next requests. Returns what is sent on it.
    fn reply(&mut self, number: u64, reply: Reply) -> Result<Option<Vec<u8>>, AllocError>
        ensures says { (w : Script) → Keeps self.old w
            → IfOk result (λ a. (lucks : List Luck) × Says self.new a w (script.turned w (connection.reply lucks number reply w.connections w.rooms))) }
        ensures something { IfOk result (λ a. IsSome a) }
        ensures lines { OnOk result (self.new.lines ≡ self.old.lines) }
    {
        let sent = self
            .connections
            .reply(&mut self.rooms, &self.declared, number, reply)?;
        Ok(Some(self.sent(sent)))
    }

    /// Does `act`, and writes its answer. Returns the place of the channel in which replies may be due now.
    fn act<W: Writer>(&mut self, act: Act, writer: &mut W) -> Result<Option<usize>, RunFault>
        ensures ok { IfOk result (λ due. (w : Script) (base : Option (List ℕ)) → Stands self.old base (W.written writer.old) w
            → (lot : Lot) × (due ≡ script.makes_due (met lot act))
            × Stands self.new base (W.written writer.new) (script.act lot.requests w (met lot act))) }
        ensures lines { OnOk result (self.new.lines ≡ self.old.lines) }
        ensures cut { IfErr result (λ f. (w : Script) (base : Option (List ℕ)) → Stands self.old base (W.written writer.old) w
            → (lot : Lot) × IsCutBetween base (W.written writer.new) w (script.act lot.requests w (met lot act)) f) }
        ensures steady { OnOk result (W.failures writer.new ≡ W.failures writer.old) }
        ensures write_failed { IsErrOf result RunFault.Write → W.failures writer.old < W.failures writer.new }
    {
        match self.step(act) {
            Ok(Done { answer, due }) => {
                say(answer, writer)?;
                Ok(due)
            }
            Err(AllocError) => Err(RunFault::Memory),
        }
    }

    /// Does `act`. An item or a request that is out of memory is answered so.
    fn step(&mut self, act: Act) -> Result<Done, AllocError>
        ensures done { (w : Script) → Keeps self.old w → IfOk result (λ d. IsDone self.new d act w) }
        ensures lines { OnOk result (self.new.lines ≡ self.old.lines) }
    {
        match act {
            Act::Declare(settings) => {
                let declared = self.declare(settings)?;
                Ok(Done::quiet(declared))
            }
            Act::Offer { place, item } => self.offer(place, item),
            Act::At { place, rendition } => {
                let told = self.standing(place, rendition)?;
                Ok(Done::quiet(told))
            }
            Act::Refuse(reason) => {
                let refused = refuse(self.alloc, reason)?;
                Ok(Done::quiet(refused))
            }
            Act::Ask { id, place, want } => {
                let asked = self.ask(id, place, want)?;
                Ok(Done::quiet(asked))
            }
            Act::Answer { id, fault } => {
                let answered = self.answer(id, fault)?;
                Ok(Done::quiet(answered))
            }
            Act::Close(id) => Ok(Done::quiet(self.close(id))),
            Act::Clock { place, ms } => self.clock(place, ms),
            Act::RefuseClock => {
                let late = clock_line(self.alloc, ClockFault::ClockRange)?;
                Ok(Done::quiet(Some(late.into_bytes())))
            }
            Act::Bytes { number, piece } => {
                let came = self.bytes(number, piece.as_slice())?;
                Ok(Done::quiet(came))
            }
            Act::Drop(number) => Ok(Done::quiet(self.end(number))),
        }
    }

    /// Adds a channel. Returns no answer.
    fn declare(&mut self, settings: Settings) -> Result<Option<Vec<u8>>, AllocError>
        ensures says { (w : Script) → Keeps self.old w → IfOk result (λ a. Says self.new a w (script.act [] w (Act.Declare settings))) }
        ensures lines { OnOk result (self.new.lines ≡ self.old.lines) }
    {
        let copy = settings.copy(self.alloc)?;
        self.rooms.declare(settings)?;
        self.declared.add(self.alloc, copy)?;
        Ok(None)
    }

    /// Offers `item` to the channel at `place`. If it is out of memory, it is refused for that, and nothing changes.
    fn offer(&mut self, place: usize, item: Item) -> Result<Done, AllocError>
        ensures done { (w : Script) → Keeps self.old w → IfOk result (λ d. IsDone self.new d (Act.Offer place item) w) }
        ensures lines { OnOk result (self.new.lines ≡ self.old.lines) }
    {
        match self.rooms.offer(place, item) {
            Ok(said) => {
                self.count(&said);
                let answer = spell(self.alloc, said)?;
                Ok(Done {
                    answer,
                    due: Some(place),
                })
            }
            Err(AllocError) => {
                let answer = refuse(self.alloc, Refusal::Rule(PublishFault::Memory))?;
                Ok(Done::quiet(answer))
            }
        }
    }

    /// Returns the line that says where the rendition of index `rendition` of the channel at `place` stands.
    fn standing(&self, place: usize, rendition: usize) -> Result<Option<Vec<u8>>, AllocError>
        ensures { (w : Script) → Keeps self.now w → IfOk result (λ a. Says self.now a w (script.act [] w (Act.At place rendition))) }
    {
        tell(self.alloc, self.rooms.standing(place, rendition))
    }

    /// Makes the request `id` of the channel at `place`. Returns its answer unless it waits; a request that is out of memory is answered
    /// so. It fails if there is no memory for the answer, or for keeping whose request waits.
    fn ask(&mut self, id: u64, place: usize, want: Want) -> Result<Option<Vec<u8>>, AllocError>
        ensures says { (w : Script) → Keeps self.old w
            → IfOk result (λ a. (refused : Bool) × Says self.new a w (script.act [] w (if refused then starved (Act.Ask id place want) else Act.Ask id place want))) }
        ensures lines { OnOk result (self.new.lines ≡ self.old.lines) }
    {
        match self.rooms.ask(Owner::Get(id), place, want) {
            Ok(said) => {
                self.last_id = Some(id);
                self.count(&said);
                spell(self.alloc, said)
            }
            Err(AskStop::Request) => self.answer(id, TargetFault::Memory),
            Err(AskStop::Place) => Err(AllocError),
        }
    }

    /// Returns the reply to request `id`, which is no event of any channel.
    fn answer(&mut self, id: u64, fault: TargetFault) -> Result<Option<Vec<u8>>, AllocError>
        ensures says { (w : Script) → Keeps self.old w → IfOk result (λ a. Says self.new a w (script.act [] w (Act.Answer id fault))) }
        ensures lines { OnOk result (self.new.lines ≡ self.old.lines) }
    {
        self.last_id = Some(id);
        self.replies = self.replies.saturating_add(1);
        Ok(Some(fault_line(self.alloc, id, fault)?.into_bytes()))
    }

    /// Closes request `id` if it waits. Returns no answer.
    fn close(&mut self, id: u64) -> Option<Vec<u8>>
        ensures says { (w : Script) → Keeps self.old w → Says self.new result w (script.act [] w (Act.Close id)) }
        ensures lines { self.new.lines ≡ self.old.lines }
    {
        self.rooms.close(Owner::Get(id));
        None
    }

    /// Passes a reading of the clock, `ms` milliseconds, to the channel at `place`. Its answer is the refusal, if it is refused.
    fn clock(&mut self, place: usize, ms: u64) -> Result<Done, AllocError>
        ensures done { (w : Script) → Keeps self.old w → IfOk result (λ d. IsDone self.new d (Act.Clock place ms) w) }
        ensures lines { OnOk result (self.new.lines ≡ self.old.lines) }
    {
        let said = self.rooms.clock(place, ms);
        self.count(&said);
        let answer = spell(self.alloc, said)?;
        Ok(Done {
            answer,
            due: Some(place),
        })
    }

    /// Adds the bytes `piece` to connection `number`. Returns what is sent on it.
    fn bytes(&mut self, number: u64, piece: &[u8]) -> Result<Option<Vec<u8>>, AllocError>
        ensures says { (w : Script) → Keeps self.old w → IfOk result (λ a. (lucks : List Luck) × Says self.new a w (script.act lucks w (Act.Bytes number piece.now))) }
        ensures lines { OnOk result (self.new.lines ≡ self.old.lines) }
    {
        let sent = self
            .connections
            .bytes(&mut self.rooms, &self.declared, number, piece)?;
        Ok(Some(self.sent(sent)))
    }

    /// Ends connection `number`. Returns no answer.
    fn end(&mut self, number: u64) -> Option<Vec<u8>>
        ensures says { (w : Script) → Keeps self.old w → Says self.new result w (script.act [] w (Act.Drop number)) }
        ensures lines { self.new.lines ≡ self.old.lines }
    {
        self.connections.end(&mut self.rooms, number);
        None
    }

    /// Counts the answers in `sent`, and returns their text.
    fn sent(&mut self, sent: Sent) -> Vec<u8>
        ensures count { self.new ≡ record self.old { replies = min (self.old.replies + sent.replies) rooms.count_end } }
        ensures text { result ≡ sent.text }
    {
        let Sent { text, replies } = sent;
        self.replies = self.replies.saturating_add(replies);
        text
    }

    /// Counts `answer` if it is a reply.
    fn count(&mut self, answer: &Option<ActAnswer>)
        ensures { self.new ≡ record self.old { replies = min (self.old.replies + script.reply_count (answers_of answer.now)) rooms.count_end } }
    {
        self.replies = self.replies.saturating_add(replies_in(answer));
    }

    /// Ends all connections, and closes all requests that still wait, without a reply.
    pub(crate) fn finish(self) {
        let Driver {
            alloc: _,
            rooms,
            connections,
            declared: _,
            lines: _,
            last_id: _,
            replies: _,
        } = self;
        connections.finish();
        rooms.finish();
    }
}
