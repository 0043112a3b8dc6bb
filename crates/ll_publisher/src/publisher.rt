//! A publisher's connection: its lines are read, and what they announce is published and answered.
ghost use Rattle.std.specs.Bool.{Decides};
ghost use Rattle.std.specs.Prelude.{[], ◌≡◌, ◌≢◌, ℕ, Err, IfErr, IfOk, IsErrOf, List, MatchOption, None, Ok, OnErr, OnOk, Option, Some, length, nat_le, slice_get, true};
ghost use Rattle.std.specs.Io.KnownBytes.{Appends};
ghost use Rattle.ll_device.specs.Written.{AppendsPrefix};
ghost use Rattle.ll_item.specs.Items.{item_in};
ghost use Rattle.ll_item.specs.Media.{media_limit};
ghost use Rattle.ll_publish.specs.Line as says;
ghost use Rattle.ll_publish.specs.Lines.{fresh};
ghost use Rattle.ll_publish.specs.Meaning.{meant};
ghost use Rattle.ll_publish.specs.Refusals.{item_refusal, reply_line};
ghost use Rattle.ll_settings.specs.Channels.{channel_of_name};
ghost use Rattle.ll_settings.specs.Settings.{Configuration};
ghost use Rattle.ll_publisher.specs.Answers.{IsAnswerAt, refused_before, refused_by};
ghost use Rattle.ll_publisher.specs.Channels.{channel_in, place_in};
ghost use Rattle.ll_hub.specs.Calls.{HasSeen};
ghost use Rattle.ll_hub.specs.Passes.{PassValue};
ghost use Rattle.ll_service.specs.Faults.{IsOwn, IsTrue};
ghost use Rattle.ll_publisher.specs.Heard.{IsHeardAt, heard, heard_at};
ghost use Rattle.ll_publisher.specs.Kept.{HasToken};
ghost use Rattle.ll_publisher.specs.Doors.{origin};
ghost use Rattle.ll_publisher.specs.Publishing.{Caller, IsCutOff, IsReplyTo, IsServed, IsTold, caller, caller_after};
ghost use Rattle.ll_service.specs.Reads.{IsReadThrough, IsReadWithin};
ghost use Rattle.ll_publisher.specs.Serving.{IsBroken, IsDrained, IsServing};

use crate::door::{Passage, decide};
use crate::keeping::{Published, Token, Told, settle};
use ll_counts::Gate;
use ll_device::{Link, write_all};
use ll_hub::{Bell, HubFault, Ledgers, Pass, RoomFault, Sink};
use ll_item::{Item, ItemFault, Payload, named};
use ll_publish::{Feed, Line, Refusal, Success, reply_text};
use ll_room::Stamp;
use ll_service::{HandedOut, LinkFault, Service, Turn};
use ll_settings::Settings;
use ll_spool::Disk;
use ll_verdict::PublishFault;
use std::sync::Wait;

/// The most bytes that one read takes.
const PIECE: usize = 65_536;

/// Publishes what a publisher's lines announce, answers each line, and returns the number of answers. Fails after `reads` reads.
pub fn serve<L: Ledgers, P: Link, C, G: Gate, K: Sink, D: Disk, B: Bell, R: Wait>(
    service: &Service<'_, L, C, G, K, D, B, R>,
    link: &mut P,
    pass: &mut Pass<L>,
    reads: u64,
) -> Result<u64, LinkFault>
    ensures faults { IsTrue result (P.failures link.old) (P.failures link.new) }
    ensures few { IsReadWithin (P.inward link.old) (P.inward link.new) reads }
    ensures endless { IsErrOf result LinkFault.Endless → IsReadThrough (P.inward link.old) (P.inward link.new) reads }
    ensures served { OnOk result (IsServed (origin service.now.hub.now service.now.secrets.now) pass.old pass.new (P.inward link.old) (P.inward link.new) (P.written link.old) (P.written link.new)) }
    ensures cut_off { OnErr result (IsCutOff (origin service.now.hub.now service.now.secrets.now) pass.old pass.new (P.inward link.old) (P.inward link.new) (P.written link.old) (P.written link.new)) }
{
    let mut feed = Feed::new(service.alloc);
    let mut opened = Vec::new(service.alloc);
    read_all(service, link, pass, &mut opened, &mut feed, reads)
}

/// Does what [`serve`] does, with a `feed` that took nothing and with `opened`, which is empty.
// Not inlined, so that a thread that serves a player has no room for this buffer on its stack.
#[inline(never)]
fn read_all<L: Ledgers, P: Link, C, G: Gate, K: Sink, D: Disk, B: Bell, R: Wait>(
    service: &Service<'_, L, C, G, K, D, B, R>,
    link: &mut P,
    pass: &mut Pass<L>,
    opened: &mut Vec<usize>,
    feed: &mut Feed,
    reads: u64,
) -> Result<u64, LinkFault>
    requires unfed { feed.old ≡ fresh }
    requires closed { opened.old.items ≡ [] }
    ensures faults { IsTrue result (P.failures link.old) (P.failures link.new) }
    ensures few { IsReadWithin (P.inward link.old) (P.inward link.new) reads }
    ensures endless { IsErrOf result LinkFault.Endless → IsReadThrough (P.inward link.old) (P.inward link.new) reads }
    ensures served { OnOk result (IsServed (origin service.now.hub.now service.now.secrets.now) pass.old pass.new (P.inward link.old) (P.inward link.new) (P.written link.old) (P.written link.new)) }
    ensures cut_off { OnErr result (IsCutOff (origin service.now.hub.now service.now.secrets.now) pass.old pass.new (P.inward link.old) (P.inward link.new) (P.written link.old) (P.written link.new)) }
{
    let mut answers = 0;
    let mut piece = [0; PIECE];
    for _ in 0..reads {
        let Ok(count) = link.read(&mut piece) else {
            return Err(LinkFault::Read);
        };
        if count == 0 {
            return Ok(answers);
        }
        feed.take(&piece[..count])?;
        answer(service, link, pass, opened, feed, &mut answers)?;
    }
    Err(LinkFault::Endless)
}

/// Answers all whole lines of `feed`, and adds their number to `answers`. `opened` are the places of the channels whose secret was given.
fn answer<L: Ledgers, P: Link, C, G: Gate, K: Sink, D: Disk, B: Bell, R: Wait>(
    service: &Service<'_, L, C, G, K, D, B, R>,
    link: &mut P,
    pass: &mut Pass<L>,
    opened: &mut Vec<usize>,
    feed: &mut Feed,
    answers: &mut u64,
) -> Result<(), LinkFault>
    ensures faults { IsTrue result (P.failures link.old) (P.failures link.new) }
    ensures unread { P.inward link.new ≡ P.inward link.old }
    ensures other { IfErr result (λ fault. fault ≢ LinkFault.Endless) }
    ensures served { OnOk result ((taken : List ℕ) (start : Caller) (base : Option (List ℕ))
        → IsServing (origin service.now.hub.now service.now.secrets.now) taken feed.old start (caller pass.old opened.old.items) base (P.written link.old)
        → IsDrained (origin service.now.hub.now service.now.secrets.now) taken feed.new start (caller pass.new opened.new.items) base (P.written link.new)) }
    ensures broken { OnErr result ((taken : List ℕ) (start : Caller) (base : Option (List ℕ))
        → IsServing (origin service.now.hub.now service.now.secrets.now) taken feed.old start (caller pass.old opened.old.items) base (P.written link.old)
        → IsBroken (origin service.now.hub.now service.now.secrets.now) taken start pass.new base (P.written link.new)) }
{
    for _ in service.rt.forever() {
        let Some(line) = feed.next() else {
            return Ok(());
        };
        let (reply, token) = reply_to(service, pass, opened, &line)?;
        *answers = answers.saturating_add(1);
        service.gate.told(&reply);
        service.gate.before_answer(*answers);
        tell(service, link, &line, &reply, token)?;
    }
    unreachable!()
}

/// Sends `reply`, the answer to `line`, as a line. `token` is what it is sent with.
fn tell<L: Ledgers, P: Link, C, G, K, D, B, R>(
    service: &Service<'_, L, C, G, K, D, B, R>,
    link: &mut P,
    line: &Line<'_>,
    reply: &Told,
    token: Option<Token>,
) -> Result<(), LinkFault>
    requires kept { HasToken service.now.spools (place_in service.now.hub.now (meant line.now)) reply.now token }
    ensures faults { IsTrue result (P.failures link.old) (P.failures link.new) }
    ensures unread { P.inward link.new ≡ P.inward link.old }
    ensures other { IfErr result (λ fault. (fault ≢ LinkFault.Endless) × (fault ≢ LinkFault.Hub)) }
    ensures sent { OnOk result (Appends (P.written link.old) (P.written link.new) (reply_line reply.now)) }
    ensures cut { OnErr result (AppendsPrefix (P.written link.old) (P.written link.new) (reply_line reply.now)) }
{
    let text = reply_text(service.alloc, reply)?;
    match write_all(link, text.as_bytes()) {
        Ok(()) => Ok(()),
        Err(_) => Err(LinkFault::Write),
    }
}

/// Returns the answer to `line`, and what it is sent with.
#[tactic(auto, using(crate::proofs::ChannelLemmas::told_without, crate::proofs::ChannelLemmas::remembered_without, crate::proofs::ChannelLemmas::token_in))]
fn reply_to<L: Ledgers, C, G: Gate, K: Sink, D: Disk, B: Bell, R: Wait>(
    service: &Service<'_, L, C, G, K, D, B, R>,
    pass: &mut Pass<L>,
    opened: &mut Vec<usize>,
    line: &Line<'_>,
) -> Result<(Told, Option<Token>), LinkFault>
    ensures own { IsOwn result }
    ensures right { IfOk result (λ told. IsTold (origin service.now.hub.now service.now.secrets.now) (caller pass.old opened.old.items) pass.new.history (meant line.now) told.0) }
    ensures remembered { IfOk result (λ told. caller pass.new opened.new.items
        ≡ caller_after (origin service.now.hub.now service.now.secrets.now) (meant line.now) told.0 pass.new.history (caller pass.old opened.old.items)) }
    ensures kept { IfOk result (λ told. HasToken service.now.spools (place_in service.now.hub.now (meant line.now)) told.0 told.1) }
    ensures unanswered { OnErr result (HasSeen pass.old pass.new) }
{
    match find(service, line) {
        Some((channel, settings)) => reply_in(service, pass, opened, channel, settings, line),
        None => Ok((Err(refusal_without(line)), None)),
    }
}

/// Returns the place and the settings of the channel that `line` is for; `None` if the hub has no channel of its name, or the line has none.
fn find<'s, L: Ledgers, C, G, K, D, B, R>(
    service: &'s Service<'_, L, C, G, K, D, B, R>,
    line: &Line<'_>,
) -> Option<(usize, &'s Settings)>
    ensures { MatchOption result (channel_in service.now.hub.now (meant line.now) ≡ None)
        (λ f. channel_in service.now.hub.now (meant line.now) ≡ Some (f.0, f.1.now)) }
{
    match line {
        Line::Item(name, _, _) => service.hub.find(name),
        Line::At(name, _) => service.hub.find(name),
        Line::Bad | Line::TooLong | Line::MediaTooLong => None,
    }
}

/// Returns why `line` is refused, which is for no channel of the hub.
fn refusal_without(line: &Line<'_>) -> Refusal
    ensures { (channels : List Configuration) → channel_in channels (meant line.now) ≡ None → refused_before channels (meant line.now) ≡ Some result }
{
    match line {
        Line::Item(_, _, bytes) if Payload::of_bytes(bytes).is_none() => Refusal::MediaTooLong,
        Line::Item(..) | Line::At(..) => Refusal::UnknownChannel,
        Line::Bad => Refusal::BadLine,
        Line::TooLong => Refusal::LineTooLong,
        Line::MediaTooLong => Refusal::MediaTooLong,
    }
}

/// Returns the answer to `line`, which is for the channel at place `channel` with the settings `settings`, and what it is sent with. The line
/// is read unless the channel has a secret and isn't among those at the places `opened`; one that gives the secret adds the channel to these.
fn reply_in<L: Ledgers, C, G: Gate, K: Sink, D: Disk, B: Bell, R: Wait>(
    service: &Service<'_, L, C, G, K, D, B, R>,
    pass: &mut Pass<L>,
    opened: &mut Vec<usize>,
    channel: usize,
    settings: &Settings,
    line: &Line<'_>,
) -> Result<(Told, Option<Token>), LinkFault>
    requires known { channel_in service.now.hub.now (meant line.now) ≡ Some (channel, settings.now) }
    ensures own { IsOwn result }
    ensures right { IfOk result (λ told. IsTold (origin service.now.hub.now service.now.secrets.now) (caller pass.old opened.old.items) pass.new.history (meant line.now) told.0) }
    ensures remembered { IfOk result (λ told. caller pass.new opened.new.items
        ≡ caller_after (origin service.now.hub.now service.now.secrets.now) (meant line.now) told.0 pass.new.history (caller pass.old opened.old.items)) }
    ensures kept { IfOk result (λ told. HasToken service.now.spools (Some channel) told.0 told.1) }
    ensures unanswered { OnErr result (HasSeen pass.old pass.new) }
{
    match decide(service, opened, channel, line) {
        Passage::Passes => publish(service, pass, channel, settings, line),
        Passage::Opens(channel) => {
            if opened.push(channel).is_err() {
                return Err(LinkFault::Memory);
            }
            service.gate.opened(channel);
            Ok((Ok(Success::Opened), None))
        }
        Passage::Stays(channel) => {
            let refusal = Refusal::NotAllowed;
            service.gate.published(channel, Err(refusal));
            Ok((Err(refusal), None))
        }
    }
}

/// Publishes the item that `line` announces in the channel at place `channel` with the settings `settings`, or looks up the place that it
/// asks for there. Returns the answer to the line, and what it is sent with.
fn publish<L: Ledgers, C, G: Gate, K: Sink, D: Disk, B: Bell, R: Wait>(
    service: &Service<'_, L, C, G, K, D, B, R>,
    pass: &mut Pass<L>,
    channel: usize,
    settings: &Settings,
    line: &Line<'_>,
) -> Result<(Told, Option<Token>), LinkFault>
    requires known { channel_in service.now.hub.now (meant line.now) ≡ Some (channel, settings.now) }
    ensures own { IsOwn result }
    ensures right { IfOk result (λ told. IsReplyTo service.now.hub.now pass.old pass.new.history (meant line.now) told.0) }
    ensures passed { IfOk result (λ told. pass.new ≡ heard service.now.hub.now (meant line.now) told.0 pass.new.history pass.old) }
    ensures kept { IfOk result (λ told. HasToken service.now.spools (Some channel) told.0 told.1) }
    ensures unanswered { OnErr result (HasSeen pass.old pass.new) }
{
    match line {
        Line::Item(_, text, bytes) => publish_bytes(service, pass, channel, settings, text, bytes),
        Line::At(_, rendition) => Ok((place(service, pass, channel, settings, rendition)?, None)),
        Line::Bad | Line::TooLong | Line::MediaTooLong => unreachable!(),
    }
}

/// Returns where the rendition named `rendition` of the channel at place `channel` with the settings `settings` stands, or why the line is
/// refused.
#[tactic(auto, using(crate::proofs::AnswerLemmas::place_found, crate::proofs::AnswerLemmas::place_refused))]
fn place<L: Ledgers, C, G, K, D, B, R: Wait>(
    service: &Service<'_, L, C, G, K, D, B, R>,
    pass: &mut Pass<L>,
    channel: usize,
    settings: &Settings,
    rendition: &str,
) -> Result<Told, LinkFault>
    ensures own { IsOwn result }
    ensures right { (name : List ℕ) → channel_of_name service.now.hub.now 0 name ≡ Some (channel, settings.now)
        → IfOk result (IsReplyTo service.now.hub.now pass.old pass.new.history (says.At name rendition.now)) }
    ensures passed { IfOk result (λ told. pass.new ≡ heard_at channel told pass.new.history pass.old) }
    ensures unanswered { OnErr result (HasSeen pass.old pass.new) }
{
    match named(settings, rendition) {
        Ok(index) => match service.hub.standing(service.rt, pass, channel, index) {
            Ok(Some(standing)) => Ok(Ok(Success::Standing(standing))),
            Ok(None) | Err(_) => Err(LinkFault::Hub),
        },
        Err(fault) => Ok(Err(Refusal::from(fault))),
    }
}

/// Publishes the item that is spelled `text` and has the media `bytes`, in the channel at place `channel` with the settings `settings`, unless
/// these are more than an item may have, and keeps it. Returns the answer to its line, and what it is sent with.
fn publish_bytes<L: Ledgers, C, G: Gate, K: Sink, D: Disk, B: Bell, R: Wait>(
    service: &Service<'_, L, C, G, K, D, B, R>,
    pass: &mut Pass<L>,
    channel: usize,
    settings: &Settings,
    text: &str,
    bytes: &[u8],
) -> Result<(Told, Option<Token>), LinkFault>
    requires known { slice_get service.now.hub.now channel ≡ Some settings.now }
    ensures own { IsOwn result }
    ensures right { (name : List ℕ) → channel_of_name service.now.hub.now 0 name ≡ Some (channel, settings.now)
        → IfOk result (λ told. IsReplyTo service.now.hub.now pass.old pass.new.history (says.Item name text.now bytes.now) told.0) }
    ensures passed { IfOk result (λ told. pass.new ≡ heard_at channel told.0 pass.new.history pass.old) }
    ensures kept { IfOk result (λ told. HasToken service.now.spools (Some channel) told.0 told.1) }
    ensures unanswered { OnErr result (HasSeen pass.old pass.new) }
{
    match Payload::of_bytes(bytes) {
        Some(payload) => publish_and_keep(service, pass, channel, settings, text, &payload),
        None => Ok((Err(Refusal::MediaTooLong), None)),
    }
}

/// Publishes the item that is spelled `text` and has the media `payload`, in the channel at place `channel` with the settings `settings`, and
/// keeps it. Returns the answer to its line, and what it is sent with.
#[tactic(auto, using(crate::proofs::KeptLemmas::settled_reply, crate::proofs::KeptLemmas::settled_heard, crate::proofs::KeptLemmas::accepted_item))]
fn publish_and_keep<L: Ledgers, C, G: Gate, K: Sink, D: Disk, B: Bell, R: Wait>(
    service: &Service<'_, L, C, G, K, D, B, R>,
    pass: &mut Pass<L>,
    channel: usize,
    settings: &Settings,
    text: &str,
    payload: &Payload<'_>,
) -> Result<(Told, Option<Token>), LinkFault>
    requires known { slice_get service.now.hub.now channel ≡ Some settings.now }
    requires small { nat_le (length payload.now) media_limit ≡ true }
    ensures own { IsOwn result }
    ensures right { (name : List ℕ) → channel_of_name service.now.hub.now 0 name ≡ Some (channel, settings.now)
        → IfOk result (λ told. IsReplyTo service.now.hub.now pass.old pass.new.history (says.Item name text.now payload.now) told.0) }
    ensures passed { IfOk result (λ told. pass.new ≡ heard_at channel told.0 pass.new.history pass.old) }
    ensures kept { IfOk result (λ told. HasToken service.now.spools (Some channel) told.0 told.1) }
    ensures unanswered { OnErr result (HasSeen pass.old pass.new) }
{
    let mut turn = service.turn(channel, settings)?;
    let answer = publish_item(service, pass, &turn, text, payload)?;
    Ok(settle(&mut turn, answer))
}

/// Publishes the item that is spelled `text` and has the media `payload`, in the channel of the turn `turn`, and reports the answer. If the
/// record of the channel is full, hands that out and publishes the item once more. Returns the last answer.
fn publish_item<L: Ledgers, C, G: Gate, K: Sink, D, B: Bell, R: Wait>(
    service: &Service<'_, L, C, G, K, D, B, R>,
    pass: &mut Pass<L>,
    turn: &Turn<'_, D>,
    text: &str,
    payload: &Payload<'_>,
) -> Result<Published, LinkFault>
    requires known { slice_get service.now.hub.now turn.now.place ≡ Some turn.now.settings }
    ensures own { IsOwn result }
    ensures refused { (fault : ItemFault) → item_in turn.now.settings text.now payload.now ≡ Err fault → result ≡ Ok (Err (item_refusal fault)) }
    ensures told { IfOk result (IsAnswerAt turn.now.settings turn.now.place pass.old pass.new.history text.now payload.now) }
    ensures passed { IfOk result (λ answer. IsHeardAt turn.now.place answer pass.old pass.new) }
    ensures unanswered { OnErr result (HasSeen pass.old pass.new) }
{
    match publish_to(service, pass, turn, text, payload) {
        Ok((answer, _)) => {
            report(service, turn.channel(), &answer);
            Ok(answer)
        }
        Err(fault) => Err(fault),
    }
}

/// Publishes the item that is spelled `text` and has the media `payload`, in the channel of the turn `turn`. If the record of the channel is
/// full, hands that out and publishes the item once more. Returns the last answer, and whether the record was handed out.
fn publish_to<L: Ledgers, C, G: Gate, K: Sink, D, B: Bell, R: Wait>(
    service: &Service<'_, L, C, G, K, D, B, R>,
    pass: &mut Pass<L>,
    turn: &Turn<'_, D>,
    text: &str,
    payload: &Payload<'_>,
) -> Result<(Published, Option<HandedOut>), LinkFault>
    requires known { slice_get service.now.hub.now turn.now.place ≡ Some turn.now.settings }
    ensures own { IsOwn result }
    ensures refused { (fault : ItemFault) → item_in turn.now.settings text.now payload.now ≡ Err fault → result ≡ Ok (Err (item_refusal fault), None) }
    ensures full { IfOk result (λ told. told.0 ≡ Err (Refusal.Rule PublishFault.RecordFull) → told.1 ≡ Some turn.now.place) }
    ensures told { IfOk result (λ told. IsAnswerAt turn.now.settings turn.now.place pass.old pass.new.history text.now payload.now told.0) }
    ensures passed { IfOk result (λ told. IsHeardAt turn.now.place told.0 pass.old pass.new) }
    ensures unanswered { OnErr result (HasSeen pass.old pass.new) }
{
    let first = publish_once(service, pass, turn, text, payload)?;
    publish_again(service, pass, turn, text, payload, first)
}

/// Returns `first`, the answer to an item, unless it says that the record of the channel of the turn `turn` is full; then hands that out, and
/// publishes the item again. `before` is the pass before the first answer.
fn publish_again<L: Ledgers, C, G: Gate, K: Sink, D, B: Bell, R: Wait>(
    service: &Service<'_, L, C, G, K, D, B, R>,
    pass: &mut Pass<L>,
    turn: &Turn<'_, D>,
    text: &str,
    payload: &Payload<'_>,
    first: Published,
) -> Result<(Published, Option<HandedOut>), LinkFault>
    requires known { slice_get service.now.hub.now turn.now.place ≡ Some turn.now.settings }
    ensures own { IsOwn result }
    ensures kept { first ≢ Err (Refusal.Rule PublishFault.RecordFull) → result ≡ Ok (first, None) }
    ensures full { IfOk result (λ told. told.0 ≡ Err (Refusal.Rule PublishFault.RecordFull) → told.1 ≡ Some turn.now.place) }
    ensures told { (before : PassValue) → IsHeardAt turn.now.place first before pass.old → IsAnswerAt turn.now.settings turn.now.place before pass.old.history text.now payload.now first
        → IfOk result (λ told. IsAnswerAt turn.now.settings turn.now.place before pass.new.history text.now payload.now told.0) }
    ensures passed { (before : PassValue) → IsHeardAt turn.now.place first before pass.old → IfOk result (λ told. IsHeardAt turn.now.place told.0 before pass.new) }
    ensures unanswered { (before : PassValue) → IsHeardAt turn.now.place first before pass.old → OnErr result (HasSeen before pass.new) }
{
    if !is_full(&first) {
        return Ok((first, None));
    }
    drop(first);
    let handed = service.hand_out(pass, turn.channel())?;
    let second = publish_once(service, pass, turn, text, payload)?;
    Ok((second, Some(handed)))
}

/// Reports the answer to an item of the channel at place `channel` to the gate.
fn report<L: Ledgers, C, G: Gate, K, D, B, R>(
    service: &Service<'_, L, C, G, K, D, B, R>,
    channel: usize,
    answer: &Published,
) {
    match answer {
        Ok(mark) => {
            if let Stamp::Publish(item) = mark.stamp() {
                service.gate.published(channel, Ok(item));
            }
        }
        Err(reason) => service.gate.published(channel, Err(*reason)),
    }
}

/// Returns whether an item was refused because the record of its channel is full.
fn is_full(answer: &Published) -> bool
    ensures { Decides result (answer.now ≡ Err (Refusal.Rule PublishFault.RecordFull)) }
{
    match answer {
        Ok(_) => false,
        Err(reason) => *reason == Refusal::Rule(PublishFault::RecordFull),
    }
}

/// Publishes the item that is spelled `text` and has the media `payload`, in the channel of the turn `turn`, and returns the answer.
fn publish_once<L: Ledgers, C, G, K, D, B: Bell, R: Wait>(
    service: &Service<'_, L, C, G, K, D, B, R>,
    pass: &mut Pass<L>,
    turn: &Turn<'_, D>,
    text: &str,
    payload: &Payload<'_>,
) -> Result<Published, LinkFault>
    requires known { slice_get service.now.hub.now turn.now.place ≡ Some turn.now.settings }
    ensures own { IsOwn result }
    ensures refused { (fault : ItemFault) → item_in turn.now.settings text.now payload.now ≡ Err fault → result ≡ Ok (Err (item_refusal fault)) }
    ensures told { IfOk result (IsAnswerAt turn.now.settings turn.now.place pass.old pass.new.history text.now payload.now) }
    ensures passed { IfOk result (λ answer. IsHeardAt turn.now.place answer pass.old pass.new) }
    ensures unanswered { OnErr result (HasSeen pass.old pass.new) }
{
    let item = match Item::read(service.alloc, turn.settings(), text, payload) {
        Ok(item) => item,
        Err(fault) => return Ok(Err(Refusal::from(fault))),
    };
    let mut bell = *service.bell;
    match service
        .hub
        .publish(service.rt, &mut bell, pass, turn.channel(), item)
    {
        Ok(count) => Ok(Ok(count)),
        Err(fault) => Ok(Err(refusal(fault)?)),
    }
}

/// Returns the answer to an item that the hub refused with `fault`, or [`LinkFault::Hub`] if that ends the connection.
fn refusal(fault: HubFault) -> Result<Refusal, LinkFault>
    ensures own { IsOwn result }
    ensures answer { result ≡ refused_by fault }
{
    match fault {
        HubFault::Room {
            fault: RoomFault::Publish(fault),
            ..
        } => Ok(Refusal::from(fault)),
        _ => Err(LinkFault::Hub),
    }
}
