//! Reads a line of a script into the acts that it makes happen.
ghost use Rattle.std.specs.Prelude.{◌≡◌, ◌∷◌, [], IfOk, IsErrOf, IsSome, MatchOption, Ok, None, Some, codes, if◌then◌else◌, is_some, length, ℕ, List, Option};
ghost use Rattle.ll_attr.specs.Words.{after, words};
ghost use Rattle.ll_settings.specs.Channels.{channel_of_name};
ghost use Rattle.ll_directive.specs.Targets.{WantValue, want_in};
ghost use Rattle.ll_item.specs.Items.{item_in};
ghost use Rattle.ll_item.specs.Media.{zeros};
ghost use Rattle.ll_settings.specs.Settings.{Configuration, settings_in};
ghost use Rattle.ll_script.specs.Hex.{bytes_in_hex};
ghost use Rattle.ll_script.specs.Lines.{alone};
ghost use Rattle.ll_script.specs.Lines as spec;
ghost use Rattle.ll_script.specs.Reads.{IsRead};

use crate::act::{Act, Acts};
use crate::hexadecimal::{is_hex, read_hex};
use crate::piece::Received;
use ll_attr::{after, cut, parse_number};
use ll_directive::{TargetFault, named_channel, read_target};
use ll_item::{Item, Payload, named, told_bytes};
use ll_publish::{Line, Refusal};
use ll_settings::{Channels, Settings, SettingsFault};
use ll_verdict::{LAST_TIME, PublishFault};
use std::alloc::Global;
use std::str;

/// Why a line can't be read.
#[derive(Clone, Copy, Debug)]
pub enum LineFault {
    /// No script has this line in this place.
    BadLine,
    /// Out of memory.
    Memory,
}

/// Parses a line of a script, without its end, if `declared` are the channels so far and `last` is the number of the last request. It makes
/// one of these happen: a new channel, an item, a question where a rendition stands, a request, the end of one, readings of the clock, bytes
/// on a connection, the end of one; or nothing, if it is a comment or empty. An item or a request that is out of memory is an act too, a
/// refusal or an answer that says so; [`LineFault::Memory`] is for all other lines, if they are allowed in this place.
pub fn read_line(
    alloc: Global,
    declared: &Channels,
    last: Option<u64>,
    line: &[u8],
) -> Result<Acts, LineFault>
    ensures acts { IfOk result (λ a. spec.AreRead declared.now (spec.acts declared.now last line.now) a) }
    ensures bad { IsErrOf result LineFault.BadLine → spec.acts declared.now last line.now ≡ None }
    ensures memory { IsErrOf result LineFault.Memory → IsSome (spec.acts declared.now last line.now) }
{
    read_any(alloc, declared, last, line)
}

/// Parses any line.
fn read_any(
    alloc: Global,
    declared: &Channels,
    last: Option<u64>,
    line: &[u8],
) -> Result<Acts, LineFault>
    ensures { IsRead declared.now (spec.acts declared.now last line.now) result }
{
    if is_passed_over(line) {
        return Ok(Acts::None);
    }
    if let Some(text) = published(line) {
        return read_offer(alloc, declared, text);
    }
    match str::from_utf8(line) {
        Ok(text) => read_other(alloc, declared, last, text),
        Err(_) => Err(LineFault::BadLine),
    }
}

/// Returns whether a line is a comment or empty.
fn is_passed_over(line: &[u8]) -> bool
    ensures { result ≡ spec.is_passed_over line.now }
{
    match line {
        [] => true,
        [first, ..] => *first == b'#',
    }
}

/// Returns what follows `pub ` in a publisher's line, or `None` for any other line.
fn published(line: &[u8]) -> Option<&[u8]>
    ensures { MatchOption result (after (codes "pub ") line.now ≡ None) (λ text. after (codes "pub ") line.now ≡ Some text.now) }
{
    if line.starts_with(b"pub ") {
        Some(&line[4..])
    } else {
        None
    }
}

/// Parses a line that is no publisher's, nor a comment or empty.
fn read_other(
    alloc: Global,
    declared: &Channels,
    last: Option<u64>,
    line: &str,
) -> Result<Acts, LineFault>
    ensures { IsRead declared.now (spec.begun (spec.kinds declared.now last) line.now
        (alone (spec.declaration declared.now (settings_in line.now)))) result }
{
    if let Some(text) = after(line, "get ") {
        return read_get(alloc, declared, last, text);
    }
    if let Some(text) = after(line, "close ") {
        return read_close(text);
    }
    if let Some(text) = after(line, "clock ") {
        return read_clock(text);
    }
    if let Some(text) = after(line, "bytes ") {
        return read_piece(alloc, text);
    }
    match after(line, "drop ") {
        Some(text) => read_drop(text),
        None => read_declaration(alloc, declared, line),
    }
}

/// Parses a publisher's line, which may have any length.
fn read_offer(alloc: Global, declared: &Channels, text: &[u8]) -> Result<Acts, LineFault>
    ensures { IsRead declared.now (Some (spec.offer declared.now text.now ∷ [])) result }
{
    match Line::of(text) {
        Line::Item(name, line, _) => read_announced(alloc, declared, name, line),
        Line::At(name, rendition) => Ok(Acts::One(read_at(declared, name, rendition))),
        Line::Bad => Ok(Acts::One(Act::Refuse(Refusal::BadLine))),
        Line::TooLong => Ok(Acts::One(Act::Refuse(Refusal::LineTooLong))),
        Line::MediaTooLong => Ok(Acts::One(Act::Refuse(Refusal::MediaTooLong))),
    }
}

/// Returns the act of a question where `rendition` of the channel `name` stands.
fn read_at(declared: &Channels, name: &str, rendition: &str) -> Act
    ensures { result ≡ spec.at_in (channel_of_name declared.now 0 name.now) rendition.now }
{
    let Some((place, settings)) = declared.find(name) else {
        return Act::Refuse(Refusal::UnknownChannel);
    };
    match named(settings, rendition) {
        Ok(rendition) => Act::At { place, rendition },
        Err(fault) => Act::Refuse(Refusal::from(fault)),
    }
}

/// Parses an item for the channel `name` from a line that may spell its bytes.
fn read_announced(
    alloc: Global,
    declared: &Channels,
    name: &str,
    line: &str,
) -> Result<Acts, LineFault>
    ensures { IsRead declared.now (Some (spec.offer_within (channel_of_name declared.now 0 name.now) (spec.without_bytes line.now) ∷ [])) result }
{
    match told_bytes(line) {
        Some((item, word)) if spells_bytes(word) => {
            read_spelled(alloc, declared, name, item, word)
        }
        _ => read_offered(alloc, declared, name, line, &Payload::none()),
    }
}

/// Returns whether `word` spells at least one byte, by two hexadecimal digits each.
fn spells_bytes(word: &str) -> bool
    ensures { result ≡ is_some (spec.bytes_spelled word.now) }
{
    !word.is_empty() && is_hex(word)
}

/// Parses an item for the channel `name`, with the bytes that `digits` spell. These are allocated only if they aren't too many, and out of
/// memory comes after all other faults.
fn read_spelled(
    alloc: Global,
    declared: &Channels,
    name: &str,
    line: &str,
    digits: &str,
) -> Result<Acts, LineFault>
    requires { IsSome (bytes_in_hex digits.now) }
    ensures { (media : List ℕ) → bytes_in_hex digits.now ≡ Some media
        → IsRead declared.now (Some (spec.offer_within (channel_of_name declared.now 0 name.now) (line.now, media) ∷ [])) result }
{
    let Some(blank) = Payload::of_length(digits.len() as u64 / 2) else {
        return Ok(Acts::One(Act::Refuse(Refusal::MediaTooLong)));
    };
    match read_hex(alloc, digits) {
        Ok(bytes) => read_with_bytes(alloc, declared, name, line, bytes.as_slice()),
        Err(_) => read_unkept(alloc, declared, name, line, &blank),
    }
}

/// Parses an item for the channel `name`, with these bytes.
fn read_with_bytes(
    alloc: Global,
    declared: &Channels,
    name: &str,
    line: &str,
    bytes: &[u8],
) -> Result<Acts, LineFault>
    ensures { IsRead declared.now (Some (spec.offer_within (channel_of_name declared.now 0 name.now) (line.now, bytes.now) ∷ [])) result }
{
    match Payload::of_bytes(bytes) {
        Some(payload) => read_offered(alloc, declared, name, line, &payload),
        None => Ok(Acts::One(Act::Refuse(Refusal::MediaTooLong))),
    }
}

/// Parses an item for the channel `name`, with this payload.
fn read_offered(
    alloc: Global,
    declared: &Channels,
    name: &str,
    line: &str,
    payload: &Payload<'_>,
) -> Result<Acts, LineFault>
    ensures { IsRead declared.now (Some (spec.offer_to (channel_of_name declared.now 0 name.now) (line.now, payload.now) ∷ [])) result }
{
    match declared.find(name) {
        Some((place, settings)) => read_item(alloc, place, settings, line, payload),
        None => Ok(Acts::One(Act::Refuse(Refusal::UnknownChannel))),
    }
}

/// Parses an item for the channel at `place`, which has `settings`.
fn read_item(
    alloc: Global,
    place: usize,
    settings: &Settings,
    line: &str,
    payload: &Payload<'_>,
) -> Result<Acts, LineFault>
    ensures { (channels : List Configuration) → IsRead channels (Some (spec.item_act place (item_in settings.now line.now payload.now) ∷ [])) result }
{
    match Item::read(alloc, settings, line, payload) {
        Ok(item) => Ok(Acts::One(Act::Offer { place, item })),
        Err(fault) => Ok(Acts::One(Act::Refuse(Refusal::from(fault)))),
    }
}

/// Refuses an item for the channel `name` whose bytes were out of memory; `blank` has as many zeros.
fn read_unkept(
    alloc: Global,
    declared: &Channels,
    name: &str,
    line: &str,
    blank: &Payload<'_>,
) -> Result<Acts, LineFault>
    ensures { (media : List ℕ) → blank.now ≡ zeros (length media)
        → IsRead declared.now (Some (spec.offer_to (channel_of_name declared.now 0 name.now) (line.now, media) ∷ [])) result }
{
    match declared.find(name) {
        Some((_, settings)) => refuse_unkept(alloc, settings, line, blank),
        None => Ok(Acts::One(Act::Refuse(Refusal::UnknownChannel))),
    }
}

/// Refuses an item whose bytes were out of memory: for the fault of its line by `settings`, or else for Memory.
fn refuse_unkept(
    alloc: Global,
    settings: &Settings,
    line: &str,
    blank: &Payload<'_>,
) -> Result<Acts, LineFault>
    ensures { (channels : List Configuration) (place : ℕ) (media : List ℕ) → blank.now ≡ zeros (length media)
        → IsRead channels (Some (spec.item_act place (item_in settings.now line.now media) ∷ [])) result }
{
    match Item::read(alloc, settings, line, blank).err() {
        Some(fault) => Ok(Acts::One(Act::Refuse(Refusal::from(fault)))),
        None => Ok(Acts::One(Act::Refuse(Refusal::Rule(PublishFault::Memory)))),
    }
}

/// Parses a request, whose number must be larger than `last`.
fn read_get(
    alloc: Global,
    declared: &Channels,
    last: Option<u64>,
    text: &str,
) -> Result<Acts, LineFault>
    ensures { IsRead declared.now (alone (spec.get_of declared.now last (words text.now))) result }
{
    match get_words(last, text) {
        Some((id, target)) => read_ask(alloc, declared, id, target),
        None => Err(LineFault::BadLine),
    }
}

/// Returns the number and the target of a request, or `None` if they are malformed or the number isn't larger than `last`.
fn get_words(last: Option<u64>, text: &str) -> Option<(u64, &str)>
    ensures { (channels : List Configuration) → MatchOption result (spec.get_of channels last (words text.now) ≡ None)
        (λ g. spec.get_of channels last (words text.now) ≡ Some (spec.ask channels g.0 (want_in g.1.now))) }
{
    let (id, target) = cut(text, ' ')?;
    if target.is_empty() {
        return None;
    }
    if cut(target, ' ').is_some() {
        return None;
    }
    let id = parse_number(id, 9)?;
    if last.is_some_and(|last| id <= last) {
        return None;
    }
    Some((id, target))
}

/// Returns what the request `id` for `target` makes happen.
fn read_ask(alloc: Global, declared: &Channels, id: u64, target: &str) -> Result<Acts, LineFault>
    ensures { IsRead declared.now (Some (spec.ask declared.now id (want_in target.now) ∷ [])) result }
{
    match read_target(alloc, target.as_bytes()) {
        Ok(want) => match declared.find(want.channel()) {
            Some((place, _)) => Ok(Acts::One(Act::Ask { id, place, want })),
            None => Ok(Acts::One(Act::Answer {
                id,
                fault: TargetFault::NotFound,
            })),
        },
        Err(TargetFault::Memory) => Ok(Acts::One(Act::Answer {
            id,
            fault: unread_fault(declared, target),
        })),
        Err(fault) => Ok(Acts::One(Act::Answer { id, fault })),
    }
}

/// Returns the answer to a request whose target was out of memory: NotFound if there is no such channel, else Memory.
fn unread_fault(declared: &Channels, target: &str) -> TargetFault
    ensures { (want : WantValue) → want_in target.now ≡ Ok want
        → result ≡ if is_some (channel_of_name declared.now 0 want.channel) then TargetFault.Memory else TargetFault.NotFound }
{
    match named_channel(target.as_bytes()) {
        Some(name) if declared.find(name).is_some() => TargetFault::Memory,
        _ => TargetFault::NotFound,
    }
}

/// Parses the end of a request.
fn read_close(text: &str) -> Result<Acts, LineFault>
    ensures { (channels : List Configuration) → IsRead channels (alone (spec.close_of text.now)) result }
{
    match parse_number(text, 9) {
        Some(id) => Ok(Acts::One(Act::Close(id))),
        None => Err(LineFault::BadLine),
    }
}

/// Parses a reading of the clock, in milliseconds.
fn read_clock(text: &str) -> Result<Acts, LineFault>
    ensures { (channels : List Configuration) → IsRead channels (spec.clock_of channels text.now) result }
{
    match parse_number(text, 20) {
        Some(ms) if ms <= LAST_TIME => Ok(Acts::Clock(ms)),
        Some(_) => Ok(Acts::One(Act::RefuseClock)),
        None => Err(LineFault::BadLine),
    }
}

/// Parses bytes that came on a connection.
fn read_piece(alloc: Global, text: &str) -> Result<Acts, LineFault>
    ensures { (channels : List Configuration) → IsRead channels (alone (spec.bytes_of (words text.now))) result }
{
    let Some((number, hex)) = piece_words(text) else {
        return Err(LineFault::BadLine);
    };
    match read_hex(alloc, hex) {
        Ok(bytes) => Ok(Acts::One(Act::Bytes {
            number,
            piece: Received::new(bytes),
        })),
        Err(_) => Err(LineFault::Memory),
    }
}

/// Returns the number of a connection, and hexadecimal digits that spell at least one byte; `None` if they are malformed.
fn piece_words(text: &str) -> Option<(u64, &str)>
    ensures { MatchOption result (spec.bytes_of (words text.now) ≡ None)
        (λ g. IsSome (bytes_in_hex g.1.now) × (spec.bytes_of (words text.now) ≡ spec.bytes_by (Some g.0) (bytes_in_hex g.1.now))) }
{
    let (number, hex) = cut(text, ' ')?;
    if hex.is_empty() {
        return None;
    }
    if cut(hex, ' ').is_some() {
        return None;
    }
    let number = parse_number(number, 9)?;
    if is_hex(hex) {
        Some((number, hex))
    } else {
        None
    }
}

/// Parses the end of a connection.
fn read_drop(text: &str) -> Result<Acts, LineFault>
    ensures { (channels : List Configuration) → IsRead channels (alone (spec.drop_of text.now)) result }
{
    match parse_number(text, 9) {
        Some(number) => Ok(Acts::One(Act::Drop(number))),
        None => Err(LineFault::BadLine),
    }
}

/// Parses the settings of a new channel, whose name none of `declared` has.
fn read_declaration(alloc: Global, declared: &Channels, line: &str) -> Result<Acts, LineFault>
    ensures { IsRead declared.now (alone (spec.declaration declared.now (settings_in line.now))) result }
{
    if is_declared(declared, line) {
        return Err(LineFault::BadLine);
    }
    match Settings::read(alloc, line) {
        Ok(settings) => Ok(Acts::One(Act::Declare(settings))),
        Err(SettingsFault::Memory) => Err(LineFault::Memory),
        Err(_) => Err(LineFault::BadLine),
    }
}

/// Returns whether a settings line names a channel that is declared.
fn is_declared(declared: &Channels, line: &str) -> bool
    ensures { (c : Configuration) → settings_in line.now ≡ Ok c → result ≡ is_some (channel_of_name declared.now 0 c.channel) }
{
    match second_word(line) {
        Some(name) => declared.find(name).is_some(),
        None => false,
    }
}

/// Returns the second word of a line that has more words, which is the channel's name in a settings line.
fn second_word(line: &str) -> Option<&str>
    ensures { (c : Configuration) → settings_in line.now ≡ Ok c → MatchOption result ⊥ (λ name. name.now ≡ c.channel) }
{
    let (_, rest) = cut(line, ' ')?;
    let (name, _) = cut(rest, ' ')?;
    Some(name)
}
