//! How entries are written as lines in format 2, without a line's end. The lines of a reading, of a reply that is handed out and of a
//! request that is closed take no memory.
ghost use Rattle.std.specs.Prelude.{◌≡◌, ◌≤◌, ◌+◌, ◌++◌, IfOk, MatchOption, OnOk, codes, false, decimal, length, string_bytes};
ghost use Rattle.arrayvec.specs.ArrayString.{array_string_len};
ghost use Rattle.ll_directive.specs.Files.{file_name, is_playlist};
ghost use Rattle.ll_settings.specs.Settings.{Configuration};
ghost use Rattle.ll_item.specs.declared.what.What.TheVariants.{Playlist};
ghost use Rattle.ll_entry.specs.Lines as spec;
ghost use Rattle.ll_entry.specs.Lines.{IsSpelled, entry_line};
ghost use Rattle.ll_entry.specs.Replies.{count, kind, or_dash_text, or_held_text, outcome_text};
ghost use Rattle.ll_entry.specs.declared.version.Version.TheVariants.{Two};
ghost use Rattle.ll_entry.specs.declared.entry.Recorded.TheVariants as recorded;
ghost use Rattle.ll_item.specs.ItemLines.{IsTyped};
ghost use Rattle.ll_line.specs.Uris.{uri_text};

use arrayvec::ArrayString;
use itoa::Buffer;
use ll_directive::{Awaited, Want};
use ll_item::{Item, SkipKind, What};
use ll_line::Uri;
use ll_settings::Settings;
use ll_verdict::Outcome;
use std::alloc::{AllocError, Global};

/// The capacity for the line of a request, in bytes: none is longer.
const LINE: usize = 160;

/// The capacity for what follows the rendition's name in it, in bytes.
const PLACE: usize = 96;

/// Returns the line of an item that was accepted in a channel of `settings`; that of a part or of an initialization section ends with the number
/// of its bytes.
pub fn publish_line(alloc: Global, settings: &Settings, item: &Item) -> Result<String, AllocError>
    ensures text { IfOk result (λ t. string_bytes t ≡ entry_line settings.now (recorded.Publish item.now)) }
    ensures spelled { OnOk result (IsTyped item.now) }
{
    let mut line = String::with_capacity(alloc, LINE)?;
    line.push_str("P ")?;
    item.push_published_line(settings, &mut line)?;
    Ok(line)
}

/// Returns the line of the request `want` with the number `ask`, for a playlist or for media, and of its outcome at once; `held` for none.
pub fn ask_line(
    alloc: Global,
    ask: u64,
    want: &Want,
    outcome: Option<Outcome>,
) -> Result<String, AllocError>
    ensures text { (c : Configuration) → IfOk result (λ t. string_bytes t ≡ entry_line c (recorded.Ask ask want.now outcome)) }
    ensures spelled { (c : Configuration) → OnOk result (IsSpelled c (recorded.Ask ask (record want.now { channel = c.channel }) outcome)) }
{
    let (name, awaited, skip) = (want.rendition(), want.awaited(), want.skip());
    let Some(file) = uri_of(want.what()) else {
        let place = place_text(alloc, awaited, skip, outcome)?;
        return ask_text(alloc, ask, name, place.as_str());
    };
    media_text(alloc, ask, name, file, outcome)
}

/// Returns the name of a file of media; `None` for a playlist.
fn uri_of(what: What) -> Option<Uri<'static>>
    ensures name { MatchOption result (what ≡ Playlist) (λ file. (is_playlist what ≡ false) × (uri_text file ≡ file_name what)) }
    ensures within { spec.WhatWithin what }
{
    match what {
        What::Playlist => None,
        What::Segment(number) => Some(Uri::Segment { number }),
        What::Part(number, index) => Some(Uri::Part { number, index }),
        What::Init(number) => Some(Uri::Map { number }),
    }
}

/// Returns `M ASK RENDITION FILE REPLY`.
fn media_text(
    alloc: Global,
    ask: u64,
    rendition: &str,
    file: Uri<'_>,
    outcome: Option<Outcome>,
) -> Result<String, AllocError>
    ensures { IfOk result (λ t. string_bytes t ≡ codes "M " ++ (decimal ask ++ (codes " " ++ (rendition.now ++ (codes " "
        ++ (uri_text file.entry ++ (codes " " ++ or_held_text Two outcome))))))) }
{
    let reply = reply_text(outcome);
    let reply = reply.as_str();
    let mut text = String::with_capacity(alloc, LINE)?;
    write!(text, "M {ask} {rendition} {file} {reply}")?;
    Ok(text)
}

/// Returns `A ASK RENDITION PLACE`.
fn ask_text(alloc: Global, ask: u64, rendition: &str, place: &str) -> Result<String, AllocError>
    ensures { IfOk result (λ t. string_bytes t ≡ codes "A " ++ (decimal ask ++ (codes " " ++ (rendition.now ++ (codes " " ++ place.now))))) }
{
    let mut text = String::with_capacity(alloc, LINE)?;
    write!(text, "A {ask} {rendition} {place}")?;
    Ok(text)
}

/// Returns `MSN PART SKIP REPLY`.
fn place_text(
    alloc: Global,
    awaited: Awaited,
    skip: Option<SkipKind>,
    outcome: Option<Outcome>,
) -> Result<String, AllocError>
    ensures { IfOk result (λ t. string_bytes t ≡ or_dash_text count (spec.msn_of awaited) ++ (codes " "
        ++ (or_dash_text count (spec.part_of awaited) ++ (codes " " ++ (or_dash_text kind skip ++ (codes " " ++ or_held_text Two outcome)))))) }
{
    let (msn, part) = numbers_of(awaited);
    let (msn, part, reply) = (number_text(msn), number_text(part), reply_text(outcome));
    let (msn, part, skip, reply) = (
        msn.as_str(),
        part.as_str(),
        update_text(skip),
        reply.as_str(),
    );
    let mut text = String::with_capacity(alloc, PLACE)?;
    write!(text, "{msn} {part} {skip} {reply}")?;
    Ok(text)
}

/// Returns the line of a reading of the clock, in milliseconds.
pub fn clock_line(ms: u64) -> ArrayString<80>
    ensures text { (c : Configuration) → result.bytes ≡ entry_line c (recorded.Clock ms) }
    ensures spelled { (c : Configuration) → IsSpelled c (recorded.Clock ms) }
    ensures short { array_string_len result ≤ 79 }
{
    let mut line = ArrayString::new();
    line.push_str("C ");
    push_number(&mut line, ms);
    line
}

/// Returns the line of the reply to the request with the number `ask`, when it is handed out.
pub fn collect_line(ask: u64, outcome: Outcome) -> ArrayString<80>
    ensures text { (c : Configuration) → result.bytes ≡ entry_line c (recorded.Collect ask outcome) }
    ensures spelled { (c : Configuration) → IsSpelled c (recorded.Collect ask outcome) }
    ensures short { array_string_len result ≤ 79 }
{
    let mut line = ArrayString::new();
    line.push_str("G ");
    push_number(&mut line, ask);
    line.push_str(" ");
    push_outcome(&mut line, outcome);
    line
}

/// Returns the line of the request with the number `ask`, when it is closed.
pub fn close_line(ask: u64) -> ArrayString<80>
    ensures text { (c : Configuration) → result.bytes ≡ entry_line c (recorded.Close ask) }
    ensures spelled { (c : Configuration) → IsSpelled c (recorded.Close ask) }
    ensures short { array_string_len result ≤ 79 }
{
    let mut line = ArrayString::new();
    line.push_str("X ");
    push_number(&mut line, ask);
    line
}

/// Appends `n` to `line`.
fn push_number(line: &mut ArrayString<80>, n: u64)
    requires { array_string_len line.old ≤ 60 }
    ensures text { line.new.bytes ≡ line.old.bytes ++ decimal n }
    ensures len { array_string_len line.new ≤ array_string_len line.old + 20 }
{
    let mut digits = Buffer::new();
    line.push_str(digits.format(n));
}

/// Appends `outcome` to `line`.
fn push_outcome(line: &mut ArrayString<80>, outcome: Outcome)
    requires { array_string_len line.old ≤ 33 }
    ensures text { line.new.bytes ≡ line.old.bytes ++ outcome_text Two outcome }
    ensures len { array_string_len line.new ≤ array_string_len line.old + 47 }
{
    match outcome {
        Outcome::Text(n, update) => {
            line.push_str("text ");
            push_number(line, n);
            line.push_str(" ");
            line.push_str(update_text(update));
        }
        Outcome::Media(n, length) => {
            line.push_str("media ");
            push_number(line, n);
            line.push_str(" ");
            push_number(line, length);
        }
        Outcome::NotFound => line.push_str("notfound"),
        Outcome::TooFar => line.push_str("bad TooFar"),
        Outcome::Busy => line.push_str("busy"),
        Outcome::Timeout => line.push_str("timeout"),
    }
}

/// Returns the text of the outcome of a request at once; `held` for none.
fn reply_text(outcome: Option<Outcome>) -> ArrayString<80>
    ensures { result.bytes ≡ or_held_text Two outcome }
{
    let mut text = ArrayString::new();
    match outcome {
        Some(outcome) => push_outcome(&mut text, outcome),
        None => text.push_str("held"),
    }
    text
}

/// Returns the text of a number; `-` for none.
fn number_text(number: Option<u64>) -> ArrayString<80>
    ensures { result.bytes ≡ or_dash_text count number }
{
    let mut text = ArrayString::new();
    match number {
        Some(n) => push_number(&mut text, n),
        None => text.push_str("-"),
    }
    text
}

/// Returns the Media Sequence Number of what a request awaits, and the part's index in its segment.
fn numbers_of(awaited: Awaited) -> (Option<u64>, Option<u64>)
    ensures { result ≡ (spec.msn_of awaited, spec.part_of awaited) }
{
    match awaited {
        Awaited::Nothing => (None, None),
        Awaited::Segment(msn) => (Some(msn), None),
        Awaited::Part(msn, part) => (Some(msn), Some(part)),
    }
}

/// Returns the name of a kind of delta update; `-` for a full playlist.
fn update_text(update: Option<SkipKind>) -> &'static str
    ensures text { result.now ≡ or_dash_text kind update }
    ensures short { length result.now ≤ 3 }
{
    match update {
        None => "-",
        Some(SkipKind::Yes) => "YES",
        Some(SkipKind::V2) => "v2",
    }
}
