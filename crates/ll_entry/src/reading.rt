//! How lines are read as entries.
ghost use Rattle.std.specs.Prelude.{◌≡◌, ◌≢◌, ◌<◌, ◌≤◌, IfErr, IfOk, IsErrOf, IsOk, MatchOption, Ok, Err, IfSome, None, Some, [], is_some, true};
ghost use Rattle.std.specs.Option.{option_map};
ghost use Rattle.ll_settings.specs.Names.{is_name};
ghost use Rattle.ll_attr.specs.Words.{words};
ghost use Rattle.ll_entry.specs.Entries as spec;
ghost use Rattle.ll_entry.specs.Entries.{entry_in, publish_by, published};
ghost use Rattle.ll_item.specs.Items.{item_in};
ghost use Rattle.ll_item.specs.Media.{media_limit, zeros};

use crate::entry::{EntryFault, Recorded};
use crate::version::Version;
use crate::words::{awaited, count, or_dash, or_held, outcome, update};
use ll_attr::{Text, after, cut};
use ll_directive::{Want, media_file};
use ll_format::{number, until};
use ll_item::{Item, MEDIA_LIMIT, Payload, SkipKind, What, cut_last};
use ll_settings::{Settings, is_name};
use ll_verdict::Outcome;
use std::alloc::Global;

impl Recorded {
    /// Parses a line of the record of a channel with these settings: `P ITEM`, `A ASK RENDITION MSN PART SKIP REPLY`, `M ASK RENDITION FILE
    /// REPLY`, `C MILLISECONDS`, `G ASK REPLY` or `X ASK`. Returns the entry, or why there is none; Memory comes after the other faults.
    pub fn read(
        alloc: Global,
        version: Version,
        settings: &Settings,
        line: &str,
    ) -> Result<Recorded, EntryFault>
        ensures value { IfOk result (λ entry. entry_in version settings.now line.now ≡ Ok entry) }
        ensures refused { IfErr result (λ fault. fault ≢ EntryFault.Memory → entry_in version settings.now line.now ≡ Err fault) }
        ensures memory { IsErrOf result EntryFault.Memory → IsOk (entry_in version settings.now line.now) }
    {
        if let Some(text) = after(line, "P ") {
            return read_publish(alloc, version, settings, text);
        }
        if let Some(text) = after(line, "A ") {
            return read_ask(alloc, version, settings, text);
        }
        if let Some(text) = after(line, "M ") {
            return read_media(alloc, version, settings, text);
        }
        read_short(version, line).ok_or(EntryFault::BadLine)
    }
}

/// Parses `text` as an accepted item.
fn read_publish(
    alloc: Global,
    version: Version,
    settings: &Settings,
    text: &str,
) -> Result<Recorded, EntryFault>
    ensures value { IfOk result (λ entry. publish_by settings.now (spec.item_text version text.now) ≡ Ok entry) }
    ensures refused { IfErr result (λ fault. fault ≢ EntryFault.Memory → publish_by settings.now (spec.item_text version text.now) ≡ Err fault) }
    ensures memory { IsErrOf result EntryFault.Memory → IsOk (publish_by settings.now (spec.item_text version text.now)) }
{
    match item_text(version, text) {
        Some((text, length)) => read_item(alloc, settings, text, length),
        None => Err(EntryFault::BadLine),
    }
}

/// Parses `line` as an item with `length` bytes, in place of which it has zeros.
fn read_item(
    alloc: Global,
    settings: &Settings,
    line: &str,
    length: u64,
) -> Result<Recorded, EntryFault>
    requires few { length ≤ media_limit }
    ensures value { IfOk result (λ entry. published (item_in settings.now line.now (zeros length)) ≡ Ok entry) }
    ensures refused { IfErr result (λ fault. fault ≢ EntryFault.Memory → published (item_in settings.now line.now (zeros length)) ≡ Err fault) }
    ensures memory { IsErrOf result EntryFault.Memory → IsOk (published (item_in settings.now line.now (zeros length))) }
{
    let payload = Payload::of_length(length).unwrap();
    let item = Item::read(alloc, settings, line, &payload)?;
    Ok(Recorded::Publish(item))
}

/// Parses the line of an item, and the number of its bytes. In format 2 this number follows the line of a part and of an initialization
/// section; format 1 has no initialization sections, no finishes and no breaks that set a time, and no bytes of parts.
fn item_text(version: Version, text: &str) -> Option<(&str, u64)>
    ensures value { MatchOption result (spec.item_text version text.now ≡ None) (λ item. spec.item_text version text.now ≡ Some (item.0.now, item.1)) }
    ensures few { IfSome result (λ item. item.1 ≤ media_limit) }
{
    let is_init = after(text, "init ").is_some();
    match version {
        Version::One if is_init || after(text, "finish ").is_some() || is_timed_break(text) => None,
        Version::Two if is_init || after(text, "part ").is_some() => counted(text),
        _ => Some((text, 0)),
    }
}

/// Returns whether `text` is a break with more words than the name of its rendition.
fn is_timed_break(text: &str) -> bool
    ensures { result ≡ spec.is_timed_break text.now }
{
    match after(text, "break ") {
        Some(rest) => has_more(rest),
        None => false,
    }
}

/// Returns whether `text` has a word after the first.
#[tactic(auto, using(crate::proofs::Cuts::more_words))]
fn has_more(text: &str) -> bool
    ensures { result ≡ spec.has_more (words text.now) }
{
    match cut(text, ' ') {
        Some(_) => true,
        None => false,
    }
}

/// Parses the line of an item and the number of its bytes, if this follows the line.
fn counted(text: &str) -> Option<(&str, u64)>
    ensures value { MatchOption result (spec.counted text.now ≡ None) (λ item. spec.counted text.now ≡ Some (item.0.now, item.1)) }
    ensures few { IfSome result (λ item. item.1 ≤ media_limit) }
{
    let (text, length) = cut_last(text)?;
    Some((text, number(length, MEDIA_LIMIT)?))
}

/// Parses a reading, a reply that was handed out, or a request that was closed.
fn read_short(version: Version, line: &str) -> Option<Recorded>
    ensures { result ≡ spec.short_in version line.now }
{
    if let Some(text) = after(line, "C ") {
        return Some(Recorded::Clock(count(text)?));
    }
    if let Some(text) = after(line, "G ") {
        let (ask, outcome) = collect_fields(version, text)?;
        return Some(Recorded::Collect(ask, outcome));
    }
    Some(Recorded::Close(count(after(line, "X ")?)?))
}

/// Parses `ASK REPLY`.
fn collect_fields(version: Version, text: &str) -> Option<(u64, Outcome)>
    ensures { (spec.collect_fields version).read text.now ≡ option_map (λ r. ((r.0, r.1), [])) result }
{
    let (word, rest) = until(text, ' ');
    let ask = count(word)?;
    Some((ask, outcome(version, after(rest, " ")?)?))
}

/// Parses a request for a playlist, with its outcome at once.
fn read_ask(
    alloc: Global,
    version: Version,
    settings: &Settings,
    text: &str,
) -> Result<Recorded, EntryFault>
    ensures value { IfOk result (λ entry. spec.ask_in version settings.now text.now ≡ Some entry) }
    ensures refused { IfErr result (λ fault. fault ≢ EntryFault.Memory
        → (fault ≡ EntryFault.BadLine) × (spec.ask_in version settings.now text.now ≡ None)) }
    ensures memory { IsErrOf result EntryFault.Memory → is_some (spec.ask_in version settings.now text.now) ≡ true }
{
    let Some((ask, rendition, place)) = ask_fields(version, text) else {
        return Err(EntryFault::BadLine);
    };
    let (msn, part, skip, outcome) = place;
    let Some(awaited) = awaited(msn, part) else {
        return Err(EntryFault::BadLine);
    };
    let channel = Text::from_str(alloc, settings.channel())?;
    let rendition = Text::from_str(alloc, rendition)?;
    match Want::new(channel, rendition, awaited, version.asked_for(skip)) {
        Some(want) => Ok(Recorded::Ask(ask, want, outcome)),
        None => unreachable!(),
    }
}

/// What a request awaits of a rendition, which playlist it asks for, and its outcome at once.
type Place = (Option<u64>, Option<u64>, Option<SkipKind>, Option<Outcome>);

/// Parses `ASK RENDITION MSN PART SKIP REPLY`.
fn ask_fields(version: Version, text: &str) -> Option<(u64, &str, Place)>
    ensures value { (spec.ask_fields version).read text.now ≡ option_map (λ r. ((r.0, (r.1.now, (r.2.0, (r.2.1, (r.2.2, r.2.3))))), [])) result }
    ensures named { IfSome result (λ r. is_name r.1.now ≡ true) }
{
    let (word, rest) = until(text, ' ');
    let ask = count(word)?;
    let (name, rest) = until(after(rest, " ")?, ' ');
    if !is_name(name) {
        return None;
    }
    Some((ask, name, place_fields(version, after(rest, " ")?)?))
}

/// Parses `MSN PART SKIP REPLY`.
fn place_fields(version: Version, text: &str) -> Option<Place>
    ensures { (spec.place_fields version).read text.now ≡ option_map (λ r. ((r.0, (r.1, (r.2, r.3))), [])) result }
{
    let (word, rest) = until(text, ' ');
    let msn = or_dash(word)?;
    let (word, rest) = until(after(rest, " ")?, ' ');
    let part = or_dash(word)?;
    let (skip, outcome) = reply_fields(version, after(rest, " ")?)?;
    Some((msn, part, skip, outcome))
}

/// Parses `SKIP REPLY`.
fn reply_fields(version: Version, text: &str) -> Option<(Option<SkipKind>, Option<Outcome>)>
    ensures { (spec.reply_fields version).read text.now ≡ option_map (λ r. ((r.0, r.1), [])) result }
{
    let (word, rest) = until(text, ' ');
    let skip = update(word)?;
    Some((skip, or_held(version, after(rest, " ")?)?))
}

/// Parses a request for media, with its outcome at once. Format 1 has no such requests.
fn read_media(
    alloc: Global,
    version: Version,
    settings: &Settings,
    text: &str,
) -> Result<Recorded, EntryFault>
    ensures value { IfOk result (λ entry. spec.media_in version settings.now text.now ≡ Some entry) }
    ensures refused { IfErr result (λ fault. fault ≢ EntryFault.Memory
        → (fault ≡ EntryFault.BadLine) × (spec.media_in version settings.now text.now ≡ None)) }
    ensures memory { IsErrOf result EntryFault.Memory → is_some (spec.media_in version settings.now text.now) ≡ true }
{
    if version == Version::One {
        return Err(EntryFault::BadLine);
    }
    let Some((ask, rendition, what, outcome)) = media_fields(text) else {
        return Err(EntryFault::BadLine);
    };
    let channel = Text::from_str(alloc, settings.channel())?;
    let rendition = Text::from_str(alloc, rendition)?;
    match Want::media(channel, rendition, what) {
        Some(want) => Ok(Recorded::Ask(ask, want, outcome)),
        None => unreachable!(),
    }
}

/// Parses `ASK RENDITION FILE REPLY`.
fn media_fields(text: &str) -> Option<(u64, &str, What, Option<Outcome>)>
    ensures value { spec.media_fields.read text.now ≡ option_map (λ r. ((r.0, (r.1.now, (r.2, r.3))), [])) result }
    ensures named { IfSome result (λ r. is_name r.1.now ≡ true) }
{
    let (word, rest) = until(text, ' ');
    let ask = count(word)?;
    let (name, rest) = until(after(rest, " ")?, ' ');
    if !is_name(name) {
        return None;
    }
    let (what, outcome) = file_fields(after(rest, " ")?)?;
    Some((ask, name, what, outcome))
}

/// Parses `FILE REPLY`.
fn file_fields(text: &str) -> Option<(What, Option<Outcome>)>
    ensures { spec.file_fields.read text.now ≡ option_map (λ r. ((r.0, r.1), [])) result }
{
    let (word, rest) = until(text, ' ');
    let what = media_file(word)?;
    Some((what, or_held(Version::Two, after(rest, " ")?)?))
}
