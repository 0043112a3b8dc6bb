//! Parsing of item lines.
ghost use Rattle.std.specs.Prelude.{◌≡◌, ◌≢◌, ◌∷◌, [], ℕ, List, MatchOption, IfOk, IfErr, IsOk, IsErrOf, Ok, Err};
ghost use Rattle.ll_attr.specs.Attributes.{attributes_in};
ghost use Rattle.ll_attr.specs.Words.{words};
ghost use Rattle.ll_settings.specs.Settings.{Configuration};
ghost use Rattle.ll_item.specs.Items.{item_in, part_in, alone_in, flags_in, range_in, unrange_in};
ghost use Rattle.ll_item.specs.Items as spec;

use crate::item::{Item, ItemFault, PartItem};
use crate::media::{Media, Payload};
use crate::naming::named;
use ll_attr::{
    AttrFault, AttrList, AttrValue, Attribute, Text, after, cut, one_word, parse_number,
};
use ll_settings::Settings;
use std::alloc::Global;

/// The last millisecond of the year 9999, counted from 1970-01-01T00:00:00Z.
const LAST_MILLI: u64 = 253_402_300_799_999;

impl Item {
    /// Parses the item that `line` spells and that has the bytes of `payload`. The line is one of
    ///
    /// - `part RENDITION MICROSECONDS FLAGS`; the flags are `-` for none, `i` for independent, `f` for finishing its segment, or `if`;
    /// - `init RENDITION`;
    /// - `finish RENDITION`;
    /// - `break RENDITION`, or `break RENDITION MILLISECONDS`, at most the last of the year 9999;
    /// - `range RENDITION LIST`: the list is the rest of the line, an attribute list that begins with a quoted ID (section 4.4.5.1);
    /// - `unrange RENDITION ID`: the ID is the rest of the line;
    /// - `end RENDITION`.
    ///
    /// # Errors
    ///
    /// `BadLine` if the line has none of these forms, or `payload` isn't empty and the form is neither `part` nor `init`; else `NoRendition` if
    /// the channel has no rendition of that name; else `BadAttribute` if the list is no such list; else `Memory`.
    pub fn read(
        alloc: Global,
        settings: &Settings,
        line: &str,
        payload: &Payload<'_>,
    ) -> Result<Item, ItemFault>
        ensures value { IfOk result (λ item. item_in settings.now line.now payload.now ≡ Ok item) }
        ensures refused { IfErr result (λ fault. fault ≢ ItemFault.Memory → item_in settings.now line.now payload.now ≡ Err fault) }
        ensures memory { IsErrOf result ItemFault.Memory → IsOk (item_in settings.now line.now payload.now) }
    {
        let Some((kind, rest)) = cut(line, ' ') else {
            return Err(ItemFault::BadLine);
        };
        if kind == "part" {
            read_part(alloc, settings, rest, payload)
        } else if kind == "init" {
            read_init(alloc, settings, rest, payload)
        } else if payload.is_empty() {
            read_bare(alloc, settings, kind, rest)
        } else {
            Err(ItemFault::BadLine)
        }
    }
}

/// Parses an item without bytes, whose line is `kind`, a space and `rest`.
fn read_bare(alloc: Global, settings: &Settings, kind: &str, rest: &str) -> Result<Item, ItemFault>
    ensures value { IfOk result (λ item. spec.bare_of settings.now kind.now (words rest.now) ≡ Ok item) }
    ensures refused { IfErr result (λ fault. fault ≢ ItemFault.Memory → spec.bare_of settings.now kind.now (words rest.now) ≡ Err fault) }
    ensures memory { IsErrOf result ItemFault.Memory → IsOk (spec.bare_of settings.now kind.now (words rest.now)) }
{
    if kind == "break" {
        read_break(settings, rest)
    } else if kind == "finish" {
        let rendition = read_alone(settings, rest)?;
        Ok(Item::Finish { rendition })
    } else if kind == "range" {
        read_range(alloc, settings, rest)
    } else if kind == "unrange" {
        read_unrange(alloc, settings, rest)
    } else if kind == "end" {
        let rendition = read_alone(settings, rest)?;
        Ok(Item::End { rendition })
    } else {
        Err(ItemFault::BadLine)
    }
}

/// Parses a break of the rendition that the first word of `text` names; a second word is its time.
fn read_break(settings: &Settings, text: &str) -> Result<Item, ItemFault>
    ensures value { result ≡ spec.break_in settings.now (words text.now) }
    ensures not_memory { IfErr result (λ fault. fault ≢ ItemFault.Memory) }
{
    let Some((name, time)) = cut(text, ' ') else {
        let rendition = named(settings, text)?;
        return Ok(Item::Break {
            rendition,
            time: None,
        });
    };
    let Some(time) = one_word(time) else {
        return Err(ItemFault::BadLine);
    };
    let Some(time) = break_time(time) else {
        return Err(ItemFault::BadLine);
    };
    let rendition = named(settings, name)?;
    Ok(Item::Break {
        rendition,
        time: Some(time),
    })
}

/// Parses the time of a break: milliseconds up to the end of the year 9999, in 1 to 15 digits without leading zeros.
fn break_time(text: &str) -> Option<u64>
    ensures { result ≡ spec.time_in text.now }
{
    if leads_with_zero(text) {
        return None;
    }
    match parse_number(text, 15) {
        Some(ms) if ms <= LAST_MILLI => Some(ms),
        _ => None,
    }
}

/// Returns whether `text` begins with a zero and has more than one character.
fn leads_with_zero(text: &str) -> bool
    ensures { result ≡ spec.leads_with_zero text.now }
{
    matches!(text.as_bytes(), [b'0', _, ..])
}

/// Parses a part. The words of `text` are its rendition, duration and flags.
fn read_part(
    alloc: Global,
    settings: &Settings,
    text: &str,
    payload: &Payload<'_>,
) -> Result<Item, ItemFault>
    ensures value { IfOk result (λ item. part_in settings.now (words text.now) payload.now ≡ Ok item) }
    ensures refused { IfErr result (λ fault. fault ≢ ItemFault.Memory → part_in settings.now (words text.now) payload.now ≡ Err fault) }
    ensures memory { IsErrOf result ItemFault.Memory → IsOk (part_in settings.now (words text.now) payload.now) }
{
    let Some((name, duration, flags)) = part_words(text) else {
        return Err(ItemFault::BadLine);
    };
    let Some(duration) = parse_number(duration, 20) else {
        return Err(ItemFault::BadLine);
    };
    let Some((independent, finish)) = part_flags(flags) else {
        return Err(ItemFault::BadLine);
    };
    let rendition = named(settings, name)?;
    Ok(Item::Part(PartItem {
        rendition,
        duration,
        independent,
        finish,
        media: Media::new(alloc, payload)?,
    }))
}

/// Parses an initialization section of the rendition called `text`.
fn read_init(
    alloc: Global,
    settings: &Settings,
    text: &str,
    payload: &Payload<'_>,
) -> Result<Item, ItemFault>
    ensures value { IfOk result (λ item. spec.init_at (alone_in settings.now (words text.now)) payload.now ≡ Ok item) }
    ensures refused { IfErr result (λ fault. fault ≢ ItemFault.Memory → spec.init_at (alone_in settings.now (words text.now)) payload.now ≡ Err fault) }
    ensures memory { IsErrOf result ItemFault.Memory → IsOk (spec.init_at (alone_in settings.now (words text.now)) payload.now) }
{
    let rendition = read_alone(settings, text)?;
    Ok(Item::Init {
        rendition,
        media: Media::new(alloc, payload)?,
    })
}

/// Splits `text` into the rendition's name, the duration and the flags of a part. Returns `None` if it isn't three words.
fn part_words(text: &str) -> Option<(&str, &str, &str)>
    ensures { (c : Configuration) (media : List ℕ) → MatchOption result (part_in c (words text.now) media ≡ Err ItemFault.BadLine)
        (λ w. words text.now ≡ w.0.now ∷ w.1.now ∷ w.2.now ∷ []) }
{
    let (name, rest) = cut(text, ' ')?;
    let (duration, rest) = cut(rest, ' ')?;
    Some((name, duration, one_word(rest)?))
}

/// Parses the flags of a part: whether it is independent, and whether it finishes its segment.
fn part_flags(text: &str) -> Option<(bool, bool)>
    ensures { result ≡ flags_in text.now }
{
    if text == "-" {
        Some((false, false))
    } else if text == "i" {
        Some((true, false))
    } else if text == "f" {
        Some((false, true))
    } else if text == "if" {
        Some((true, true))
    } else {
        None
    }
}

/// Parses a date range. `text` is the rendition's name, a space and an attribute list.
#[tactic(auto, using(crate::proofs::RangeLines::range_words))]
fn read_range(alloc: Global, settings: &Settings, text: &str) -> Result<Item, ItemFault>
    ensures value { IfOk result (λ item. range_in settings.now (words text.now) ≡ Ok item) }
    ensures refused { IfErr result (λ fault. fault ≢ ItemFault.Memory → range_in settings.now (words text.now) ≡ Err fault) }
    ensures memory { IsErrOf result ItemFault.Memory → IsOk (range_in settings.now (words text.now)) }
{
    let Some((name, list)) = cut(text, ' ') else {
        return Err(ItemFault::BadLine);
    };
    let rendition = named(settings, name)?;
    range_from(alloc, rendition, list)
}

/// Parses a date range of `rendition`, which `text` spells as an attribute list.
#[tactic(auto, using(crate::proofs::RangeLines::begins_otherwise))]
fn range_from(alloc: Global, rendition: usize, text: &str) -> Result<Item, ItemFault>
    ensures value { IfOk result (λ item. spec.range_of rendition (attributes_in text.now) ≡ Ok item) }
    ensures refused { IfErr result (λ fault. fault ≢ ItemFault.Memory → spec.range_of rendition (attributes_in text.now) ≡ Err fault) }
    ensures memory { IsErrOf result ItemFault.Memory → IsOk (spec.range_of rendition (attributes_in text.now)) }
{
    match AttrList::parse(alloc, text) {
        Ok(list) => range_of(rendition, list),
        // Memory ran out in a well-formed list: its first bytes show whether it begins with a quoted ID.
        Err(AttrFault::Memory) => match after(text, "ID=\"") {
            Some(_) => Err(ItemFault::Memory),
            None => Err(ItemFault::BadAttribute),
        },
        Err(_) => Err(ItemFault::BadAttribute),
    }
}

/// Makes a date range of `list`, whose first attribute has to be a quoted ID.
fn range_of(rendition: usize, list: AttrList) -> Result<Item, ItemFault>
    ensures { result ≡ spec.range_of rendition (Ok list) }
{
    let Some((first, attributes)) = list.split_first() else {
        return Err(ItemFault::BadAttribute);
    };
    let Attribute { name, value } = first;
    if name.as_str() != "ID" {
        return Err(ItemFault::BadAttribute);
    }
    match value {
        AttrValue::Quoted(id) => Ok(Item::Range {
            rendition,
            id,
            attributes,
        }),
        AttrValue::Bare(_text) => Err(ItemFault::BadAttribute),
    }
}

/// Parses the removal of a date range. `text` is the rendition's name, a space and the ID.
#[tactic(auto, using(crate::proofs::RangeLines::unrange_words))]
fn read_unrange(alloc: Global, settings: &Settings, text: &str) -> Result<Item, ItemFault>
    ensures value { IfOk result (λ item. unrange_in settings.now (words text.now) ≡ Ok item) }
    ensures refused { IfErr result (λ fault. fault ≢ ItemFault.Memory → unrange_in settings.now (words text.now) ≡ Err fault) }
    ensures memory { IsErrOf result ItemFault.Memory → IsOk (unrange_in settings.now (words text.now)) }
{
    let Some((name, id)) = cut(text, ' ') else {
        return Err(ItemFault::BadLine);
    };
    let rendition = named(settings, name)?;
    let id = Text::from_str(alloc, id)?;
    Ok(Item::Unrange { rendition, id })
}

/// Parses a text that is the name of a rendition, and returns its index.
fn read_alone(settings: &Settings, text: &str) -> Result<usize, ItemFault>
    ensures value { result ≡ alone_in settings.now (words text.now) }
    ensures not_memory { IfErr result (λ fault. fault ≢ ItemFault.Memory) }
{
    match one_word(text) {
        Some(name) => named(settings, name),
        None => Err(ItemFault::BadLine),
    }
}
