//! Parsing of a settings line.
ghost use Rattle.std.specs.Prelude.{◌≡◌, ◌≢◌, ◌≤◌, ◌∷◌, [], Ok, Err, None, Some, IfOk, IfErr, IsOk, IsErrOf, MatchOption, length};
ghost use Rattle.ll_attr.specs.Words.{words};
ghost use Rattle.ll_settings.specs.Settings.{settings_in, configuration_of, names_in};
ghost use Rattle.ll_settings.specs.Settings as spec;
ghost use Rattle.ll_settings.specs.Configured.{configured};

use crate::name::{are_names_in, is_name};
use crate::settings::{Numbers, Settings, SettingsFault, first_fault};
use ll_attr::{Text, after, cut, one_word, parse_number};
use std::alloc::{AllocError, Global};

impl Settings {
    /// Parses `line`, which is `channel NAME target=N part=N skip=N window=N renditions=NAMES first=N start=N`. NAMES are joined by commas.
    ///
    /// # Errors
    ///
    /// `BadLine` if `line` isn't of this form; else the first limit that the settings break; else `Memory`.
    pub fn read(alloc: Global, line: &str) -> Result<Settings, SettingsFault>
        ensures value { IfOk result (λ s. settings_in line.now ≡ Ok s) }
        ensures refused { IfErr result (λ f. f ≢ SettingsFault.Memory → settings_in line.now ≡ Err f) }
        ensures memory { IsErrOf result SettingsFault.Memory → IsOk (settings_in line.now) }
    {
        let Some(fields) = fields_of(line) else {
            return Err(SettingsFault::BadLine);
        };
        let Fields {
            channel,
            numbers,
            renditions,
        } = fields;
        let named = is_name(channel) && are_names_in(renditions);
        if let Some(fault) = first_fault(&numbers, named, name_count(renditions)) {
            return Err(fault);
        }
        let (channel, renditions) = texts_of(alloc, channel, renditions)?;
        Ok(Settings::of(channel, numbers, renditions))
    }
}

/// The fields of a settings line.
#[derive(Clone, Copy)]
struct Fields<'a> {
    channel: &'a str,
    numbers: Numbers,
    renditions: &'a str,
}

/// The nine words of a settings line.
#[derive(Clone, Copy)]
struct Words<'a> {
    kind: &'a str,
    channel: &'a str,
    target: &'a str,
    part_target: &'a str,
    skip: &'a str,
    window: &'a str,
    renditions: &'a str,
    first: &'a str,
    start: &'a str,
}

/// Parses the fields of `line`. Returns `None` if it doesn't have the form of a settings line.
fn fields_of(line: &str) -> Option<Fields<'_>>
    ensures { MatchOption result (configuration_of (words line.now) ≡ None)
        (λ f. configuration_of (words line.now) ≡ Some (configured f.numbers f.channel.now (names_in f.renditions.now))) }
{
    fields_of_words(words_of(line)?)
}

/// Splits `line` into words. Returns `None` if there aren't nine.
#[tactic(auto, unfolding(crate::specs::Settings::configuration_of))]
fn words_of(line: &str) -> Option<Words<'_>>
    ensures { MatchOption result (configuration_of (words line.now) ≡ None)
        (λ w. words line.now ≡ w.kind.now ∷ w.channel.now ∷ w.target.now ∷ w.part_target.now ∷ w.skip.now
        ∷ w.window.now ∷ w.renditions.now ∷ w.first.now ∷ w.start.now ∷ []) }
{
    let a = four_words(line)?;
    let b = four_words(a.rest)?;
    let start = one_word(b.rest)?;
    Some(Words {
        kind: a.first,
        channel: a.second,
        target: a.third,
        part_target: a.fourth,
        skip: b.first,
        window: b.second,
        renditions: b.third,
        first: b.fourth,
        start,
    })
}

/// Four words, and what follows the space after them.
#[derive(Clone, Copy)]
struct FourWords<'a> {
    first: &'a str,
    second: &'a str,
    third: &'a str,
    fourth: &'a str,
    rest: &'a str,
}

/// Splits `text` after its fourth word. Returns `None` if it has no more than four.
fn four_words(text: &str) -> Option<FourWords<'_>>
    ensures { MatchOption result (length (words text.now) ≤ 4)
        (λ f. words text.now ≡ f.first.now ∷ f.second.now ∷ f.third.now ∷ f.fourth.now ∷ words f.rest.now) }
{
    let (first, rest) = cut(text, ' ')?;
    let (second, rest) = cut(rest, ' ')?;
    let (third, rest) = cut(rest, ' ')?;
    let (fourth, rest) = cut(rest, ' ')?;
    Some(FourWords {
        first,
        second,
        third,
        fourth,
        rest,
    })
}

/// Parses the fields that the words `w` spell.
#[tactic(auto, unfolding(crate::specs::Settings::configuration_of))]
fn fields_of_words(w: Words<'_>) -> Option<Fields<'_>>
    ensures { let read = configuration_of (w.entry.kind.now ∷ w.entry.channel.now ∷ w.entry.target.now ∷ w.entry.part_target.now ∷ w.entry.skip.now
        ∷ w.entry.window.now ∷ w.entry.renditions.now ∷ w.entry.first.now ∷ w.entry.start.now ∷ []) in
        MatchOption result (read ≡ None) (λ f. read ≡ Some (configured f.numbers f.channel.now (names_in f.renditions.now))) }
{
    if w.kind != "channel" || !is_name(w.channel) {
        return None;
    }
    Some(Fields {
        channel: w.channel,
        numbers: Numbers {
            target: number(w.target, "target=")?,
            part_target: number(w.part_target, "part=")?,
            skip: number(w.skip, "skip=")?,
            window: number(w.window, "window=")?,
            first: number(w.first, "first=")?,
            start: number(w.start, "start=")?,
        },
        renditions: after(w.renditions, "renditions=")?,
    })
}

/// Parses the number that follows `key` in `word`.
fn number(word: &str, key: &str) -> Option<u64>
    ensures { result ≡ spec.number_of key.now word.now }
{
    parse_number(after(word, key)?, 20)
}

/// Returns the number of names that `text` joins by commas.
fn name_count(text: &str) -> usize
    ensures { result ≡ length (names_in text.now) }
{
    text.split(',').count()
}

/// Copies the name `channel` and those that `renditions` joins by commas.
fn texts_of(alloc: Global, channel: &str, renditions: &str) -> Result<(Text, Vec<Text>), AllocError>
    ensures { IfOk result (λ t. (t.0 ≡ channel.now) × (t.1.items ≡ names_in renditions.now)) }
{
    let mut texts = Vec::new(alloc);
    let mut rest = renditions;
    while let Some((name, after)) = cut(rest, ',') {
        texts.push(Text::from_str(alloc, name)?)?;
        rest = after;
    }
    texts.push(Text::from_str(alloc, rest)?)?;
    Ok((Text::from_str(alloc, channel)?, texts))
}
