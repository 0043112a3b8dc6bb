//! The first three lines of a chunk, which say whose it is and where it continues.
ghost use Rattle.std.specs.Prelude.{◌≡◌, ◌≢◌, ◌++◌, ◌∷◌, ℕ, List, IfErr, IfOk, IfSome, MatchOption, OnOk, Option, Some, Err, true};
ghost use Rattle.std.specs.Bool.{Decides};
ghost use Rattle.ll_attr.specs.Words.{pieces_at};
ghost use Rattle.ll_check.specs.Found.{AreKept, is_inside};
ghost use Rattle.ll_check.specs.Joined.{IsBegun, met};
ghost use Rattle.ll_check.specs.Lines.{IsBehind, IsShort};
ghost use Rattle.ll_check.specs.Steps.{Moves};
ghost use Rattle.ll_entry.specs.Chain as spec;
ghost use Rattle.ll_entry.specs.Chain.{Between, another, begun, begun_by, checked_from, joined_at, wrong};
ghost use Rattle.ll_entry.specs.Frame as frame;
ghost use Rattle.ll_settings.specs.Same.{same_settings};
ghost use Rattle.ll_settings.specs.Settings.{Configuration, settings_in};

use crate::chain::{Chain, MOST_EARLIER, entries_of, is_channel};
use crate::lines::{cut_three, text_in};
use crate::told::Told;
use ll_entry::{CheckKind, Version, place_in};
use ll_room::Replayer;
use ll_settings::{Settings, SettingsFault};
use std::alloc::Global;

/// The first three lines of a chunk, parsed.
#[derive(Clone, Copy)]
struct Header<'a> {
    /// The format of its entries.
    version: Version,
    /// The settings line.
    settings: &'a str,
    /// The number of its chain's entries before the chunk.
    at: u64,
}

/// Checks whether the next three lines can begin a chunk, and returns what they say and what follows them; `None` if fewer lines end.
pub(crate) fn begin<'a>(
    alloc: Global,
    chain: &mut Option<Chain>,
    text: &'a [u8],
) -> Result<Option<(Told<'a>, &'a [u8])>, CheckKind>
    ensures right { (before : Option spec.Chain) (more : List ℕ) → AreKept chain.old before
        → IfOk result (λ r. MatchOption r (IsShort chain.old chain.new (Between before) text.now)
        (λ s. Moves chain.new (Between before) s.0 (pieces_at 10 (text.now ++ more)) (pieces_at 10 (s.1.now ++ more)))) }
    ensures wrong { (before : Option spec.Chain) (more : List ℕ) → AreKept chain.old before
        → IfErr result (λ k. k ≢ CheckKind.Memory → checked_from (Between before) (pieces_at 10 (text.now ++ more)) ≡ wrong before k) }
    ensures behind { IfOk result (λ r. IfSome r (λ s. IsBehind s.1.now text.now)) }
{
    let Some(lines) = cut_three(text) else {
        return Ok(None);
    };
    match begin_by(alloc, chain, lines.first, lines.settings, lines.at) {
        Ok(told) => Ok(Some((told, lines.rest))),
        Err(kind) => Err(kind),
    }
}

/// Begins a chunk with the lines `first`, `settings` and `at`, if it can come next, and returns what they say.
fn begin_by<'a>(
    alloc: Global,
    chain: &mut Option<Chain>,
    first: &'a [u8],
    settings: &'a [u8],
    at: &'a [u8],
) -> Result<Told<'a>, CheckKind>
    ensures right { (before : Option spec.Chain) (rest : List (List ℕ)) → AreKept chain.old before
        → IfOk result (λ t. Moves chain.new (Between before) t (first.now ∷ settings.now ∷ at.now ∷ rest) rest) }
    ensures wrong { (before : Option spec.Chain) (rest : List ℕ) → AreKept chain.old before
        → IfErr result (λ k. k ≢ CheckKind.Memory → checked_from (Between before) (first.now ∷ settings.now ∷ at.now ∷ pieces_at 10 rest) ≡ wrong before k) }
{
    let Some(header) = told(first, settings, at) else {
        return Err(CheckKind::BadChunk);
    };
    match join(alloc, chain, header) {
        Ok(()) => Ok(Told::Begun(header.settings, header.at)),
        Err(kind) => Err(kind),
    }
}

/// Parses three lines as the first of a chunk; `None` if they haven't their form.
fn told<'a>(first: &'a [u8], settings: &'a [u8], at: &'a [u8]) -> Option<Header<'a>>
    ensures { (before : Option spec.Chain) → MatchOption result (begun before (spec.text_in first.now) (spec.text_in settings.now) (spec.text_in at.now) ≡ Err CheckKind.BadChunk)
        (λ h. (begun before (spec.text_in first.now) (spec.text_in settings.now) (spec.text_in at.now) ≡ begun_by before (Some h.version) (settings_in h.settings.now) (Some h.at))
        × (h.settings.now ≡ settings.now)) }
{
    let first = text_in(first)?;
    let settings = text_in(settings)?;
    let at = text_in(at)?;
    told_by(first, settings, at)
}

/// Parses three texts as the first lines of a chunk; `None` if they haven't their form.
fn told_by<'a>(first: &'a str, settings: &'a str, at: &'a str) -> Option<Header<'a>>
    ensures { (before : Option spec.Chain) → MatchOption result (begun before (Some first.now) (Some settings.now) (Some at.now) ≡ Err CheckKind.BadChunk)
        (λ h. (begun before (Some first.now) (Some settings.now) (Some at.now) ≡ begun_by before (Some h.version) (settings_in h.settings.now) (Some h.at))
        × (h.settings.now ≡ settings.now)) }
{
    let version = Version::read(first)?;
    match place_in(at) {
        Some(at) => Some(Header {
            version,
            settings,
            at,
        }),
        None => None,
    }
}

/// Begins a chain with this header, or goes on with the last one. Memory comes after the faults that need no settings.
fn join(alloc: Global, chain: &mut Option<Chain>, header: Header<'_>) -> Result<(), CheckKind>
    ensures right { (before : Option spec.Chain) → AreKept chain.old before
        → OnOk result (IsBegun chain.new (begun_by before (Some header.entry.version) (settings_in header.entry.settings.now) (Some header.entry.at))) }
    ensures wrong { (before : Option spec.Chain) → AreKept chain.old before
        → IfErr result (λ k. k ≢ CheckKind.Memory → begun_by before (Some header.entry.version) (settings_in header.entry.settings.now) (Some header.entry.at) ≡ Err k) }
    ensures inside { OnOk result (is_inside chain.new ≡ true) }
{
    let fault = place_fault(chain, header);
    match Settings::read(alloc, header.settings) {
        Ok(settings) => match fault {
            Some(fault) => Err(fault),
            None => meet(alloc, chain, header, settings),
        },
        Err(SettingsFault::Memory) => Err(fault.unwrap_or(CheckKind::Memory)),
        Err(_) => Err(CheckKind::BadChunk),
    }
}

/// Returns why a chunk with this header can't come after the chains so far, whatever its settings; `None` if it can.
fn place_fault(chain: &Option<Chain>, header: Header<'_>) -> Option<CheckKind>
    ensures { (before : Option spec.Chain) (c : Configuration) → AreKept chain.now before
        → MatchOption result (joined_at before header.entry.version c header.entry.at ≡ met before header.entry.version c header.entry.at)
        (λ k. joined_at before header.entry.version c header.entry.at ≡ Err k) }
{
    if header.at == 0 {
        return None;
    }
    let Some(chain) = chain else {
        return Some(CheckKind::Gap);
    };
    if is_older(header.version, chain.version) {
        return Some(CheckKind::BadChunk);
    }
    if header.at != chain.replayer.room().events() {
        return Some(CheckKind::Gap);
    }
    None
}

/// Begins a chain of these settings, or goes on with the last one if it has them.
fn meet(
    alloc: Global,
    chain: &mut Option<Chain>,
    header: Header<'_>,
    settings: Settings,
) -> Result<(), CheckKind>
    ensures right { (before : Option spec.Chain) → AreKept chain.old before
        → OnOk result (IsBegun chain.new (met before header.entry.version settings header.entry.at)) }
    ensures wrong { (before : Option spec.Chain) → AreKept chain.old before
        → IfErr result (λ k. k ≢ CheckKind.Memory → met before header.entry.version settings header.entry.at ≡ Err k) }
    ensures inside { OnOk result (is_inside chain.new ≡ true) }
{
    if header.at == 0 {
        return begin_another(alloc, chain, header.version, settings);
    }
    match chain {
        Some(chain) if is_same(chain.settings(), &settings) => {
            chain.version = header.version;
            chain.inside = true;
            Ok(())
        }
        Some(_) => Err(CheckKind::OtherChannel),
        None => Err(CheckKind::Gap),
    }
}

/// Begins another chain, of a channel of these settings.
fn begin_another(
    alloc: Global,
    chain: &mut Option<Chain>,
    version: Version,
    settings: Settings,
) -> Result<(), CheckKind>
    ensures right { (before : Option spec.Chain) → AreKept chain.old before → OnOk result (IsBegun chain.new (another before version settings)) }
    ensures wrong { (before : Option spec.Chain) → AreKept chain.old before → IfErr result (λ k. k ≢ CheckKind.Memory → another before version settings ≡ Err k) }
    ensures inside { OnOk result (is_inside chain.new ≡ true) }
{
    if !is_channel(chain, &settings) {
        return Err(CheckKind::OtherChannel);
    }
    let earlier = entries_of(chain);
    if earlier > MOST_EARLIER {
        return Err(CheckKind::Memory);
    }
    *chain = Some(Chain {
        replayer: Replayer::new(alloc, 0, settings)?,
        version,
        earlier,
        inside: true,
    });
    Ok(())
}

/// Returns whether two settings are equal.
#[tactic(auto, using(ll_settings::proofs::SameLemmas::settings_decided))]
fn is_same(a: &Settings, b: &Settings) -> bool
    ensures value { result ≡ same_settings a.now b.now }
    ensures equal { Decides result (a.now ≡ b.now) }
{
    a == b
}

/// Returns whether a chunk in format `a` can't follow one in format `b` in a chain.
fn is_older(a: Version, b: Version) -> bool
    ensures { result ≡ frame.is_older a b }
{
    match (a, b) {
        (Version::One, Version::Two) => true,
        _ => false,
    }
}
