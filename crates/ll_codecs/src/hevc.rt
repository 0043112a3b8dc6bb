//! The codec of HEVC video (ISO/IEC 14496-15, sections 8.3.3.1 and E.3).
ghost use Rattle.std.specs.Prelude.{◌≡◌, ◌≤◌, ◌++◌, ◌⊎◌, IfOk, MatchResult, OnOk, Ok, Err, string_bytes, take, true};
ghost use Rattle.std.specs.Fmt.{digits};
ghost use Rattle.ll_codecs.specs.Hevc as spec;

use crate::children::child;
use crate::entry::video_boxes;
use crate::fields::{byte_at, from, number_at};
use ll_attr::Text;
use ll_mp4::StreamFault;
use std::alloc::{AllocError, Global};

/// `hvcC`, the type of the box with the configuration.
const CONFIG: u32 = 0x6876_6343;

/// Reads the codec of the sample entry `entry`, whose type has the characters `name`.
pub(crate) fn read_hevc(alloc: Global, name: &str, entry: &[u8]) -> Result<Text, StreamFault>
    ensures { MatchResult result (λ text. spec.hevc name.now entry.now ≡ Ok text)
        (λ fault. (spec.hevc name.now entry.now ≡ Err fault) ⊎ (fault ≡ StreamFault.Memory)) }
{
    let boxes = video_boxes(entry)?;
    let config = child(CONFIG, boxes)?;
    let profile = byte_at(1, config)?;
    let compatible = number_at(2, config)?;
    let flags = from(6, config)?;
    let level = byte_at(12, config)?;
    match joined(alloc, name, profile, compatible, level, flags) {
        Ok(text) => Ok(Text::from_string(text)),
        Err(AllocError) => Err(StreamFault::Memory),
    }
}

/// Returns the codec with the constraint flags, the first six of `flags`.
fn joined(
    alloc: Global,
    name: &str,
    profile: u8,
    compatible: u32,
    level: u8,
    flags: &[u8],
) -> Result<String, AllocError>
    ensures { IfOk result (λ t. string_bytes t ≡ spec.hevc_text name.now profile compatible level ++ spec.constraint_text (take 6 flags.now)) }
{
    let mut text = hevc_text(alloc, name, profile, compatible, level)?;
    push_constraints(alloc, &mut text, first_six(flags))?;
    Ok(text)
}

/// Returns the first six of `flags`, or all if there are fewer.
fn first_six(flags: &[u8]) -> &[u8]
    ensures { result.now ≡ take 6 flags.now }
{
    if flags.len() < 6 { flags } else { &flags[..6] }
}

/// Returns `name` with the profile, its compatibility flags, the tier and the level.
#[tactic(auto, unfolding(crate::specs::Hevc::hevc_text))]
fn hevc_text(
    alloc: Global,
    name: &str,
    profile: u8,
    compatible: u32,
    level: u8,
) -> Result<String, AllocError>
    ensures { IfOk result (λ t. string_bytes t ≡ spec.hevc_text name.now profile compatible level) }
{
    let space = space(profile / 64);
    let tier = tier(profile / 32 % 2);
    let profile = profile % 32;
    let compatible = reversed(compatible);
    format!(in alloc; "{name}.{space}{profile}.{compatible:X}.{tier}{level}")
}

/// Returns the letter of the profile space, if there is one.
fn space(space: u8) -> &'static str
    ensures { result.now ≡ spec.space_text space }
{
    match space {
        0 => "",
        1 => "A",
        2 => "B",
        _ => "C",
    }
}

/// Returns the letter of the tier.
fn tier(tier: u8) -> &'static str
    ensures { result.now ≡ spec.tier_text tier }
{
    if tier == 0 { "L" } else { "H" }
}

/// Returns `number` with its 32 bits in the other order.
#[tactic(auto, using(crate::proofs::HevcLemmas::bit_more, crate::proofs::HevcLemmas::bits_done, crate::proofs::HevcLemmas::turned_more, crate::proofs::HevcLemmas::turned_few))]
fn reversed(number: u32) -> u32
    ensures { result ≡ spec.reversed 32 0 number }
{
    let mut turned = 0;
    let mut left = number;
    'bits: for _ in 0..32_u32 {
        turned = turned * 2 + left % 2;
        left /= 2;
    }
    turned
}

/// Appends each of `flags` after a point, but for the last ones that are 0.
fn push_constraints(alloc: Global, text: &mut String, flags: &[u8]) -> Result<(), AllocError>
    ensures { OnOk result (string_bytes text.new ≡ string_bytes text.old ++ spec.constraint_text flags.now) }
{
    push_flags(alloc, text, without_zeros(flags))
}

/// Appends each of `flags` after a point.
fn push_flags(alloc: Global, text: &mut String, flags: &[u8]) -> Result<(), AllocError>
    ensures { OnOk result (string_bytes text.new ≡ string_bytes text.old ++ spec.flags_text flags.now) }
{
    let mut left = flags;
    'flags: while let Some((flag, rest)) = left.split_first() {
        text.push_str(flag_text(alloc, *flag)?.as_str())?;
        left = rest;
    }
    Ok(())
}

/// Returns `flag` after a point.
#[tactic(auto, unfolding(crate::specs::Hevc::flag_text))]
fn flag_text(alloc: Global, flag: u8) -> Result<String, AllocError>
    ensures { IfOk result (λ t. string_bytes t ≡ spec.flag_text flag) }
{
    format!(in alloc; ".{flag:X}")
}

/// Returns `flags` without the last ones that are 0.
#[tactic(auto, using(crate::proofs::HevcLemmas::zero_last, crate::proofs::HevcLemmas::other_last))]
fn without_zeros(flags: &[u8]) -> &[u8]
    ensures { result.now ≡ spec.without_zeros flags.now }
{
    let mut left = flags;
    'zeros: while let Some((last, front)) = left.split_last() {
        if *last != 0 {
            return left;
        }
        left = front;
    }
    left
}
