//! The directives in a query, read without memory.
ghost use Rattle.std.specs.Prelude.{◌≡◌, ◌≢◌, ◌∷◌, ℕ, List, Option, Some, None, false, IfErr, MatchOption, option_map, fold};
ghost use Rattle.form_urlencoded.specs.Form.{parse, decode};
ghost use Rattle.ll_attr.specs.Numbers.{number_in};
ghost use Rattle.ll_directive.specs.Targets.{awaited_of, directives_in, skip_in};
ghost use Rattle.ll_directive.specs.Told as spec;
ghost use Rattle.ll_directive.specs.declared.query.Few.TheVariants.{Zero};

use crate::fault::TargetFault;
use crate::want::Awaited;
use arrayvec::ArrayString;
use form_urlencoded::raw_pairs;
use ll_attr::parse_number;
use ll_item::SkipKind;
use percent_encoding::percent_decode;

/// The values of a directive: none, one, or more, of which none is kept.
#[derive(Clone, Copy)]
enum Few<T> {
    Zero,
    One(T),
    More,
}

/// The values of each directive, or `None` if one of them means nothing.
#[derive(Clone, Copy)]
struct Directives {
    msn: Option<Few<u64>>,
    part: Option<Few<u64>>,
    skip: Option<Few<SkipKind>>,
}

/// Parses a query: what it waits for, and which delta update it asks for, or its first fault.
#[tactic(auto, using(crate::proofs::Tells::settled_told))]
pub(crate) fn read_query(query: &[u8]) -> Result<(Awaited, Option<SkipKind>), TargetFault>
    ensures value { result ≡ directives_in (parse query.now) }
    ensures not_memory { IfErr result (λ fault. fault ≢ TargetFault.Memory) }
{
    told(query).settled()
}

/// Reads the directives of all pairs of a query.
fn told(query: &[u8]) -> Directives
    ensures { result ≡ spec.told_after (record { msn = Some Zero; part = Some Zero; skip = Some Zero }) (parse query.now) }
{
    let mut directives = Directives {
        msn: Some(Few::Zero),
        part: Some(Few::Zero),
        skip: Some(Few::Zero),
    };
    for (name, value) in raw_pairs(query) {
        directives = directives.with(name, value);
    }
    directives
}

impl Directives {
    /// Returns the directives with one more pair, `name` and `value`, both still encoded.
    fn with(self, name: &[u8], value: &[u8]) -> Directives
        ensures { (more : List (List ℕ × List ℕ)) → spec.told_after result more ≡ spec.told_after self ((decode name.now, decode value.now) ∷ more) }
    {
        let Some(name) = decoded(name) else {
            return self;
        };
        match name.as_str() {
            "_HLS_msn" => Directives {
                msn: with_value(self.msn, number(value)),
                ..self
            },
            "_HLS_part" => Directives {
                part: with_value(self.part, number(value)),
                ..self
            },
            "_HLS_skip" => Directives {
                skip: with_value(self.skip, skip(value)),
                ..self
            },
            _ => self,
        }
    }

    /// Returns what the directives ask for, or the first fault.
    fn settled(self) -> Result<(Awaited, Option<SkipKind>), TargetFault>
        ensures value { result ≡ spec.settled self }
        ensures not_memory { IfErr result (λ fault. fault ≢ TargetFault.Memory) }
    {
        let msn = self.msn.ok_or(TargetFault::BadMsn)?;
        let part = self.part.ok_or(TargetFault::BadPart)?;
        let skip = self.skip.ok_or(TargetFault::BadSkip)?;
        let msn = msn.at_most_one()?;
        let part = part.at_most_one()?;
        let skip = skip.at_most_one()?;
        Ok((awaited(msn, part)?, skip))
    }
}

impl<T: Copy> Few<T> {
    /// Returns the values with one more.
    fn with(self, value: T) -> Few<T>
        ensures { result ≡ spec.with_one self value }
    {
        match self {
            Few::Zero => Few::One(value),
            Few::One(_) | Few::More => Few::More,
        }
    }

    /// Returns the value, or `None` if there is none. Fails if there are more.
    fn at_most_one(self) -> Result<Option<T>, TargetFault>
        ensures { result ≡ spec.at_most_one_of self }
    {
        match self {
            Few::Zero => Ok(None),
            Few::One(value) => Ok(Some(value)),
            Few::More => Err(TargetFault::Double),
        }
    }
}

/// Returns the values of a directive with one more, or `None` if one of them means nothing.
fn with_value<T: Copy>(told: Option<Few<T>>, value: Option<T>) -> Option<Few<T>>
    ensures { result ≡ spec.with_value told value }
{
    let few = told?;
    Some(few.with(value?))
}

/// Returns what a request with this `_HLS_msn` and this `_HLS_part` waits for.
fn awaited(msn: Option<u64>, part: Option<u64>) -> Result<Awaited, TargetFault>
    ensures { result ≡ awaited_of msn part }
{
    match (msn, part) {
        (None, None) => Ok(Awaited::Nothing),
        (None, Some(_)) => Err(TargetFault::PartAlone),
        (Some(msn), None) => Ok(Awaited::Segment(msn)),
        (Some(msn), Some(part)) => Ok(Awaited::Part(msn, part)),
    }
}

/// Parses the number that a value spells.
#[tactic(auto, using(crate::proofs::Short::no_number))]
fn number(value: &[u8]) -> Option<u64>
    ensures { result ≡ number_in 20 (decode value.now) }
{
    parse_number(decoded(value)?.as_str(), 20)
}

/// Parses a value of `_HLS_skip`.
#[tactic(auto, using(crate::proofs::Short::no_skip))]
fn skip(value: &[u8]) -> Option<SkipKind>
    ensures { result ≡ skip_in (decode value.now) }
{
    match decoded(value)?.as_str() {
        "YES" => Some(SkipKind::Yes),
        "v2" => Some(SkipKind::V2),
        _ => None,
    }
}

/// Decodes a name or a value, or returns `None` if the result is longer than 20 bytes or has a byte that isn't plain: then it means nothing. A `+` is
/// a space, or one that was escaped; no name and no value that means something has either.
fn decoded(raw: &[u8]) -> Option<ArrayString<20>>
    ensures { MatchOption result (spec.is_short (decode raw.now) ≡ false) (λ text. text.bytes ≡ decode raw.now) }
{
    let mut text = ArrayString::new();
    for byte in percent_decode(raw) {
        if text.is_full() || !is_plain(byte) {
            return None;
        }
        text.push(char::from(byte));
    }
    Some(text)
}

/// Returns whether a byte is 0x21 to 0x7E, but no `+`.
fn is_plain(b: u8) -> bool
    ensures { result ≡ spec.is_plain b }
{
    b.is_ascii_graphic() && b != b'+'
}
