//! Reads what a unit is: a movie, a fragment of its governing track, or something beside these.
ghost use Rattle.std.specs.Prelude.{◌≡◌, option_map};
ghost use Rattle.ll_mp4.specs.Boxes.{contents_in};
ghost use Rattle.ll_mp4.specs.Elements as spec;
ghost use Rattle.ll_mp4.specs.Elements.{IsMovie, element_of, has_some};
ghost use Rattle.ll_mp4.specs.Meaning.{AnswersButForMemory};
ghost use Rattle.ll_mp4.specs.declared.kind.Kind.TheVariants.{Moof};

use crate::boxes::{at_most_one, next_of};
use crate::fault::StreamFault;
use crate::kind::Kind;
use crate::movie::{Movie, read_movie};
use crate::timing::{DecodeTime, Timing, read_decode_time, read_timing};
use std::alloc::Global;

/// The meaning of a unit.
#[derive(Drop)]
pub enum Element {
    /// A movie.
    Movie(Movie),
    /// A fragment, by the timing of its governing track.
    Fragment(Timing),
    /// A unit without the governing track: a fragment of other tracks, with its first decode time if it has one, or samples alone.
    Beside(Option<DecodeTime>),
}

/// Reads what `unit` is; `known` is the last movie before it. Runs out of memory only for a movie that has no other fault.
pub fn read_element(
    alloc: Global,
    known: Option<&Movie>,
    unit: &[u8],
) -> Result<Element, StreamFault>
    ensures { let asked = element_of (option_map (λ movie. movie.now) known.entry) unit.now in
        AnswersButForMemory asked (IsMovie asked) result }
{
    let Some(moov) = at_most_one(Kind::Moov, unit)? else {
        return fragment_by(known, unit);
    };
    let after_fragment = !matches!(next_of(Kind::Moof, unit), Ok(None));
    movie_by(alloc, known, after_fragment, moov)
}

/// Reads a movie; `after_fragment` says whether a fragment is before it in its unit, which is a fault.
fn movie_by(
    alloc: Global,
    known: Option<&Movie>,
    after_fragment: bool,
    moov: &[u8],
) -> Result<Element, StreamFault>
    ensures { let asked = spec.movie_by (option_map (λ movie. movie.now) known.entry) after_fragment moov.now in
        AnswersButForMemory asked (IsMovie asked) result }
{
    if after_fragment && known.is_none() {
        return Err(StreamFault::NoMoov);
    }
    if after_fragment {
        return Err(StreamFault::Missing(Kind::Mdat));
    }
    let movie = read_movie(alloc, moov)?;
    Ok(Element::Movie(movie))
}

/// Reads a fragment of the movie `known`, or samples alone.
fn fragment_by(known: Option<&Movie>, unit: &[u8]) -> Result<Element, StreamFault>
    ensures { result ≡ spec.fragment_by (option_map (λ movie. movie.now) known.entry) unit.now }
{
    let Some(movie) = known else {
        return Err(StreamFault::NoMoov);
    };
    match read_timing(movie, unit)? {
        Some(timing) => Ok(Element::Fragment(timing)),
        None => Ok(Element::Beside(read_decode_time(movie, unit))),
    }
}
