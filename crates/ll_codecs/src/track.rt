//! Reads the tracks of a movie: their codecs, and the size of their pictures (ISO/IEC 14496-12, section 8.3.1).
ghost use Rattle.std.specs.Prelude.{◌≡◌, ◌⊎◌, [], MatchResult, Ok, Err};
ghost use Rattle.ll_codecs.specs.Sections as spec;
ghost use Rattle.ll_codecs.specs.Sections.{tracks_after, tracks_in};
ghost use Rattle.ll_mp4.specs.Boxes.{contents_in};
ghost use Rattle.ll_mp4.specs.Movies as movie;
ghost use Rattle.ll_mp4.specs.declared.kind.Kind.TheVariants.{Hdlr, Trak};

use crate::children::{child, front};
use crate::codec::read_codec;
use crate::fields::{from, number_at, short_at};
use ll_attr::Text;
use ll_mp4::{Kind, StreamFault, next_of, only};
use std::alloc::Global;

/// The size of pictures, in pixels.
#[derive(Clone, Copy)]
pub struct Picture {
    /// The number of pixels of a row.
    pub width: u16,
    /// The number of rows.
    pub height: u16,
}

/// A track of a Media Initialization Section.
pub struct CodecTrack {
    /// The codec of its samples, as RFC 6381 spells it.
    pub codec: Text,
    /// The size of its pictures, if it has some.
    pub picture: Option<Picture>,
}

impl Drop for CodecTrack {
    fn drop(self) {
        let CodecTrack {
            codec: _codec,
            picture: _picture,
        } = self;
    }
}

/// `vide`, the handler type of pictures (section 8.4.3).
const VIDEO: u32 = 0x7669_6465;

/// `minf`, the type of the box with what is special to a kind of media (section 8.4.4).
const MINF: u32 = 0x6d69_6e66;

/// `stbl`, the type of the box with the sample table (section 8.5.1).
const STBL: u32 = 0x7374_626c;

/// `stsd`, the type of the box with the sample entries (section 8.5.2).
const STSD: u32 = 0x7374_7364;

/// Reads the tracks of the movie whose box has the content `moov`.
#[tactic(auto, using(crate::proofs::TrackLemmas::tracks_more, crate::proofs::TrackLemmas::tracks_done))]
pub(crate) fn read_tracks(alloc: Global, moov: &[u8]) -> Result<Vec<CodecTrack>, StreamFault>
    ensures { MatchResult result (λ tracks. tracks_after [] (tracks_in (contents_in Trak moov.now)) ≡ Ok tracks.items)
        (λ fault. (tracks_after [] (tracks_in (contents_in Trak moov.now)) ≡ Err fault) ⊎ (fault ≡ StreamFault.Memory)) }
{
    let mut tracks = Vec::new(alloc);
    let mut rest = moov;
    'tracks: while let Some((trak, after)) = next_of(Kind::Trak, rest)? {
        let track = read_track(alloc, trak)?;
        match tracks.push(track) {
            Ok(()) => rest = after,
            Err(_) => return Err(StreamFault::Memory),
        }
    }
    Ok(tracks)
}

/// Reads the track whose box has the content `trak`.
fn read_track(alloc: Global, trak: &[u8]) -> Result<CodecTrack, StreamFault>
    ensures { MatchResult result (λ track. spec.track_of trak.now ≡ Ok track)
        (λ fault. (spec.track_of trak.now ≡ Err fault) ⊎ (fault ≡ StreamFault.Memory)) }
{
    let mdia = only(Kind::Mdia, trak)?;
    let pictures = has_pictures(mdia)?;
    let entries = entries_in(mdia)?;
    let entry = front(entries)?;
    let codec = read_codec(alloc, entry.kind, entry.content)?;
    let picture = picture_by(pictures, entry.content)?;
    Ok(CodecTrack { codec, picture })
}

/// Returns whether a track has pictures, by its first handler (section 8.4.3).
fn has_pictures(mdia: &[u8]) -> Result<bool, StreamFault>
    ensures { result ≡ movie.has_pictures (contents_in Hdlr mdia.now) }
{
    let Some((hdlr, _)) = next_of(Kind::Hdlr, mdia)? else {
        return Ok(false);
    };
    let handler = number_at(8, hdlr)?;
    Ok(handler == VIDEO)
}

/// Returns the boxes of the sample entries of the media `mdia`.
fn entries_in(mdia: &[u8]) -> Result<&[u8], StreamFault>
    ensures { MatchResult result (λ entries. spec.entries_in mdia.now ≡ Ok entries.now) (λ fault. spec.entries_in mdia.now ≡ Err fault) }
{
    let stbl = sample_table(mdia)?;
    let stsd = child(STSD, stbl)?;
    from(8, stsd)
}

/// Returns the content of the sample table of the media `mdia`.
fn sample_table(mdia: &[u8]) -> Result<&[u8], StreamFault>
    ensures { MatchResult result (λ stbl. spec.sample_table mdia.now ≡ Ok stbl.now) (λ fault. spec.sample_table mdia.now ≡ Err fault) }
{
    let minf = child(MINF, mdia)?;
    child(STBL, minf)
}

/// Reads the size of the pictures of the sample entry `entry`, if it is one of `pictures`.
fn picture_by(pictures: bool, entry: &[u8]) -> Result<Option<Picture>, StreamFault>
    ensures { result ≡ spec.picture_by pictures entry.now }
{
    if !pictures {
        return Ok(None);
    }
    let width = short_at(24, entry)?;
    let height = short_at(26, entry)?;
    Ok(Some(Picture { width, height }))
}
