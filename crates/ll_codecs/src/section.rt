//! Reads Media Initialization Sections: the codecs of their tracks, and the size and the rate of the pictures.
ghost use Rattle.std.specs.Prelude.{◌≡◌, ◌⊎◌, MatchResult, Ok, Err};
ghost use Rattle.ll_codecs.specs.Sections as spec;

use crate::track::{CodecTrack, Picture, read_tracks};
use ll_mp4::{Kind, StreamFault, only, read_movie};
use std::alloc::Global;
use std::marker::Model;

/// What a Media Initialization Section says of its tracks.
pub struct Section {
    tracks: Vec<CodecTrack>,
    rate: Option<u64>,
}

impl Drop for Section {
    fn drop(self) {
        let Section {
            tracks: _tracks,
            rate: _,
        } = self;
    }
}

impl Model for Section {
    ghost use Rattle.ll_codecs.specs.Sections.{SectionValue};

    ghost Value = { SectionValue };

    ghost view = { λ s. record { tracks = s.tracks.items; rate = s.rate } };
}

impl Section {
    /// Returns the tracks, in their order.
    pub fn tracks(&self) -> &[CodecTrack]
        ensures { result.now ≡ self.now.tracks }
    {
        &self.tracks
    }

    /// Returns how many samples a second the track that governs has, in thousandths, if the section states it: the first with pictures, or
    /// else the first.
    pub fn rate(&self) -> Option<u64>
        ensures { result ≡ self.now.rate }
    {
        self.rate
    }

    /// Returns the size of the pictures, if there are some: that of the first track with pictures.
    pub fn picture(&self) -> Option<Picture>
        ensures { result ≡ spec.first_picture self.now.tracks }
    {
        first_picture(&self.tracks)
    }
}

/// Returns the size of the pictures of the first of `tracks` that has some.
fn first_picture(tracks: &[CodecTrack]) -> Option<Picture>
    ensures { result ≡ spec.first_picture tracks.now }
{
    let mut left = tracks;
    'tracks: while let Some((track, rest)) = left.split_first() {
        if let Some(picture) = track.picture {
            return Some(picture);
        }
        left = rest;
    }
    None
}

/// Reads the Media Initialization Section `bytes`. Runs out of memory only for one that has no other fault before.
pub fn read_section(alloc: Global, bytes: &[u8]) -> Result<Section, StreamFault>
    ensures { MatchResult result (λ section. spec.section_of bytes.now ≡ Ok section)
        (λ fault. (spec.section_of bytes.now ≡ Err fault) ⊎ (fault ≡ StreamFault.Memory)) }
{
    let moov = only(Kind::Moov, bytes)?;
    let movie = read_movie(alloc, moov)?;
    let tracks = read_tracks(alloc, moov)?;
    let governing = movie.governing();
    let rate = rate_of(governing.scale, governing.duration);
    Ok(Section { tracks, rate })
}

/// Returns how many samples of `duration` ticks a second of `scale` ticks has, in thousandths; `None` if they have no duration.
fn rate_of(scale: u32, duration: u32) -> Option<u64>
    ensures { result ≡ spec.rate_by scale duration }
{
    if duration == 0 {
        return None;
    }
    let (scale, duration) = (scale as u64, duration as u64);
    Some((scale * 1000 + duration / 2) / duration)
}
