//! Reads a movie: the time scales of its tracks and the governing one (section 8.2.1).
ghost use Rattle.std.specs.Prelude.{◌≡◌, IsOk};
ghost use Rattle.ll_mp4.specs.Meaning.{AnswersButForMemory};
ghost use Rattle.ll_mp4.specs.Movies as spec;
ghost use Rattle.ll_mp4.specs.Movies.{movie_of};

use crate::fault::StreamFault;
use crate::track::{TimeScale, Track};
use crate::tracks::{read_governing, read_scales};
use std::alloc::Global;
use std::marker::Model;

/// The time scales of a movie's tracks, and the track that governs it: the first with pictures, or else the first.
pub struct Movie {
    scales: Vec<TimeScale>,
    governing: Track,
}

impl Drop for Movie {
    fn drop(self) {
        let Movie {
            scales: _scales,
            governing: _governing,
        } = self;
    }
}

impl Model for Movie {
    ghost use Rattle.ll_mp4.specs.Movies.{MovieValue};

    ghost Value = { MovieValue };

    ghost view = { λ m. record { scales = m.scales.items; governing = m.governing } };
}

impl Movie {
    /// Returns the governing track.
    pub fn governing(&self) -> Track
        ensures { result ≡ self.now.governing }
    {
        self.governing
    }

    /// Returns the time scales of all tracks, in their order.
    pub fn scales(&self) -> &[TimeScale]
        ensures { result.now ≡ self.now.scales }
    {
        &self.scales
    }

    /// Returns the time scale of the first track whose ID is `id`.
    pub fn scale_of(&self, id: u32) -> Option<u32>
        ensures { result ≡ spec.scale_of id self.now.scales }
    {
        self.scales
            .iter()
            .find(|track| track.id == id)
            .map(|track| track.scale)
    }
}

/// Reads the movie whose box has the content `moov`. Runs out of memory only for one that has no other fault.
pub fn read_movie(alloc: Global, moov: &[u8]) -> Result<Movie, StreamFault>
    ensures { AnswersButForMemory (movie_of moov.now) (IsOk (movie_of moov.now)) result }
{
    let governing = read_governing(moov)?;
    let scales = read_scales(alloc, moov)?;
    Ok(Movie { scales, governing })
}
