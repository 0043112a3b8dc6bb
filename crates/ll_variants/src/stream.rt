//! The renditions that a Multivariant Playlist names, and why there is none.
ghost use Rattle.std.specs.Prelude.{◌≡◌};
ghost use Rattle.ll_variants.specs.Playlists as spec;

use crate::rates::Rates;
use ll_attr::Text;
use ll_codecs::Section;
use std::alloc::AllocError;

/// A rendition as a Multivariant Playlist names it.
#[derive(Drop)]
pub struct Stream {
    /// Its name, which begins the URI of its playlist.
    pub name: Text,
    /// What its Media Initialization Section says.
    pub section: Section,
    /// How fast its segments are.
    pub rates: Rates,
}

/// Why there is no Multivariant Playlist.
#[derive(Clone, Copy)]
pub enum VariantFault {
    /// A number of bytes, of microseconds or of bits a second is above 2^64.
    TooLarge,
    /// Out of memory.
    Memory,
}

impl From<AllocError> for VariantFault {
    ghost use Rattle.std.specs.Prelude.{◌≡◌};
    ghost use Rattle.ll_variants.specs.declared.stream.VariantFault.TheVariants.{Memory};

    ghost from_gives = { λ error fault. fault ≡ Memory };

    fn from(_error: AllocError) -> VariantFault {
        VariantFault::Memory
    }
}

impl Stream {
    /// Returns whether the rendition has no pictures.
    pub(crate) fn is_sound(&self) -> bool
        ensures { result ≡ spec.is_sound self.now }
    {
        self.section.picture().is_none()
    }

    /// Returns whether the rendition has pictures.
    pub(crate) fn has_pictures(&self) -> bool
        ensures { result ≡ spec.has_pictures self.now }
    {
        !self.is_sound()
    }
}
