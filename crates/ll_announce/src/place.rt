//! The place of a rendition's next part, and how an item moves it.
ghost use Rattle.std.specs.Prelude.{◌≡◌};
ghost use Rattle.ll_announce.specs.Places.{led};

use crate::said::Said;

/// The place of a rendition's next part. Its numbers stop at 2^64 - 1.
#[derive(Clone, Copy, PartialEq, Eq)]
pub struct Place {
    /// Its Media Sequence Number.
    pub number: u64,
    /// Its Part Index.
    pub index: u64,
    /// How long all parts before it last, in microseconds.
    pub end: u64,
    /// Whether the rendition has ended, so that there is no next part.
    pub ended: bool,
}

impl Place {
    /// Returns the place after an item that `said` announces was accepted here.
    pub fn after(self, said: Said) -> Place
        ensures { result ≡ led self said }
    {
        match said {
            Said::Init | Said::Break { .. } => self,
            Said::Part {
                duration,
                finishes: false,
            } => Place {
                index: self.index.saturating_add(1),
                end: self.end.saturating_add(duration),
                ..self
            },
            Said::Part {
                duration,
                finishes: true,
            } => Place {
                number: self.number.saturating_add(1),
                index: 0,
                end: self.end.saturating_add(duration),
                ..self
            },
            Said::Finish => Place {
                number: self.number.saturating_add(1),
                index: 0,
                ..self
            },
            Said::End => Place {
                number: self.number.saturating_add(self.index.min(1)),
                index: 0,
                ended: true,
                ..self
            },
        }
    }
}
