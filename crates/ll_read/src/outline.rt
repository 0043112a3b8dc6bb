//! Playlists without their texts.
ghost use Rattle.std.specs.Prelude.{◌≡◌, ◌+◌, ◌<◌, ◌^◌, Ok};
ghost use Rattle.ll_attr.specs.Words.{pieces_at};
ghost use Rattle.ll_line.specs.Playlist.{Playlist};
ghost use Rattle.ll_line.specs.Meaning.{meant};
ghost use Rattle.ll_read.specs.Outline.{outline_of};
ghost use Rattle.ll_read.specs.Outlined.{outline_from};
ghost use Rattle.ll_read.specs.Outlined as spec;
ghost use Rattle.ll_read.specs.Draft.{blank};
ghost use Rattle.ll_read.specs.Reading.{playlist_in};

use crate::playlist::Playlist;
use crate::reading::without_end;
use ll_attr::cut;
use ll_line::Line;
use std::alloc::Global;
use std::str;

/// A playlist without its texts.
#[derive(Clone, Copy, Debug)]
pub struct Outline {
    /// The Media Sequence Number of its first segment (section 4.4.3.2).
    pub sequence: u64,
    /// The number of finished segments that it lists.
    pub segments: usize,
    /// The number of segments that its EXT-X-SKIP line stands for, if it has one (section 4.4.5.2).
    pub skipped: Option<u64>,
}

impl Playlist {
    /// Returns the playlist without its texts.
    pub fn outline(&self) -> Outline
        ensures { result ≡ outline_of self.now }
    {
        Outline {
            sequence: self.sequence,
            segments: self.segments.len(),
            skipped: self.skipped.as_ref().map(|skip| skip.count),
        }
    }
}

/// Returns the outline of the playlist that `bytes` spell, without taking memory. If they spell none, the result means nothing.
pub fn read_outline(alloc: Global, bytes: &[u8]) -> Outline
    ensures { (p : Playlist) → playlist_in bytes.now ≡ Ok p → result ≡ outline_of p }
{
    match str::from_utf8(bytes) {
        Ok(text) => outline_of_lines(alloc, text),
        Err(_) => Outline::start(),
    }
}

/// Returns the outline of the lines of `text`.
fn outline_of_lines(alloc: Global, text: &str) -> Outline
    ensures { result ≡ outline_from (outline_of blank) (pieces_at 10 text.now) }
{
    let mut outline = Outline::start();
    let mut rest = text;
    while let Some((line, below)) = cut(rest, '\n') {
        if let Some(line) = Line::read(alloc, without_end(line)) {
            outline = outline.with_line(&line);
        }
        rest = below;
    }
    outline
}

impl Outline {
    /// Returns the outline before the first line.
    fn start() -> Outline
        ensures { result ≡ outline_of blank }
    {
        Outline {
            sequence: 0,
            segments: 0,
            skipped: None,
        }
    }

    /// Returns the outline with one more line.
    fn with_line(self, line: &Line<'_>) -> Outline
        requires { self.segments + 1 < 2 ^ 64 }
        ensures { result ≡ spec.with_line (meant line.now) self }
    {
        match line {
            Line::MediaSequence(sequence) => Outline {
                sequence: *sequence,
                ..self
            },
            Line::Skipped(skip) => Outline {
                skipped: Some(skip.count),
                ..self
            },
            Line::Uri(_) => Outline {
                segments: self.segments + 1,
                ..self
            },
            _ => self,
        }
    }
}
