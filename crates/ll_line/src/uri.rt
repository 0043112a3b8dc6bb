//! URIs of lines.
ghost use Rattle.std.specs.Prelude.{Some};
ghost use Rattle.ll_line.specs.Uris.{uri_text};

use std::fmt;

/// A URI in a line. How the first four are spelled is this origin's own choice.
#[derive(Clone, Copy)]
pub enum Uri<'a> {
    /// The segment with this Media Sequence Number.
    Segment { number: u64 },
    /// The part with this index in the segment with this Media Sequence Number.
    Part { number: u64, index: u64 },
    /// The Media Initialization Section with this map number.
    Map { number: u64 },
    /// The playlist of the rendition with this name, relative to that of another one.
    Rendition { name: &'a str },
    /// Any URI, as its text.
    Text(&'a str),
}

#[tactic(auto, unfolding(crate::specs::Uris::segment_uri, crate::specs::Uris::part_uri, crate::specs::Uris::map_uri, crate::specs::Uris::report_uri))]
impl fmt::Display for Uri<'_> {
    ghost output = { λ uri. Some (uri_text uri) };

    fn fmt<W: fmt::Write>(&self, f: &mut fmt::Formatter<W>) -> fmt::Result {
        match *self {
            Uri::Segment { number } => write!(f, "s{number}.m4s"),
            Uri::Part { number, index } => write!(f, "s{number}.{index}.m4s"),
            Uri::Map { number } => write!(f, "init{number}.mp4"),
            Uri::Rendition { name } => write!(f, "../{name}/live.m3u8"),
            Uri::Text(text) => f.write_str(text),
        }
    }
}
