//! What an input is that begins with no box of an MP4.
use ll_mp4::{SIZE_LIMIT, read_head};
use std::fmt;

/// The types of the boxes with which an MP4 or one of its segments begins (ISO/IEC 14496-12), as big-endian numbers: ftyp, styp, moov, moof,
/// mdat, sidx, emsg, prft, free, skip, uuid.
const TYPES: [u32; 11] = [
    0x6674_7970,
    0x7374_7970,
    0x6d6f_6f76,
    0x6d6f_6f66,
    0x6d64_6174,
    0x7369_6478,
    0x656d_7367,
    0x7072_6674,
    0x6672_6565,
    0x736b_6970,
    0x7575_6964,
];

/// The first four bytes of an input that begins with no box.
#[derive(Clone, Copy)]
pub struct Beginning([u8; 4]);

impl Beginning {
    /// The number of bytes at an input's front that show whether it begins with a box.
    pub const LENGTH: usize = 16;

    /// Returns the first bytes of an input with the bytes `front` at its front if it begins with no box: its first box would have a size that
    /// is refused, and a type with which no MP4 begins.
    pub fn of(front: &[u8]) -> Option<Beginning> {
        let (Some(first), Some(kind)) = (four_at(front, 0), four_at(front, 4)) else {
            return None;
        };
        let refused = match read_head(front) {
            Ok(Some(head)) => head.size > SIZE_LIMIT as u64,
            Ok(None) => false,
            Err(_) => true,
        };
        if refused && !TYPES.contains(&u32::from_be_bytes(kind)) {
            Some(Beginning(first))
        } else {
            None
        }
    }

    /// Returns what the input is, by its first bytes.
    fn what(self) -> &'static str {
        let Beginning(first) = self;
        match first {
            [0x47, _, _, _] => "this is MPEG-TS, no fragmented MP4",
            [b'F', b'L', b'V', _] => "this is FLV, no fragmented MP4",
            [0x1a, 0x45, 0xdf, 0xa3] => "this is Matroska or WebM, no fragmented MP4",
            [b'O', b'g', b'g', b'S'] => "this is Ogg, no fragmented MP4",
            [b'R', b'I', b'F', b'F'] => "this is AVI or WAV, no fragmented MP4",
            [b'I', b'D', b'3', _] | [0xff, _, _, _] => "this is MP3 or AAC, no fragmented MP4",
            [0, 0, 0, 1] | [0, 0, 1, _] => "this is MPEG video without MP4 around it",
            [0x7f, b'E', b'L', b'F'] => "this is a program",
            _ if is_text(first) => "this is text, no fragmented MP4",
            _ => "this is no MP4",
        }
    }
}

/// Returns the four bytes from `place` on, if they are there.
fn four_at(bytes: &[u8], place: usize) -> Option<[u8; 4]> {
    match bytes.get(place..)? {
        [a, b, c, d, ..] => Some([*a, *b, *c, *d]),
        _ => None,
    }
}

/// Returns whether `first` are bytes of a text.
fn is_text(first: [u8; 4]) -> bool {
    first.iter().all(|byte| byte.is_ascii_graphic() || byte.is_ascii_whitespace())
}

impl fmt::Display for Beginning {
    fn fmt<W: fmt::Write>(&self, f: &mut fmt::Formatter<W>) -> fmt::Result {
        let Beginning([a, b, c, d]) = *self;
        write!(
            f,
            "the input begins with {a:02x} {b:02x} {c:02x} {d:02x}: {}; PUSH.md, \"Input\"",
            self.what()
        )
    }
}
