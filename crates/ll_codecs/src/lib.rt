//! What a Media Initialization Section (ISO/IEC 14496-12) says of its tracks: their codecs, as RFC 6381 spells them, and the size and rate of
//! the pictures.
#![tactic(auto)]

mod aac;
mod av1;
mod avc;
mod children;
mod codec;
mod entry;
mod fields;
mod hevc;
mod section;
mod spelling;
mod track;

pub use section::{Section, read_section};
pub use track::{CodecTrack, Picture};
