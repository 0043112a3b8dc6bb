//! Fragmented MP4 (ISO/IEC 14496-12) as it comes from an encoder: its boxes, the units that they make, and what a unit says of a movie or of a
//! fragment's time.
#![tactic(auto)]

mod boxes;
mod element;
mod fault;
mod flags;
mod kind;
mod laws;
mod movie;
mod numbers;
mod runs;
mod splitter;
mod timing;
mod track;
mod tracks;
mod units;

pub use boxes::{BoxHead, FoundBox, at_most_one, next_of, only, read_front, read_head};
pub use element::{Element, read_element};
pub use fault::StreamFault;
pub use kind::Kind;
pub use laws::{splitter_law, worked_stream};
pub use movie::{Movie, read_movie};
pub use splitter::Splitter;
pub use timing::{DecodeTime, Timing, read_timing};
pub use track::{TimeScale, Track};
pub use units::{SIZE_LIMIT, read_unit};
