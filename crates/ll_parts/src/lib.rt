//! The parts and segments of an encoder's stream: which fragments of fragmented MP4 (ISO/IEC 14496-12) go into one part, how long it lasts, and where
//! a segment ends.
#![tactic(auto)]

mod bytes;
mod cutter;
mod frame;
mod heading;
mod joiner;
mod laws;
mod others;
mod pieces;
mod prompt;
mod stage;
mod stream;

pub use bytes::Bytes;
pub use cutter::Cutter;
pub use joiner::Joiner;
pub use laws::cutter_law;
pub use ll_runs::{Lengths, SIZE_LIMIT};
pub use pieces::{MediaPart, Piece, PieceQueue};
