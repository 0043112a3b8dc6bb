//! Moves the times of an encoder's fragments (ISO/IEC 14496-12) so that they continue from the end of a rendition.
#![tactic(auto)]

mod field;
mod laws;
mod moof;
mod moved;
mod pieces;
mod shift;
mod traf;

pub use laws::{moved_law, worked_moves};
pub use moved::push_moved;
pub use shift::Shift;
