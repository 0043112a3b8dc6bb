//! The window of one rendition: its segments and parts, and what may follow them. Sections are those of
//! draft-pantos-hls-rfc8216bis-13.
#![tactic(auto)]

mod fault;
mod finished;
mod laws;
mod part_position;
mod progress;
mod segment;
mod wants;
mod window;

pub use fault::{PushError, WindowFault};
pub use laws::{numbers_law, ranges_law, wants_law, window_law};
pub use part_position::PartPosition;
pub use segment::Segment;
pub use window::Window;
