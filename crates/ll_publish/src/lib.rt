//! A publisher's stream: its lines, each of which announces an item of a channel or asks where a rendition stands, the bytes of
//! items after them, and the lines that answer them.
#![tactic(auto)]

mod feed;
mod laws;
mod line;
mod look;
mod refusal;
mod reply;
mod success;

pub use feed::Feed;
pub use laws::feed_law;
pub use line::Line;
pub use refusal::Refusal;
pub use reply::{at_line, no_line, ok_line, refusal_line, reply_text};
pub use success::Success;
