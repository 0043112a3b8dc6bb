//! What the target of a player's request asks for: a playlist, and which part of the stream it waits for, or media. Sections are those of
//! draft-pantos-hls-rfc8216bis.
#![tactic(auto)]

mod fault;
mod file;
mod path;
mod query;
mod target;
mod want;

pub use fault::TargetFault;
pub use file::media_file;
pub use target::{named_channel, read_target};
pub use want::{Awaited, Want};
