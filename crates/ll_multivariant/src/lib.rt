//! The Multivariant Playlist of a channel, from its record and the Media Initialization Sections of its renditions (section 4.4.6 of
//! draft-pantos-hls-rfc8216bis).
#![tactic(auto)]

mod addition;
mod fault;
mod kept;
mod naming;
mod written;

pub use fault::MultivariantFault;
pub use naming::NamedSection;
pub use written::multivariant;
