//! The playlists of a channel: each form of a rendition's playlist is written once, when it is first asked for, and shared after that.
#![tactic(auto)]

mod pages;
mod written;

pub use ll_pieces::Rendered;
pub use pages::Pages;
pub use written::Written;
