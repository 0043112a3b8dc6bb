//! Texts, numbers, durations and attribute lists as playlists and scripts spell them.
#![tactic(auto)]

mod attribute_parse;
mod attribute_text;
mod attributes;
mod micros;
mod number;
mod parts;
mod text;

pub use attributes::{AttrFault, AttrList, AttrValue, Attribute};
pub use micros::{Micros, micros_text, parse_micros};
pub use number::parse_number;
pub use parts::{after, cut, one_word};
pub use text::Text;
