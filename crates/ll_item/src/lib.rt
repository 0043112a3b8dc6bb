//! The items that a channel's publisher announces, the lines that spell them, the files that a request can be for, and the kinds of delta updates.
//! Sections are those of draft-pantos-hls-rfc8216bis.
#![tactic(auto)]

mod item;
mod item_bytes;
mod item_line;
mod item_text;
mod media;
mod naming;
mod part;
mod shared_bytes;
mod skip_kind;
mod what;

pub use item::{Item, ItemFault, PartItem};
pub use item_bytes::{announced, cut_last, lacks_length, told_bytes};
pub use item_text::ItemLine;
pub use media::{MEDIA_LIMIT, Media, Payload};
pub use naming::named;
pub use part::Part;
pub use shared_bytes::SharedBytes;
pub use skip_kind::SkipKind;
pub use what::What;
