//! The date ranges of one rendition: those that playlists list, and those that were removed recently. Sections are those of
//! draft-pantos-hls-rfc8216bis.
#![tactic(auto)]

mod attributes;
mod changes;
mod laws;
mod listed;
mod ranges;

pub use laws::skipped_law;
pub use ranges::{DateRange, RangeError, RangeFault, Ranges};
