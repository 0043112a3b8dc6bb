//! The lines of a Media Playlist, parsed and written one by one, and, for contracts alone, a whole playlist. Sections are those of
//! draft-pantos-hls-rfc8216bis.
#![tactic(auto)]

mod fields;
mod laws;
mod line;
mod reading;
mod skip;
mod time;
mod uri;
mod writing;

pub use laws::{one_line_law, read_is_spelled_law, spelled_is_read_law};
pub use line::{Control, DateRange, Line, PartLine, Report, Skip};
pub use skip::push_skip;
pub use time::DateTime;
pub use uri::Uri;
pub use writing::push_line;
