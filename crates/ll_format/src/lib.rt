//! Formats: how values are spelled in a line, stated once for reading and writing; moments in UTC as playlists spell them; and the dates
//! and times of date ranges. `specs/` has the definitions, `proofs/` their laws, `src/` the small readers of which every reader of lines is
//! made. None of them takes memory.
#![tactic(auto)]

mod calendar;
mod date_time;
mod digits;
mod field;
mod time;
mod value;

pub use calendar::calendar_law;
pub use date_time::is_date_time;
pub use field::{duration_at, flag_at, number_at, quoted_at, uri_at};
pub use time::UtcTime;
pub use value::{duration, is_quotable, is_rest, is_uri, number, until};
