//! Times of lines.
ghost use Rattle.std.specs.Prelude.{Some};
ghost use Rattle.ll_line.specs.Meaning.{date_time_text};

use ll_format::UtcTime;
use std::fmt;

/// The time of an EXT-X-PROGRAM-DATE-TIME line (section 4.4.4.6).
#[derive(Clone, Copy)]
pub enum DateTime<'a> {
    /// The time itself.
    Utc(&'a UtcTime),
    /// The text of a time, as it was read.
    Text(&'a str),
}

impl fmt::Display for DateTime<'_> {
    ghost output = { λ time. Some (date_time_text time) };

    fn fmt<W: fmt::Write>(&self, f: &mut fmt::Formatter<W>) -> fmt::Result {
        match *self {
            DateTime::Utc(time) => write!(f, "{time}"),
            DateTime::Text(text) => f.write_str(text),
        }
    }
}
