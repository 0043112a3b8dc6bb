//! Why a delta update can't be applied.
ghost use Rattle.std.specs.Prelude.{Some};
ghost use Rattle.ll_apply.specs.Faults.{fault_text};

use std::error::Error;
use std::fmt;

/// The reason that there is no full playlist: the first of these that applies.
#[derive(Clone, Copy, Debug)]
pub enum ApplyFault {
    /// The earlier text is no full playlist of this profile: it is no playlist at all, or a delta update itself. In the first case `ll_read::read`
    /// returns the line that isn't allowed in its place.
    BadBase,
    /// The later text is no playlist of this profile. `ll_read::read` returns the line that isn't allowed in its place.
    BadDelta,
    /// The update skips a segment that the earlier playlist lacks: `number` is the smallest Media Sequence Number of such a segment (section
    /// 6.2.5.1).
    NotRecent { number: u64 },
    /// Out of memory.
    Memory,
}

/// Writes its name, and its number after a space, if it has one.
impl fmt::Display for ApplyFault {
    ghost output = { λ fault. Some (fault_text fault) };

    fn fmt<W: fmt::Write>(&self, f: &mut fmt::Formatter<W>) -> fmt::Result {
        match *self {
            ApplyFault::BadBase => f.write_str("BadBase"),
            ApplyFault::BadDelta => f.write_str("BadDelta"),
            ApplyFault::NotRecent { number } => write!(f, "NotRecent {number}"),
            ApplyFault::Memory => f.write_str("Memory"),
        }
    }
}

impl Error for ApplyFault {}
