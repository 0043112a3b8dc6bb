//! The words with which a settings file's lines begin.

/// The first word of a line of a settings file, in the order of the lines.
#[derive(Clone, Copy, PartialEq, Eq)]
pub enum Keyword {
    Listen,
    Publish,
    Workers,
    Record,
    Log,
    Spool,
    Status,
    Idle,
    Channel,
    Secret,
}

impl Keyword {
    /// Returns the keyword that `line` begins with, up to its first space.
    pub(crate) fn of(line: &str) -> Option<Keyword> {
        let word = match line.split_once(' ') {
            Some((word, _)) => word,
            None => line,
        };
        match word {
            "listen" => Some(Keyword::Listen),
            "publish" => Some(Keyword::Publish),
            "workers" => Some(Keyword::Workers),
            "record" => Some(Keyword::Record),
            "log" => Some(Keyword::Log),
            "spool" => Some(Keyword::Spool),
            "status" => Some(Keyword::Status),
            "idle" => Some(Keyword::Idle),
            "channel" => Some(Keyword::Channel),
            "secret" => Some(Keyword::Secret),
            _ => None,
        }
    }

    /// Returns the keyword of the line `number` if that has to be there: one of the first three.
    pub(crate) fn required(number: u64) -> Option<Keyword> {
        match number {
            1 => Some(Keyword::Listen),
            2 => Some(Keyword::Publish),
            3 => Some(Keyword::Workers),
            _ => None,
        }
    }

    /// Returns its place in the order of the lines.
    pub(crate) fn rank(self) -> u8 {
        match self {
            Keyword::Listen => 1,
            Keyword::Publish => 2,
            Keyword::Workers => 3,
            Keyword::Record => 4,
            Keyword::Log => 5,
            Keyword::Spool => 6,
            Keyword::Status => 7,
            Keyword::Idle => 8,
            Keyword::Channel | Keyword::Secret => 9,
        }
    }

    /// Returns the word.
    pub(crate) fn name(self) -> &'static str {
        match self {
            Keyword::Listen => "listen",
            Keyword::Publish => "publish",
            Keyword::Workers => "workers",
            Keyword::Record => "record",
            Keyword::Log => "log",
            Keyword::Spool => "spool",
            Keyword::Status => "status",
            Keyword::Idle => "idle",
            Keyword::Channel => "channel",
            Keyword::Secret => "secret",
        }
    }

    /// Returns whether what follows it ends before a space at the line's end: it is no path.
    pub(crate) fn has_fixed_form(self) -> bool {
        !matches!(
            self,
            Keyword::Publish | Keyword::Record | Keyword::Log | Keyword::Spool
        )
    }

    /// Returns whether it is followed by an address with a port.
    pub(crate) fn has_port(self) -> bool {
        matches!(self, Keyword::Listen | Keyword::Publish | Keyword::Status)
    }

    /// Returns what stands after the word and a space.
    pub(crate) fn value(self) -> &'static str {
        match self {
            Keyword::Listen | Keyword::Status => {
                "an IP address, a colon and a port, as 0.0.0.0:8080 or [::]:8080 (no host's name)"
            }
            Keyword::Publish => {
                "an IP address, a colon and a port, as 127.0.0.1:8081, or unix: and the path of a socket file"
            }
            Keyword::Workers => "a number from 1 to 4096",
            Keyword::Record | Keyword::Log => "a path",
            Keyword::Spool => "the path of a directory",
            Keyword::Idle => "a number of seconds from 1 to 86400",
            Keyword::Channel =>
                "a name, and then target=S part=US skip=S window=S renditions=NAME,.. first=N start=MS (seconds, microseconds, and milliseconds since 1970)",
            Keyword::Secret => "the SHA-256 of the channel's secret, in 64 hexadecimal digits",
        }
    }
}
