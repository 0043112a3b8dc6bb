//! What is noted of a publisher's connection, and its line of the log.
use crate::remote::Remote;
use ll_format::UtcTime;
use ll_publish::Refusal;
use std::alloc::{AllocError, Global};

/// What is noted of a publisher's connection. A channel is given by its place.
#[derive(Clone, Copy)]
pub(crate) enum Noted {
    /// Its lines begin to be read.
    Connected,
    /// The channel that lets it in: it has accepted its first item, or its first secret.
    LetIn(usize),
    /// The channel of the first line that is refused, if it is known, and why.
    Refused(Option<usize>, Refusal),
    /// Its end.
    Ended {
        /// The channel that let it in.
        channel: Option<usize>,
        /// The number of its items that were accepted.
        items: u64,
        /// The number of bytes of these items.
        bytes: u64,
        /// Why it has ended.
        ending: EndReason,
    },
}

/// Why a connection has ended.
#[derive(Clone, Copy)]
pub enum EndReason {
    /// The publisher has ended it.
    Closed,
    /// A read failed.
    Read,
    /// A write failed.
    Write,
    /// The hub refused a call.
    Hub,
    /// Out of memory.
    Memory,
    /// It was read as often as is allowed.
    Endless,
}

impl EndReason {
    /// Returns its name.
    fn name(self) -> &'static str {
        match self {
            EndReason::Closed => "Closed",
            EndReason::Read => "Read",
            EndReason::Write => "Write",
            EndReason::Hub => "Hub",
            EndReason::Memory => "Memory",
            EndReason::Endless => "Endless",
        }
    }
}

/// What a line of the log says. It has nothing that was sent, and takes no memory of its own.
#[derive(Clone, Copy)]
pub(crate) enum Note {
    /// What was noted of the connection with this number, and when.
    Of(UtcTime, u64, Remote, Noted),
    /// How many notes were left out before this time.
    LeftOut(UtcTime, u64),
}

impl Note {
    /// Returns how many notes are missing if it is dropped.
    pub(crate) fn count(&self) -> u64 {
        match self {
            Note::Of(..) => 1,
            Note::LeftOut(_, count) => *count,
        }
    }

    /// Returns the place of its channel, or `None` if it has none.
    pub(crate) fn channel(&self) -> Option<usize> {
        match self {
            Note::Of(_, _, _, Noted::LetIn(channel)) => Some(*channel),
            Note::Of(_, _, _, Noted::Refused(channel, _) | Noted::Ended { channel, .. }) =>
                *channel,
            Note::Of(_, _, _, Noted::Connected) | Note::LeftOut(..) => None,
        }
    }

    /// Returns its line, with its LF. The name of its channel, or `-`, is `channel`.
    pub(crate) fn line(&self, alloc: Global, channel: &str) -> Result<String, AllocError> {
        match self {
            Note::LeftOut(time, count) => {
                format!(in alloc; "{time} publisher: - - left-out lines={count}\n")
            }
            Note::Of(time, number, remote, noted) => {
                let mut line = format!(in alloc; "{time} publisher: {number} {remote} ")?;
                push_noted(&mut line, noted, channel)?;
                Ok(line)
            }
        }
    }
}

/// Adds the end of the line of `noted`, with its LF, to `line`. The name of its channel, or `-`, is `channel`.
fn push_noted(line: &mut String, noted: &Noted, channel: &str) -> Result<(), AllocError> {
    match noted {
        Noted::Connected => line.push_str("connected\n"),
        Noted::LetIn(_) => write!(line, "let-in channel={channel}\n"),
        Noted::Refused(_, refusal) => {
            let reason = refusal.name();
            write!(line, "refused channel={channel} reason={reason}\n")
        }
        Noted::Ended {
            items,
            bytes,
            ending,
            ..
        } => {
            let reason = ending.name();
            write!(
                line,
                "ended channel={channel} items={items} bytes={bytes} reason={reason}\n"
            )
        }
    }
}
