//! What a server's refusal of a publisher's line means.
use std::fmt;

/// What the refusal in a server's answer means: a line that is indented by two spaces, or none if it isn't known.
#[derive(Clone, Copy)]
pub struct RefusalAdvice<'a>(
    /// The answer, as `no 4 TooLong`.
    pub &'a str,
);

impl fmt::Display for RefusalAdvice<'_> {
    fn fmt<W: fmt::Write>(&self, f: &mut fmt::Formatter<W>) -> fmt::Result {
        let name = match self.0.rsplit_once(' ') {
            Some((_, name)) => name,
            None => self.0,
        };
        match advice_of(name) {
            "" => Ok(()),
            text => writeln!(f, "  {text}"),
        }
    }
}

/// Returns what the refusal called `name` means to someone who runs `llhls push`, or an empty text.
fn advice_of(name: &str) -> &'static str {
    match name {
        "NoRendition" =>
            "The channel has no rendition of that name: `renditions=` in the server's settings lists them.",
        "Ended" =>
            "The rendition has ended, and takes no more: the channel has to begin anew, with a higher `first=`.",
        "BadDuration" => "A part has no duration.",
        "TooLong" => {
            "A part is longer than the channel's `part=`, or its segment would be longer than `target=`: compare `part=`, `segment=` and `most=` with the server's settings, and the encoder's key frames with `segment=`."
        }
        "CountEnd" => "The rendition's Media Sequence Numbers have come to their end, 2^60.",
        "TimeEnd" => "The rendition's program time has come to its end, the year 9999.",
        "TimeBack" =>
            "The rendition's program time is later than this machine's clock: set the clock, or wait.",
        "Memory" => "The server is out of memory.",
        "RecordFull" => "The server can't write the channel's record as fast as it grows.",
        "BadLine" =>
            "The server doesn't know a line that this version of `llhls push` sends: is it older?",
        "UnknownChannel" =>
            "The server has no channel of that name: each `channel` line of its settings begins with one.",
        "MediaTooLong" =>
            "A part or an initialization section has more than 1,048,576 bytes: choose a shorter `part=`.",
        "NotAllowed" =>
            "The channel has a secret: give `secret=FILE` with the one whose SHA-256 stands in the server's settings.",
        _ => "",
    }
}
