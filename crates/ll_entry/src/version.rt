//! The formats of a chunk.
ghost use Rattle.std.specs.Prelude.{◌≡◌};
ghost use Rattle.ll_entry.specs.Replies as replies;
ghost use Rattle.ll_entry.specs.Frame as spec;

use ll_item::SkipKind;
use ll_verdict::Outcome;

/// The format of a chunk, as its first line names it.
#[derive(Clone, Copy, PartialEq, Eq)]
pub enum Version {
    /// `#LLHLS-CHUNK 1`: a playlist has its count of items, and not which delta update it is; a request for `v2` was answered as one for
    /// `YES`; a part has nothing of its media; and there are no requests for media.
    One,
    /// `#LLHLS-CHUNK 2`: a playlist has the delta update that it is, a part has the length of its media, and requests for media have lines
    /// of their own.
    Two,
}

impl Version {
    /// Returns the first line of a chunk in this format.
    pub fn first_line(self) -> &'static str
        ensures { result.now ≡ spec.first_line self }
    {
        match self {
            Version::One => "#LLHLS-CHUNK 1",
            Version::Two => "#LLHLS-CHUNK 2",
        }
    }

    /// Returns the format of a chunk that begins with `line`; `None` if no chunk does.
    pub fn read(line: &str) -> Option<Version>
        ensures { result ≡ spec.version.read line.now }
    {
        if line == Version::One.first_line() {
            Some(Version::One)
        } else if line == Version::Two.first_line() {
            Some(Version::Two)
        } else {
            None
        }
    }

    /// Returns what a record in this format keeps of `outcome`: in format 1 not which delta update a playlist is.
    pub fn told(self, outcome: Outcome) -> Outcome
        ensures { result ≡ replies.told_in self outcome }
    {
        match (self, outcome) {
            (Version::One, Outcome::Text(count, _)) => Outcome::Text(count, None),
            (_, told) => told,
        }
    }

    /// Returns which delta update a request asked for that is recorded with `skip`: in format 1 one for `v2` was answered as one for `YES`.
    pub(crate) fn asked_for(self, skip: Option<SkipKind>) -> Option<SkipKind>
        ensures { result ≡ replies.asked_for self skip }
    {
        match self {
            Version::One => skip.and(Some(SkipKind::Yes)),
            Version::Two => skip,
        }
    }
}
