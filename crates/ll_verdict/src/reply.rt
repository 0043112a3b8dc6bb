//! The replies of a channel to requests.
ghost use Rattle.std.specs.Prelude.{◌≡◌};
ghost use Rattle.ll_verdict.specs.Names.{reply_name, reply_status};
ghost use Rattle.ll_verdict.specs.Outcome.{outcome_of};

use crate::piece::MediaReply;
use ll_item::SkipKind;
use ll_page::Page;

/// What a request that had to wait gets, unless it is closed before.
pub enum Settled {
    /// The playlist or delta update of the state in which what it awaited is there, or its rendition has ended.
    Text(Page),
    /// The part that it awaited.
    Media(MediaReply),
    /// The part that it awaited can't come any more: another part came, or the rendition has ended.
    NotFound,
    /// Three target durations passed.
    Timeout,
}

impl Drop for Settled {
    fn drop(self) {
        match self {
            Settled::Text(_page) => {}
            Settled::Media(_piece) => {}
            Settled::NotFound | Settled::Timeout => {}
        }
    }
}

impl Settled {
    ghost use Rattle.ll_verdict.specs.Verdict.{reply_of};

    /// Returns the reply that it is.
    fn into_reply(self) -> Reply
        ensures { result ≡ reply_of self }
    {
        match self {
            Settled::Text(page) => Reply::Text(page),
            Settled::Media(piece) => Reply::Media(piece),
            Settled::NotFound => Reply::NotFound,
            Settled::Timeout => Reply::Timeout,
        }
    }
}

/// What a request gets.
pub enum Reply {
    /// A playlist or delta update.
    Text(Page),
    /// A segment, a part or a Media Initialization Section.
    Media(MediaReply),
    /// The channel has no rendition of that name, or the requested media isn't there, and isn't the next part or can't come any more.
    NotFound,
    /// What it awaits is too far ahead (section 6.2.5.2).
    TooFar,
    /// 65,536 requests of the channel wait.
    Busy,
    /// What it awaits wasn't there within three target durations.
    Timeout,
}

impl Drop for Reply {
    fn drop(self) {
        match self {
            Reply::Text(_page) => {}
            Reply::Media(_piece) => {}
            Reply::NotFound | Reply::TooFar | Reply::Busy | Reply::Timeout => {}
        }
    }
}

impl From<Settled> for Reply {
    ghost use Rattle.std.specs.Prelude.{◌≡◌};
    ghost use Rattle.ll_verdict.specs.Verdict.{reply_of};

    ghost from_gives = { λ settled reply. reply ≡ reply_of settled };

    fn from(settled: Settled) -> Reply {
        settled.into_reply()
    }
}

/// A reply without the playlist or the bytes themselves.
#[derive(Clone, Copy, PartialEq, Eq)]
pub enum Outcome {
    /// A playlist: how many items the channel had accepted, and which delta update it is, or `None` for a full playlist.
    Text(u64, Option<SkipKind>),
    /// Media: how many items the channel had accepted, and how many bytes it has.
    Media(u64, u64),
    /// There is no such rendition or no such media.
    NotFound,
    /// What it awaits is too far ahead.
    TooFar,
    /// 65,536 requests of the channel wait.
    Busy,
    /// What it awaits wasn't there within three target durations.
    Timeout,
}

impl Reply {
    /// Returns the reply without its playlist or bytes.
    pub fn outcome(&self) -> Outcome
        ensures { result ≡ outcome_of self.now }
    {
        match self {
            Reply::Text(page) => Outcome::Text(page.number(), page.update()),
            Reply::Media(piece) => Outcome::Media(piece.number, piece.bytes.len()),
            Reply::NotFound => Outcome::NotFound,
            Reply::TooFar => Outcome::TooFar,
            Reply::Busy => Outcome::Busy,
            Reply::Timeout => Outcome::Timeout,
        }
    }

    /// Returns the status of its response (RFC 9110, section 15).
    pub fn status(&self) -> u16
        ensures { result ≡ reply_status self.now }
    {
        match self {
            Reply::Text(_) | Reply::Media(_) => 200,
            Reply::NotFound => 404,
            Reply::TooFar => 400,
            Reply::Busy | Reply::Timeout => 503,
        }
    }

    /// Returns its name, which a player reads if it gets no playlist and no media.
    pub fn name(&self) -> &'static str
        ensures { result.now ≡ reply_name self.now }
    {
        match self {
            Reply::Text(_) => "Text",
            Reply::Media(_) => "Media",
            Reply::NotFound => "NotFound",
            Reply::TooFar => "TooFar",
            Reply::Busy => "Busy",
            Reply::Timeout => "Timeout",
        }
    }
}
