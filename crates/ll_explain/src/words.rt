//! An entry in words.
ghost use Rattle.std.specs.Prelude.{◌≡◌, ◌++◌, IfOk, string_bytes};
ghost use Rattle.ll_explain.specs.Words as spec;

use crate::explained::Explained;
use ll_attr::after;
use ll_item::SkipKind;
use ll_verdict::{Outcome, Reply};
use std::alloc::{AllocError, Global};

impl Explained {
    /// Returns the entry with the number `entry` in words, with its line, the channel's time before it, and the playlist of its reply, byte
    /// for byte.
    #[tactic(auto, unfolding(crate::specs::Words::explained_text))]
    pub fn text(&self, alloc: Global, entry: u64) -> Result<String, AllocError>
        ensures { IfOk result (λ t. string_bytes t ≡ spec.explained_text entry self.now.time self.now.line self.now.reply) }
    {
        let (time, line) = (self.time, self.line.as_str());
        let event = event_words(line, &self.reply);
        let reply = reply_words(alloc, &self.reply)?;
        let reply = reply.as_str();
        let (gap, playlist) = playlist_text(&self.reply);
        format!(in alloc; "entry {entry}, at {time} ms: {line}\n{event}{reply}\n{gap}{playlist}")
    }
}

/// Returns what happens at the entry of a line, before what it gets.
fn event_words(line: &str, reply: &Option<Reply>) -> &'static str
    ensures { result.now ≡ spec.event_words line.now reply.now }
{
    let asks = after(line, "A ").is_some() || after(line, "M ").is_some();
    if reply.is_some() {
        return if asks {
            "a request gets at once "
        } else {
            "a request that was held gets "
        };
    }
    if after(line, "P ").is_some() {
        "an item is accepted"
    } else if asks {
        "a request is held"
    } else if after(line, "C ").is_some() {
        "the clock is read"
    } else {
        "a request that was held is given up"
    }
}

/// Returns a reply in words; no text if there is none.
fn reply_words(alloc: Global, reply: &Option<Reply>) -> Result<String, AllocError>
    ensures { IfOk result (λ t. string_bytes t ≡ spec.reply_words reply.now) }
{
    match reply {
        Some(reply) => outcome_words(alloc, reply.outcome()),
        None => Ok(String::new(alloc)),
    }
}

/// Returns an outcome in words.
fn outcome_words(alloc: Global, outcome: Outcome) -> Result<String, AllocError>
    ensures { IfOk result (λ t. string_bytes t ≡ spec.outcome_words outcome) }
{
    match outcome {
        Outcome::Text(items, update) => text_words(alloc, items, playlist_words(update)),
        Outcome::Media(items, length) => media_words(alloc, items, length),
        Outcome::NotFound => {
            String::from_str(alloc, "NotFound: there is no such rendition or media")
        }
        Outcome::TooFar => String::from_str(alloc, "TooFar: what it awaits is too far ahead"),
        Outcome::Busy => String::from_str(alloc, "Busy: as many requests wait as may wait"),
        Outcome::Timeout => String::from_str(alloc, "Timeout: what it awaits did not come in time"),
    }
}

/// Returns the words for a playlist after `items` items.
#[tactic(auto, unfolding(crate::specs::Words::text_words))]
fn text_words(alloc: Global, items: u64, playlist: &str) -> Result<String, AllocError>
    ensures { IfOk result (λ t. string_bytes t ≡ spec.text_words items playlist.now) }
{
    format!(in alloc; "{playlist} after {items} items")
}

/// Returns the words for media of `length` bytes after `items` items.
#[tactic(auto, unfolding(crate::specs::Words::media_words))]
fn media_words(alloc: Global, items: u64, length: u64) -> Result<String, AllocError>
    ensures { IfOk result (λ t. string_bytes t ≡ spec.media_words items length) }
{
    format!(in alloc; "media of {length} bytes after {items} items")
}

/// Returns the words for a delta update of a kind; for a full playlist if there is none.
fn playlist_words(update: Option<SkipKind>) -> &'static str
    ensures { result.now ≡ spec.playlist_words update }
{
    match update {
        None => "the full playlist",
        Some(SkipKind::Yes) => "a delta update (YES)",
        Some(SkipKind::V2) => "a delta update (v2)",
    }
}

/// Returns the playlist of a reply, and what comes before it.
fn playlist_text(reply: &Option<Reply>) -> (&'static str, &str)
    ensures { result.0.now ++ result.1.now ≡ spec.playlist_text reply.now }
{
    match reply {
        Some(Reply::Text(page)) => ("\n", page.text()),
        _ => ("", ""),
    }
}
