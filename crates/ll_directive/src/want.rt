//! What a request asks for, as its target says it.
ghost use Rattle.std.specs.Prelude.{◌≡◌, ◌&&◌, IfOk, None, Some, false, if◌then◌else◌, true};
ghost use Rattle.ll_directive.specs.Files.{is_playlist};
ghost use Rattle.ll_directive.specs.Targets as spec;
ghost use Rattle.ll_directive.specs.Targets.{IsPlain, awaited_in, media_want};
ghost use Rattle.ll_settings.specs.Names.{is_name};
ghost use Rattle.ll_item.specs.declared.what.What.TheVariants as what;

use ll_attr::Text;
use ll_item::{SkipKind, What};
use ll_settings::is_name;
use std::alloc::AllocError;
use std::marker::Model;

/// What a request waits for before it is answered.
#[derive(Clone, Copy, PartialEq, Eq)]
pub enum Awaited {
    /// Nothing.
    Nothing,
    /// The whole segment of this Media Sequence Number (`_HLS_msn`).
    Segment(u64),
    /// The part of the segment of this Media Sequence Number (`_HLS_msn`) with this Part Index (`_HLS_part`).
    Part(u64, u64),
}

/// Returns what a request for media waits for, if it waits: a part, until it is there.
pub(crate) fn awaits(what: What) -> Awaited
    ensures { result ≡ spec.awaits what }
{
    match what {
        What::Part(number, index) => Awaited::Part(number, index),
        What::Playlist | What::Segment(_) | What::Init(_) => Awaited::Nothing,
    }
}

/// A playlist or media that a request asks for, of a rendition of a channel.
pub struct Want {
    channel: Text,
    rendition: Text,
    what: What,
    awaited: Awaited,
    skip: Option<SkipKind>,
}

impl Drop for Want {
    fn drop(self) {
        let Want {
            channel: _channel,
            rendition: _rendition,
            what: _,
            awaited: _,
            skip: _,
        } = self;
    }
}

impl Model for Want {
    ghost use Rattle.std.specs.Prelude.{◌≡◌, true};
    ghost use Rattle.ll_settings.specs.Names.{is_name};
    ghost use Rattle.ll_directive.specs.Targets.{IsPlain, WantValue};

    ghost Value = { WantValue };

    ghost view = { λ w. record { channel = w.channel; rendition = w.rendition; what = w.what; awaited = w.awaited; skip = w.skip } };

    ghost invariant = { λ w. (is_name w.channel ≡ true) × (is_name w.rendition ≡ true)
        × IsPlain (record { channel = w.channel; rendition = w.rendition; what = w.what; awaited = w.awaited; skip = w.skip }) };
}

impl Want {
    /// Returns the want of a playlist, or `None` if `channel` or `rendition` hasn't the form of a name.
    pub fn new(
        channel: Text,
        rendition: Text,
        awaited: Awaited,
        skip: Option<SkipKind>,
    ) -> Option<Want>
        ensures { result ≡ (if is_name channel && is_name rendition
            then Some (record { channel = channel; rendition = rendition; what = what.Playlist; awaited = awaited; skip = skip }) else None) }
    {
        if !is_name(channel.as_str()) || !is_name(rendition.as_str()) {
            return None;
        }
        Some(Want::of(channel, rendition, What::Playlist, awaited, skip))
    }

    /// Returns the want of the media `what`, or `None` if `channel` or `rendition` hasn't the form of a name.
    pub fn media(channel: Text, rendition: Text, what: What) -> Option<Want>
        ensures { result ≡ (if is_name channel && is_name rendition then Some (media_want channel rendition what) else None) }
    {
        if !is_name(channel.as_str()) || !is_name(rendition.as_str()) {
            return None;
        }
        Some(Want::of(channel, rendition, what, awaits(what), None))
    }

    /// Returns the want of the file `what`.
    pub(crate) fn of(
        channel: Text,
        rendition: Text,
        what: What,
        awaited: Awaited,
        skip: Option<SkipKind>,
    ) -> Want
        requires channel_named { is_name channel ≡ true }
        requires rendition_named { is_name rendition ≡ true }
        requires plain { IsPlain (record { channel = channel; rendition = rendition; what = what; awaited = awaited; skip = skip }) }
        ensures { result ≡ record { channel = channel; rendition = rendition; what = what; awaited = awaited; skip = skip } }
    {
        Want {
            channel,
            rendition,
            what,
            awaited,
            skip,
        }
    }

    /// Returns the channel's name, which has the form of a name.
    pub fn channel(&self) -> &str
        ensures value { result.now ≡ self.now.channel }
        ensures named { is_name result.now ≡ true }
    {
        self.channel.as_str()
    }

    /// Returns the rendition's name, which has the form of a name.
    pub fn rendition(&self) -> &str
        ensures value { result.now ≡ self.now.rendition }
        ensures named { is_name result.now ≡ true }
    {
        self.rendition.as_str()
    }

    /// Returns the file that the request is for.
    pub fn what(&self) -> What
        ensures { result ≡ self.now.what }
    {
        self.what
    }

    /// Returns what the request waits for.
    #[tactic(auto, using(crate::proofs::Plain::plain_awaited))]
    pub fn awaited(&self) -> Awaited
        ensures value { result ≡ self.now.awaited }
        ensures by_file { result ≡ awaited_in self.now }
    {
        self.awaited
    }

    /// Returns which delta update the request is for; `None` for the full playlist and for media.
    #[tactic(auto, using(crate::proofs::Plain::plain_skip))]
    pub fn skip(&self) -> Option<SkipKind>
        ensures value { result ≡ self.now.skip }
        ensures by_file { is_playlist self.now.what ≡ false → result ≡ None }
    {
        self.skip
    }

    /// Returns a copy, with texts of its own.
    pub fn copy(&self) -> Result<Want, AllocError>
        ensures { IfOk result (λ w. w ≡ self.now) }
    {
        Ok(Want {
            channel: self.channel.copy()?,
            rendition: self.rendition.copy()?,
            what: self.what,
            awaited: self.awaited,
            skip: self.skip,
        })
    }
}
