//! What becomes of a publisher's line at the door of its channel.
ghost use Rattle.std.specs.Prelude.{◌≡◌, Some, option_map};
ghost use Rattle.ll_publisher.specs.Channels.{channel_in};
ghost use Rattle.ll_publisher.specs.Doors as spec;
ghost use Rattle.ll_publisher.specs.Doors.{origin, passage_by, secret_at};
ghost use Rattle.ll_publisher.specs.Passages.{passage_of};
ghost use Rattle.ll_publish.specs.Meaning.{meant};
ghost use Rattle.ll_settings.specs.Settings.{Configuration};

use ll_door::{Digest, secret_in};
use ll_hub::Ledgers;
use ll_publish::Line;
use ll_service::Service;

/// What becomes of a publisher's line.
#[derive(Clone, Copy)]
pub(crate) enum Passage {
    /// It is read.
    Passes,
    /// It gives the secret of the channel at this place.
    Opens(usize),
    /// The channel at this place has a secret, which was not given before the line nor is by it.
    Stays(usize),
}

/// Returns what becomes of a line that gives the word `word`, or none, for the channel at `channel`, whose secret has the digest `digest`.
/// `opened` are the places of the channels that are open.
fn passage_with(digest: &Digest, word: Option<&str>, opened: &[usize], channel: usize) -> Passage
    ensures { passage_of result ≡ passage_by (Some digest.now) (option_map (λ w. w.now) word.entry) (spec.is_open opened.now channel) channel }
{
    match word {
        Some(word) if digest.is_of(word) => Passage::Opens(channel),
        None if is_open(opened, channel) => Passage::Passes,
        _ => Passage::Stays(channel),
    }
}

/// Returns whether the channel at `channel` is among those at the places `opened`.
fn is_open(opened: &[usize], channel: usize) -> bool
    ensures { result ≡ spec.is_open opened.now channel }
{
    opened.iter().any(|each| *each == channel)
}

/// Returns what becomes of `line`, which is for the channel at place `channel`, on a connection that has opened the channels at the places
/// `opened`.
#[tactic(auto, using(crate::proofs::DoorLemmas::passage_of_item, crate::proofs::DoorLemmas::passage_of_place))]
pub(crate) fn decide<L: Ledgers, C, G, K, D, B, R>(
    service: &Service<'_, L, C, G, K, D, B, R>,
    opened: &[usize],
    channel: usize,
    line: &Line<'_>,
) -> Passage
    ensures { (settings : Configuration) → channel_in service.now.hub.now (meant line.now) ≡ Some (channel, settings)
        → passage_of result ≡ spec.passage (origin service.now.hub.now service.now.secrets.now) opened.now (meant line.now) }
{
    match line {
        Line::Item(_, text, _) => at_door(service, opened, channel, secret_in(text)),
        Line::At(..) => at_door(service, opened, channel, None),
        Line::Bad | Line::TooLong | Line::MediaTooLong => Passage::Passes,
    }
}

/// Returns what becomes of a line for the channel at place `channel` that gives the word `word`, or none.
fn at_door<L: Ledgers, C, G, K, D, B, R>(
    service: &Service<'_, L, C, G, K, D, B, R>,
    opened: &[usize],
    channel: usize,
    word: Option<&str>,
) -> Passage
    ensures { passage_of result ≡ passage_by (secret_at service.now.secrets.now channel) (option_map (λ w. w.now) word.entry) (spec.is_open opened.now channel) channel }
{
    match service.secrets.get(channel) {
        Some(Some(digest)) => passage_with(digest, word, opened, channel),
        _ => Passage::Passes,
    }
}
