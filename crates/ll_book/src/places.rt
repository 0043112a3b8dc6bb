//! The places of requests in the two orders of a book.
ghost use Rattle.std.specs.Prelude.{◌≡◌};
ghost use Rattle.ll_book.specs.Orders as spec;

use crate::place::OrderKey;
use crate::release::Release;
use ll_directive::Awaited;
use ll_verdict::Entry;

/// The place before all others.
pub(crate) const FIRST: OrderKey = OrderKey {
    group: 0,
    kind: 0,
    rank: 0,
    subrank: 0,
    number: 0,
};

/// Returns the place of a request in the order of what is awaited: by its rendition, by whether it awaits a part, a segment or nothing, by the
/// numbers of what it awaits, and by its ticket.
pub(crate) fn want_of(entry: &Entry) -> OrderKey
    ensures { result ≡ spec.want_of entry.now }
{
    let (kind, rank, subrank) = match entry.wanted.awaited {
        Awaited::Part(msn, part) => (0, msn, part),
        Awaited::Segment(msn) => (1, msn, 0),
        Awaited::Nothing => (2, 0, 0),
    };
    OrderKey {
        group: entry.wanted.rendition as u64,
        kind,
        rank,
        subrank,
        number: entry.ticket,
    }
}

/// Returns the place of a request in the order of time: by its deadline, then by its ticket.
pub(crate) fn time_of(entry: &Entry) -> OrderKey
    ensures { result ≡ spec.time_of entry.now }
{
    OrderKey {
        rank: entry.deadline,
        number: entry.ticket,
        ..FIRST
    }
}

/// Returns a place before all that the release `which` covers, and after all others that are before one of these.
pub(crate) fn start(which: Release) -> OrderKey
    ensures { result ≡ spec.start which }
{
    let (rendition, kind) = match which {
        Release::Part(rendition, _, _) => (rendition, 0),
        Release::Segment(rendition, _) => (rendition, 1),
        Release::All(rendition) => (rendition, 0),
    };
    OrderKey {
        group: rendition as u64,
        kind,
        ..FIRST
    }
}

/// Returns whether the release `which` takes a waiting request whose place in the order of what is awaited is `place`.
pub(crate) fn covers(which: Release, place: OrderKey) -> bool
    ensures { result ≡ spec.covers which place }
{
    match which {
        Release::Part(rendition, msn, part) => {
            place.group == rendition as u64
                && (place.kind == 0
                    && (place.rank < msn || (place.rank == msn && place.subrank <= part)))
        }
        Release::Segment(rendition, msn) => {
            place.group == rendition as u64 && (place.kind == 1 && place.rank <= msn)
        }
        Release::All(rendition) => place.group == rendition as u64,
    }
}
