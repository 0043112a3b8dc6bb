//! Where a rendition stands, as a publisher has to know it.
ghost use Rattle.std.specs.Prelude.{◌≡◌};
ghost use Rattle.ll_verdict.specs.Standing.{standing_of};

use ll_rendition::Rendition;

/// Where a rendition stands, after some items of its channel.
#[derive(Clone, Copy)]
pub struct Standing {
    /// The number of items that the channel has accepted.
    pub count: u64,
    /// The Media Sequence Number of the next part.
    pub number: u64,
    /// The Part Index of the next part.
    pub index: u64,
    /// The total duration of all parts of the rendition, in microseconds.
    pub end_time: u64,
    /// The time at which the next part begins: milliseconds since 1970-01-01T00:00:00Z, rounded up. It is the earliest time that a break can set.
    pub time: u64,
    /// Whether the rendition has ended.
    pub ended: bool,
}

impl Standing {
    /// Returns where a rendition stands, from what is `kept` of it, when its channel has accepted `count` items.
    pub fn of(count: u64, kept: &Rendition) -> Standing
        ensures { result ≡ standing_of count kept.now }
    {
        let window = &kept.window;
        Standing {
            count,
            number: window.next_number(),
            index: window.open_parts().len() as u64,
            end_time: window.end_time(),
            time: window.next_start().div_ceil(1_000),
            ended: window.ended(),
        }
    }
}
