//! What the lines of a script make happen.
use crate::piece::Received;
use ll_directive::{TargetFault, Want};
use ll_item::Item;
use ll_publish::Refusal;
use ll_settings::Settings;

/// One thing that a line of a script makes happen. A channel is named by its place in the order of declaration, from 0.
#[derive(Drop)]
pub enum Act {
    /// A new channel.
    Declare(Settings),
    /// An item for a channel.
    Offer { place: usize, item: Item },
    /// A publisher's question where the rendition of index `rendition` stands. It is no event.
    At { place: usize, rendition: usize },
    /// A publisher's line that is neither an item for a channel nor a question where a rendition of one stands. It is never
    /// `LineTooLong`, because it may be as long as any line of a script.
    Refuse(Refusal),
    /// A request to a channel, with its number. Whether the channel has the rendition that it names isn't checked.
    Ask { id: u64, place: usize, want: Want },
    /// A request that is no event of any channel: its target is malformed, names no file or no channel, or was out of memory.
    Answer { id: u64, fault: TargetFault },
    /// The end of the request with this number, without a reply.
    Close(u64),
    /// A reading of a channel's clock, in milliseconds.
    Clock { place: usize, ms: u64 },
    /// A reading of the clock above 2^60.
    RefuseClock,
    /// Bytes that came on the connection with this number.
    Bytes { number: u64, piece: Received },
    /// The end of the connection with this number: it sends no more, and reads no more.
    Drop(u64),
}

/// What a line of a script makes happen: a list of acts.
#[derive(Drop)]
pub enum Acts {
    /// Nothing.
    None,
    /// One act.
    One(Act),
    /// A reading of the clock in milliseconds: one act for each declared channel, in order of declaration.
    Clock(u64),
}
