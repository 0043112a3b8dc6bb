//! What is done to a channel.
use ll_directive::Want;
use ll_item::Item;

/// What a call does to a channel.
pub enum Deed {
    /// Publishes an item.
    Publish(Item),
    /// Makes a request.
    Ask(Want),
    /// Hands out the reply to the request of this number.
    Collect(u64),
    /// Closes the request of this number.
    Close(u64),
    /// Takes a reading of the clock, in milliseconds.
    Clock(u64),
    /// Hands out the channel's record.
    HandOut,
}

impl Drop for Deed {
    fn drop(self) {
        match self {
            Deed::Publish(_item) => {}
            Deed::Ask(_want) => {}
            Deed::Collect(_) | Deed::Close(_) | Deed::Clock(_) | Deed::HandOut => {}
        }
    }
}

/// An entry of a history: a deed, and the place of the channel to which it was done. The program makes none; they stand in proofs.
pub struct Logged {
    pub place: usize,
    pub deed: Deed,
}

impl Drop for Logged {
    fn drop(self) {
        let Logged {
            place: _,
            deed: _deed,
        } = self;
    }
}
