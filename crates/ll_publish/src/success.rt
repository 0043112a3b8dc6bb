//! The answer to a publisher's line that isn't refused.
use ll_verdict::Standing;

/// The answer to a publisher's line that isn't refused.
#[derive(Clone, Copy)]
pub enum Success {
    /// The number of items that the channel has with the line's item, which it accepted.
    Accepted(u64),
    /// The same of an item that couldn't be written to the spool. Players have it all the same, so the line that answers it refuses nothing,
    /// though it looks like a refusal.
    NotKept(u64),
    /// Where the rendition that was asked about stands.
    Standing(Standing),
    /// The line gave the secret of its channel, to which the connection may publish from now on.
    Opened,
}
