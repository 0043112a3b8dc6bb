//! The total of one channel.
/// The total of one channel of a hub.
#[derive(Clone, Copy)]
pub struct Total {
    /// The number of accepted items.
    pub publishes: u64,
    /// The number of requests that were made.
    pub asks: u64,
    /// The number of requests that were held at the end, and closed.
    pub held: u64,
}
