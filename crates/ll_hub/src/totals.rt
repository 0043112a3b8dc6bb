//! What a hub returns at its end.
use ll_hub_channel::Total;

/// The totals of a hub's channels, in their order.
#[derive(Drop)]
pub struct Totals {
    /// Each channel's total.
    pub channels: Vec<Total>,
}
