//! The key by which elements are ordered.

/// The place of an element in an order: its group, its kind in the group, two ranks in the kind, and last its own number.
#[derive(Clone, Copy, PartialEq, Eq, PartialOrd, Ord)]
pub struct OrderKey {
    pub group: u64,
    pub kind: u64,
    pub rank: u64,
    pub subrank: u64,
    /// The element's number.
    pub number: u64,
}
