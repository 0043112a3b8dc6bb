//! What is counted of one rendition, and when its last part came.
use crate::counter::Counter;
use ll_attr::Text;
use ll_item::Item;
use std::alloc::{AllocError, Global};
use std::sync::atomic::{AtomicBool, Ordering};

/// What is counted of one rendition.
#[derive(Drop)]
pub(crate) struct Pulse {
    /// The rendition's name.
    pub(crate) name: Text,
    /// The number of items that were accepted.
    pub(crate) items: Counter,
    /// The number of bytes of these items.
    pub(crate) received: Counter,
    /// The time of its last part in milliseconds since the server's start, and 1 more; 0 before its first part.
    last: Counter,
    ended: AtomicBool,
}

impl Pulse {
    /// Returns counts of 0 for the rendition `name`, of which no part has come.
    pub(crate) fn new(alloc: Global, name: &str) -> Result<Pulse, AllocError> {
        Ok(Pulse {
            name: Text::from_str(alloc, name)?,
            items: Counter::new(),
            received: Counter::new(),
            last: Counter::new(),
            ended: AtomicBool::new(false),
        })
    }

    /// Counts `item`, which was accepted at `now`, in milliseconds since the server's start.
    pub(crate) fn accepted(&self, item: &Item, now: u64) {
        self.items.add();
        self.received.add_all(bytes_of(item));
        self.note(item, now);
    }

    /// Notes the time `now` of a part, in milliseconds since the server's start, or that the rendition has ended.
    pub(crate) fn note(&self, item: &Item, now: u64) {
        match item {
            Item::Part(_) => self.last.set(now.saturating_add(1)),
            Item::End { .. } => self.ended.store(true, Ordering::SeqCst),
            _ => {}
        }
    }

    /// Returns how long before `now` its last part came, in milliseconds, or `None` before its first part.
    pub(crate) fn age(&self, now: u64) -> Option<u64> {
        let last = self.last.now().checked_sub(1)?;
        Some(now.saturating_sub(last))
    }

    /// Returns whether it has ended.
    pub(crate) fn has_ended(&self) -> bool {
        self.ended.load(Ordering::SeqCst)
    }

    /// Returns whether it hasn't ended, and had no part in the `most` milliseconds before `now`.
    pub(crate) fn is_silent(&self, now: u64, most: u64) -> bool {
        !self.has_ended() && self.age(now).is_none_or(|age| most < age)
    }
}

/// Returns the number of bytes of an item.
pub fn bytes_of(item: &Item) -> u64 {
    match item {
        Item::Part(part) => part.media.len(),
        Item::Init { media, .. } => media.len(),
        _ => 0,
    }
}
