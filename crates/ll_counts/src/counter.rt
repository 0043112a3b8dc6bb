//! Numbers that several threads change.
use std::sync::atomic::{AtomicU64, Ordering};

/// A number that several threads change.
#[derive(Drop)]
pub(crate) struct Counter(AtomicU64);

impl Counter {
    /// Returns a counter at 0.
    pub(crate) fn new() -> Counter {
        Counter(AtomicU64::new(0))
    }

    /// Adds 1.
    pub(crate) fn add(&self) {
        self.add_all(1);
    }

    /// Adds `count`.
    pub(crate) fn add_all(&self, count: u64) {
        self.0.fetch_add(count, Ordering::SeqCst);
    }

    /// Takes 1 away.
    pub(crate) fn take_away(&self) {
        self.0.fetch_sub(1, Ordering::SeqCst);
    }

    /// Sets it to `value`.
    pub(crate) fn set(&self, value: u64) {
        self.0.store(value, Ordering::SeqCst);
    }

    /// Returns its value.
    pub(crate) fn now(&self) -> u64 {
        self.0.load(Ordering::SeqCst)
    }
}
