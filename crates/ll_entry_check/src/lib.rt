//! One entry of a record, checked as the room of its channel takes it.
#![tactic(auto)]

mod brought;
mod entry;
mod full;

pub use brought::bring;
pub use entry::enter;
pub use full::FullEntry;
