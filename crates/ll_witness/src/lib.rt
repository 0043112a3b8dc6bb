//! Devices in memory that tell what they gave and took. A clause of a trait of devices says something only of a device that tells,
//! which the program's devices can't. These can, and meet every clause, so no clause contradicts another.
#![tactic(auto)]

mod calendar;
mod disk;
mod link;
mod messages;
mod source;

pub use calendar::ListCalendar;
pub use disk::MemoryDisk;
pub use link::MemoryLink;
pub use messages::{ListedMessages, MessageList};
pub use source::ListSource;
