//! A channel's spool: what a server keeps of the items that it has accepted, so that a start can publish them again. It has the text of
//! the items, and two files of bytes of those whose media may still be asked for.
#![tactic(auto)]

mod bytes;
mod disk;
mod fault;
mod filled;
mod line;
mod lines;
mod placed;
mod restoring;
mod spool;
mod survey;

pub use disk::{Disk, Lost};
pub use fault::{KeepFault, NotKept, RestoreFault};
pub use restoring::{Accepts, Restored, restore};
pub use spool::{Kept, Spool};
