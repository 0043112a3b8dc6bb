//! What bytes come from and go to: readers and writers, connections, and where these come from.
#![tactic(auto)]

pub mod again;
mod counted;
mod counted_link;
mod counts;
mod device;
mod link;

pub use counted::{CountedReader, CountedWriter};
pub use counted_link::CountedLink;
pub use counts::TwoCounts;
pub use device::{Failed, Reader, Writer, write_all, write_both};
pub use link::{Link, Role, Source, TryLink};
