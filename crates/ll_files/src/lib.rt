//! The files that a server writes as it runs: its channels' records and spools, and its log.
#![tactic(auto)]

mod journal;
mod log;
mod new_files;
mod queue;
mod records;
mod side_file;
mod spool_files;

pub use log::Log;
pub use new_files::NewFiles;
pub use records::Records;
pub use spool_files::{SpoolFiles, Unusable};
