//! The program's commands: parses its words, does what needs only bytes, and gives the exit status of each fault.
#![tactic(auto)]

mod command;
mod fault;
mod multivariant;
mod plan;
mod script;
mod secret;
mod topic;
mod version;
mod writing;

pub use command::Command;
pub use fault::{Fault, fault_of};
pub use multivariant::write_multivariant;
pub use plan::Plan;
pub use script::run_script;
pub use secret::secret_line;
pub use topic::{Topic, write_help};
pub use version::write_version;
pub use writing::{write_applied, write_checked, write_explained, write_summary, write_upgraded};
