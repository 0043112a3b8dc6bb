//! Runs scripts of channels from a reader to a writer: what is published, what is asked for, and every answer. An item or a request that is
//! out of memory is answered so, and the script goes on.
#![tactic(auto)]

mod answers;
mod driver;
mod laws;
mod outcome;
mod stream;

pub use laws::worked_script;
pub use ll_publish::Refusal;
pub use outcome::{RunFault, RunSummary};
pub use stream::{run, run_within};
