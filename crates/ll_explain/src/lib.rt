//! What a record says: all of it in format 2; of one entry, what happened and what was answered, with the playlist; of each chain, its
//! counts.
#![tactic(auto)]

mod explained;
mod laws;
mod summary;
mod summary_lines;
mod upgraded;
mod words;

pub use explained::{ExplainFault, Explained, explain};
pub use laws::upgrade_law;
pub use summary::{Summary, summarize};
pub use summary_lines::summary_text;
pub use upgraded::{UpgradeFault, upgrade};
