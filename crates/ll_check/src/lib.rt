//! Whether every player got the right reply: records of a channel are checked against the definitions over all its events.
#![tactic(auto)]

mod answer;
mod begin;
mod chain;
mod checker;
mod chunk;
mod going;
mod laws;
mod lines;
mod replies;
mod source;
mod told;
mod unread;
mod visitor;

pub use answer::answer_line;
pub use checker::{Checker, check};
pub use going::{Reached, go_over, go_to};
pub use laws::record_law;
pub use replies::EntryReply;
pub use source::{RecordFault, check_source};
pub use told::Told;
pub use unread::RecordReadFault;
pub use visitor::Visitor;
