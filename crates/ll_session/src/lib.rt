//! The session of one HTTP/1.1 connection: takes in its bytes, returns its requests in order, one want at a time, and puts out
//! their answers.
#![tactic(auto)]

mod laws;
mod left;
mod output;
mod session;
mod taken;

pub use laws::{requests_stay_law, session_law};
pub use session::Session;
