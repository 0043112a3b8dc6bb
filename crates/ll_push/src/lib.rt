//! Publishes what an encoder writes, piece by piece, on connections to an origin.
#![tactic(auto)]

mod answer;
mod calendar;
mod connection;
mod connections;
mod fault;
mod laws;
mod publication;
mod target;
mod watch;

pub use calendar::Calendar;
pub use connection::{Delivery, StandingAnswer, ask, deliver};
pub use connections::{Ending, push};
pub use fault::PushFault;
pub use laws::{answer_law, publication_law};
pub use publication::Publication;
pub use target::Target;
pub use watch::Watch;
