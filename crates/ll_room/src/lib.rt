//! The room of one channel, which decides one event at a time. Whatever events led to a room, each further event gets the answer that the definitions
//! over the list of all events give. Sections are those of draft-pantos-hls-rfc8216bis.
#![tactic(auto)]

mod ask;
mod asked;
mod decision;
mod laws;
mod parked;
mod publish;
mod replayer;
mod room;
mod settle;
mod stamped;

pub use asked::{Asked, Closed, Collected};
pub use decision::Decision;
pub use laws::event_limit_law;
pub use ll_verdict::{AskFault, LAST_TIME};
pub use parked::{Parked, Stored};
pub use replayer::Replayer;
pub use room::Room;
pub use stamped::{Stamp, Stamped};
