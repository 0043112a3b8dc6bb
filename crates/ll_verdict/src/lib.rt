//! What each request of a channel gets: a definition over the list of all events of the channel, and a plain step that says the same one event at a
//! time. Sections are those of draft-pantos-hls-rfc8216bis.
#![tactic(auto)]

mod awaited;
mod entry;
mod fault;
mod laws;
mod piece;
mod reply;
mod standing;
mod wanted;

pub use awaited::{is_far, is_hinted, is_there};
pub use entry::{Entry, Slot};
pub use fault::{AskFault, ClockFault, LAST_TIME};
pub use laws::{first_state_law, newer_media_law, newer_text_law, one_verdict_law, state_law};
pub use ll_rendition::PublishFault;
pub use piece::MediaReply;
pub use reply::{Outcome, Reply, Settled};
pub use standing::Standing;
pub use wanted::Wanted;
