//! Makes the messages that announce an encoder's pieces to an origin, one for each item, and follows where the rendition stands.
#![tactic(auto)]

mod course;
mod laws;
mod message;
mod messages;
mod names;
mod place;
mod said;
mod standing;

pub use course::Course;
pub use laws::worked_messages;
pub use message::{Message, question};
pub use messages::Messages;
pub use names::Names;
pub use place::Place;
pub use said::Said;
pub use standing::Standing;
