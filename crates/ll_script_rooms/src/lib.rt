//! The channels of a script with the requests that wait in them, changed by one act at a time; collections of held requests of
//! several rooms, with the values that stand for them.
#![tactic(auto)]

mod answer;
mod held;
mod held_request;
mod owner;
mod rooms;
mod shelf;
mod spot;
mod wait;

pub use answer::{ActAnswer, AskStop};
pub use held::Held;
pub use owner::Owner;
pub use rooms::Rooms;
pub use shelf::Shelf;
pub use wait::Wait;
