//! Which request waits for what, and until when: the open requests of one channel, in order of their tickets; and orders of numbered elements, in
//! which the first after any place is found in logarithmic time. Sections are those of draft-pantos-hls-rfc8216bis.
#![tactic(auto)]

mod book;
mod by_item;
mod holders;
mod laws;
mod next_part;
mod order;
mod place;
mod places;
mod ready;
mod release;
mod slots;

pub use book::{Book, ParkFault, Released};
pub use by_item::{first_release, holders_for, part_of, release_with, second_release, takes_any};
pub use holders::Holders;
pub use laws::release_law;
pub use next_part::NextPart;
pub use order::Order;
pub use place::OrderKey;
pub use release::Release;
