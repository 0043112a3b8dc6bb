//! Publishes an encoder's messages at several origins, each of which is sent them by a thread of its own.
#![tactic(auto)]

mod carrying;
mod coming;
mod feeding;
mod lane;
mod lanes;
mod pair;
mod places;
mod progress;
mod shared;

pub use carrying::{Carried, carry};
pub use coming::{Coming, First};
pub use feeding::{Fed, Outlets, feed};
pub use pair::{Pair, Taker};
pub use places::furthest;
pub use progress::Progress;
pub use shared::Shared;
