//! Decides where the fragments of an encoder's stream begin and end, which of them go into one part, and where a
//! segment ends.
#![tactic(auto)]

mod lengths;
mod prompt;
mod refusals;
mod times;

pub use lengths::Lengths;
pub use prompt::next_after;
pub use refusals::{refusal_at, refusal_of};
pub use times::{Cut, Judged, Next, SIZE_LIMIT, Span, Times, Weight, ends_run, next_at, place_of};
