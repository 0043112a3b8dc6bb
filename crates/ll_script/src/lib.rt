//! The lines of a script: what each makes happen, and how its answers are spelled.
#![tactic(auto)]

mod act;
mod answers;
mod hexadecimal;
mod laws;
mod piece;
mod reading;

pub use act::{Act, Acts};
pub use answers::{clock_line, fault_line, push_sent, push_shut, reply_lines, unasked_line};
pub use laws::worked_lines;
pub use piece::Received;
pub use reading::{LineFault, read_line};
