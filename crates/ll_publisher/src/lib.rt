//! A publisher's connection: what its lines publish, and what each is answered.
#![tactic(auto)]

mod door;
mod keeping;
mod publisher;

pub use publisher::serve;
