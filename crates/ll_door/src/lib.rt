//! Secrets of channels: how a publisher's line gives one, and what is kept of it.
#![tactic(auto)]

mod digest;
mod secret;

pub use digest::Digest;
pub use secret::secret_in;
