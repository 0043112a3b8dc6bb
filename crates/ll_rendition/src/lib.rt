//! What is kept of one rendition of a channel, and the rules that refuse its next item. Sections are those of draft-pantos-hls-rfc8216bis.
#![tactic(auto)]

mod fault;
mod rendition;

pub use fault::PublishFault;
pub use rendition::Rendition;
