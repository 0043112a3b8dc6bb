//! HTTP/1.1 messages (RFC 9112): parses the heads of requests, and writes responses. Connections are the work of `ll_session`.
#![tactic(auto)]

mod answer;
mod body;
mod fault;
mod fields;
mod head;
mod laws;
mod media;
mod message;
mod place;
mod slices;

pub use answer::Answer;
pub use body::{Body, Response};
pub use fault::HeadFault;
pub use head::{Head, Request, next_head};
pub use laws::{grammar_law, heads_stay_law, media_law};
pub use media::{MediaBody, is_media_response};
pub use message::response;
pub use slices::Slices;
