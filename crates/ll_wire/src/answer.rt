//! The answer to a request, from which its response is made.
use crate::fault::HeadFault;
use ll_directive::TargetFault;
use ll_verdict::{AskFault, Reply};

/// The answer to a request.
pub enum Answer {
    /// The reply of its channel.
    Reply(Reply),
    /// The reason why its channel can't take it now.
    Unavailable(AskFault),
    /// The fault of its target.
    Target(TargetFault),
    /// The fault of its head.
    Head(HeadFault),
}

impl Drop for Answer {
    fn drop(self) {
        match self {
            Answer::Reply(_reply) => {}
            Answer::Unavailable(_) | Answer::Target(_) | Answer::Head(_) => {}
        }
    }
}
