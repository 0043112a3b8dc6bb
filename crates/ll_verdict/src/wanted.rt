//! What a request asks for, once its rendition is found.
use ll_directive::Awaited;
use ll_item::{SkipKind, What};

/// What a request asks for, of one rendition of a channel.
#[derive(Clone, Copy, PartialEq, Eq)]
pub struct Wanted {
    /// The index of the rendition.
    pub rendition: usize,
    /// The file that it is for.
    pub what: What,
    /// What it waits for.
    pub awaited: Awaited,
    /// The delta update that it is for; `None` for the full playlist and for media.
    pub form: Option<SkipKind>,
}
