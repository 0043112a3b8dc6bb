//! The names by which a stream is published.
/// Where a stream is published: the name of a channel, and that of one of its renditions.
#[derive(Clone, Copy)]
pub struct Names<'a> {
    /// The name of a channel.
    pub channel: &'a str,
    /// The name of one of its renditions.
    pub rendition: &'a str,
}
