//! What a message announces, without its bytes.
/// What a message announces, without its bytes.
#[derive(Clone, Copy)]
pub enum Said {
    /// An initialization section.
    Init,
    /// A part.
    Part {
        /// Its duration in microseconds.
        duration: u64,
        /// Whether it is the last of its segment.
        finishes: bool,
    },
    /// A finish: the open segment ends with its last part.
    Finish,
    /// A break.
    Break {
        /// When the next segment begins, if the break sets that, in milliseconds since 1970-01-01T00:00:00Z.
        time: Option<u64>,
    },
    /// The end of the rendition.
    End,
}
