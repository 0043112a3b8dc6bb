//! The kinds of delta updates.

/// A kind of delta update (section 6.2.5.1), as the directive `_HLS_skip` names it. In an `Option` of it, `None` stands for the full playlist.
#[derive(Clone, Copy, Debug, PartialEq, Eq)]
pub enum SkipKind {
    /// One that skips segments (`YES`).
    Yes,
    /// One that skips segments, and perhaps date ranges too (`v2`).
    V2,
}
