//! An observer of publishing.
use ll_announce::{Said, Standing};

/// An observer of publishing, which is called at each step.
pub trait Watch {
    /// Is called when publishing begins or goes on at `standing` on a connection.
    fn stands(&mut self, standing: &Standing);

    /// Is called when the origin has accepted a message that it couldn't keep on disk, before `accepted`.
    fn not_kept(&mut self);

    /// Is called when the origin has accepted a message of `bytes` bytes that announces `said`.
    fn accepted(&mut self, said: Said, bytes: usize);

    /// Is called when a connection is lost and another one is tried.
    fn lost(&mut self);
}
