//! A response: its head, and the body after it, which others may share.
ghost use Rattle.std.specs.Prelude.{◌≡◌, ◌≤◌, ◌<◌, ◌^◌, ◌++◌, drop, length};
ghost use Rattle.std.specs.List.{concat};
ghost use Rattle.ll_wire.specs.Parts.{bytes_of, shared_bytes};

use crate::media::MediaBody;
use crate::slices::Slices;
use ll_item::SharedBytes;
use std::sync::ArcStr;

/// The end of a response, which is shared and never copied.
pub enum Body {
    /// Nothing shared: the head is the whole response.
    Nothing,
    /// A playlist's text alone, so that nothing else of the channel is kept while it is sent.
    Playlist(ArcStr),
    /// Media.
    Media(MediaBody),
}

impl Drop for Body {
    fn drop(self) {
        match self {
            Body::Nothing => {}
            Body::Playlist(_text) => {}
            Body::Media(_media) => {}
        }
    }
}

/// A response: the head, written for it alone, and then the body.
pub struct Response {
    /// The lines before the body and, if the body isn't shared, the body too.
    pub head: Vec<u8>,
    /// The shared bytes after the head.
    pub body: Body,
}

impl Drop for Response {
    fn drop(self) {
        let Response {
            head: _head,
            body: _body,
        } = self;
    }
}

impl Body {
    /// Returns its number of bytes.
    pub fn len(&self) -> usize
        ensures length { result ≡ length (shared_bytes self.now) }
        ensures few { result < 2 ^ 63 }
    {
        match self {
            Body::Nothing => 0,
            Body::Playlist(text) => text.len(),
            Body::Media(media) => media.len(),
        }
    }

    /// Returns what follows the first `n` bytes: a slice, and the blocks after it.
    fn after(&self, n: usize) -> (&[u8], &[SharedBytes])
        requires { n ≤ length (shared_bytes self.now) }
        ensures { result.0.now ++ concat result.1.now ≡ drop n (shared_bytes self.now) }
    {
        match self {
            Body::Nothing => (&[], &[]),
            Body::Playlist(text) => (&text.as_bytes()[n..], &[]),
            Body::Media(media) => media.after(n),
        }
    }
}

impl Response {
    /// Returns its number of bytes.
    pub fn len(&self) -> usize
        ensures { result ≡ length (bytes_of self.now) }
    {
        self.head.len() + self.body.len()
    }

    /// Returns what follows the first `n` bytes, without copying it.
    pub fn after(&self, n: usize) -> Slices<'_>
        requires { n ≤ length (bytes_of self.now) }
        ensures { result ≡ drop n (bytes_of self.now) }
    {
        let size = self.len() - n;
        let (head, sent) = self.head_after(n);
        let (body, blocks) = self.body.after(sent);
        Slices {
            head,
            body,
            blocks,
            size,
        }
    }

    /// Returns what follows the first `n` bytes in the head, and how many of these bytes are in the body.
    fn head_after(&self, n: usize) -> (&[u8], usize)
        requires { n ≤ length (bytes_of self.now) }
        ensures within { result.1 ≤ length (shared_bytes self.now.body) }
        ensures rest { result.0.now ++ drop result.1 (shared_bytes self.now.body) ≡ drop n (bytes_of self.now) }
    {
        match n.checked_sub(self.head.len()) {
            None => (&self.head[n..], 0),
            Some(sent) => (&[], sent),
        }
    }
}
