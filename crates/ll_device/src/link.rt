//! Links: connections that are read and written, who is at their other end, and where they come from.
ghost use Rattle.std.specs.Prelude.{◌≡◌, ◌<◌, ◌≤◌, ◌++◌, [], IfOk, IfSome, None, OnErr, OnOk, Option, false, length, take, true, ⊤};
ghost use Rattle.std.specs.Io.KnownBytes.{Appends, Keeps};
ghost use Rattle.ll_device.specs.Inward.{looked_at};

use crate::device::{Failed, Writer};
use std::os::fd::RawFd;

/// One connection, which is read and written.
pub trait Link: Writer + Drop {
    /// Reads once, and returns how many bytes it put at the front of `buf`, 0 at the end. A read that takes longer than the link allows
    /// fails.
    fn read(&mut self, buf: &mut [u8]) -> Result<usize, Failed>
        ensures count { IfOk result (λ n. n ≤ length buf.new) }
        ensures unwritten { Self.written self.new ≡ Self.written self.old }
        ensures steady { OnOk result (Self.failures self.new ≡ Self.failures self.old) }
        ensures failed { OnErr result (Self.failures self.old < Self.failures self.new) }
        ensures more { IfOk result (λ n. 0 < n → Self.inward self.new ≡ looked_at 1 0 (take n buf.new) (Self.inward self.old)) }
        ensures end { IfOk result (λ n. n ≡ 0 → 0 < length buf.new → Self.inward self.new ≡ looked_at 1 1 [] (Self.inward self.old)) }
        ensures no_room { length buf.new ≡ 0 → Self.inward self.new ≡ looked_at 1 0 [] (Self.inward self.old) }
        ensures cut { OnErr result (Self.inward self.new ≡ looked_at 1 0 [] (Self.inward self.old)) };

    /// Returns whether the peer has hung up, which some links see only after the bytes that it sent before. Reads no bytes, and doesn't
    /// wait.
    fn gone(&mut self) -> bool
        ensures unwritten { Self.written self.new ≡ Self.written self.old }
        ensures steady { Self.failures self.new ≡ Self.failures self.old }
        ensures there { result ≡ false → Self.inward self.new ≡ Self.inward self.old }
        ensures hung_up { result ≡ true → Self.inward self.new ≡ looked_at 0 1 [] (Self.inward self.old) };
}

/// A connection with reads and writes that don't wait.
pub trait TryLink: Link {
    /// Returns the descriptor by which the system reports what comes.
    fn descriptor(&self) -> RawFd;

    /// Does what [`Link::read`] does, or returns `None` if that would have to wait.
    fn try_read(&mut self, buf: &mut [u8]) -> Result<Option<usize>, Failed>
        ensures count { IfOk result (λ done. IfSome done (λ n. n ≤ length buf.new)) }
        ensures unwritten { Self.written self.new ≡ Self.written self.old }
        ensures steady { OnOk result (Self.failures self.new ≡ Self.failures self.old) }
        ensures failed { OnErr result (Self.failures self.old < Self.failures self.new) }
        ensures more { IfOk result (λ done. IfSome done (λ n. 0 < n → Self.inward self.new ≡ looked_at 1 0 (take n buf.new) (Self.inward self.old))) }
        ensures end { IfOk result (λ done. IfSome done (λ n. n ≡ 0 → 0 < length buf.new → Self.inward self.new ≡ looked_at 1 1 [] (Self.inward self.old))) }
        ensures no_room { IfOk result (λ done. IfSome done (λ _. length buf.new ≡ 0 → Self.inward self.new ≡ looked_at 1 0 [] (Self.inward self.old))) }
        ensures cut { OnErr result (Self.inward self.new ≡ looked_at 1 0 [] (Self.inward self.old)) }
        ensures unread { IfOk result (λ done. done ≡ None → Self.inward self.new ≡ Self.inward self.old) };

    /// Does what [`Writer::write`] does, or returns `None` if that would have to wait.
    fn try_write(&mut self, text: &[u8]) -> Result<Option<usize>, Failed>
        ensures count { IfOk result (λ done. IfSome done (λ n. n ≤ length text.now)) }
        ensures some { IfOk result (λ done. IfSome done (λ n. n ≡ 0 → text.now ≡ [])) }
        ensures bytes { IfOk result (λ done. IfSome done (λ n. Appends (Self.written self.old) (Self.written self.new) (take n text.now))) }
        ensures nothing { IfOk result (λ done. done ≡ None → Self.written self.new ≡ Self.written self.old) }
        ensures kept { OnErr result (Keeps (Self.written self.old) (Self.written self.new)) }
        ensures steady { OnOk result (Self.failures self.new ≡ Self.failures self.old) }
        ensures failed { OnErr result (Self.failures self.old < Self.failures self.new) }
        ensures unread { Self.inward self.new ≡ Self.inward self.old };

    /// Does what [`Writer::write_two`] does, or returns `None` if that would have to wait.
    fn try_write_two(&mut self, first: &[u8], second: &[u8]) -> Result<Option<usize>, Failed>
        ensures count { IfOk result (λ done. IfSome done (λ n. n ≤ length (first.now ++ second.now))) }
        ensures some { IfOk result (λ done. IfSome done (λ n. n ≡ 0 → first.now ++ second.now ≡ [])) }
        ensures bytes { IfOk result (λ done. IfSome done (λ n. Appends (Self.written self.old) (Self.written self.new) (take n (first.now ++ second.now)))) }
        ensures nothing { IfOk result (λ done. done ≡ None → Self.written self.new ≡ Self.written self.old) }
        ensures kept { OnErr result (Keeps (Self.written self.old) (Self.written self.new)) }
        ensures steady { OnOk result (Self.failures self.new ≡ Self.failures self.old) }
        ensures failed { OnErr result (Self.failures self.old < Self.failures self.new) }
        ensures unread { Self.inward self.new ≡ Self.inward self.old };
}

/// Who is at the other end of a connection.
#[derive(Clone, Copy)]
pub enum Role {
    /// A player, which requests playlists and media over HTTP/1.1.
    Player,
    /// A publisher, which announces items, one per line.
    Publisher,
}

/// A source of connections.
pub trait Source {
    /// The type of its connections.
    type Peer: Link + Send;

    /// Which connection can come next, and what the source is after it; anything, unless a source says more.
    ghost next_gives: { Self → Option Self.Peer → Self → Type 0 } = { λ _ _ _. ⊤ };

    /// Returns the next connection, or `None` if no more come.
    fn next(&mut self) -> Option<Self::Peer>
        ensures { next_gives self.old result self.new };
}
