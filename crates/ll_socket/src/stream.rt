//! Reads and writes of a nonblocking stream. Their contracts speak of its bytes in std's terms, so they hold for every stream whose
//! bytes std knows. A call that a signal interrupts is made again.
ghost use Rattle.std.specs.Prelude.{◌≡◌, ◌≢◌, ◌≤◌, ◌++◌, [], IfErr, IfOk, IfSome, MatchResult, Ok, length};
ghost use Rattle.std.specs.Io.{WritesAtMost};
ghost use Rattle.std.specs.Io.KnownBytes.{Keeps, ReadConsumes, WriteAppends};
ghost use Rattle.std.specs.IoError.{error_kind};
ghost use Rattle.ll_socket.specs.Tries.{TryAppends, TryConsumes};

use libc::net::{POLLIN, POLLOUT};
use ll_device::{Failed, again};
use std::io;
use std::io::{Error, ErrorKind, Read, Write};

/// A nonblocking stream.
pub(crate) trait Stream: Read + Write {
    /// Writes `first` and then `second` by one system call, and returns how many bytes of both it took, from the first on.
    fn write_both(&mut self, first: &[u8], second: &[u8]) -> io::Result<usize>
        ensures bound { WritesAtMost result (first.now ++ second.now) }
        ensures bytes { WriteAppends (Self.contents self.old) (Self.contents self.new) result (first.now ++ second.now) };

    /// Returns whether the system reports one of `events` within `limit` milliseconds; -1 waits forever.
    fn is_told(&self, events: i16, limit: i32) -> bool;
}

/// Reads once into `buf`, and returns how many bytes came, or `None` if it would have to wait.
pub(crate) fn receive<R: Read>(stream: &mut R, buf: &mut [u8]) -> Result<Option<usize>, Failed>
    ensures count { IfOk result (λ done. IfSome done (λ n. n ≤ length buf.new)) }
    ensures bytes { MatchResult result (λ done. TryConsumes (R.remaining stream.old) (R.remaining stream.new) done buf.new) (λ _. Keeps (R.remaining stream.old) (R.remaining stream.new)) }
{
    done(again::read(stream, buf))
}

/// Writes `text` once, and returns how many bytes of it the stream took, or `None` if it would have to wait. A write that takes nothing
/// of a text that isn't empty fails.
pub(crate) fn send<W: Write>(stream: &mut W, text: &[u8]) -> Result<Option<usize>, Failed>
    ensures count { IfOk result (λ done. IfSome done (λ n. n ≤ length text.now)) }
    ensures some { IfOk result (λ done. IfSome done (λ n. n ≡ 0 → text.now ≡ [])) }
    ensures bytes { MatchResult result (λ done. TryAppends (W.contents stream.old) (W.contents stream.new) done text.now) (λ _. Keeps (W.contents stream.old) (W.contents stream.new)) }
{
    match again::write(stream, text) {
        Ok(0) if !text.is_empty() => Err(Failed),
        call => done(call),
    }
}

/// Writes `first` and then `second` once, by one system call, and returns how many bytes of both the stream took, or `None` if it would
/// have to wait. A write that takes nothing, though not both are empty, fails.
pub(crate) fn send_two<S: Stream>(
    stream: &mut S,
    first: &[u8],
    second: &[u8],
) -> Result<Option<usize>, Failed>
    ensures count { IfOk result (λ done. IfSome done (λ n. n ≤ length (first.now ++ second.now))) }
    ensures some { IfOk result (λ done. IfSome done (λ n. n ≡ 0 → first.now ++ second.now ≡ [])) }
    ensures bytes { MatchResult result (λ done. TryAppends (S.contents stream.old) (S.contents stream.new) done (first.now ++ second.now)) (λ _. Keeps (S.contents stream.old) (S.contents stream.new)) }
{
    match write_both(stream, first, second) {
        Ok(0) if !(first.is_empty() && second.is_empty()) => Err(Failed),
        call => done(call),
    }
}

/// Writes `first` and then `second` by one system call, and again as long as a signal interrupts that.
fn write_both<S: Stream>(stream: &mut S, first: &[u8], second: &[u8]) -> io::Result<usize>
    ensures again { IfErr result (λ e. error_kind e ≢ ErrorKind.Interrupted) }
    ensures bound { WritesAtMost result (first.now ++ second.now) }
    ensures bytes { WriteAppends (S.contents stream.old) (S.contents stream.new) result (first.now ++ second.now) }
{
    for _ in 0..u64::MAX {
        match stream.write_both(first, second) {
            Err(error) if error.kind() == ErrorKind::Interrupted => {}
            done => return done,
        }
    }
    Err(Error::from(ErrorKind::TimedOut))
}

/// Returns the count of a system call, or `None` if it would have to wait.
fn done(call: io::Result<usize>) -> Result<Option<usize>, Failed>
    ensures count { IfOk result (λ done. IfSome done (λ n. call ≡ Ok n)) }
    ensures ok { IfOk call (λ n. result ≡ Ok (Some n)) }
{
    match call {
        Ok(count) => Ok(Some(count)),
        Err(error) if error.kind() == ErrorKind::WouldBlock => Ok(None),
        Err(_) => Err(Failed),
    }
}

/// Reads into `buf` as soon as something comes, and returns how many bytes did, 0 at the end. Fails if nothing comes within `limit`
/// milliseconds; -1 waits forever.
pub(crate) fn read<S: Stream>(stream: &mut S, buf: &mut [u8], limit: i32) -> Result<usize, Failed>
    ensures count { IfOk result (λ n. n ≤ length buf.new) }
    ensures bytes { ReadConsumes (S.remaining stream.old) (S.remaining stream.new) result buf.new }
{
    for _ in 0..u64::MAX {
        if !stream.is_told(POLLIN, limit) {
            break;
        }
        if let Some(count) = receive(stream, buf)? {
            return Ok(count);
        }
    }
    Err(Failed)
}

/// Writes `text` as soon as the stream takes some of it, and returns how many bytes it took: 0 only if `text` is empty. Fails if it takes
/// none within `limit` milliseconds.
pub(crate) fn write<S: Stream>(stream: &mut S, text: &[u8], limit: i32) -> Result<usize, Failed>
    ensures count { IfOk result (λ n. n ≤ length text.now) }
    ensures some { IfOk result (λ n. n ≡ 0 → text.now ≡ []) }
    ensures bytes { WriteAppends (S.contents stream.old) (S.contents stream.new) result text.now }
{
    for _ in 0..u64::MAX {
        if let Some(count) = send(stream, text)? {
            return Ok(count);
        }
        if !stream.is_told(POLLOUT, limit) {
            break;
        }
    }
    Err(Failed)
}

/// Writes `first` and then `second` as soon as the stream takes some of them, and returns how many bytes of both it took: 0 only if both
/// are empty. Fails if it takes none within `limit` milliseconds.
pub(crate) fn write_two<S: Stream>(
    stream: &mut S,
    first: &[u8],
    second: &[u8],
    limit: i32,
) -> Result<usize, Failed>
    ensures count { IfOk result (λ n. n ≤ length (first.now ++ second.now)) }
    ensures some { IfOk result (λ n. n ≡ 0 → first.now ++ second.now ≡ []) }
    ensures bytes { WriteAppends (S.contents stream.old) (S.contents stream.new) result (first.now ++ second.now) }
{
    for _ in 0..u64::MAX {
        if let Some(count) = send_two(stream, first, second)? {
            return Ok(count);
        }
        if !stream.is_told(POLLOUT, limit) {
            break;
        }
    }
    Err(Failed)
}
