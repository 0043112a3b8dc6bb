//! How a connection is written: by calls that wait, or by calls that don't.
ghost use Rattle.std.specs.Prelude.{◌≡◌, ◌<◌, ◌≤◌, ◌++◌, [], IfOk, IfSome, None, OnErr, OnOk, length, take};
ghost use Rattle.std.specs.Io.KnownBytes.{Appends, Keeps};

use ll_device::{Failed, Link, TryLink};

/// How a link of type `P` is written.
pub(crate) trait Mode<P: Link> {
    /// Writes `first` and then `second` once, as one text, and returns how many bytes of both the link took, from the first on: 0 only if
    /// both are empty. Returns `None` if the write would have to wait and this mode doesn't.
    fn write_two(&self, link: &mut P, first: &[u8], second: &[u8]) -> Result<Option<usize>, Failed>
        ensures count { IfOk result (λ done. IfSome done (λ n. n ≤ length (first.now ++ second.now))) }
        ensures some { IfOk result (λ done. IfSome done (λ n. n ≡ 0 → first.now ++ second.now ≡ [])) }
        ensures bytes { IfOk result (λ done. IfSome done (λ n. Appends (P.written link.old) (P.written link.new) (take n (first.now ++ second.now)))) }
        ensures nothing { IfOk result (λ done. done ≡ None → P.written link.new ≡ P.written link.old) }
        ensures kept { OnErr result (Keeps (P.written link.old) (P.written link.new)) }
        ensures steady { OnOk result (P.failures link.new ≡ P.failures link.old) }
        ensures failed { OnErr result (P.failures link.old < P.failures link.new) }
        ensures unread { P.inward link.new ≡ P.inward link.old };
}

/// Waits until a link takes some bytes.
#[derive(Clone, Copy)]
pub(crate) struct Blocking;

/// Never waits for a link.
#[derive(Clone, Copy)]
pub(crate) struct Nonblocking;

impl<P: Link> Mode<P> for Blocking {
    fn write_two(
        &self,
        link: &mut P,
        first: &[u8],
        second: &[u8],
    ) -> Result<Option<usize>, Failed> {
        let count = link.write_two(first, second)?;
        Ok(Some(count))
    }
}

impl<P: TryLink> Mode<P> for Nonblocking {
    fn write_two(
        &self,
        link: &mut P,
        first: &[u8],
        second: &[u8],
    ) -> Result<Option<usize>, Failed> {
        link.try_write_two(first, second)
    }
}
