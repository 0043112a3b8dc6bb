//! Readers and writers of bytes, by single reads and writes, and how whole texts are written.
ghost use Rattle.std.specs.Prelude.{◌≡◌, ◌<◌, ◌≤◌, ◌+◌, ◌++◌, [], ℕ, List, Option, IfOk, OnOk, OnErr, take, length};
ghost use Rattle.std.specs.Io.KnownBytes.{Appends, Consumes, IsAtEnd, Keeps};
ghost use Rattle.ll_device.specs.Inward.{Inward, untold};
ghost use Rattle.ll_device.specs.Written.{AppendsPrefix};

/// The failure of a device in a read or a write.
#[derive(Clone, Copy, Debug)]
pub struct Failed;

/// A source of bytes, which come in any pieces.
pub trait Reader {
    /// The bytes that are left, if they are known.
    ghost left: { Self → Option (List ℕ) };

    /// The number of reads so far.
    ghost reads: { Self → ℕ };

    /// The number of failures so far.
    ghost failures: { Self → ℕ };

    /// Reads once, and returns how many bytes it put at the front of `buf`: 0 only at the end, or if `buf` is empty.
    fn read(&mut self, buf: &mut [u8]) -> Result<usize, Failed>
        ensures count { IfOk result (λ n. n ≤ length buf.new) }
        ensures bytes { IfOk result (λ n. Consumes (left self.old) (left self.new) (take n buf.new)) }
        ensures end { IfOk result (λ n. n ≡ 0 → 0 < length buf.new → IsAtEnd (left self.new)) }
        ensures kept { OnErr result (Keeps (left self.old) (left self.new)) }
        ensures read_once { reads self.new ≡ reads self.old + 1 }
        ensures steady { OnOk result (failures self.new ≡ failures self.old) }
        ensures failed { OnErr result (failures self.old < failures self.new) };
}

/// A sink of bytes.
pub trait Writer {
    /// The bytes written so far, if they are known.
    ghost written: { Self → Option (List ℕ) };

    /// The number of failures so far.
    ghost failures: { Self → ℕ };

    /// How it was read and which bytes came, if it is also read and this is known.
    ghost inward: { Self → Inward } = { λ _. untold };

    /// Writes once, and returns how many bytes it took of `text`, from the first on: 0 only if `text` is empty.
    fn write(&mut self, text: &[u8]) -> Result<usize, Failed>
        ensures count { IfOk result (λ n. n ≤ length text.now) }
        ensures some { IfOk result (λ n. n ≡ 0 → text.now ≡ []) }
        ensures bytes { IfOk result (λ n. Appends (written self.old) (written self.new) (take n text.now)) }
        ensures kept { OnErr result (Keeps (written self.old) (written self.new)) }
        ensures steady { OnOk result (failures self.new ≡ failures self.old) }
        ensures failed { OnErr result (failures self.old < failures self.new) }
        ensures unread { inward self.new ≡ inward self.old };

    /// Writes `first` and then `second` once, as one text, and returns how many bytes of both it took, from the first on: 0 only if both
    /// are empty. By default it writes only the first of them that isn't empty.
    fn write_two(&mut self, first: &[u8], second: &[u8]) -> Result<usize, Failed>
        ensures count { IfOk result (λ n. n ≤ length (first.now ++ second.now)) }
        ensures some { IfOk result (λ n. n ≡ 0 → first.now ++ second.now ≡ []) }
        ensures bytes { IfOk result (λ n. Appends (written self.old) (written self.new) (take n (first.now ++ second.now))) }
        ensures kept { OnErr result (Keeps (written self.old) (written self.new)) }
        ensures steady { OnOk result (failures self.new ≡ failures self.old) }
        ensures failed { OnErr result (failures self.old < failures self.new) }
        ensures unread { inward self.new ≡ inward self.old }
    {
        if first.is_empty() {
            self.write(second)
        } else {
            self.write(first)
        }
    }
}

/// Writes all of `text`, in as many writes as that takes. If it fails, a prefix was written.
pub fn write_all<W: Writer>(writer: &mut W, text: &[u8]) -> Result<(), Failed>
    ensures whole { OnOk result (Appends (W.written writer.old) (W.written writer.new) text.now) }
    ensures cut { OnErr result (AppendsPrefix (W.written writer.old) (W.written writer.new) text.now) }
    ensures steady { OnOk result (W.failures writer.new ≡ W.failures writer.old) }
    ensures failed { OnErr result (W.failures writer.old < W.failures writer.new) }
    ensures unread { W.inward writer.new ≡ W.inward writer.old }
{
    let mut taken = 0;
    while taken < text.len() {
        taken += writer.write(&text[taken..])?;
    }
    Ok(())
}

/// Writes all of `first` and then of `second`, in as many writes as that takes. If it fails, a prefix of both was written.
pub fn write_both<W: Writer>(writer: &mut W, first: &[u8], second: &[u8]) -> Result<(), Failed>
    ensures whole { OnOk result (Appends (W.written writer.old) (W.written writer.new) (first.now ++ second.now)) }
    ensures cut { OnErr result (AppendsPrefix (W.written writer.old) (W.written writer.new) (first.now ++ second.now)) }
    ensures steady { OnOk result (W.failures writer.new ≡ W.failures writer.old) }
    ensures failed { OnErr result (W.failures writer.old < W.failures writer.new) }
    ensures unread { W.inward writer.new ≡ W.inward writer.old }
{
    let mut taken = 0;
    while taken < first.len() {
        taken += writer.write_two(&first[taken..], second)?;
    }
    write_all(writer, &second[taken - first.len()..])
}
