//! Runs a script from a reader to a writer: cuts its bytes into lines, and takes each line.
ghost use Rattle.std.specs.Prelude.{◌≡◌, ◌<◌, ◌≤◌, ◌+◌, ◌-◌, ◌^◌, ◌++◌, [], ◌∷◌, ℕ, List, min, Option, Some, IfOk, IfErr, OnOk, OnErr, IsErrOf, length};
ghost use Rattle.std.specs.Str.Lines.{strip_carriage_return};
ghost use Rattle.ll_replay.specs.Cuts.{HasFailed, IsCutAt, IsStopped, StandsFor};
ghost use Rattle.ll_replay.specs.Stream.{EndsBy, IsBegun, IsWhole, StopsAfter, StopsForMemory};
ghost use Rattle.ll_replay.specs.Script as script;

use crate::driver::{Driver, LONGEST_LINE};
use crate::outcome::{RunFault, RunSummary};
use arrayvec::ArrayVec;
use ll_device::{Reader, Writer};
use std::alloc::Global;

/// The largest number of bytes of one read.
const PIECE: usize = 65_536;

/// The number of bytes of the longest line with a CR.
const ROOM: usize = LONGEST_LINE + 1;

/// The largest number of reads of a run, after which a reader counts as endless.
const MOST_READS: u64 = 1 << 32;

/// A script of which some bytes were read: its driver, and the bytes since the last LF, with room for the longest line and a CR. Keeping a
/// byte allocates nothing, so a line that is too long is always reported as such. It must be consumed by [`Stream::close`].
struct Stream {
    driver: Driver,
    line: ArrayVec<u8, ROOM>,
}

/// Returns `line` without the CR that stands before its LF, if there is one.
fn without_carriage_return(line: &[u8]) -> &[u8]
    ensures { result.now ≡ strip_carriage_return line.now }
{
    match line {
        [text @ .., b'\r'] => text,
        _ => line,
    }
}

impl Stream {
    /// Returns a stream before any byte.
    fn new(alloc: Global) -> Stream
        ensures stands { (base : Option (List ℕ)) → StandsFor result.line.items result.driver base base [] }
        ensures lines { result.driver.lines ≡ 0 }
    {
        Stream {
            driver: Driver::new(alloc),
            line: ArrayVec::new(),
        }
    }

    /// Keeps a byte that ends no line. It fails if the line is too long whatever follows.
    fn keep(&mut self, b: u8) -> Result<(), RunFault>
        requires { self.old.driver.lines < 2 ^ 64 - 1 }
        ensures kept { OnOk result (self.new.line.items ≡ self.old.line.items ++ b ∷ []) }
        ensures room { OnOk result (length self.old.line.items ≤ 65536) }
        ensures driver { OnOk result (self.new.driver ≡ self.old.driver) }
        ensures full { OnErr result (length self.old.line.items ≡ 65537) }
        ensures fault { IfErr result (λ f. f ≡ RunFault.LineTooLong (self.old.driver.lines + 1)) }
    {
        match self.line.try_push(b) {
            Ok(()) => Ok(()),
            Err(_) => Err(RunFault::LineTooLong {
                line: self.driver.lines() + 1,
            }),
        }
    }

    /// Takes a byte: LF ends a line, and any other byte is kept.
    fn byte<W: Writer>(&mut self, b: u8, writer: &mut W) -> Result<(), RunFault>
        requires { self.old.driver.lines < 2 ^ 64 - 1 }
        ensures ok { OnOk result ((bytes : List ℕ) (base : Option (List ℕ))
            → StandsFor self.old.line.items self.old.driver base (W.written writer.old) bytes
            → StandsFor self.new.line.items self.new.driver base (W.written writer.new) (bytes ++ b ∷ [])) }
        ensures lines { OnOk result (self.new.driver.lines ≤ self.old.driver.lines + 1) }
        ensures cut { IfErr result (λ f. (bytes : List ℕ) (base : Option (List ℕ))
            → StandsFor self.old.line.items self.old.driver base (W.written writer.old) bytes
            → (more : List ℕ) → IsCutAt base (W.written writer.new) (bytes ++ b ∷ more) f) }
        ensures steady { OnOk result (W.failures writer.new ≡ W.failures writer.old) }
        ensures write_failed { IsErrOf result RunFault.Write → W.failures writer.old < W.failures writer.new }
    {
        if b != b'\n' {
            return self.keep(b);
        }
        let text = without_carriage_return(self.line.as_slice());
        self.driver.take_line(text, writer)?;
        self.line.clear();
        Ok(())
    }

    /// Takes the bytes of one read.
    fn feed<W: Writer>(&mut self, piece: &[u8], writer: &mut W) -> Result<(), RunFault>
        requires { self.old.driver.lines + length piece.now < 2 ^ 64 - 1 }
        ensures ok { OnOk result ((bytes : List ℕ) (base : Option (List ℕ))
            → StandsFor self.old.line.items self.old.driver base (W.written writer.old) bytes
            → StandsFor self.new.line.items self.new.driver base (W.written writer.new) (bytes ++ piece.now)) }
        ensures lines { OnOk result (self.new.driver.lines ≤ self.old.driver.lines + length piece.now) }
        ensures cut { IfErr result (λ f. (bytes : List ℕ) (base : Option (List ℕ))
            → StandsFor self.old.line.items self.old.driver base (W.written writer.old) bytes
            → (more : List ℕ) → IsCutAt base (W.written writer.new) (bytes ++ (piece.now ++ more)) f) }
        ensures steady { OnOk result (W.failures writer.new ≡ W.failures writer.old) }
        ensures write_failed { IsErrOf result RunFault.Write → W.failures writer.old < W.failures writer.new }
    {
        for b in piece {
            self.byte(*b, writer)?;
        }
        Ok(())
    }

    /// Takes the last line, if bytes follow the last LF, and returns the counts of the script.
    fn finish<W: Writer>(&mut self, writer: &mut W) -> Result<RunSummary, RunFault>
        requires { self.old.driver.lines < 2 ^ 64 - 1 }
        ensures whole { IfOk result (λ summary. (bytes : List ℕ) (base : Option (List ℕ))
            → StandsFor self.old.line.items self.old.driver base (W.written writer.old) bytes
            → IsWhole base (W.written writer.new) bytes summary) }
        ensures cut { IfErr result (λ f. (bytes : List ℕ) (base : Option (List ℕ))
            → StandsFor self.old.line.items self.old.driver base (W.written writer.old) bytes
            → IsCutAt base (W.written writer.new) bytes f) }
        ensures steady { OnOk result (W.failures writer.new ≡ W.failures writer.old) }
        ensures write_failed { IsErrOf result RunFault.Write → W.failures writer.old < W.failures writer.new }
    {
        if !self.line.is_empty() {
            self.driver.take_line(self.line.as_slice(), writer)?;
        }
        Ok(self.driver.summary())
    }

    /// Ends all connections, and closes all requests that still wait, without a reply.
    fn close(self) {
        let Stream { driver, line: _ } = self;
        driver.finish();
    }
}

/// Reads to the end, but at most `reads` times, and takes each piece. The clause `stopped` says what each fault means.
fn read_all<R: Reader, W: Writer>(
    stream: &mut Stream,
    reader: &mut R,
    writer: &mut W,
    reads: u64,
) -> Result<RunSummary, RunFault>
    requires fresh { (base : Option (List ℕ)) → StandsFor stream.old.line.items stream.old.driver base base [] }
    requires lines { stream.old.driver.lines ≡ 0 }
    ensures whole { IfOk result (λ summary. (input : List ℕ) → R.left reader.old ≡ Some input
        → IsWhole (W.written writer.old) (W.written writer.new) input summary) }
    ensures stopped { IfErr result (IsStopped (R.left reader.old) (R.left reader.new) (W.written writer.old) (W.written writer.new)) }
    ensures steady { OnOk result ((R.failures reader.new ≡ R.failures reader.old) × (W.failures writer.new ≡ W.failures writer.old)) }
    ensures failed { IfErr result (HasFailed (R.failures reader.old < R.failures reader.new) (W.failures writer.old < W.failures writer.new)
        (R.reads reader.new ≡ R.reads reader.old + min reads (2 ^ 32))) }
    ensures few_reads { R.reads reader.new ≤ R.reads reader.old + min reads (2 ^ 32) }
{
    let mut piece = [0u8; PIECE];
    for _ in 0..reads.min(MOST_READS) {
        let count = match reader.read(&mut piece) {
            Ok(count) => count,
            Err(_) => return Err(RunFault::Read),
        };
        if count == 0 {
            return stream.finish(writer);
        }
        stream.feed(&piece[..count], writer)?;
    }
    Err(RunFault::Endless)
}

/// Runs the script of `reader`, and writes its answers to `writer`, line by line. An item or a request that is out of memory is answered so,
/// and the run goes on. If it ends early, for a [`RunFault`], a prefix of all answers is written.
pub fn run<R: Reader, W: Writer>(
    alloc: Global,
    reader: &mut R,
    writer: &mut W,
) -> Result<RunSummary, RunFault>
    ensures whole { (input : List ℕ) → R.left reader.old ≡ Some input → IfOk result (IsWhole (W.written writer.old) (W.written writer.new) input) }
    ensures bad_line { (input : List ℕ) (n : ℕ) → R.left reader.old ≡ Some input → IsErrOf result (RunFault.BadLine n)
        → EndsBy (script.BadLine n) (W.written writer.old) (W.written writer.new) input }
    ensures too_long { (input : List ℕ) (n : ℕ) → R.left reader.old ≡ Some input → IsErrOf result (RunFault.LineTooLong n)
        → EndsBy (script.LineTooLong n) (W.written writer.old) (W.written writer.new) input }
    ensures cut_by_write { (input : List ℕ) → R.left reader.old ≡ Some input → IsErrOf result RunFault.Write
        → IsBegun (W.written writer.old) (W.written writer.new) input }
    ensures cut_by_memory { (input : List ℕ) → R.left reader.old ≡ Some input → IsErrOf result RunFault.Memory
        → IsBegun (W.written writer.old) (W.written writer.new) input }
    ensures memory_last { (input : List ℕ) → R.left reader.old ≡ Some input → IsErrOf result RunFault.Memory
        → StopsForMemory (W.written writer.old) (W.written writer.new) input }
    ensures stopped_by_read { IsErrOf result RunFault.Read
        → StopsAfter (R.left reader.old) (R.left reader.new) (W.written writer.old) (W.written writer.new) }
    ensures stopped_by_endless { IsErrOf result RunFault.Endless
        → StopsAfter (R.left reader.old) (R.left reader.new) (W.written writer.old) (W.written writer.new) }
    ensures steady { OnOk result ((R.failures reader.new ≡ R.failures reader.old) × (W.failures writer.new ≡ W.failures writer.old)) }
    ensures read_failed { IsErrOf result RunFault.Read → R.failures reader.old < R.failures reader.new }
    ensures write_failed { IsErrOf result RunFault.Write → W.failures writer.old < W.failures writer.new }
    ensures few_reads { R.reads reader.new ≤ R.reads reader.old + 2 ^ 32 }
    ensures endless { IsErrOf result RunFault.Endless → R.reads reader.new ≡ R.reads reader.old + 2 ^ 32 }
{
    run_within(alloc, reader, writer, MOST_READS)
}

/// Runs the script of `reader` as [`run`] does, but returns [`RunFault::Endless`] after `reads` reads; more than 2^32 count as 2^32.
pub fn run_within<R: Reader, W: Writer>(
    alloc: Global,
    reader: &mut R,
    writer: &mut W,
    reads: u64,
) -> Result<RunSummary, RunFault>
    ensures whole { (input : List ℕ) → R.left reader.old ≡ Some input → IfOk result (IsWhole (W.written writer.old) (W.written writer.new) input) }
    ensures bad_line { (input : List ℕ) (n : ℕ) → R.left reader.old ≡ Some input → IsErrOf result (RunFault.BadLine n)
        → EndsBy (script.BadLine n) (W.written writer.old) (W.written writer.new) input }
    ensures too_long { (input : List ℕ) (n : ℕ) → R.left reader.old ≡ Some input → IsErrOf result (RunFault.LineTooLong n)
        → EndsBy (script.LineTooLong n) (W.written writer.old) (W.written writer.new) input }
    ensures cut_by_write { (input : List ℕ) → R.left reader.old ≡ Some input → IsErrOf result RunFault.Write
        → IsBegun (W.written writer.old) (W.written writer.new) input }
    ensures cut_by_memory { (input : List ℕ) → R.left reader.old ≡ Some input → IsErrOf result RunFault.Memory
        → IsBegun (W.written writer.old) (W.written writer.new) input }
    ensures memory_last { (input : List ℕ) → R.left reader.old ≡ Some input → IsErrOf result RunFault.Memory
        → StopsForMemory (W.written writer.old) (W.written writer.new) input }
    ensures stopped_by_read { IsErrOf result RunFault.Read
        → StopsAfter (R.left reader.old) (R.left reader.new) (W.written writer.old) (W.written writer.new) }
    ensures stopped_by_endless { IsErrOf result RunFault.Endless
        → StopsAfter (R.left reader.old) (R.left reader.new) (W.written writer.old) (W.written writer.new) }
    ensures steady { OnOk result ((R.failures reader.new ≡ R.failures reader.old) × (W.failures writer.new ≡ W.failures writer.old)) }
    ensures read_failed { IsErrOf result RunFault.Read → R.failures reader.old < R.failures reader.new }
    ensures write_failed { IsErrOf result RunFault.Write → W.failures writer.old < W.failures writer.new }
    ensures few_reads { R.reads reader.new ≤ R.reads reader.old + min reads (2 ^ 32) }
    ensures endless { IsErrOf result RunFault.Endless → R.reads reader.new ≡ R.reads reader.old + min reads (2 ^ 32) }
{
    let mut stream = Stream::new(alloc);
    let outcome = read_all(&mut stream, reader, writer, reads);
    stream.close();
    outcome
}
