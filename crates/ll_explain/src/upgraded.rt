//! How a record is written in format 2.
ghost use Rattle.std.specs.Prelude.{◌≡◌, ◌+◌, ◌++◌, ◌<◌, ◌≤◌, ◌^◌, [], ℕ, IsErrOf, List, OnErr, OnOk, Ok, Some, drop, false, length, true};
ghost use Rattle.std.specs.Io.{StartsWith};
ghost use Rattle.std.specs.Io.KnownBytes.{Appends};
ghost use Rattle.ll_check.specs.Unread.{IsFaultOf, IsStopped};
ghost use Rattle.ll_check.specs.declared.source.RecordFault.{RecordFault as FaultValue};
ghost use Rattle.ll_device.specs.Written.{AppendsPrefix};
ghost use Rattle.ll_entry.specs.Chain.{checked};
ghost use Rattle.ll_explain.specs.Upgrade as spec;
ghost use Rattle.ll_explain.specs.Upgrade.{HasFailedIf, WritesOff, told_text, upgraded, upgraded_line};
ghost use Rattle.ll_settings.specs.Settings.{Configuration};

use ll_attr::after;
use ll_check::{RecordFault, Told, Visitor, go_over};
use ll_device::{Failed, Reader, Writer};
use ll_entry::{LAST_LINE, Version, ask_line, collect_line, header_text};
use ll_entry_check::FullEntry;
use std::alloc::{AllocError, Global};

/// The number of bytes from which lines are written.
const PIECE: usize = 65_536;

/// Why a record wasn't written in format 2 to its end.
#[derive(Clone, Copy)]
pub enum UpgradeFault {
    /// It is wrong, out of memory, or wasn't read to its end.
    Record(RecordFault),
    /// A write failed.
    Write,
}

/// Writes the record that is left in `source` to `out` in format 2: the same chunks. It is read in pieces, and written as it is read, up to
/// the first entry at which it is wrong: if it fails, a prefix was written. The words of settings and items stay as they are. A request for
/// `v2` in format 1 becomes one for `YES`, as it was answered.
pub fn upgrade<R: Reader, W: Writer>(
    alloc: Global,
    source: &mut R,
    out: &mut W,
) -> Result<(), UpgradeFault>
    ensures right { (input : List ℕ) → R.left source.old ≡ Some input
        → OnOk result (((n : ℕ) × (checked input ≡ Ok n)) × Appends (W.written out.old) (W.written out.new) (upgraded input)) }
    ensures cut { (input : List ℕ) → R.left source.old ≡ Some input
        → OnErr result (AppendsPrefix (W.written out.old) (W.written out.new) (upgraded input)) }
    ensures wrong { (input : List ℕ) → R.left source.old ≡ Some input → (f : FaultValue) → IsErrOf result (UpgradeFault.Record f) → IsFaultOf input f }
    ensures stopped { (f : FaultValue) → IsErrOf result (UpgradeFault.Record f)
        → IsStopped (R.failures source.old < R.failures source.new) (R.reads source.new ≡ R.reads source.old + 2 ^ 32) f }
    ensures unwritten { (input : List ℕ) → R.left source.old ≡ Some input → IsErrOf result UpgradeFault.Write → W.failures out.old < W.failures out.new }
{
    let mut unwritten = Unwritten {
        alloc,
        text: Vec::new(alloc),
        failed: false,
    };
    match go_over(alloc, source, &mut unwritten, out) {
        Ok(_) => {
            if unwritten.write(out) {
                Ok(())
            } else {
                Err(UpgradeFault::Write)
            }
        }
        Err(_) if unwritten.failed => Err(UpgradeFault::Write),
        Err(fault) => Err(UpgradeFault::Record(fault)),
    }
}

/// Lines in format 2 that aren't written yet.
#[derive(Drop)]
struct Unwritten {
    alloc: Global,
    text: Vec<u8>,
    /// Whether a write failed.
    failed: bool,
}

impl<W: Writer> Visitor<W> for Unwritten {
    ghost use Rattle.ll_explain.specs.Upgrade.{AreWritten, HasFailedIf};

    ghost holds = { λ first unwritten out p lines rest. AreWritten (W.written first) (W.written out) unwritten.text.items p lines rest
        × HasFailedIf unwritten.failed (W.failures first) (W.failures out) };

    fn visit(&mut self, out: &mut W, told: &Told<'_>) -> bool {
        let before = self.text.len();
        if push_told(self.alloc, &mut self.text, told).is_err() {
            // Serves the proof alone.
            self.text.truncate(before);
            return false;
        }
        if self.text.len() < PIECE {
            return true;
        }
        self.write(out)
    }
}

impl Unwritten {
    /// Writes the lines, and returns whether it could. What isn't written stays.
    fn write<W: Writer>(&mut self, out: &mut W) -> bool
        ensures written { WritesOff (W.written out.old) (W.written out.new) self.old.text.items self.new.text.items }
        ensures all { result ≡ true → self.new.text.items ≡ [] }
        ensures failed { HasFailedIf self.new.failed (W.failures out.old) (W.failures out.new) }
        ensures told { result ≡ false → self.new.failed ≡ true }
    {
        self.failed = write_off(&mut self.text, out).is_err();
        !self.failed
    }
}

/// Writes `text`, and drops what is written of it: all, unless a write fails.
fn write_off<W: Writer>(text: &mut Vec<u8>, out: &mut W) -> Result<(), Failed>
    ensures written { WritesOff (W.written out.old) (W.written out.new) text.old.items text.new.items }
    ensures all { OnOk result (text.new.items ≡ []) }
    ensures steady { OnOk result (W.failures out.new ≡ W.failures out.old) }
    ensures failed { OnErr result (W.failures out.old < W.failures out.new) }
{
    'left: while !text.is_empty() {
        let count = out.write(text)?;
        drop_front(text, count);
    }
    Ok(())
}

/// Drops the first `count` bytes.
fn drop_front(bytes: &mut Vec<u8>, count: usize)
    requires { count ≤ length bytes.old.items }
    ensures { bytes.new.items ≡ drop count bytes.old.items }
{
    bytes.drain(..count);
}

/// Appends the lines that say `told`, in format 2; out of memory, a part of them.
fn push_told(alloc: Global, text: &mut Vec<u8>, told: &Told<'_>) -> Result<(), AllocError>
    ensures front { StartsWith text.new.items text.old.items }
    ensures lines { (c : Configuration) → OnOk result (text.new.items ≡ text.old.items ++ told_text c told.now) }
{
    match told {
        Told::Begun(settings, at) => {
            let header = header_text(alloc, Version::Two, settings, *at)?;
            return text.extend_from_slice(header.as_bytes());
        }
        Told::Entry(version, line, entry) => push_entry(alloc, text, *version, line, entry)?,
        Told::Ended => text.extend_from_slice(LAST_LINE.as_bytes())?,
    }
    text.push(b'\n')?;
    Ok(())
}

/// Appends the line of `entry` in format 2; out of memory, a part of it. `line` is its line in the format `version`.
fn push_entry(
    alloc: Global,
    text: &mut Vec<u8>,
    version: Version,
    line: &str,
    entry: &FullEntry,
) -> Result<(), AllocError>
    ensures front { StartsWith text.new.items text.old.items }
    ensures line { (c : Configuration) → OnOk result (text.new.items ≡ text.old.items ++ upgraded_line version c line.now entry.now) }
{
    match (version, entry) {
        (Version::One, FullEntry::Publish) => {
            text.extend_from_slice(line.as_bytes())?;
            text.extend_from_slice(media_text(line).as_bytes())
        }
        (Version::One, FullEntry::Ask(ask, want, outcome)) => {
            text.extend_from_slice(ask_line(alloc, *ask, want, *outcome)?.as_bytes())
        }
        (Version::One, FullEntry::Collect(ask, outcome)) => {
            text.extend_from_slice(collect_line(*ask, *outcome).as_bytes())
        }
        _ => text.extend_from_slice(line.as_bytes()),
    }
}

/// Returns what follows the words of an item in format 2: after a part the length of its media, which is 0.
fn media_text(line: &str) -> &'static str
    ensures { result.now ≡ spec.media_text line.now }
{
    match after(line, "P ") {
        Some(item) if after(item, "part ").is_some() => " 0",
        _ => "",
    }
}
