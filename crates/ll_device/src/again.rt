//! Reads and writes that are made again if a signal interrupts them.
ghost use Rattle.std.specs.Prelude.{◌≢◌, IfErr};
ghost use Rattle.std.specs.Io.{ReadsAtMost, WritesAtMost};
ghost use Rattle.std.specs.Io.KnownBytes.{ReadConsumes, WriteAppends};
ghost use Rattle.std.specs.IoError.{error_kind};

use std::io;
use std::io::{Error, ErrorKind, Read, Write};

/// Reads once into `buf`, and again as long as a signal interrupts that.
pub fn read<R: Read>(source: &mut R, buf: &mut [u8]) -> io::Result<usize>
    ensures again { IfErr result (λ e. error_kind e ≢ ErrorKind.Interrupted) }
    ensures bound { ReadsAtMost result buf.new }
    ensures bytes { ReadConsumes (R.remaining source.old) (R.remaining source.new) result buf.new }
{
    for _ in 0..u64::MAX {
        match source.read(buf) {
            Err(error) if error.kind() == ErrorKind::Interrupted => {}
            done => return done,
        }
    }
    Err(Error::from(ErrorKind::TimedOut))
}

/// Writes `text` once, and again as long as a signal interrupts that.
pub fn write<W: Write>(sink: &mut W, text: &[u8]) -> io::Result<usize>
    ensures again { IfErr result (λ e. error_kind e ≢ ErrorKind.Interrupted) }
    ensures bound { WritesAtMost result text.now }
    ensures bytes { WriteAppends (W.contents sink.old) (W.contents sink.new) result text.now }
{
    for _ in 0..u64::MAX {
        match sink.write(text) {
            Err(error) if error.kind() == ErrorKind::Interrupted => {}
            done => return done,
        }
    }
    Err(Error::from(ErrorKind::TimedOut))
}
