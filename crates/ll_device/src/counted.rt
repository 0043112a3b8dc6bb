//! Readers and writers of std as devices, with counts that only proofs see. A call that a signal interrupts is made again.
ghost use Rattle.std.specs.Prelude.{◌≡◌, ◌+◌};

use crate::again;
use crate::counts::TwoCounts;
use crate::device::{Failed, Reader, Writer};
use std::io::{Read, Write};
use std::sync::ledger::{Blank, Ledger};

/// A reader over one of std. The bytes that are left are known if std's reader knows them.
#[derive(Drop)]
pub struct CountedReader<R: Read + Drop, L: Ledger> {
    source: R,
    /// The number of uses that succeeded, and of those that failed.
    uses: TwoCounts<L>,
}

impl<R: Read + Drop, L: Ledger> CountedReader<R, L> {
    /// Returns a reader that wasn't used yet. `blank` has two parts, one for each count.
    pub fn new(source: R, blank: Blank) -> CountedReader<R, L>
        requires name { blank.name ≡ L.name }
        requires parts { blank.parts ≡ L.parts }
        requires two { blank.parts ≡ 2 }
        ensures reads { ⟦<CountedReader<R, L> as Reader>⟧.reads result ≡ 0 }
        ensures failures { ⟦<CountedReader<R, L> as Reader>⟧.failures result ≡ 0 }
    {
        CountedReader {
            source,
            uses: TwoCounts::new(blank),
        }
    }
}

impl<R: Read + Drop, L: Ledger> Reader for CountedReader<R, L> {
    ghost left = { λ r. R.remaining r.source };

    ghost reads = { λ r. r.uses.first + r.uses.second };

    ghost failures = { λ r. r.uses.second };

    fn read(&mut self, buf: &mut [u8]) -> Result<usize, Failed> {
        match again::read(&mut self.source, buf) {
            Ok(count) => {
                self.uses.add_first();
                Ok(count)
            }
            Err(_) => {
                self.uses.add_second();
                Err(Failed)
            }
        }
    }
}

/// A writer over one of std. The bytes written so far are known if std's writer knows them.
#[derive(Drop)]
pub struct CountedWriter<W: Write + Drop, L: Ledger> {
    sink: W,
    /// The number of uses that succeeded, and of those that failed.
    uses: TwoCounts<L>,
}

impl<W: Write + Drop, L: Ledger> CountedWriter<W, L> {
    /// Returns a writer that hasn't failed yet. `blank` has two parts, one for each count.
    pub fn new(sink: W, blank: Blank) -> CountedWriter<W, L>
        requires name { blank.name ≡ L.name }
        requires parts { blank.parts ≡ L.parts }
        requires two { blank.parts ≡ 2 }
        ensures { ⟦<CountedWriter<W, L> as Writer>⟧.failures result ≡ 0 }
    {
        CountedWriter {
            sink,
            uses: TwoCounts::new(blank),
        }
    }
}

impl<W: Write + Drop, L: Ledger> Writer for CountedWriter<W, L> {
    ghost written = { λ w. W.contents w.sink };

    ghost failures = { λ w. w.uses.second };

    /// Writes once. A write that takes nothing of a text that isn't empty fails too.
    fn write(&mut self, text: &[u8]) -> Result<usize, Failed> {
        match again::write(&mut self.sink, text) {
            Ok(count) if count > 0 || text.is_empty() => {
                self.uses.add_first();
                Ok(count)
            }
            _ => {
                self.uses.add_second();
                Err(Failed)
            }
        }
    }
}
