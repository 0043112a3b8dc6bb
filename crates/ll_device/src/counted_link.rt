//! A link that counts how it is read, for proofs alone.
ghost use Rattle.std.specs.Prelude.{◌≡◌, Some};

use crate::counts::TwoCounts;
use crate::device::{Failed, Writer};
use crate::link::Link;
use std::sync::ledger::{Blank, Ledger};

/// A link over another one, which counts its reads. The bytes that came are known if the other link knows them.
#[derive(Drop)]
pub struct CountedLink<P: Link, L: Ledger> {
    link: P,
    /// The number of reads, and how often the peer was found to have ended the link.
    looks: TwoCounts<L>,
}

impl<P: Link, L: Ledger> CountedLink<P, L> {
    /// Returns a link that wasn't read yet. `blank` has two parts, one for each count.
    pub fn new(link: P, blank: Blank) -> CountedLink<P, L>
        requires name { blank.name ≡ L.name }
        requires parts { blank.parts ≡ L.parts }
        requires two { blank.parts ≡ 2 }
        ensures inward { ⟦<CountedLink<P, L> as Writer>⟧.inward result ≡ record { looks = Some (record { reads = 0; ends = 0 }); bytes = (P.inward link).bytes } }
        ensures written { ⟦<CountedLink<P, L> as Writer>⟧.written result ≡ P.written link }
        ensures failures { ⟦<CountedLink<P, L> as Writer>⟧.failures result ≡ P.failures link }
    {
        CountedLink {
            link,
            looks: TwoCounts::new(blank),
        }
    }
}

impl<P: Link, L: Ledger> Writer for CountedLink<P, L> {
    ghost written = { λ c. P.written c.link };

    ghost failures = { λ c. P.failures c.link };

    ghost inward = { λ c. record { looks = Some (record { reads = c.looks.first; ends = c.looks.second }); bytes = (P.inward c.link).bytes } };

    fn write(&mut self, text: &[u8]) -> Result<usize, Failed> {
        self.link.write(text)
    }

    fn write_two(&mut self, first: &[u8], second: &[u8]) -> Result<usize, Failed> {
        self.link.write_two(first, second)
    }
}

impl<P: Link, L: Ledger> Link for CountedLink<P, L> {
    fn read(&mut self, buf: &mut [u8]) -> Result<usize, Failed> {
        self.looks.add_first();
        let count = self.link.read(buf)?;
        if count == 0 && !buf.is_empty() {
            self.looks.add_second();
        }
        Ok(count)
    }

    fn gone(&mut self) -> bool {
        let gone = self.link.gone();
        if gone {
            self.looks.add_second();
        }
        gone
    }
}
