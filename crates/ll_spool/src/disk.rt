//! The files of a channel's spool.
ghost use Rattle.std.specs.Prelude.{◌≡◌, ◌++◌, [], List, OnErr, OnOk, Option, false, true, ℕ};
ghost use Rattle.std.specs.Io.KnownBytes.{Appends};
ghost use Rattle.std.specs.Option.{option_map};
ghost use Rattle.ll_device.specs.Written.{AppendsPrefix};
ghost use Rattle.ll_spool.specs.Failures.{HasRisen};
ghost use Rattle.ll_spool.specs.Files.{Files, IsChanged, IsReadAt, cut_to};

use ll_layout::{Extent, Side};

/// A call of a disk failed.
#[derive(Clone, Copy)]
pub struct Lost;

/// The files of a channel's spool: the text of its items, and for each rendition the two sides of their bytes.
pub trait Disk: Drop {
    /// The text, if it is known.
    ghost lines: { Self → Option (List ℕ) };

    /// The bytes of each side of each rendition, if they are known.
    ghost files: { Self → Option Files };

    /// The number of calls that failed so far, 2^64 - 1 at most.
    ghost failures: { Self → ℕ };

    /// Appends `text` to the text of the items.
    fn append_line(&mut self, text: &[u8]) -> Result<(), Lost>
        ensures whole { OnOk result (Appends (lines self.old) (lines self.new) text.now) }
        ensures cut { OnErr result (AppendsPrefix (lines self.old) (lines self.new) text.now) }
        ensures files { files self.new ≡ files self.old }
        ensures steady { OnOk result (failures self.new ≡ failures self.old) }
        ensures failed { OnErr result (HasRisen (failures self.old) (failures self.new)) };

    /// Appends `bytes` to the file of `side` of `rendition`.
    fn append(&mut self, rendition: usize, side: Side, bytes: &[u8]) -> Result<(), Lost>
        ensures text { lines self.new ≡ lines self.old }
        ensures appended { OnOk result (IsChanged rendition side (λ file. file ++ bytes.now) (files self.old) (files self.new)) }
        ensures steady { OnOk result (failures self.new ≡ failures self.old) }
        ensures failed { OnErr result (HasRisen (failures self.old) (failures self.new)) };

    /// Drops all bytes of the file of `side` of `rendition`.
    fn clear(&mut self, rendition: usize, side: Side) -> Result<(), Lost>
        ensures text { lines self.new ≡ lines self.old }
        ensures cleared { OnOk result (IsChanged rendition side (λ file. []) (files self.old) (files self.new)) }
        ensures steady { OnOk result (failures self.new ≡ failures self.old) }
        ensures failed { OnErr result (HasRisen (failures self.old) (failures self.new)) };

    /// Cuts the text to its first `length` bytes, or appends zeros if it has fewer.
    fn cut_text(&mut self, length: u64) -> Result<(), Lost>
        ensures cut { OnOk result (lines self.new ≡ option_map (cut_to length) (lines self.old)) }
        ensures files { files self.new ≡ files self.old }
        ensures steady { OnOk result (failures self.new ≡ failures self.old) }
        ensures failed { OnErr result (HasRisen (failures self.old) (failures self.new)) };

    /// Cuts the file of `side` of `rendition` to its first `length` bytes, or appends zeros if it has fewer.
    fn cut(&mut self, rendition: usize, side: Side, length: u64) -> Result<(), Lost>
        ensures text { lines self.new ≡ lines self.old }
        ensures cut { OnOk result (IsChanged rendition side (cut_to length) (files self.old) (files self.new)) }
        ensures steady { OnOk result (failures self.new ≡ failures self.old) }
        ensures failed { OnErr result (HasRisen (failures self.old) (failures self.new)) };

    /// Reads the bytes of `rendition` at `place` into `bytes`, which has room for just these; false if they aren't all there.
    fn read(&mut self, rendition: usize, place: Extent, bytes: &mut [u8]) -> bool
        ensures text { lines self.new ≡ lines self.old }
        ensures files { files self.new ≡ files self.old }
        ensures read { result ≡ true → IsReadAt (files self.old) rendition place bytes.new }
        ensures steady { result ≡ true → failures self.new ≡ failures self.old }
        ensures failed { result ≡ false → HasRisen (failures self.old) (failures self.new) };
}
