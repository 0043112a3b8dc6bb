//! The version of the program, and the kit that it is proved with.
ghost use Rattle.std.specs.Prelude.{◌≡◌, ◌<◌, IfErr, OnOk};
ghost use Rattle.std.specs.Io.KnownBytes.{Appends};
ghost use Rattle.ll_command.specs.Version.{version_text};

use crate::fault::Fault;
use crate::writing::write_out;
use ll_device::Writer;

/// The version, which the file `VERSION` has too, and the first kit whose logic the proofs are in, which the README names.
const VERSION: &str =
    "llhls 0.2.0\nproved with rattle-kit-13b logic dac8208d650f15bf, or a later kit of the same logic\n";

/// Writes the version of the program, and the kit that it is proved with.
pub fn write_version<W: Writer>(out: &mut W) -> Result<(), Fault>
    ensures written { OnOk result (Appends (W.written out.old) (W.written out.new) version_text) }
    ensures failed { IfErr result (λ f. (f ≡ Fault.Write) × (W.failures out.old < W.failures out.new)) }
{
    write_out(VERSION.as_bytes(), out)
}
