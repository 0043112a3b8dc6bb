//! A clock that gives the time of day.
ghost use Rattle.std.specs.Prelude.{◌≡◌, ◌<◌, ◌∷◌, [], ℕ, List, Option, IfOk, OnErr, OnOk};
ghost use Rattle.std.specs.Io.KnownBytes.{Consumes, Keeps};

use ll_device::Failed;

/// A clock that gives the time of day.
pub trait Calendar {
    /// The readings that are still to come, if they are known.
    ghost coming: { Self → Option (List ℕ) };

    /// The number of readings that failed.
    ghost failures: { Self → ℕ };

    /// Returns the time in milliseconds since 1970-01-01T00:00:00Z.
    fn now(&mut self) -> Result<u64, Failed>
        ensures reading { IfOk result (λ ms. Consumes (coming self.old) (coming self.new) (ms ∷ [])) }
        ensures kept { OnErr result (Keeps (coming self.old) (coming self.new)) }
        ensures steady { OnOk result (failures self.new ≡ failures self.old) }
        ensures failed { OnErr result (failures self.old < failures self.new) };
}
