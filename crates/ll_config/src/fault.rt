//! What can be wrong with a settings file.
use std::alloc::AllocError;
use thiserror::Error;

/// Why a settings file can't be used.
#[derive(Clone, Copy, Debug, Error)]
pub enum ConfigFault {
    /// The number of the first line that isn't allowed in its place, counted from 1; if the file ends too early, that of the line after its
    /// last.
    #[error("BadLine {0}")]
    BadLine(u64),
    /// Out of memory for a path or a channel. The lines before it are right.
    #[error("Memory")]
    Memory,
}

impl From<AllocError> for ConfigFault {
    ghost use Rattle.std.specs.Prelude.{◌≡◌};
    ghost use Rattle.ll_config.specs.declared.fault.ConfigFault.TheVariants.{Memory};

    ghost from_gives = { λ error fault. fault ≡ Memory };

    fn from(_error: AllocError) -> ConfigFault {
        ConfigFault::Memory
    }
}
