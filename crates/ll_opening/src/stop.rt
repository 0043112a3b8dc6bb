//! Why a server doesn't start, or ends.
use ll_config::ConfigFault;
use std::alloc::{AllocError, Global};
use std::fmt::Display;
use std::io;

/// Why a server doesn't start, or ends.
#[derive(Drop)]
pub enum Stop {
    /// The number of a line of the settings file that isn't allowed in its place.
    BadLine(u64),
    /// The clock couldn't be read.
    Clock,
    /// The program couldn't listen at an address, for this reason.
    Listen(String),
    /// Out of memory.
    Memory,
    /// A spool can't stand, or its files can't be used. Why was said on standard error; the program ends with this status.
    Spool(u8),
}

/// Returns what was `done` to listen at `address`, for those who are called `whose`.
pub(crate) fn listening<T, D: Display + Drop>(
    alloc: Global,
    done: io::Result<T>,
    address: D,
    whose: &str,
) -> Result<T, Stop> {
    match done {
        Ok(port) => Ok(port),
        Err(error) => match format!(in alloc; "{address}, for {whose}: {error}") {
            Ok(why) => Err(Stop::Listen(why)),
            Err(AllocError) => Err(Stop::Memory),
        },
    }
}

impl From<AllocError> for Stop {
    fn from(_error: AllocError) -> Stop {
        Stop::Memory
    }
}

impl From<ConfigFault> for Stop {
    fn from(fault: ConfigFault) -> Stop {
        match fault {
            ConfigFault::BadLine(line) => Stop::BadLine(line),
            ConfigFault::Memory => Stop::Memory,
        }
    }
}
