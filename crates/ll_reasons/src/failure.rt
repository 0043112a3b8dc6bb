//! A fault with which the program ends, and the lines that explain it.
use crate::advice::Advice;
use ll_command::Fault;
use std::alloc::{AllocError, Global};
use std::fmt;
use std::fmt::Display;

/// A fault with which the program ends, and what is known of its cause.
#[derive(Drop)]
pub struct Failure {
    fault: Fault,
    /// What failed, of what, and why, in one or more lines.
    cause: Option<String>,
}

impl Failure {
    /// Returns a failure with `fault`, and with `cause`, which may have several lines. Leaves `cause` out if out of memory.
    pub fn new<D: Display + Drop>(alloc: Global, fault: Fault, cause: D) -> Failure {
        Failure {
            fault,
            cause: format!(in alloc; "{cause}").ok(),
        }
    }

    /// Returns the fault.
    pub fn fault(&self) -> Fault {
        self.fault
    }
}

impl From<Fault> for Failure {
    /// Returns a failure of which no more is known than its `fault`.
    fn from(fault: Fault) -> Failure {
        Failure { fault, cause: None }
    }
}

impl From<AllocError> for Failure {
    /// Returns the failure of which no more is known than `Memory`.
    fn from(_error: AllocError) -> Failure {
        Failure::from(Fault::Memory)
    }
}

impl fmt::Display for Failure {
    /// Writes the line with the fault's name, and then each line that explains it, indented by two spaces.
    fn fmt<W: fmt::Write>(&self, f: &mut fmt::Formatter<W>) -> fmt::Result {
        writeln!(f, "llhls: {}", self.fault)?;
        if let Some(cause) = &self.cause {
            for line in cause.lines() {
                writeln!(f, "  {line}")?;
            }
        }
        write!(f, "{}", Advice(self.fault))
    }
}
