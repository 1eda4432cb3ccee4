// Why a log was not made, opened or appended to.
ghost use Rattle.std.specs.Prelude.{◌≡◌, Some, codes};
ghost use Rattle.gate_log.specs.Errors.{text_of};
ghost use Rattle.gate_log.specs.declared.errors.LogError.TheVariants.{DiskFault as Fault, NoMemory};

use process_flow::Failed;
use std::alloc::{AllocError, AllocFailed};
use std::error::Error;
use std::fmt;

/// A call of the rack failed. The log has to be opened again.
#[derive(Clone, Copy, Debug, PartialEq, Eq)]
pub struct DiskFault;

impl fmt::Display for DiskFault {
    ghost output = { λ _. Some (codes "a call of the rack failed") };

    fn fmt<W: fmt::Write>(&self, f: &mut fmt::Formatter<W>) -> fmt::Result {
        f.write_str("a call of the rack failed")
    }
}

impl Error for DiskFault {}

impl From<Failed> for DiskFault {
    fn from(_: Failed) -> Self {
        DiskFault
    }
}

#[derive(Clone, Copy, Debug, PartialEq, Eq)]
pub enum LogError {
    /// A call of the rack failed.
    DiskFault,
    BadHeader,
    /// The first record, counted from 1, that runs past the end of the file or past the most records, or in whose place no
    /// closed gate stands.
    BadRecord(u32),
    NoMemory,
}

impl fmt::Display for LogError {
    ghost output = { λ e. Some (text_of e) };

    fn fmt<W: fmt::Write>(&self, f: &mut fmt::Formatter<W>) -> fmt::Result {
        match self {
            LogError::DiskFault => f.write_str("a call of the rack failed"),
            LogError::BadHeader => f.write_str("the file has no header of its number"),
            LogError::BadRecord(number) => write!(f, "record {number} is not whole"),
            LogError::NoMemory => f.write_str("out of memory"),
        }
    }
}

impl Error for LogError {}

impl From<Failed> for LogError {
    ghost from_gives = { λ _ e. e ≡ Fault };

    fn from(_: Failed) -> Self {
        LogError::DiskFault
    }
}

impl From<AllocError> for LogError {
    ghost from_gives = { λ _ e. e ≡ NoMemory };

    fn from(_: AllocError) -> Self {
        LogError::NoMemory
    }
}

impl<T: Drop> From<AllocFailed<T>> for LogError {
    ghost from_gives = { λ _ e. e ≡ NoMemory };

    fn from(_: AllocFailed<T>) -> Self {
        LogError::NoMemory
    }
}
