// Why a journal was not made or opened.
ghost use Rattle.std.specs.Prelude.{◌≡◌};
ghost use Rattle.process_journal.specs.Errors.{of_log_error};
ghost use Rattle.process_journal.specs.declared.errors.JournalError.TheVariants.{DiskFault as Fault, NoMemory};

use gate_log::{DiskFault, LogError};
use std::alloc::{AllocError, AllocFailed};

#[derive(Clone, Copy, Debug, PartialEq, Eq)]
pub enum JournalError {
    /// A call of the rack failed.
    DiskFault,
    BadHeader,
    /// The first record, counted from 1, that is not whole or has no form of a record in its place.
    BadRecord(u32),
    /// The first record that does not continue a legal history within the limits.
    BadHistory(u32),
    NoMemory,
}

impl From<LogError> for JournalError {
    ghost from_gives = { λ e why. why ≡ of_log_error e };

    fn from(error: LogError) -> Self {
        match error {
            LogError::DiskFault => JournalError::DiskFault,
            LogError::BadHeader => JournalError::BadHeader,
            LogError::BadRecord(number) => JournalError::BadRecord(number),
            LogError::NoMemory => JournalError::NoMemory,
        }
    }
}

impl From<DiskFault> for JournalError {
    ghost from_gives = { λ _ e. e ≡ Fault };

    fn from(_: DiskFault) -> Self {
        JournalError::DiskFault
    }
}

impl From<AllocError> for JournalError {
    ghost from_gives = { λ _ e. e ≡ NoMemory };

    fn from(_: AllocError) -> Self {
        JournalError::NoMemory
    }
}

impl<T: Drop> From<AllocFailed<T>> for JournalError {
    ghost from_gives = { λ _ e. e ≡ NoMemory };

    fn from(_: AllocFailed<T>) -> Self {
        JournalError::NoMemory
    }
}
