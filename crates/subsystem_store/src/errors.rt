// Why a store was not made or opened.
ghost use Rattle.std.specs.Prelude.{◌≡◌};
ghost use Rattle.subsystem_store.specs.Errors.{of_log_error};

use gate_log::LogError;
use resource_box::Resource;

#[derive(Clone, Copy, Debug, PartialEq, Eq)]
pub enum StoreError {
    /// A call of the rack failed.
    DiskFault,
    BadHeader,
    /// The first record, counted from 1, that is not whole or has no form of a record.
    BadRecord(u32),
    /// The first record that is out of place.
    BadBook(u32),
    NoMemory,
}

/// A store that was not made or opened: its box, cleared, and why.
#[derive(Drop)]
pub struct StoreRefused<B: Drop = Box<dyn Resource + Send>> {
    pub resource: B,
    pub why: StoreError,
}

impl From<LogError> for StoreError {
    ghost from_gives = { λ e why. why ≡ of_log_error e };

    fn from(error: LogError) -> Self {
        match error {
            LogError::DiskFault => StoreError::DiskFault,
            LogError::BadHeader => StoreError::BadHeader,
            LogError::BadRecord(number) => StoreError::BadRecord(number),
            LogError::NoMemory => StoreError::NoMemory,
        }
    }
}
