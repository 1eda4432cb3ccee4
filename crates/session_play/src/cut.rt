// Why a session ends before its last line.
ghost use Rattle.std.specs.Prelude.{◌≡◌};
ghost use Rattle.session_play.specs.declared.cut.Cut.TheVariants.{NoMemory};

use std::alloc::{AllocError, AllocFailed};

/// Why a line was not answered. The session ends with it.
#[derive(Clone, Copy, Debug, PartialEq, Eq)]
pub enum Cut {
    /// A call of the rack failed.
    DiskFault,
    NoMemory,
}

impl From<AllocError> for Cut {
    ghost from_gives = { λ _ e. e ≡ NoMemory };

    fn from(_: AllocError) -> Self {
        Cut::NoMemory
    }
}

impl<T: Drop> From<AllocFailed<T>> for Cut {
    ghost from_gives = { λ _ e. e ≡ NoMemory };

    fn from(_: AllocFailed<T>) -> Self {
        Cut::NoMemory
    }
}
