ghost use Rattle.std.specs.Prelude.{◌≡◌};

use no_memory::NoMemory;
use std::alloc::{AllocError, AllocFailed};

/// Why there are no rings.
#[derive(Clone, Copy, Debug, PartialEq, Eq)]
pub(crate) enum RingsError {
    /// The darts aren't a closed border: two ends at one vertex lead in one direction, or some dart isn't followed by any.
    NotClosed,
    /// There was no memory.
    NoMemory,
}

impl From<NoMemory> for RingsError {
    ghost use Rattle.region_rings.specs.declared.errors.RingsError.TheVariants.{NoMemory as OutOfMemory};

    ghost from_gives = { λ _ e. e ≡ OutOfMemory };

    fn from(_error: NoMemory) -> RingsError {
        RingsError::NoMemory
    }
}

impl From<AllocError> for RingsError {
    ghost use Rattle.region_rings.specs.declared.errors.RingsError.TheVariants.{NoMemory as OutOfMemory};

    ghost from_gives = { λ _ e. e ≡ OutOfMemory };

    fn from(_error: AllocError) -> RingsError {
        RingsError::NoMemory
    }
}

impl<T: Drop> From<AllocFailed<T>> for RingsError {
    ghost use Rattle.region_rings.specs.declared.errors.RingsError.TheVariants.{NoMemory as OutOfMemory};

    ghost from_gives = { λ _ e. e ≡ OutOfMemory };

    fn from(_error: AllocFailed<T>) -> RingsError {
        RingsError::NoMemory
    }
}
