ghost use Rattle.std.specs.Prelude.{◌≡◌};

use no_memory::NoMemory;
use thiserror::Error;

/// Why an observer isn't taken.
#[derive(Clone, Copy, Debug, PartialEq, Eq, Error)]
pub enum AttachError {
    /// A seated observer, or one whose join is planned, has the name.
    #[error("the name is taken")]
    Taken,
    /// So many are seated or planned.
    #[error("the limit of {0} would be passed")]
    Full(u32),
    /// There was no memory for the snapshot, or the observer found none.
    #[error("no memory")]
    NoMemory,
}

/// Why there is no report.
#[derive(Clone, Copy, Debug, PartialEq, Eq, Error)]
pub enum ReportError {
    /// No seated observer has the name.
    #[error("no seated observer has the name")]
    NoSeat,
    /// There was no memory for the report.
    #[error("no memory")]
    NoMemory,
}

impl From<NoMemory> for ReportError {
    ghost use Rattle.observer_bus.specs.declared.errors.ReportError.TheVariants.{NoMemory as OutOfMemory};

    ghost from_gives = { λ _ e. e ≡ OutOfMemory };

    fn from(_error: NoMemory) -> ReportError {
        ReportError::NoMemory
    }
}

/// No seated observer has the name.
#[derive(Clone, Copy, Debug, PartialEq, Eq, Error)]
#[error("no seated observer has the name")]
pub struct NoSeat;
