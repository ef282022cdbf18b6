//! The errors of reading a unit's ranges.

ghost use Rattle.std.specs.Prelude.{◌≡◌};
ghost use Rattle.dwarf_ranges.specs.declared.answer.RangeAnswer.TheVariants.{Bad, NoMemory as OutOfMemory};

use size_core::{BadFile, NoMemory};
use std::alloc::{AllocError, AllocFailed};
use thiserror::Error;

/// Why a unit's ranges can't be returned.
#[derive(Clone, Copy, Debug, PartialEq, Eq, Error)]
pub enum RangeAnswer {
    /// The file has a fault.
    #[error("{0}")]
    Bad(BadFile),
    /// An allocation failed.
    #[error("out of memory")]
    NoMemory,
}

impl From<BadFile> for RangeAnswer {
    ghost from_gives = { λ bad e. e ≡ Bad bad };

    fn from(bad: BadFile) -> RangeAnswer {
        RangeAnswer::Bad(bad)
    }
}

impl From<AllocError> for RangeAnswer {
    ghost from_gives = { λ _ e. e ≡ OutOfMemory };

    fn from(_: AllocError) -> RangeAnswer {
        RangeAnswer::NoMemory
    }
}

impl<T: Drop> From<AllocFailed<T>> for RangeAnswer {
    ghost from_gives = { λ _ e. e ≡ OutOfMemory };

    fn from(_: AllocFailed<T>) -> RangeAnswer {
        RangeAnswer::NoMemory
    }
}
