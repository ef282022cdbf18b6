//! Why a file's sizes were not added.

ghost use Rattle.std.specs.Prelude.{◌≡◌};
ghost use Rattle.rollup.specs.declared.answer.RollupAnswer.TheVariants.{NoMemory as OutOfMemory};

use size_core::NoMemory;
use thiserror::Error;

/// Why a file's sizes were not added.
#[derive(Clone, Copy, Debug, PartialEq, Eq, Error)]
pub enum RollupAnswer {
    /// The lengths of the files exceed 2^63 - 1.
    #[error("too many bytes")]
    TooManyBytes,
    /// The mapped sizes of the files exceed 2^63 - 1.
    #[error("mapped size too large")]
    MappedTooLarge,
    /// There was not enough memory.
    #[error("out of memory")]
    NoMemory,
}

impl From<NoMemory> for RollupAnswer {
    ghost from_gives = { λ _ e. e ≡ OutOfMemory };

    fn from(_: NoMemory) -> RollupAnswer {
        RollupAnswer::NoMemory
    }
}
