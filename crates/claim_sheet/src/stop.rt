//! Why a walk over a file stopped before all claims were added.

ghost use Rattle.std.specs.Prelude.{◌≡◌};
ghost use Rattle.claim_sheet.specs.declared.stop.Stop.TheVariants.{Bad, NoMemory as OutOfMemory};

use size_core::{BadFile, NoMemory};
use thiserror::Error;

/// Why a walk over a file stopped before all claims were added.
#[derive(Clone, Copy, Debug, PartialEq, Eq, Error)]
pub enum Stop {
    /// The first fault of the records that were read.
    #[error("{0}")]
    Bad(BadFile),
    /// Out of memory.
    #[error("out of memory")]
    NoMemory,
}

impl From<NoMemory> for Stop {
    ghost from_gives = { λ _ e. e ≡ OutOfMemory };

    fn from(_: NoMemory) -> Stop {
        Stop::NoMemory
    }
}

impl From<BadFile> for Stop {
    ghost from_gives = { λ bad e. e ≡ Bad bad };

    fn from(bad: BadFile) -> Stop {
        Stop::Bad(bad)
    }
}
