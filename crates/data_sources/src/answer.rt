//! Why the claims of a data source can't be returned.

ghost use Rattle.std.specs.Prelude.{◌≡◌};
ghost use Rattle.data_sources.specs.declared.answer.ClaimAnswer.TheVariants.{NoMemory as OutOfMemory, TooManyClaims};
ghost use Rattle.data_sources.specs.Answers.{answer_of};

use claim_sheet::{Stop, TooMany};
use size_core::{BadFile, NoMemory};
use thiserror::Error;

/// Why the claims of a data source can't be returned.
#[derive(Clone, Copy, Debug, PartialEq, Eq, Error)]
pub enum ClaimAnswer {
    /// The first fault of the records that the data source reads.
    #[error("{0}")]
    Bad(BadFile),
    /// The data source makes more claims than the limit.
    #[error("too many claims")]
    TooManyClaims,
    /// Out of memory.
    #[error("out of memory")]
    NoMemory,
}

impl From<NoMemory> for ClaimAnswer {
    ghost from_gives = { λ _ e. e ≡ OutOfMemory };

    fn from(_: NoMemory) -> ClaimAnswer {
        ClaimAnswer::NoMemory
    }
}

impl From<TooMany> for ClaimAnswer {
    ghost from_gives = { λ _ e. e ≡ TooManyClaims };

    fn from(_: TooMany) -> ClaimAnswer {
        ClaimAnswer::TooManyClaims
    }
}

impl From<Stop> for ClaimAnswer {
    ghost from_gives = { λ stop e. e ≡ answer_of stop };

    fn from(stop: Stop) -> ClaimAnswer {
        match stop {
            Stop::Bad(bad) => ClaimAnswer::Bad(bad),
            Stop::NoMemory => ClaimAnswer::NoMemory,
        }
    }
}
