//! Why a file isn't counted.

ghost use Rattle.std.specs.Prelude.{◌≡◌};

use data_sources::ClaimAnswer;
use rollup::RollupAnswer;
use size_core::{BadFile, NoMemory};
use std::alloc::AllocFailed;
use thiserror::Error;

/// Why a file isn't counted.
#[derive(Clone, Copy, Debug, PartialEq, Eq, Error)]
pub enum ProfileAnswer {
    /// The first fault of the file, or of a data source on it.
    #[error("{0}")]
    Bad(BadFile),
    /// The claims of the plan's data sources exceed the limit.
    #[error("too many claims")]
    TooManyClaims,
    /// The mapped sizes of the files exceed 2^63 - 1.
    #[error("mapped size too large")]
    MappedTooLarge,
    /// There was not enough memory.
    #[error("out of memory")]
    NoMemory,
}

/// A file that is counted, or its debug file.
#[derive(Clone, Copy, Debug, PartialEq, Eq, Error)]
pub enum PairFile {
    /// The file itself, which is file 1 of a run.
    #[error("file 1")]
    Own,
    /// Its debug file, which is file 2.
    #[error("file 2")]
    Debug,
}

/// Why a file isn't counted with its debug file.
#[derive(Clone, Copy, Debug, PartialEq, Eq, Error)]
pub enum PairAnswer {
    /// The first fault of the file or of its debug file, or of a data source on it.
    #[error("{0}: {1}")]
    Bad(PairFile, BadFile),
    /// The identifiers of the two differ, or one has none.
    #[error("no match")]
    NoMatch,
    /// The claims of the plan's data sources exceed the limit.
    #[error("too many claims")]
    TooManyClaims,
    /// The mapped sizes of the files exceed 2^63 - 1.
    #[error("mapped size too large")]
    MappedTooLarge,
    /// There was not enough memory.
    #[error("out of memory")]
    NoMemory,
}

/// Why a location of a file isn't explained.
#[derive(Clone, Copy, Debug, PartialEq, Eq, Error)]
pub enum PlaceAnswer {
    /// The first fault of the file, or of a data source on it.
    #[error("{0}")]
    Bad(BadFile),
    /// The file offset isn't below the file's end, or the address isn't mapped.
    #[error("place outside the file")]
    PlaceOutside,
    /// The claims of the plan's data sources exceed the limit.
    #[error("too many claims")]
    TooManyClaims,
    /// The mapped size of the file exceeds 2^63 - 1.
    #[error("mapped size too large")]
    MappedTooLarge,
    /// There was not enough memory.
    #[error("out of memory")]
    NoMemory,
}

/// Why the claims of a data source on an opened file can't be made.
#[derive(Clone, Copy)]
pub enum SourceAnswer {
    /// The first fault of the data source on the file or on its debug file.
    Bad(PairFile, BadFile),
    /// The claims exceed the limit.
    TooManyClaims,
    /// There was not enough memory.
    NoMemory,
}

/// The result of a call that makes the claims of a data source.
pub type Made<T> = Result<T, SourceAnswer>;

impl From<NoMemory> for SourceAnswer {
    ghost use Rattle.file_profile.specs.declared.answer.SourceAnswer.TheVariants.{NoMemory as OutOfMemory};

    ghost from_gives = { λ _ e. e ≡ OutOfMemory };

    fn from(_: NoMemory) -> SourceAnswer {
        SourceAnswer::NoMemory
    }
}

impl<T: Drop> From<AllocFailed<T>> for SourceAnswer {
    ghost use Rattle.file_profile.specs.declared.answer.SourceAnswer.TheVariants.{NoMemory as OutOfMemory};

    ghost from_gives = { λ _ e. e ≡ OutOfMemory };

    fn from(_: AllocFailed<T>) -> SourceAnswer {
        SourceAnswer::NoMemory
    }
}

impl SourceAnswer {
    ghost use Rattle.file_profile.specs.Answers.{of_claims};

    /// The answer for a file whose claims can't be made.
    pub fn of_claims(file: PairFile, answer: ClaimAnswer) -> SourceAnswer
        ensures { result ≡ of_claims file answer }
    {
        match answer {
            ClaimAnswer::Bad(bad) => SourceAnswer::Bad(file, bad),
            ClaimAnswer::TooManyClaims => SourceAnswer::TooManyClaims,
            ClaimAnswer::NoMemory => SourceAnswer::NoMemory,
        }
    }
}

/// Why a file that was opened isn't counted.
#[derive(Clone, Copy, Debug)]
pub enum OpenedAnswer {
    /// The first fault of a data source on the file or on its debug file.
    Bad(PairFile, BadFile),
    /// The claims of the plan's data sources exceed the limit.
    TooManyClaims,
    /// The mapped sizes of the files exceed 2^63 - 1.
    MappedTooLarge,
    /// There was not enough memory.
    NoMemory,
}

impl From<NoMemory> for OpenedAnswer {
    ghost use Rattle.file_profile.specs.declared.answer.OpenedAnswer.TheVariants.{NoMemory as OutOfMemory};

    ghost from_gives = { λ _ e. e ≡ OutOfMemory };

    fn from(_: NoMemory) -> OpenedAnswer {
        OpenedAnswer::NoMemory
    }
}

impl From<SourceAnswer> for OpenedAnswer {
    ghost use Rattle.file_profile.specs.Answers.{of_data_source};

    ghost from_gives = { λ answer e. e ≡ of_data_source answer };

    fn from(answer: SourceAnswer) -> OpenedAnswer {
        match answer {
            SourceAnswer::Bad(file, bad) => OpenedAnswer::Bad(file, bad),
            SourceAnswer::TooManyClaims => OpenedAnswer::TooManyClaims,
            SourceAnswer::NoMemory => OpenedAnswer::NoMemory,
        }
    }
}

impl From<RollupAnswer> for OpenedAnswer {
    ghost use Rattle.file_profile.specs.Answers.{of_rollup};

    ghost from_gives = { λ answer e. e ≡ of_rollup answer };

    // `TooManyBytes` can't occur: the lengths are within the limits of a run.
    fn from(answer: RollupAnswer) -> OpenedAnswer {
        match answer {
            RollupAnswer::TooManyBytes | RollupAnswer::MappedTooLarge => {
                OpenedAnswer::MappedTooLarge
            }
            RollupAnswer::NoMemory => OpenedAnswer::NoMemory,
        }
    }
}

impl From<NoMemory> for ProfileAnswer {
    ghost use Rattle.file_profile.specs.declared.answer.ProfileAnswer.TheVariants.{NoMemory as OutOfMemory};

    ghost from_gives = { λ _ e. e ≡ OutOfMemory };

    fn from(_: NoMemory) -> ProfileAnswer {
        ProfileAnswer::NoMemory
    }
}

impl From<BadFile> for ProfileAnswer {
    ghost use Rattle.file_profile.specs.declared.answer.ProfileAnswer.TheVariants.{Bad};

    ghost from_gives = { λ bad e. e ≡ Bad bad };

    fn from(bad: BadFile) -> ProfileAnswer {
        ProfileAnswer::Bad(bad)
    }
}

impl From<OpenedAnswer> for ProfileAnswer {
    ghost use Rattle.file_profile.specs.Answers.{of_file_alone};

    ghost from_gives = { λ answer e. e ≡ of_file_alone answer };

    fn from(answer: OpenedAnswer) -> ProfileAnswer {
        match answer {
            OpenedAnswer::Bad(_, bad) => ProfileAnswer::Bad(bad),
            OpenedAnswer::TooManyClaims => ProfileAnswer::TooManyClaims,
            OpenedAnswer::MappedTooLarge => ProfileAnswer::MappedTooLarge,
            OpenedAnswer::NoMemory => ProfileAnswer::NoMemory,
        }
    }
}

impl From<NoMemory> for PairAnswer {
    ghost use Rattle.file_profile.specs.declared.answer.PairAnswer.TheVariants.{NoMemory as OutOfMemory};

    ghost from_gives = { λ _ e. e ≡ OutOfMemory };

    fn from(_: NoMemory) -> PairAnswer {
        PairAnswer::NoMemory
    }
}

impl From<OpenedAnswer> for PairAnswer {
    ghost use Rattle.file_profile.specs.Answers.{of_file_pair};

    ghost from_gives = { λ answer e. e ≡ of_file_pair answer };

    fn from(answer: OpenedAnswer) -> PairAnswer {
        match answer {
            OpenedAnswer::Bad(file, bad) => PairAnswer::Bad(file, bad),
            OpenedAnswer::TooManyClaims => PairAnswer::TooManyClaims,
            OpenedAnswer::MappedTooLarge => PairAnswer::MappedTooLarge,
            OpenedAnswer::NoMemory => PairAnswer::NoMemory,
        }
    }
}

impl From<NoMemory> for PlaceAnswer {
    ghost use Rattle.file_profile.specs.declared.answer.PlaceAnswer.TheVariants.{NoMemory as OutOfMemory};

    ghost from_gives = { λ _ e. e ≡ OutOfMemory };

    fn from(_: NoMemory) -> PlaceAnswer {
        PlaceAnswer::NoMemory
    }
}

impl From<BadFile> for PlaceAnswer {
    ghost use Rattle.file_profile.specs.declared.answer.PlaceAnswer.TheVariants.{Bad};

    ghost from_gives = { λ bad e. e ≡ Bad bad };

    fn from(bad: BadFile) -> PlaceAnswer {
        PlaceAnswer::Bad(bad)
    }
}

impl From<SourceAnswer> for PlaceAnswer {
    ghost use Rattle.file_profile.specs.Answers.{of_file_place};

    ghost from_gives = { λ answer e. e ≡ of_file_place answer };

    fn from(answer: SourceAnswer) -> PlaceAnswer {
        match answer {
            SourceAnswer::Bad(_, bad) => PlaceAnswer::Bad(bad),
            SourceAnswer::TooManyClaims => PlaceAnswer::TooManyClaims,
            SourceAnswer::NoMemory => PlaceAnswer::NoMemory,
        }
    }
}
