//! The errors of parsing the command line.

ghost use Rattle.std.specs.Prelude.{◌≡◌};
ghost use Rattle.size_options.specs.declared.errors.OptionAnswer.TheVariants.{NoMemory as OutOfMemory};

use size_core::NoMemory;
use std::alloc::AllocError;
use thiserror::Error;

/// How the command line is wrong. If several kinds apply, the first in this order is returned.
#[derive(Clone, Copy, Debug, PartialEq, Eq, Hash)]
pub enum UsageKind {
    /// The arguments can't be parsed: an option is unknown, lacks its value, or is given twice.
    Words,
    /// The value of `-n` or `--synth` isn't a number below 2^32 of one to ten digits, or that of `--synth` is
    /// above 1,000,000.
    BadNumber,
    /// The value of `-s` isn't `vm`, `file` or `both`.
    BadSort,
    /// The value of `--domain` isn't `vm`, `file` or `both`.
    BadDomain,
    /// `--csv` and `--tsv` are both given.
    TwoFormats,
    /// A name in the value of `-d` is empty, or there are more than eight names.
    BadSourceList,
    /// There is neither a file nor `--synth`.
    NoFile,
    /// `--synth` and a file are both given.
    SynthWithFile,
    /// The first argument `--`, which base files follow, is the last argument.
    NoBase,
    /// `--debug-file` is given, but there isn't exactly one file, or there is an argument `--`.
    DebugFile,
    /// The value of `--debug-fileoff` isn't a number below 2^64: one to twenty digits, or `0x` and one to
    /// sixteen hexadecimal digits. Or the value of `--debug-vmaddr` is neither such a number nor an address
    /// space, a colon and such a number. An address space is a number below 2^32 of one to ten digits.
    BadPlace,
    /// `--debug-fileoff` and `--debug-vmaddr` are both given.
    TwoPlaces,
    /// `--debug-fileoff` or `--debug-vmaddr` is given together with `--debug-file`, an argument `--` or a
    /// second file.
    PlaceFile,
}

/// Why there are no options.
#[derive(Clone, Copy, Debug, PartialEq, Eq, Hash, Error)]
pub enum OptionAnswer {
    /// The command line is wrong.
    #[error("{0:?}")]
    Usage(UsageKind),
    /// An allocation failed.
    #[error("out of memory")]
    NoMemory,
}

impl From<NoMemory> for OptionAnswer {
    ghost from_gives = { λ _ e. e ≡ OutOfMemory };

    fn from(_: NoMemory) -> OptionAnswer {
        OptionAnswer::NoMemory
    }
}

impl From<AllocError> for OptionAnswer {
    ghost from_gives = { λ _ e. e ≡ OutOfMemory };

    fn from(_: AllocError) -> OptionAnswer {
        OptionAnswer::NoMemory
    }
}
