//! How a run ends.

ghost use Rattle.std.specs.Prelude.{◌≡◌};

use config_text::ConfigKind;
use size_core::{Fault, NoMemory};
use size_options::UsageKind;

/// How a run ends. Files are numbered: 0 is the configuration, and the files follow from 1 on, in the order of the
/// command line. Then come the debug file or the base files. A `usize` is the number of a file, unless its variant
/// says otherwise.
#[derive(Clone, Copy, Debug, PartialEq, Eq, Hash)]
pub enum Outcome {
    /// The whole report was written.
    Done,
    /// The arguments are misused.
    Usage(UsageKind),
    /// The file couldn't be read.
    ReadFailed(usize),
    /// The file is longer than the limit for a file, or all files up to it together are longer than the limit for a
    /// run.
    TooLong(usize),
    /// The configuration has a fault, at an offset in bytes.
    Config(ConfigKind, u64),
    /// The name with this number in `-d` is that of no data source. The names are numbered from 1.
    UnknownSource(usize),
    /// The pattern with this number is no regular expression, or is nested too deeply. The filter is pattern 0, and
    /// rewrites are numbered from 1.
    PatternSyntax(usize),
    /// The pattern with this number was refused for its size. Patterns are numbered as in `PatternSyntax`.
    PatternTooBig(usize),
    /// The file with number `file` has this fault, at this file offset in bytes.
    Bad {
        file: usize,
        fault: Fault,
        offset: u64,
    },
    /// The data sources in `-d` make more claims on the file than the limit.
    TooManyClaims(usize),
    /// The mapped sizes of the files add up to more than 2^63 - 1, or those of the base files do.
    MappedTooLarge,
    /// The identifiers of the file and its debug file differ, or one has none.
    NoMatch,
    /// The location isn't below the file's end, or isn't mapped.
    PlaceOutside,
    /// The report couldn't be written completely.
    WriteFailed,
    /// There was not enough memory.
    NoMemory,
}

impl Outcome {
    ghost use Rattle.run_outcome.specs.Status.{status_of};

    /// The exit status.
    pub fn status(&self) -> u8
        ensures { result ≡ status_of self.now }
    {
        match self {
            Outcome::Done => 0,
            Outcome::Bad { .. } | Outcome::NoMatch => 1,
            Outcome::Usage(_)
            | Outcome::Config(..)
            | Outcome::UnknownSource(_)
            | Outcome::PatternSyntax(_)
            | Outcome::PatternTooBig(_)
            | Outcome::PlaceOutside => 2,
            Outcome::ReadFailed(_) => 3,
            Outcome::WriteFailed => 4,
            Outcome::NoMemory => 5,
            Outcome::TooLong(_) | Outcome::TooManyClaims(_) | Outcome::MappedTooLarge => 6,
        }
    }
}

impl From<NoMemory> for Outcome {
    ghost use Rattle.run_outcome.specs.declared.outcome.Outcome.TheVariants.{NoMemory as OutOfMemory};

    ghost from_gives = { λ _ e. e ≡ OutOfMemory };

    fn from(_: NoMemory) -> Outcome {
        Outcome::NoMemory
    }
}
