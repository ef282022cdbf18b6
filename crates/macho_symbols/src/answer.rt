//! Why no spans are returned.

ghost use Rattle.std.specs.Prelude.{◌≡◌};
ghost use Rattle.macho_symbols.specs.declared.answer.SpanAnswer.TheVariants.{Bad, NoMemory as OutOfMemory};

use size_core::{BadFile, NoMemory};
use thiserror::Error;

/// Why no spans are returned.
#[derive(Clone, Copy, Debug, PartialEq, Eq, Error)]
pub enum SpanAnswer {
    /// The symbol table or a symbol has a fault.
    #[error("{0}")]
    Bad(BadFile),
    /// There was not enough memory.
    #[error("out of memory")]
    NoMemory,
}

impl From<NoMemory> for SpanAnswer {
    ghost from_gives = { λ _ e. e ≡ OutOfMemory };

    fn from(_: NoMemory) -> SpanAnswer {
        SpanAnswer::NoMemory
    }
}

impl From<BadFile> for SpanAnswer {
    ghost from_gives = { λ bad e. e ≡ Bad bad };

    fn from(bad: BadFile) -> SpanAnswer {
        SpanAnswer::Bad(bad)
    }
}
