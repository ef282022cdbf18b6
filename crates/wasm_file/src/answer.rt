//! Why no list of functions is returned.

ghost use Rattle.std.specs.Prelude.{◌≡◌};
ghost use Rattle.wasm_file.specs.declared.answer.WasmAnswer.TheVariants.{Bad, NoMemory as OutOfMemory};

use size_core::{BadFile, NoMemory};
use std::alloc::AllocFailed;
use thiserror::Error;

/// Why no list of functions is returned.
#[derive(Clone, Copy, Debug, PartialEq, Eq, Error)]
pub enum WasmAnswer {
    /// An import or a body can't be read.
    #[error("{0}")]
    Bad(BadFile),
    /// There was not enough memory.
    #[error("out of memory")]
    NoMemory,
}

impl From<NoMemory> for WasmAnswer {
    ghost from_gives = { λ _ e. e ≡ OutOfMemory };

    fn from(_: NoMemory) -> WasmAnswer {
        WasmAnswer::NoMemory
    }
}

impl From<BadFile> for WasmAnswer {
    ghost from_gives = { λ bad e. e ≡ Bad bad };

    fn from(bad: BadFile) -> WasmAnswer {
        WasmAnswer::Bad(bad)
    }
}

impl<T: Drop> From<AllocFailed<T>> for WasmAnswer {
    ghost from_gives = { λ _ e. e ≡ OutOfMemory };

    fn from(_: AllocFailed<T>) -> WasmAnswer {
        WasmAnswer::NoMemory
    }
}
