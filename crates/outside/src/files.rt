//! Files by name, as a program sees them.

ghost use Rattle.std.specs.Prelude.{◌≡◌, ◌≤◌, ◌+◌, ◌++◌, ◌∷◌, [], List, ℕ, Option, length, IfOk, IfSome, IsErrOf, OnErr};
ghost use Rattle.outside.specs.Causes.{Rose};
ghost use Rattle.outside.specs.Held.{Pairs, IsHeld, IsLonger, IsTaken};

use std::alloc::{AllocError, Global};
use thiserror::Error;

/// Why a read returned no bytes.
#[derive(Clone, Copy, Debug, PartialEq, Eq, Hash, Error)]
pub enum FileAnswer {
    /// The file couldn't be read.
    #[error("cannot be read")]
    Failed,
    /// The file has more bytes than the limit.
    #[error("too long")]
    TooLong,
    /// There was not enough memory.
    #[error("out of memory")]
    NoMemory,
}

impl From<AllocError> for FileAnswer {
    ghost use Rattle.std.specs.Prelude.{◌≡◌};
    ghost use Rattle.outside.specs.declared.files.FileAnswer.TheVariants.{NoMemory};

    ghost from_gives = { λ _ e. e ≡ NoMemory };

    fn from(_: AllocError) -> FileAnswer {
        FileAnswer::NoMemory
    }
}

/// Files by name.
pub trait Files {
    /// The names and the bytes of the files, if they are known. A name has the bytes of its first pair,
    /// and no bytes if it has no pair.
    ghost held: { Self → Option Pairs };

    /// How many reads have failed. The count may stop at 2^64 - 1.
    ghost faults: { Self → ℕ };

    /// The name of the last read that failed, if it is known. Empty before any failure.
    ghost last_failed: { Self → Option (List ℕ) };

    /// How many bytes were read, if the contents of the files aren't known. The count may stop at 2^64 -
    /// 1.
    ghost taken: { Self → ℕ };

    /// The names that were requested, in order, whatever the reads returned.
    ghost asked: { Self → List (List ℕ) };

    /// What the successful reads returned, in order: the name of each and its bytes.
    ghost gave: { Self → Pairs };

    /// Returns the bytes of a file, if they are at most `limit`. Reads at most one byte more than the limit.
    ///
    /// `Failed` if the file can't be read: the count of failures rises, or has reached its maximum. `TooLong` if the
    /// file has more bytes than the limit. `NoMemory` if memory runs out.
    fn read(&mut self, alloc: Global, name: &str, limit: u64) -> Result<Vec<u8>, FileAnswer>
        ensures asked { asked self.new ≡ asked self.old ++ name.now ∷ [] }
        ensures gave { IfOk result (λ v.
            gave self.new ≡ gave self.old ++ (name.now, v.items) ∷ []) }
        ensures ungiven { OnErr result (gave self.new ≡ gave self.old) }
        ensures held { held self.new ≡ held self.old }
        ensures later { faults self.old ≤ faults self.new }
        ensures more { taken self.old ≤ taken self.new }
        ensures most { taken self.new ≤ taken self.old + (limit + 1) }

        ensures within { IfOk result (λ v. length v.items ≤ limit) }
        ensures bytes { IfOk result (λ v. IsHeld (held self.old) name.now v.items) }
        ensures taken { IfOk result (λ v.
            IsTaken (held self.old) (length v.items) (taken self.old) (taken self.new)) }

        ensures failed { IsErrOf result FileAnswer.Failed
            → Rose (faults self.old) (faults self.new) }
        ensures uncounted { ¬ IsErrOf result FileAnswer.Failed → faults self.new ≡ faults self.old }
        ensures told { IsErrOf result FileAnswer.Failed
            → IfSome (last_failed self.new) (λ n. n ≡ name.now) }
        ensures untold { ¬ IsErrOf result FileAnswer.Failed
            → last_failed self.new ≡ last_failed self.old }

        ensures too_long { IsErrOf result FileAnswer.TooLong
            → IsLonger (held self.old) name.now limit (taken self.old) (taken self.new) };
}
