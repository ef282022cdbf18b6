//! Readers that note their turns. A turn is one call of `read` on an open file.

ghost use Rattle.std.specs.Prelude.{◌≡◌, ◌++◌, ◌∷◌, [], ℕ, List, IfOk, OnOk, OnErr, take};
ghost use Rattle.std.specs.Io.{ReadsAtMost};
ghost use Rattle.std.specs.Io.KnownBytes.{ReadConsumes};
ghost use Rattle.outside.specs.Causes.{raised};

use crate::notes::Notes;
use std::io;
use std::io::Read;
use std::marker::Model;

/// The turns of all readings in order, each as the bytes that it took. Only contracts read them, and only a
/// read of a `TurnReader` adds one.
#[derive(Drop)]
pub struct Turns {
    bytes: Notes,
}

impl Model for Turns {
    ghost Value = { List (List ℕ) };

    ghost view = { λ t. t.bytes.items };
}

impl Turns {
    /// Returns an empty list of turns.
    pub fn new() -> Turns
        ensures { result ≡ [] }
    {
        Turns {
            bytes: Notes::new(),
        }
    }
}

/// A reader that notes its turns. Each call of `read` is one turn.
#[derive(Drop)]
pub struct TurnReader<F: Read + Drop> {
    file: F,
    turns: Turns,
    failures: u64,
}

impl<F: Read + Drop> Model for TurnReader<F> {
    ghost use Rattle.outside.specs.Turns.{SeenReader};

    ghost Value = { SeenReader F };

    ghost view = { λ r. record { file = r.file; turns = r.turns; failures = r.failures } };
}

impl<F: Read + Drop> TurnReader<F> {
    /// Returns a reader that notes its turns after these. No turn has failed yet.
    pub fn new(file: F, turns: Turns) -> TurnReader<F>
        ensures { result ≡ record { file = file; turns = turns; failures = 0 } }
    {
        TurnReader {
            file,
            turns,
            failures: 0,
        }
    }

    /// Returns the inner reader, and all turns, including those that were passed to `new`.
    pub fn into_parts(self) -> (F, Turns)
        ensures { result ≡ (self.file, self.turns) }
    {
        (self.file, self.turns)
    }

    /// Returns how many turns failed. The count stops at 2^64 - 1.
    pub fn failures(&self) -> u64
        ensures { result ≡ self.now.failures }
    {
        self.failures
    }
}

impl<F: Read + Drop> Read for TurnReader<F> {
    ghost remaining = { λ r. F.remaining r.file };

    /// Reads once, and notes the turn. A failed turn took no bytes, and is counted.
    fn read(&mut self, buf: &mut [u8]) -> io::Result<usize>
        ensures bound { ReadsAtMost result buf.new }
        ensures bytes { ReadConsumes (F.remaining self.old.file) (F.remaining self.new.file)
            result buf.new }
        ensures turn { IfOk result (λ n. self.new.turns ≡ self.old.turns ++ take n buf.new ∷ []) }
        ensures turn_of_none { OnErr result (self.new.turns ≡ self.old.turns ++ [] ∷ []) }
        ensures failed { OnErr result (self.new.failures ≡ raised self.old.failures) }
        ensures unfailed { OnOk result (self.new.failures ≡ self.old.failures) }
    {
        let outcome = self.file.read(buf);
        match &outcome {
            Ok(count) => self.turns.bytes.add(&buf[..*count]),
            Err(_) => {
                self.turns.bytes.add(&[]);
                self.failures = self.failures.saturating_add(1);
            }
        }
        outcome
    }
}
