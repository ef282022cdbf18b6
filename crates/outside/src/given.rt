//! The bytes that reads returned. Only contracts read them.

ghost use Rattle.std.specs.Prelude.{◌≡◌, ◌++◌, ◌∷◌, []};

use crate::notes::Notes;
use std::marker::Model;

// The successful reads in order, each as its name and the bytes that it returned.
#[derive(Drop)]
pub(crate) struct Given {
    names: Notes,
    bytes: Notes,
}

impl Model for Given {
    ghost use Rattle.std.specs.Prelude.{◌≡◌, length};
    ghost use Rattle.std.specs.List.{zip};
    ghost use Rattle.outside.specs.Held.{Pairs};

    ghost Value = { Pairs };

    ghost view = { λ g. zip g.names.items g.bytes.items };

    ghost invariant = { λ g. length g.names.items ≡ length g.bytes.items };
}

impl Given {
    // Returns an empty list of reads.
    pub(crate) fn new() -> Given
        ensures { result ≡ [] }
    {
        Given {
            names: Notes::new(),
            bytes: Notes::new(),
        }
    }

    // Adds a read at the end.
    pub(crate) fn add(&mut self, name: &str, bytes: &[u8])
        ensures { self.new ≡ self.old ++ (name.now, bytes.now) ∷ [] }
    {
        self.names.add(name.as_bytes());
        self.bytes.add(bytes);
    }
}
