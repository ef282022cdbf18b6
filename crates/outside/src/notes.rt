//! Lists that only contracts read. They use no memory, and adding an item does nothing at run time.

ghost use Rattle.std.specs.Prelude.{◌≡◌, ◌++◌, ◌∷◌, [], ℕ, List};
ghost use Rattle.std.specs.Borrow.{ftrue};

use std::marker::{Model, PhantomData};

/// A list of byte strings that only contracts read, such as the requested names.
#[derive(Drop)]
pub struct Notes {
    marker: PhantomData<u8>,
    pub ghost items: { List (List ℕ) },
}

impl Model for Notes {
    ghost also_owns = { λ _. ftrue };
}

impl Notes {
    /// Returns an empty list.
    pub fn new() -> Notes
        ensures { result.items ≡ [] }
    {
        Notes {
            marker: PhantomData,
        }
    }

    /// Adds an item at the end.
    pub fn add(&mut self, _item: &[u8])
        ensures { self.new.items ≡ self.old.items ++ _item.now ∷ [] }
    {}
}
