//! One declaration (DWARF 5, section 7.5.3).

ghost use Rattle.std.specs.Prelude.{◌≡◌};
ghost use Rattle.std.specs.Iterator.{YieldsFirst, item_count};
ghost use Rattle.dwarf_abbrev.specs.Declarations.{specs_from};

use crate::declaration::{Head, spec_from};
use crate::spec::Spec;
use byte_cursor::Cursor;
use std::marker::Model;

/// An abbreviation declaration: the code, the tag and the attribute specifications of the entries that use it. It is
/// an iterator over the attribute specifications, in order.
#[derive(Drop)]
pub struct Entry<'a> {
    pub(crate) head: Head,
    pub(crate) cursor: Cursor<'a>,
}

impl<'a> Model for Entry<'a> {
    ghost use Rattle.dwarf_abbrev.specs.Declarations.{Declaration, specs_from};

    ghost Value = { Declaration };

    ghost view = { λ e.
        record { code = e.head.code; tag = e.head.tag; specs = (specs_from e.cursor).items } };
}

impl<'a> Entry<'a> {
    /// A copy of the declaration with the attribute specifications that remain.
    pub fn fork(&self) -> Entry<'a>
        ensures { result ≡ self.now }
    {
        Entry {
            head: self.head,
            cursor: self.cursor.fork(),
        }
    }

    /// The code that entries use to refer to the declaration.
    pub fn code(&self) -> u64
        ensures { result ≡ self.now.code }
    {
        self.head.code
    }

    /// The tag of the entries, `DW_TAG_*`.
    pub fn tag(&self) -> u64
        ensures { result ≡ self.now.tag }
    {
        self.head.tag
    }
}

impl<'a> Iterator for Entry<'a> {
    type Item = Spec;

    ghost next_gives = { λ s r t.
        YieldsFirst (λ e. e.specs) s r t × (t ≡ record s { specs = t.specs }) };

    ghost remaining = { item_count (λ e. e.specs) };

    #[tactic(auto, using(crate::proofs::Specs::specs_more, crate::proofs::Specs::specs_less, crate::proofs::Specs::specs_done, crate::proofs::Specs::specs_bad))]
    fn next(&mut self) -> Option<Spec> {
        let mut ahead = self.cursor.fork();
        match spec_from(&mut ahead) {
            Ok(Some(spec)) => {
                self.cursor = ahead;
                Some(spec)
            }
            _ => None,
        }
    }
}
