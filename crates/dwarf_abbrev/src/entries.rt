//! The declarations of a table, one after another (DWARF 5, section 7.5.3).

ghost use Rattle.std.specs.Prelude.{◌≡◌};
ghost use Rattle.std.specs.Iterator.{YieldsFirst, item_count};
ghost use Rattle.dwarf_abbrev.specs.Declarations.{IsWhole, declarations_from};

use crate::declaration::{head_from, pass_specs};
use crate::entry::Entry;
use byte_cursor::Cursor;
use std::marker::Model;

/// The declarations of a table that `next` has not returned yet, in order.
#[derive(Drop)]
pub struct Entries<'a> {
    pub(crate) cursor: Cursor<'a>,
}

impl<'a> Model for Entries<'a> {
    ghost use Rattle.std.specs.Prelude.{List};
    ghost use Rattle.dwarf_abbrev.specs.Declarations.{Declaration, IsWhole, declarations_from};

    ghost Value = { List Declaration };

    ghost view = { λ e. (declarations_from e.cursor).items };

    ghost invariant = { λ e. IsWhole e.cursor };
}

impl<'a> Iterator for Entries<'a> {
    type Item = Entry<'a>;

    ghost next_gives = { YieldsFirst (λ e. e) };

    ghost remaining = { item_count (λ e. e) };

    #[tactic(auto, using(crate::proofs::Tables::declarations_more, crate::proofs::Tables::declarations_cut, crate::proofs::Tables::declarations_done, crate::proofs::Tables::declarations_bad, crate::proofs::Tables::rest_is_whole))]
    fn next(&mut self) -> Option<Entry<'a>> {
        let mut ahead = self.cursor.fork();
        let Ok(Some(head)) = head_from(&mut ahead) else {
            return None;
        };
        let entry = Entry {
            head,
            cursor: ahead.fork(),
        };
        if pass_specs(&mut ahead).is_err() {
            return None;
        }
        self.cursor = ahead;
        Some(entry)
    }
}
