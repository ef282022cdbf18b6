//! The notes of an area, as an iterator.

ghost use Rattle.std.specs.Prelude.{◌≡◌};
ghost use Rattle.std.specs.Iterator.{YieldsFirstBy, item_count};
ghost use Rattle.debug_pair.specs.Notes.{notes};
ghost use Rattle.debug_pair.specs.Shown.{note_shown};

use crate::note::{Note, first_note};
use byte_cursor::Order;
use std::marker::Model;

/// The notes of an area that `next` has not returned yet, in order.
#[derive(Drop)]
pub struct Notes<'a> {
    pub(crate) rest: &'a [u8],
    pub(crate) order: Order,
}

impl<'a> Model for Notes<'a> {
    ghost use Rattle.std.specs.Prelude.{List};
    ghost use Rattle.debug_pair.specs.Notes.{NoteRecord, notes};

    ghost Value = { List NoteRecord };

    ghost view = { λ n. notes n.order n.rest.now };
}

impl<'a> Iterator for Notes<'a> {
    type Item = Note<'a>;

    ghost next_gives = { YieldsFirstBy note_shown (λ s. s) };

    ghost remaining = { item_count (λ s. s) };

    /// Returns the next note. `None` from the first note on that doesn't fit.
    #[tactic(auto, using(crate::proofs::NoteLemmas::none_left, crate::proofs::NoteLemmas::one_more))]
    fn next(&mut self) -> Option<Note<'a>> {
        let (note, rest) = first_note(self.rest, self.order)?;
        self.rest = rest;
        Some(note)
    }
}
