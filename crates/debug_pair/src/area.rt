//! Areas of notes.

ghost use Rattle.std.specs.Prelude.{◌≡◌, ◌∷◌, []};
ghost use Rattle.std.specs.Option.{option_copied};
ghost use Rattle.debug_pair.specs.Identities.{build_id};
ghost use Rattle.debug_pair.specs.Notes.{notes};

use crate::sequence::Notes;
use byte_cursor::Order;

/// Returns the notes of an area: the bytes of a section of type SHT_NOTE or of a segment of type PT_NOTE
/// (ELF gABI, Note Section). The iterator ends at the first note that doesn't fit into the area.
pub fn notes<'a>(area: &'a [u8], order: Order) -> Notes<'a>
    ensures { result ≡ notes order area.now }
{
    Notes { rest: area, order }
}

/// Returns the descriptor of the first build ID note of an area. `None` if it has no such note.
#[tactic(auto, using(crate::proofs::IdentityLemmas::in_area, crate::proofs::IdentityLemmas::found_here, crate::proofs::IdentityLemmas::found_later, crate::proofs::IdentityLemmas::found_none))]
pub fn build_id<'a>(area: &'a [u8], order: Order) -> Option<&'a [u8]>
    ensures { option_copied result ≡ build_id order (area.now ∷ []) }
{
    for note in notes(area, order) {
        if note.is_build_id() {
            return Some(note.content);
        }
    }
    None
}
