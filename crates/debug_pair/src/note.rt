//! Notes.

ghost use Rattle.std.specs.Prelude.{◌≡◌, ◌<◌, ◌^◌, true, false, MatchOption};
ghost use Rattle.debug_pair.specs.Notes.{after_note, has_note, note_of, padded_len};
ghost use Rattle.debug_pair.specs.Identities.{is_build_id};
ghost use Rattle.debug_pair.specs.Shown.{note_shown};

use crate::constants::NT_GNU_BUILD_ID;
use byte_cursor::{Order, u32_at};

/// A note (ELF gABI, Note Section).
#[derive(Clone, Copy, Debug)]
pub struct Note<'a> {
    /// The name of its owner, with the terminating zero byte.
    pub name: &'a [u8],
    /// Its type, which the owner defines.
    pub kind: u32,
    /// Its descriptor.
    pub content: &'a [u8],
}

impl<'a> Note<'a> {
    /// Returns whether it is a build ID note with a descriptor that isn't empty.
    #[tactic(auto, unfolding(crate::specs::Identities::is_build_id))]
    pub(crate) fn is_build_id(&self) -> bool
        ensures { result ≡ is_build_id (note_shown self.now) }
    {
        self.name == b"GNU\0".as_slice() && self.kind == NT_GNU_BUILD_ID && !self.content.is_empty()
    }
}

/// Returns a length in bytes, rounded up to a multiple of four.
fn padded_len(len: u32) -> u64
    ensures { result ≡ padded_len len }
{
    (u64::from(len) + 3) / 4 * 4
}

/// Returns the note at the start of an area, and the bytes after it. `None` if no note fits.
#[tactic(auto, unfolding(crate::specs::Notes::has_note, crate::specs::Notes::note_of, crate::specs::Notes::after_note))]
pub fn first_note<'a>(area: &'a [u8], order: Order) -> Option<(Note<'a>, &'a [u8])>
    ensures { MatchOption result (has_note order area.now ≡ false)
        (λ x. (has_note order area.now ≡ true) × (note_shown x.0 ≡ note_of order area.now)
        × (x.1.now ≡ after_note order area.now)) }
{
    if area.len() < 12 {
        return None;
    }
    let name_len = u32_at(area, 0, order);
    let content_len = u32_at(area, 4, order);
    let place = 12 + padded_len(name_len);
    let end = place + u64::from(content_len);
    let len = area.len() as u64;
    if len < end {
        return None;
    }
    let next = len.min(place + padded_len(content_len));
    let note = Note {
        name: &area[12..12 + name_len as usize],
        kind: u32_at(area, 8, order),
        content: &area[place as usize..end as usize],
    };
    Some((note, &area[next as usize..]))
}
