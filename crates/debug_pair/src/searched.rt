//! The notes that were searched last. Many sections and segments may have notes in the same bytes.

ghost use Rattle.std.specs.Prelude.{◌∷◌, [], List, ℕ};
ghost use Rattle.std.specs.Option.{option_copied};
ghost use Rattle.debug_pair.specs.Areas.{Finds, HasNoId, IsArea};

use crate::area::build_id;
use elf_file::ElfFile;

/// The area of notes that was searched last. It has no build ID.
#[derive(Clone, Copy)]
pub struct Searched {
    /// Its file offset.
    pub offset: u64,
    /// Its length in bytes.
    pub len: u64,
}

impl Searched {
    /// Returns the empty area, before any area is searched.
    #[tactic(auto, using(crate::proofs::AreaLemmas::none_in_nothing))]
    pub fn nothing() -> Searched
        ensures { (file : List ℕ) → HasNoId file result }
    {
        Searched { offset: 0, len: 0 }
    }

    /// Returns the descriptor of the first build ID note of an area, which begins at this file offset. The area is
    /// searched only if it isn't the beginning of the area that was searched last.
    #[tactic(auto, using(crate::proofs::AreaLemmas::none_in_beginning, crate::proofs::AreaLemmas::none_in_area))]
    pub fn find<'a>(&mut self, file: &ElfFile<'a>, offset: u64, area: &'a [u8]) -> Option<&'a [u8]>
        requires last { HasNoId file.now self.old }
        requires area { IsArea file.now offset area.now }
        ensures { Finds file.now (area.now ∷ []) (option_copied result) self.new }
    {
        let len = area.len() as u64;
        if offset == self.offset && len <= self.len {
            return None;
        }
        *self = Searched { offset, len };
        build_id(area, file.encoding().order)
    }
}
