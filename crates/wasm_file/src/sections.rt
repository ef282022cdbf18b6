//! The sections of a module, as an iterator.

ghost use Rattle.std.specs.Prelude.{◌≡◌, [], ◌∷◌, MatchOption};
ghost use Rattle.std.specs.Iterator.{YieldsFirstBy, item_count};
ghost use Rattle.wasm_file.specs.Sections.{AreThere, are_there, to_come};
ghost use Rattle.wasm_file.specs.Shown.{section};

use crate::section::{WasmSection, read_section};
use byte_cursor::Cursor;
use size_core::BadFile;
use std::marker::Model;

/// Checks that each section can be read, from the cursor's position on.
#[tactic(auto, using(crate::proofs::SectionLemmas::fault_end, crate::proofs::SectionLemmas::fault_here, crate::proofs::SectionLemmas::fault_later, crate::proofs::SectionLemmas::found_forward))]
pub fn check_sections(cursor: Cursor) -> Result<(), BadFile>
    requires { cursor.base ≡ 0 }
    ensures { result ≡ are_there cursor.entry }
{
    let mut rest = cursor;
    while rest.left() > 0 {
        let _ = read_section(&mut rest)?;
    }
    Ok(())
}

/// Reads the next section. `None` if none is left.
#[tactic(auto, using(crate::proofs::SectionLemmas::section_end, crate::proofs::SectionLemmas::section_next, crate::proofs::SectionLemmas::fault_here, crate::proofs::SectionLemmas::still_there))]
fn next_section<'a>(cursor: &mut Cursor<'a>) -> Option<WasmSection<'a>>
    requires { AreThere cursor.old }
    ensures there { AreThere cursor.new }
    ensures item { MatchOption result
        ((to_come cursor.old ≡ []) × (to_come cursor.new ≡ []))
        (λ s. to_come cursor.old ≡ section s ∷ to_come cursor.new) }
{
    if cursor.left() == 0 {
        return None;
    }
    match read_section(cursor) {
        Ok(section) => Some(section),
        Err(_) => None,
    }
}

/// The sections of a module that `next` has not returned yet, in file order. They borrow only the bytes of
/// the file.
#[derive(Drop)]
pub struct WasmSections<'a> {
    pub(crate) cursor: Cursor<'a>,
}

impl<'a> Model for WasmSections<'a> {
    ghost use Rattle.std.specs.Prelude.{List};
    ghost use Rattle.wasm_file.specs.Sections.{SectionRecord, AreThere, to_come};

    ghost Value = { List SectionRecord };

    ghost view = { λ s. to_come s.cursor };

    ghost invariant = { λ s. AreThere s.cursor };
}

impl<'a> Iterator for WasmSections<'a> {
    type Item = WasmSection<'a>;

    ghost next_gives = { YieldsFirstBy section (λ s. s) };

    ghost remaining = { item_count (λ s. s) };

    /// Returns the next section, or `None` after the last.
    fn next(&mut self) -> Option<WasmSection<'a>> {
        next_section(&mut self.cursor)
    }
}
