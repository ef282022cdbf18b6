//! Tables of abbreviation declarations (DWARF 5, section 7.5.3).

ghost use Rattle.std.specs.Prelude.{◌≡◌, ◌≤◌, OnOk};
ghost use Rattle.std.specs.Option.{option_map};
ghost use Rattle.dwarf_abbrev.specs.Listing.{Reaches, left};
ghost use Rattle.dwarf_abbrev.specs.Declarations.{IsWhole, declarations_from, declared, table_at};

use crate::declaration::{head_from, pass_specs};
use crate::entries::Entries;
use crate::entry::Entry;
use crate::reads::inside;
use byte_cursor::Cursor;
use size_core::{BadFile, Fault};
use std::marker::Model;

/// Skips the declarations of a table.
#[tactic(auto, using(crate::proofs::Tables::declarations_more, crate::proofs::Tables::declarations_cut, crate::proofs::Tables::declarations_done, crate::proofs::Tables::declarations_bad, crate::proofs::Tables::declaration_less))]
fn pass_declarations(cursor: &mut Cursor) -> Result<(), BadFile>
    ensures { Reaches result cursor.new (declarations_from cursor.old) }
{
    while let Some(_) = head_from(cursor)? {
        pass_specs(cursor)?;
    }
    Ok(())
}

/// A table of declarations. It was checked when it was made, so none of them has a fault.
#[derive(Drop)]
pub struct Abbrevs<'a> {
    cursor: Cursor<'a>,
    len: u64,
}

impl<'a> Model for Abbrevs<'a> {
    ghost use Rattle.byte_cursor.specs.Window.{place_of};
    ghost use Rattle.dwarf_abbrev.specs.Declarations.{IsWhole, Table, declarations_from};

    ghost Value = { Table };

    ghost view = { λ a.
        record {
          place = place_of a.cursor;
          len = a.len;
          declarations = (declarations_from a.cursor).items;
        } };

    ghost invariant = { λ a. IsWhole a.cursor };
}

impl<'a> Abbrevs<'a> {
    /// The table at an offset of `.debug_abbrev`. The section begins at the position of its cursor. The table ends with
    /// a code of 0 or at the end of the section.
    ///
    /// OffsetOutside at the file offset `place` if `offset` isn't below the section's length. Truncated or
    /// BadLeb at the file offset of a number in the table that can't be read.
    #[tactic(auto, unfolding(crate::specs::Declarations::table_at), using(crate::proofs::Tables::is_whole))]
    pub fn at(section: &Cursor<'a>, offset: u64, place: u64) -> Result<Abbrevs<'a>, BadFile>
        ensures { result ≡ table_at section.now offset place }
    {
        let Some(cursor) = inside(section, offset) else {
            return Err(BadFile {
                fault: Fault::OffsetOutside,
                offset: place,
            });
        };
        let mut end = cursor.fork();
        pass_declarations(&mut end)?;
        let len = cursor.left() - end.left();
        Ok(Abbrevs { cursor, len })
    }

    /// The declarations, in order.
    pub fn entries(&self) -> Entries<'a>
        ensures { result ≡ self.now.declarations }
    {
        Entries {
            cursor: self.cursor.fork(),
        }
    }

    /// The first declaration with this code. `None` if the table has none.
    pub fn entry(&self, code: u64) -> Option<Entry<'a>>
        ensures { result ≡ declared self.now.declarations code }
    {
        for entry in self.entries() {
            if entry.code() == code {
                return Some(entry);
            }
        }
        None
    }

    /// The file offset of the table's first byte.
    pub fn table_place(&self) -> u64
        ensures { result ≡ self.now.place }
    {
        self.cursor.place()
    }

    /// The table's length in bytes, with the final code 0 if there is one.
    pub fn table_len(&self) -> u64
        ensures { result ≡ self.now.len }
    {
        self.len
    }
}
