//! The tables of DWARF 2 to 4: entries up to one with an empty name (DWARF 4, section 6.2.4).

ghost use Rattle.std.specs.Prelude.{◌≡◌, ◌==◌, IfOk, length, is_ok, map, option_map, slice_get, true};
ghost use Rattle.dwarf_line_header.specs.PlainTables.{numbers_from, plain_entry, plain_table};
ghost use Rattle.dwarf_line_header.specs.Tables.{items_of, passed_over, shown};
ghost use Rattle.dwarf_abbrev.specs.Reads.{Reads};

use crate::entry::{FileEntry, TableKind};
use byte_cursor::Cursor;
use size_core::{BadFile, Fault, NoMemory};
use std::alloc::Global;
use std::marker::Model;

/// Reads the directory number of a file, and skips the file's time and length.
#[tactic(auto, unfolding(crate::specs::PlainTables::numbers_from, dwarf_abbrev::specs::Reads::uleb_from))]
fn directory_number(kind: TableKind, name: &[u8], cursor: &mut Cursor) -> Result<u64, BadFile>
    ensures { Reads (λ n. n) result cursor.new
        (numbers_from kind (length name.now == 0) cursor.old) }
{
    if name.is_empty() {
        return Ok(0);
    }
    match kind {
        TableKind::Directories => Ok(0),
        TableKind::Files => {
            let directory = cursor.uleb()?;
            let _time = cursor.uleb()?;
            let _len = cursor.uleb()?;
            Ok(directory)
        }
    }
}

/// Reads an entry.
#[tactic(auto, unfolding(crate::specs::PlainTables::plain_entry, dwarf_abbrev::specs::Reads::text_from))]
fn entry<'a>(kind: TableKind, cursor: &mut Cursor<'a>) -> Result<FileEntry<'a>, BadFile>
    ensures { Reads shown result cursor.new (plain_entry kind cursor.old) }
{
    let name = cursor.cstr()?;
    let directory = directory_number(kind, name, cursor)?;
    Ok(FileEntry { name, directory })
}

/// Skips the entries of a table, and the empty entry at its end.
#[tactic(auto, using(crate::proofs::PlainLemmas::pass_bad, crate::proofs::PlainLemmas::pass_last, crate::proofs::PlainLemmas::pass_out, crate::proofs::PlainLemmas::pass_more))]
fn pass_entries(kind: TableKind, cursor: &mut Cursor) -> Result<(), BadFile>
    ensures { Reads (λ u. u) result cursor.new (passed_over (plain_table kind cursor.old)) }
{
    for i in 0..cursor.left() {
        let entry = entry(kind, cursor)?;
        if entry.name.is_empty() {
            return Ok(());
        }
    }
    Err(BadFile {
        fault: Fault::Truncated,
        offset: cursor.place(),
    })
}

/// A table of DWARF 2 to 4. Contracts see it as the list of its entries.
#[derive(Drop)]
pub struct PlainTable<'a> {
    kind: TableKind,
    cursor: Cursor<'a>,
}

impl<'a> Model for PlainTable<'a> {
    ghost use Rattle.std.specs.Prelude.{◌≡◌, List, is_ok, true};
    ghost use Rattle.dwarf_line_header.specs.PlainTables.{plain_table};
    ghost use Rattle.dwarf_line_header.specs.Tables.{Entry, items_of};

    ghost Value = { List Entry };

    ghost view = { λ t. items_of (plain_table t.kind t.cursor) };

    ghost invariant = { λ t. is_ok (plain_table t.kind t.cursor) ≡ true };
}

impl<'a> PlainTable<'a> {
    /// Reads a table. The fault is that of the first entry that can't be read, or Truncated if no entry with an empty
    /// name ends the table.
    #[tactic(auto, using(crate::proofs::TableLemmas::passed_is, crate::proofs::TableLemmas::passed_is_ok, crate::proofs::TableLemmas::passed_is_not))]
    pub fn read(kind: TableKind, cursor: &mut Cursor<'a>) -> Result<PlainTable<'a>, BadFile>
        ensures { Reads (λ t. t) result cursor.new (plain_table kind cursor.old) }
    {
        let table = cursor.fork();
        pass_entries(kind, cursor)?;
        Ok(PlainTable {
            kind,
            cursor: table,
        })
    }

    /// The entry at index `k`, counted from 0. `None` if the table is shorter.
    #[tactic(auto, using(crate::proofs::PlainLemmas::items_bad, crate::proofs::PlainLemmas::items_last, crate::proofs::PlainLemmas::items_out))]
    pub fn get(&self, k: u64) -> Option<FileEntry<'a>>
        ensures { option_map shown result ≡ slice_get self.now k }
    {
        let mut cursor = self.cursor.fork();
        for i in 0..cursor.left() {
            let Ok(entry) = entry(self.kind, &mut cursor) else {
                return None;
            };
            if entry.name.is_empty() {
                return None;
            }
            if i == k {
                return Some(entry);
            }
        }
        None
    }

    /// All entries, in order.
    pub fn all(&self, alloc: Global) -> Result<Vec<FileEntry<'a>>, NoMemory>
        ensures { IfOk result (λ v. map shown v.items ≡ self.now) }
    {
        let mut all = Vec::new(alloc);
        let mut cursor = self.cursor.fork();
        for i in 0..cursor.left() {
            let Ok(entry) = entry(self.kind, &mut cursor) else {
                return Ok(all);
            };
            if entry.name.is_empty() {
                return Ok(all);
            }
            all.push(entry)?;
        }
        Ok(all)
    }
}
