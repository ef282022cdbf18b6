//! The directory table and the file table of a line program.

ghost use Rattle.std.specs.Prelude.{◌≡◌, IfOk, option_map, slice_get};
ghost use Rattle.dwarf_abbrev.specs.Reads.{Reads};
ghost use Rattle.dwarf_line_header.specs.Header.{table_from};
ghost use Rattle.dwarf_line_header.specs.Listed.{entries};
ghost use Rattle.dwarf_line_header.specs.Tables.{shown};

use crate::entry::{FileEntry, TableKind};
use crate::formatted_table::FormattedTable;
use crate::plain_table::PlainTable;
use byte_cursor::Cursor;
use dwarf_abbrev::UnitShape;
use dwarf_units::Sections;
use size_core::{BadFile, NoMemory};
use std::alloc::Global;

/// A directory table or a file table.
#[derive(Drop)]
pub enum Table<'a> {
    /// A table of DWARF 2 to 4.
    Plain(PlainTable<'a>),
    /// A table of DWARF 5.
    Formatted(FormattedTable<'a>),
    /// The entries, in memory.
    Kept(Vec<FileEntry<'a>>),
    /// The table of a program that isn't supported.
    Empty,
}

impl<'a> Table<'a> {
    /// Reads a table, in the format of the version.
    #[tactic(auto, unfolding(crate::specs::Header::table_from))]
    pub fn read(
        sections: &Sections<'a>,
        shape: &UnitShape,
        kind: TableKind,
        cursor: &mut Cursor<'a>,
    ) -> Result<Table<'a>, BadFile>
        ensures { Reads entries result cursor.new
            (table_from sections.now shape.now kind cursor.old) }
    {
        if shape.version < 5 {
            Ok(Table::Plain(PlainTable::read(kind, cursor)?))
        } else {
            Ok(Table::Formatted(FormattedTable::read(sections, shape, cursor)?))
        }
    }

    /// The entry at index `k`, counted from 0. `None` if the table is shorter.
    pub fn get(&self, k: u64) -> Option<FileEntry<'a>>
        ensures { option_map shown result ≡ slice_get (entries self.now) k }
    {
        match self {
            Table::Plain(table) => table.get(k),
            Table::Formatted(table) => table.get(k),
            Table::Kept(entries) => entries.get(usize::try_from(k).ok()?).copied(),
            Table::Empty => None,
        }
    }

    /// A copy of the table with its entries in memory.
    pub fn kept(&self, alloc: Global) -> Result<Table<'a>, NoMemory>
        ensures { IfOk result (λ t. entries t ≡ entries self.now) }
    {
        Ok(match self {
            Table::Plain(table) => Table::Kept(table.all(alloc)?),
            Table::Formatted(table) => Table::Kept(table.all(alloc)?),
            Table::Kept(entries) => {
                let mut copy = Vec::new(alloc);
                copy.extend_from_slice(entries)?;
                Table::Kept(copy)
            }
            Table::Empty => Table::Empty,
        })
    }
}
