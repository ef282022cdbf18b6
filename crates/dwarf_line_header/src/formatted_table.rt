//! The tables of DWARF 5: first the content and the form of each value, and then the entries (DWARF 5, section
//! 6.2.4.1).

ghost use Rattle.std.specs.Prelude.{◌≡◌, IfOk, is_ok, map, option_map, slice_get, true, if◌then◌else◌};
ghost use Rattle.dwarf_abbrev.specs.Values.{shown as value_shown};
ghost use Rattle.dwarf_line_header.specs.Gathered.{held_first, values_shown};
ghost use Rattle.dwarf_abbrev.specs.Reads.{Reads};
ghost use Rattle.dwarf_line_header.specs.FormattedTables.{directory_in, entry_values_from, format_from, formatted_entry, formatted_table, pair_from};
ghost use Rattle.dwarf_line_header.specs.Tables.{items_of, many_from, passed_over, shown};

use crate::constants::{DW_LNCT_DIRECTORY_INDEX, DW_LNCT_PATH};
use crate::entry::FileEntry;
use crate::names::{copy_sections, name_of};
use byte_cursor::Cursor;
use dwarf_abbrev::{Content, DW_FORM_IMPLICIT_CONST, Spec, UnitShape, Value, read_form};
use dwarf_units::Sections;
use size_core::{BadFile, Fault, NoMemory};
use std::alloc::Global;
use std::marker::Model;

/// Reads a pair: the content type of a value, as an attribute number, and the value's form. UnknownForm at the pair
/// for `DW_FORM_implicit_const`, since a pair has no constant.
#[tactic(auto, unfolding(crate::specs::FormattedTables::pair_from, dwarf_abbrev::specs::Reads::uleb_from))]
fn pair(cursor: &mut Cursor) -> Result<Spec, BadFile>
    ensures { Reads (λ p. p) result cursor.new (pair_from cursor.old) }
{
    let place = cursor.place();
    let attribute = cursor.uleb()?;
    let form = cursor.uleb()?;
    if form == DW_FORM_IMPLICIT_CONST {
        return Err(BadFile {
            fault: Fault::UnknownForm,
            offset: place,
        });
    }
    Ok(Spec {
        attribute,
        form,
        constant: 0,
    })
}

/// Skips `count` pairs.
#[tactic(auto, using(crate::proofs::TableLemmas::pass_bad, crate::proofs::TableLemmas::pass_end, crate::proofs::TableLemmas::pass_more))]
fn pass_pairs(count: u8, cursor: &mut Cursor) -> Result<(), BadFile>
    ensures { Reads (λ u. u) result cursor.new
        (passed_over (many_from pair_from count cursor.old)) }
{
    for i in 0..count {
        let _pair = pair(cursor)?;
    }
    Ok(())
}

/// The values of an entry's path and directory, as far as they are known.
#[derive(Clone, Copy)]
struct EntryValues<'a> {
    path: Option<Value<'a>>,
    directory: Option<Value<'a>>,
}

/// The first value of a content type: the one that is known, or else `value`, if it has this content type.
fn first_of_content<'a>(
    held: Option<Value<'a>>,
    is_content: bool,
    value: Value<'a>,
) -> Option<Value<'a>>
    ensures { option_map value_shown result
        ≡ held_first (option_map value_shown held.entry)
        (if is_content then Some (value_shown value.entry) else None) }
{
    match held {
        Some(held) => Some(held),
        None if is_content => Some(value),
        None => None,
    }
}

/// Reads the values of an entry, one for each pair.
#[tactic(auto, using(crate::proofs::GatheredLemmas::gathered_more, crate::proofs::GatheredLemmas::gathered_bad, crate::proofs::GatheredLemmas::gathered_end, crate::proofs::GatheredLemmas::pairs_good, crate::proofs::GatheredLemmas::pairs_stop, crate::proofs::GatheredLemmas::gathered_is))]
fn entry_values<'a>(
    shape: &UnitShape,
    pairs: &Cursor,
    count: u8,
    cursor: &mut Cursor<'a>,
) -> Result<EntryValues<'a>, BadFile>
    requires { is_ok (many_from pair_from count pairs.now) ≡ true }
    ensures { Reads values_shown result cursor.new
        (entry_values_from shape.now (items_of (many_from pair_from count pairs.now)) cursor.old) }
{
    let mut rest = pairs.fork();
    let mut path = None;
    let mut directory = None;
    for i in 0..count {
        let pair = pair(&mut rest)?;
        let value = read_form(cursor, &pair, shape)?;
        path = first_of_content(path, pair.attribute == DW_LNCT_PATH, value);
        directory = first_of_content(directory, pair.attribute == DW_LNCT_DIRECTORY_INDEX, value);
    }
    Ok(EntryValues { path, directory })
}

/// What is needed to read the entries of a table: the sections with its strings, the shape of its values, and its
/// pairs.
#[derive(Drop)]
struct Format<'a> {
    sections: Sections<'a>,
    shape: UnitShape,
    pairs: Cursor<'a>,
    count: u8,
}

impl<'a> Model for Format<'a> {
    ghost use Rattle.std.specs.Prelude.{◌≡◌, is_ok, true};
    ghost use Rattle.dwarf_line_header.specs.FormattedTables.{Format, pair_from};
    ghost use Rattle.dwarf_line_header.specs.Tables.{items_of, many_from};

    ghost Value = { Format };

    ghost view = { λ f.
        record {
          sections = f.sections;
          shape = f.shape;
          pairs = items_of (many_from pair_from f.count f.pairs);
        } };

    ghost invariant = { λ f. is_ok (many_from pair_from f.count f.pairs) ≡ true };
}

/// The directory number that a value gives. It is 0 if the value is absent or no constant.
fn directory_in(value: Option<Value>) -> u64
    ensures { result ≡ directory_in (option_map value_shown value.entry) }
{
    match value {
        Some(
            Value {
                content: Content::Constant(directory),
                ..
            },
        ) => directory,
        _ => 0,
    }
}

impl<'a> Format<'a> {
    /// Reads the pair count and the pairs.
    #[tactic(auto, unfolding(crate::specs::FormattedTables::format_from, dwarf_abbrev::specs::Reads::num_from), using(crate::proofs::TableLemmas::passed_is, crate::proofs::TableLemmas::passed_is_ok, crate::proofs::TableLemmas::passed_is_not))]
    fn read(
        sections: &Sections<'a>,
        shape: &UnitShape,
        cursor: &mut Cursor<'a>,
    ) -> Result<Format<'a>, BadFile>
        ensures { Reads (λ f. f) result cursor.new (format_from sections.now shape.now cursor.old) }
    {
        let count = cursor.u8()?;
        let pairs = cursor.fork();
        pass_pairs(count, cursor)?;
        Ok(Format {
            sections: copy_sections(sections),
            shape: *shape,
            pairs,
            count,
        })
    }

    /// Reads an entry.
    #[tactic(auto, unfolding(crate::specs::FormattedTables::formatted_entry))]
    fn entry(&self, cursor: &mut Cursor<'a>) -> Result<FileEntry<'a>, BadFile>
        ensures { Reads shown result cursor.new (formatted_entry self.now cursor.old) }
    {
        let values = entry_values(&self.shape, &self.pairs, self.count, cursor)?;
        let name = name_of(&self.sections, &self.shape, values.path)?;
        Ok(FileEntry {
            name,
            directory: directory_in(values.directory),
        })
    }
}

/// Skips `count` entries.
#[tactic(auto, using(crate::proofs::TableLemmas::pass_bad, crate::proofs::TableLemmas::pass_end, crate::proofs::TableLemmas::pass_more))]
fn pass_entries<'a>(format: &Format<'a>, count: u64, cursor: &mut Cursor<'a>) -> Result<(), BadFile>
    ensures { Reads (λ u. u) result cursor.new
        (passed_over (many_from (formatted_entry format.now) count cursor.old)) }
{
    for i in 0..count {
        let _entry = format.entry(cursor)?;
    }
    Ok(())
}

/// A table of DWARF 5. Contracts see it as the list of its entries.
#[derive(Drop)]
pub struct FormattedTable<'a> {
    format: Format<'a>,
    count: u64,
    entries: Cursor<'a>,
}

impl<'a> Model for FormattedTable<'a> {
    ghost use Rattle.std.specs.Prelude.{◌≡◌, List, is_ok, true};
    ghost use Rattle.dwarf_line_header.specs.FormattedTables.{formatted_entry};
    ghost use Rattle.dwarf_line_header.specs.Tables.{Entry, items_of, many_from};

    ghost Value = { List Entry };

    ghost view = { λ t. items_of (many_from (formatted_entry t.format) t.count t.entries) };

    ghost invariant = { λ t.
        is_ok (many_from (formatted_entry t.format) t.count t.entries) ≡ true };
}

impl<'a> FormattedTable<'a> {
    /// The table of `count` entries at the cursor. The cursor moves past them.
    #[tactic(auto, using(crate::proofs::TableLemmas::passed_is_not))]
    fn of(
        format: Format<'a>,
        count: u64,
        cursor: &mut Cursor<'a>,
    ) -> Result<FormattedTable<'a>, BadFile>
        ensures { Reads (λ t. t) result cursor.new
            (many_from (formatted_entry format.entry) count cursor.old) }
    {
        let entries = cursor.fork();
        pass_entries(&format, count, cursor)?;
        Ok(FormattedTable {
            format,
            count,
            entries,
        })
    }

    /// Reads a table. The fault is that of the first part that can't be read, or Truncated if there are more entries
    /// than bytes left.
    #[tactic(auto, unfolding(crate::specs::FormattedTables::formatted_table, crate::specs::FormattedTables::entries_from, dwarf_abbrev::specs::Reads::uleb_from))]
    pub fn read(
        sections: &Sections<'a>,
        shape: &UnitShape,
        cursor: &mut Cursor<'a>,
    ) -> Result<FormattedTable<'a>, BadFile>
        ensures { Reads (λ t. t) result cursor.new
            (formatted_table sections.now shape.now cursor.old) }
    {
        let format = Format::read(sections, shape, cursor)?;
        let count = cursor.uleb()?;
        if count > cursor.left() {
            return Err(BadFile {
                fault: Fault::Truncated,
                offset: cursor.place(),
            });
        }
        FormattedTable::of(format, count, cursor)
    }

    /// The entry at index `k`, counted from 0. `None` if the table is shorter.
    #[tactic(auto, using(crate::proofs::TableLemmas::items_bad, crate::proofs::TableLemmas::items_end))]
    pub fn get(&self, k: u64) -> Option<FileEntry<'a>>
        ensures { option_map shown result ≡ slice_get self.now k }
    {
        let mut cursor = self.entries.fork();
        for i in 0..self.count {
            let Ok(entry) = self.format.entry(&mut cursor) else {
                return None;
            };
            if i == k {
                return Some(entry);
            }
        }
        None
    }

    /// All entries, in order.
    pub fn all(&self, alloc: Global) -> Result<Vec<FileEntry<'a>>, NoMemory>
        ensures { IfOk result (λ v. map shown v.items ≡ self.now) }
    {
        let mut all = Vec::new(alloc);
        let mut cursor = self.entries.fork();
        for i in 0..self.count {
            let Ok(entry) = self.format.entry(&mut cursor) else {
                return Ok(all);
            };
            all.push(entry)?;
        }
        Ok(all)
    }
}
