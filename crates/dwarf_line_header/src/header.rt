//! The header of a line program, with its tables.

ghost use Rattle.std.specs.Prelude.{◌≡◌, option_map, IfOk};
ghost use Rattle.dwarf_line_header.specs.Header.{HasLengths, IsUsable, entry_numbered, header_from};
ghost use Rattle.dwarf_line_header.specs.Listed.{entries};
ghost use Rattle.dwarf_line_header.specs.Programs.{empty_program, program_at, program_here};
ghost use Rattle.dwarf_line_header.specs.Tables.{shown};

use crate::encoding::LineEncoding;
use crate::entry::{FileEntry, TableKind};
use crate::fields::{address_size, encoding, instructions, lengths};
use crate::table::Table;
use byte_cursor::Cursor;
use dwarf_abbrev::{UnitShape, initial_length, inside};
use dwarf_units::Sections;
use size_core::{BadFile, Fault, NoMemory};
use std::alloc::Global;
use std::marker::Model;

/// The header of a line program, and where its instructions begin (DWARF 5, section 6.2.4). The header and its tables
/// have been checked.
#[derive(Drop)]
pub struct LineHeader<'a> {
    version: u16,
    encoding: LineEncoding,
    lengths: &'a [u8],
    directories: Table<'a>,
    files: Table<'a>,
    instructions: Cursor<'a>,
}

impl<'a> Model for LineHeader<'a> {
    ghost use Rattle.dwarf_line_header.specs.Header.{HasLengths, IsUsable, LineHeader};
    ghost use Rattle.dwarf_line_header.specs.Listed.{entries};

    ghost Value = { LineHeader };

    ghost view = { λ h. record {
      version = h.version;
      encoding = h.encoding;
      lengths = h.lengths.now;
      directories = entries h.directories;
      files = entries h.files;
      instructions = h.instructions;
    } };

    ghost invariant = { λ h. IsUsable h.encoding × HasLengths h.encoding h.lengths.now };
}

/// The entry of a table with this number. Numbers begin at 1 before DWARF 5, and at 0 from DWARF 5 on.
fn entry_numbered<'a>(version: u16, table: &Table<'a>, number: u64) -> Option<FileEntry<'a>>
    ensures { option_map shown result ≡ entry_numbered version (entries table.now) number }
{
    if version >= 5 {
        table.get(number)
    } else if number == 0 {
        None
    } else {
        table.get(number - 1)
    }
}

impl<'a> LineHeader<'a> {
    /// Reads the header after its version.
    #[tactic(auto, unfolding(crate::specs::Header::header_from))]
    fn after_version(
        sections: &Sections<'a>,
        shape: &UnitShape,
        mut cursor: Cursor<'a>,
    ) -> Result<LineHeader<'a>, BadFile>
        ensures { result ≡ header_from sections.now shape.now cursor.entry }
    {
        let instructions = instructions(shape, &mut cursor)?;
        let encoding = encoding(shape, &mut cursor)?;
        let lengths = lengths(encoding.opcode_base - 1, &mut cursor)?;
        let directories = Table::read(sections, shape, TableKind::Directories, &mut cursor)?;
        let files = Table::read(sections, shape, TableKind::Files, &mut cursor)?;
        Ok(LineHeader {
            version: shape.version,
            encoding,
            lengths,
            directories,
            files,
            instructions,
        })
    }

    /// The header of a version that isn't supported: no instructions, no directories and no files.
    fn empty(shape: &UnitShape) -> LineHeader<'a>
        ensures { result ≡ empty_program shape.now }
    {
        LineHeader {
            version: shape.version,
            encoding: LineEncoding {
                order: shape.order,
                address_size: address_size(shape.address),
                min_inst: 1,
                max_ops: 1,
                line_base: 0,
                line_range: 1,
                opcode_base: 1,
            },
            lengths: &[],
            directories: Table::Empty,
            files: Table::Empty,
            instructions: Cursor::new(0, &[]),
        }
    }

    /// Reads the header of the program at the cursor. Each fault after its version is BadLine at its file offset.
    #[tactic(auto, unfolding(crate::specs::Programs::program_here, dwarf_abbrev::specs::Lengths::contents_from, dwarf_abbrev::specs::Reads::num_from))]
    fn here(
        sections: &Sections<'a>,
        shape: &UnitShape,
        mut cursor: Cursor<'a>,
    ) -> Result<LineHeader<'a>, BadFile>
        ensures { result ≡ program_here sections.now shape.now cursor.entry }
    {
        let place = cursor.place();
        let initial = initial_length(&mut cursor, shape.order)?;
        let mut contents = cursor.take(initial.len)?;
        let Ok(version) = contents.u16(shape.order) else {
            return Ok(LineHeader::empty(shape));
        };
        if version < 2 || version > 5 {
            return Ok(LineHeader::empty(shape));
        }
        let shape = UnitShape {
            version,
            wide: initial.wide,
            address: shape.address,
            order: shape.order,
        };
        match LineHeader::after_version(sections, &shape, contents) {
            Ok(header) => Ok(header),
            Err(_) => Err(BadFile {
                fault: Fault::BadLine,
                offset: place,
            }),
        }
    }

    /// The header of the program at an offset of `.debug_line`. A program whose version isn't complete, or isn't 2 to
    /// 5, has no instructions, no directories and no files.
    ///
    /// OffsetOutside at the file offset `place` if the offset isn't below the section's length. The other
    /// faults have the program's file offset: Truncated or BadUnit if its length can't be read or exceeds
    /// the section, and BadLine if its header, or a string that the header refers to, can't be read.
    pub fn at(
        sections: &Sections<'a>,
        offset: u64,
        place: u64,
        shape: &UnitShape,
    ) -> Result<LineHeader<'a>, BadFile>
        ensures { result ≡ program_at sections.now offset place shape.now }
    {
        match inside(&sections.lines, offset) {
            Some(cursor) => LineHeader::here(sections, shape, cursor),
            None => Err(BadFile {
                fault: Fault::OffsetOutside,
                offset: place,
            }),
        }
    }

    /// A copy of the header with its directories and files in memory. `directory` and `file` then find an entry
    /// without walking over the tables.
    pub fn kept(&self, alloc: Global) -> Result<LineHeader<'a>, NoMemory>
        ensures { IfOk result (λ h. h ≡ self.now) }
    {
        Ok(LineHeader {
            version: self.version,
            encoding: self.encoding,
            lengths: self.lengths,
            directories: self.directories.kept(alloc)?,
            files: self.files.kept(alloc)?,
            instructions: self.instructions.fork(),
        })
    }

    /// The parameters that the instructions depend on.
    pub fn encoding(&self) -> LineEncoding
        ensures value { result ≡ self.now.encoding }
        ensures usable { IsUsable result }
    {
        self.encoding
    }

    /// The number of operands of each standard opcode, from opcode 1 on.
    pub fn lengths(&self) -> &'a [u8]
        ensures value { result.now ≡ self.now.lengths }
        ensures all { HasLengths self.now.encoding result.now }
    {
        self.lengths
    }

    /// The cursor at the first instruction.
    pub fn instructions(&self) -> Cursor<'a>
        ensures { result ≡ self.now.instructions }
    {
        self.instructions.fork()
    }

    /// The directory with this number. `None` if there is none. Numbers begin at 1 before DWARF 5, and at 0 from
    /// DWARF 5 on.
    pub fn directory(&self, number: u64) -> Option<FileEntry<'a>>
        ensures { option_map shown result
            ≡ entry_numbered self.now.version self.now.directories number }
    {
        entry_numbered(self.version, &self.directories, number)
    }

    /// The file with this number. `None` if there is none. Numbers begin at 1 before DWARF 5, and at 0 from DWARF 5
    /// on.
    pub fn file(&self, number: u64) -> Option<FileEntry<'a>>
        ensures { option_map shown result
            ≡ entry_numbered self.now.version self.now.files number }
    {
        entry_numbered(self.version, &self.files, number)
    }
}
