//! Line programs.

ghost use Rattle.std.specs.Prelude.{◌≡◌, ◌++◌, ◌∷◌, option_map, take, vec_len, OnOk, OnErr, IfOk};
ghost use Rattle.dwarf_line_header.specs.Programs.{program_at};
ghost use Rattle.dwarf_line_header.specs.Tables.{shown};
ghost use Rattle.dwarf_lines.specs.Paths.{in_directory, path_of, shown_directory};
ghost use Rattle.dwarf_lines.specs.Rows.{line_rows};

use crate::constants::{SLASH, UNKNOWN_FILE};
use crate::rows::LineRows;
use dwarf_abbrev::UnitShape;
use dwarf_line_header::{FileEntry, LineHeader};
use dwarf_units::Sections;
use size_core::{BadFile, NoMemory};
use std::alloc::Global;
use std::marker::Model;

/// A line program (DWARF 5, section 6.2). Its header and its tables have been checked. Its instructions are
/// read when its rows are requested.
#[derive(Drop)]
pub struct LineProgram<'a> {
    header: LineHeader<'a>,
}

impl<'a> Model for LineProgram<'a> {
    ghost use Rattle.dwarf_line_header.specs.Header.{LineHeader};

    ghost Value = { LineHeader };

    ghost view = { λ p. p.header };
}

/// Appends bytes. On an error `out` is unchanged.
fn append(out: &mut Vec<u8>, bytes: &[u8]) -> Result<(), NoMemory>
    ensures ok { OnOk result (out.new.items ≡ out.old.items ++ bytes.now) }
    ensures err { OnErr result (out.new.items ≡ out.old.items) }
{
    out.extend_from_slice(bytes)?;
    Ok(())
}

/// Appends a directory, a slash and a name. On an error some of these may have been appended.
fn append_parts(out: &mut Vec<u8>, directory: &[u8], name: &[u8]) -> Result<(), NoMemory>
    ensures ok { OnOk result (out.new.items
        ≡ out.old.items ++ (directory.now ++ SLASH ∷ name.now)) }
    ensures kept { take (vec_len out.old) out.new.items ≡ out.old.items }
{
    append(out, directory)?;
    append(out, &[SLASH])?;
    append(out, name)
}

/// Appends a directory, a slash and a name. On an error `out` is unchanged.
fn append_both(out: &mut Vec<u8>, directory: &[u8], name: &[u8]) -> Result<(), NoMemory>
    ensures ok { OnOk result (out.new.items
        ≡ out.old.items ++ (directory.now ++ SLASH ∷ name.now)) }
    ensures err { OnErr result (out.new.items ≡ out.old.items) }
{
    let len = out.len();
    let appended = append_parts(out, directory, name);
    if appended.is_err() {
        out.truncate(len);
    }
    appended
}

impl<'a> LineProgram<'a> {
    /// The program at an offset of `.debug_line`. A program whose version isn't complete, or isn't 2 to 5, has no
    /// rows and no files.
    ///
    /// OffsetOutside at the file offset `place` if the offset isn't below the section's length. The other
    /// faults have the program's file offset: Truncated or BadUnit if its length can't be read or exceeds
    /// the section, and BadLine if its header, or a string that the header refers to, can't be read.
    pub fn at(
        sections: &Sections<'a>,
        offset: u64,
        place: u64,
        shape: &UnitShape,
    ) -> Result<LineProgram<'a>, BadFile>
        ensures { result ≡ program_at sections.now offset place shape.now }
    {
        let header = LineHeader::at(sections, offset, place, shape)?;
        Ok(LineProgram { header })
    }

    /// A copy of the program with its directories and files in memory. `path` then finds a file without walking
    /// over the tables.
    pub fn kept(&self, alloc: Global) -> Result<LineProgram<'a>, NoMemory>
        ensures { IfOk result (λ p. p ≡ self.now) }
    {
        let header = self.header.kept(alloc)?;
        Ok(LineProgram { header })
    }

    /// The rows in order, and then the fault, if there is one: BadLine at the file offset of an instruction
    /// that can't be read.
    pub fn rows(&self) -> LineRows<'a>
        ensures { result ≡ line_rows self.now }
    {
        let encoding = self.header.encoding();
        LineRows::new(encoding, self.header.lengths(), self.header.instructions())
    }

    /// The directory that is printed before a file's name, if one is.
    fn shown_directory(&self, file: &FileEntry) -> Option<FileEntry<'a>>
        ensures { option_map shown result ≡ shown_directory self.now (shown file.now) }
    {
        let is_absolute = !file.name.is_empty() && file.name[0] == SLASH;
        if is_absolute || file.directory == 0 {
            return None;
        }
        self.header.directory(file.directory)
    }

    /// Appends the path of the file with this number. The path is the file's name, after its directory and a slash.
    /// The directory is left out if it is directory 0 or doesn't exist, or if the name is absolute. The path is
    /// `[Unknown file]` if there is no such file. On an error `out` is unchanged.
    #[tactic(auto, unfolding(crate::specs::Paths::path_of))]
    pub fn path(&self, file: u64, out: &mut Vec<u8>) -> Result<(), NoMemory>
        ensures ok { OnOk result (out.new.items ≡ out.old.items ++ path_of self.now file) }
        ensures err { OnErr result (out.new.items ≡ out.old.items) }
    {
        let Some(file) = self.header.file(file) else {
            return append(out, UNKNOWN_FILE);
        };
        match self.shown_directory(&file) {
            Some(directory) => append_both(out, directory.name, file.name),
            None => append(out, file.name),
        }
    }
}
