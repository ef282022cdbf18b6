//! Finding the debug sections of a file (DWARF 5, section 7.1; ELF gABI, Sections: SHF_COMPRESSED).

ghost use Rattle.std.specs.Prelude.{◌≡◌, ◌<◌};
ghost use Rattle.elf_file.specs.Tables.{section_count};
ghost use Rattle.elf_claims.specs.DebugSections.{address_checks, debug_name, debug_sections, entry_checks, is_compressed, renamed, section_check, sections_of, window_named, window_over};

use crate::loads::is_relocatable;
use byte_cursor::Cursor;
use dwarf_units::Sections;
use elf_file::{ElfFile, SHF_COMPRESSED, SHT_NOBITS};
use size_core::{BadFile, Fault};

/// The debug sections that are read.
#[derive(Clone, Copy)]
pub enum DebugSection {
    /// `.debug_info`
    Info,
    /// `.debug_abbrev`
    Abbrev,
    /// `.debug_str`
    Str,
    /// `.debug_line_str`
    LineStr,
    /// `.debug_str_offsets`
    StrOffsets,
    /// `.debug_addr`
    Addr,
    /// `.debug_ranges`
    Ranges,
    /// `.debug_rnglists`
    Rnglists,
    /// `.debug_aranges`
    Aranges,
    /// `.debug_line`
    Line,
}

impl DebugSection {
    // Returns the name of the section.
    #[tactic(auto, unfolding(crate::specs::DebugSections::debug_name))]
    fn name(self) -> &'static [u8]
        ensures { result.now ≡ debug_name self }
    {
        match self {
            DebugSection::Info => b".debug_info",
            DebugSection::Abbrev => b".debug_abbrev",
            DebugSection::Str => b".debug_str",
            DebugSection::LineStr => b".debug_line_str",
            DebugSection::StrOffsets => b".debug_str_offsets",
            DebugSection::Addr => b".debug_addr",
            DebugSection::Ranges => b".debug_ranges",
            DebugSection::Rnglists => b".debug_rnglists",
            DebugSection::Aranges => b".debug_aranges",
            DebugSection::Line => b".debug_line",
        }
    }

    // Returns the name that older tools gave the section when they compressed it, before SHF_COMPRESSED.
    #[tactic(auto, unfolding(crate::specs::DebugSections::renamed))]
    fn renamed(self) -> &'static [u8]
        ensures { result.now ≡ renamed self }
    {
        match self {
            DebugSection::Info => b".zdebug_info",
            DebugSection::Abbrev => b".zdebug_abbrev",
            DebugSection::Str => b".zdebug_str",
            DebugSection::LineStr => b".zdebug_line_str",
            DebugSection::StrOffsets => b".zdebug_str_offsets",
            DebugSection::Addr => b".zdebug_addr",
            DebugSection::Ranges => b".zdebug_ranges",
            DebugSection::Rnglists => b".zdebug_rnglists",
            DebugSection::Aranges => b".zdebug_aranges",
            DebugSection::Line => b".zdebug_line",
        }
    }
}

// Returns the bytes of a section, with their offset in the file.
#[tactic(auto, unfolding(crate::specs::DebugSections::window_over))]
fn window_over<'a>(file: &ElfFile<'a>, i: u32) -> Cursor<'a>
    requires { i < section_count file.now }
    ensures { result ≡ window_over file.now i }
{
    // The file's length is below 2^63, and so is the sum in the invariant of the cursor.
    let _file = file.bytes();
    let bytes = file.section_bytes(i);
    if bytes.is_empty() {
        return Cursor::new(0, &[]);
    }
    Cursor::new(file.section(i).offset, bytes)
}

#[tactic(auto, using(crate::proofs::DebugLemmas::named_within))]
fn window_named<'a>(file: &ElfFile<'a>, section: DebugSection) -> Cursor<'a>
    ensures { result ≡ window_named file.now section }
{
    match file.find(section.name()) {
        Some(i) => window_over(file, i),
        None => Cursor::new(0, &[]),
    }
}

// Returns the debug sections. It doesn't check whether they are compressed.
#[tactic(auto, unfolding(crate::specs::DebugSections::sections_of))]
fn sections_of<'a>(file: &ElfFile<'a>) -> Sections<'a>
    ensures { result ≡ sections_of file.now }
{
    Sections {
        order: file.encoding().order,
        info: window_named(file, DebugSection::Info),
        abbrev: window_named(file, DebugSection::Abbrev),
        strings: window_named(file, DebugSection::Str),
        line_strings: window_named(file, DebugSection::LineStr),
        str_offsets: window_named(file, DebugSection::StrOffsets),
        addresses: window_named(file, DebugSection::Addr),
        ranges: window_named(file, DebugSection::Ranges),
        rnglists: window_named(file, DebugSection::Rnglists),
        aranges: window_named(file, DebugSection::Aranges),
        lines: window_named(file, DebugSection::Line),
    }
}

fn is_compressed(file: &ElfFile<'_>, i: u32) -> bool
    requires { i < section_count file.now }
    ensures { result ≡ is_compressed file.now i }
{
    let section = file.section(i);
    section.flags & SHF_COMPRESSED != 0 && section.kind != SHT_NOBITS
}

// Fails if a section is compressed: by its flag, or by the older name if none has the plain one.
#[tactic(auto, using(crate::proofs::DebugLemmas::named_within), unfolding(crate::specs::DebugSections::section_check))]
fn check_section(file: &ElfFile<'_>, section: DebugSection) -> Result<(), BadFile>
    ensures { result ≡ section_check file.now section }
{
    let compressed = match file.find(section.name()) {
        Some(i) if is_compressed(file, i) => i,
        Some(_) => return Ok(()),
        None => match file.find(section.renamed()) {
            Some(i) => i,
            None => return Ok(()),
        },
    };
    Err(BadFile {
        fault: Fault::CompressedDebugInfo,
        offset: file.section(compressed).place,
    })
}

#[tactic(auto, unfolding(crate::specs::DebugSections::entry_checks))]
fn check_entries(file: &ElfFile<'_>) -> Result<(), BadFile>
    ensures { result ≡ entry_checks file.now }
{
    check_section(file, DebugSection::Info)?;
    check_section(file, DebugSection::Abbrev)?;
    check_section(file, DebugSection::Str)?;
    check_section(file, DebugSection::LineStr)?;
    check_section(file, DebugSection::StrOffsets)
}

#[tactic(auto, unfolding(crate::specs::DebugSections::address_checks))]
fn check_addresses(file: &ElfFile<'_>) -> Result<(), BadFile>
    ensures { result ≡ address_checks file.now }
{
    check_section(file, DebugSection::Addr)?;
    check_section(file, DebugSection::Ranges)?;
    check_section(file, DebugSection::Rnglists)?;
    check_section(file, DebugSection::Aranges)?;
    check_section(file, DebugSection::Line)
}

/// Returns the debug sections of a file. A section is found by its name: the first section that has the name.
///
/// SourceNotForFile at 0 if the file is relocatable: its debug sections aren't relocated yet. CompressedDebugInfo at
/// the section header if a section is compressed: it has SHF_COMPRESSED and isn't of type SHT_NOBITS, or it is named
/// `.zdebug_..` and no section is named `.debug_..`. The sections are checked in this order: .debug_info,
/// .debug_abbrev, .debug_str, .debug_line_str, .debug_str_offsets, .debug_addr, .debug_ranges, .debug_rnglists,
/// .debug_aranges, .debug_line.
#[tactic(auto, unfolding(crate::specs::DebugSections::debug_sections))]
pub fn debug_sections<'a>(file: &ElfFile<'a>) -> Result<Sections<'a>, BadFile>
    ensures { result ≡ debug_sections file.now }
{
    if is_relocatable(file) {
        return Err(BadFile {
            fault: Fault::SourceNotForFile,
            offset: 0,
        });
    }
    check_entries(file)?;
    check_addresses(file)?;
    Ok(sections_of(file))
}
