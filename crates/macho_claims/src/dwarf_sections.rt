//! Finding the debug sections of a file (DWARF 5, section 7.1). They are in the segment `__DWARF`.

ghost use Rattle.std.specs.Prelude.{◌≡◌};
ghost use Rattle.macho_file.specs.Shown.{section_shown};
ghost use Rattle.macho_file.specs.WellFormed.{Fits};
ghost use Rattle.macho_claims.specs.DebugSections.{debug_sections, is_debug, sections_of, window_named, window_over};

use byte_cursor::Cursor;
use dwarf_units::Sections;
use macho_file::{MachoFile, MachoSection};
use macho_records::MH_OBJECT;
use size_core::{BadFile, Fault};

fn is_debug(section: &MachoSection<'_>, name: &[u8]) -> bool
    ensures { result ≡ is_debug name.now (section_shown section.now) }
{
    section.segment == b"__DWARF".as_slice() && section.name == name
}

// Returns the bytes of a section, with their offset in the file.
#[tactic(auto, unfolding(crate::specs::DebugSections::window_over))]
fn window_over<'a>(file: &MachoFile<'a>, section: &MachoSection<'_>) -> Cursor<'a>
    requires { Fits file.now (section_shown section.now) }
    ensures { result ≡ window_over file.now (section_shown section.now) }
{
    // The file's length is below 2^63, and so is the sum in the invariant of the cursor.
    let bytes = file.bytes();
    if !section.in_file || section.size == 0 {
        return Cursor::new(0, &[]);
    }
    let end = section.offset + section.size;
    Cursor::new(
        section.offset,
        &bytes[section.offset as usize..end as usize],
    )
}

// Returns the bytes of the first debug section that has the name.
#[tactic(auto, using(crate::proofs::DebugLemmas::found_here, crate::proofs::DebugLemmas::found_later, crate::proofs::DebugLemmas::none_found))]
fn window_named<'a>(file: &MachoFile<'a>, name: &[u8]) -> Cursor<'a>
    ensures { result ≡ window_named file.now name.now }
{
    for section in file.sections() {
        if is_debug(&section, name) {
            return window_over(file, &section);
        }
    }
    Cursor::new(0, &[])
}

#[tactic(auto, unfolding(crate::specs::DebugSections::sections_of))]
fn sections_of<'a>(file: &MachoFile<'a>) -> Sections<'a>
    ensures { result ≡ sections_of file.now }
{
    Sections {
        order: file.order(),
        info: window_named(file, b"__debug_info"),
        abbrev: window_named(file, b"__debug_abbrev"),
        strings: window_named(file, b"__debug_str"),
        line_strings: window_named(file, b"__debug_line_str"),
        str_offsets: window_named(file, b"__debug_str_offs"),
        addresses: window_named(file, b"__debug_addr"),
        ranges: window_named(file, b"__debug_ranges"),
        rnglists: window_named(file, b"__debug_rnglists"),
        aranges: window_named(file, b"__debug_aranges"),
        lines: window_named(file, b"__debug_line"),
    }
}

/// Returns the debug sections of a file. A section is found by its name in the segment `__DWARF`: the first section
/// that has the name. SourceNotForFile at 0 if the file is an object: its debug sections aren't linked yet.
#[tactic(auto, unfolding(crate::specs::DebugSections::debug_sections))]
pub fn debug_sections<'a>(file: &MachoFile<'a>) -> Result<Sections<'a>, BadFile>
    ensures { result ≡ debug_sections file.now }
{
    if file.kind() == MH_OBJECT {
        return Err(BadFile {
            fault: Fault::SourceNotForFile,
            offset: 0,
        });
    }
    Ok(sections_of(file))
}
