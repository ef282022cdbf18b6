//! The section headers of a synthetic file (ELF gABI, Sections).

ghost use Rattle.std.specs.Prelude.{◌≡◌, ◌++◌, OnOk};
ghost use Rattle.elf_synth.specs.Made.{names_header, section_headers, symbols_header, text_header};

use crate::layout::{Layout, Part, TEXT_ADDRESS};
use crate::numbers::push_zeros;
use crate::records::{SECTION_HEADER_LEN, SYMBOL_LEN, SectionHeader, push_section_header};
use size_core::NoMemory;

// Returns the header of `.text`, which is in memory and can be executed.
#[tactic(auto, unfolding(crate::specs::Made::text_header))]
fn text_header(part: Part) -> SectionHeader
    ensures { result ≡ text_header part }
{
    const SHT_PROGBITS: u32 = 1;
    const SHF_ALLOC: u64 = 2;
    const SHF_EXECINSTR: u64 = 4;
    SectionHeader {
        name: 1,
        kind: SHT_PROGBITS,
        flags: SHF_ALLOC + SHF_EXECINSTR,
        addr: TEXT_ADDRESS,
        offset: part.offset,
        size: part.size,
        link: 0,
        info: 0,
        entry_size: 0,
    }
}

// Returns the header of `.symtab`, whose names are in section 3. Only the null symbol is local.
#[tactic(auto, unfolding(crate::specs::Made::symbols_header))]
fn symbols_header(part: Part) -> SectionHeader
    ensures { result ≡ symbols_header part }
{
    const SHT_SYMTAB: u32 = 2;
    SectionHeader {
        name: 7,
        kind: SHT_SYMTAB,
        flags: 0,
        addr: 0,
        offset: part.offset,
        size: part.size,
        link: 3,
        info: 1,
        entry_size: u64::from(SYMBOL_LEN),
    }
}

// Returns the header of a string table. `name` is the offset of its own name in the section name table.
fn names_header(name: u32, part: Part) -> SectionHeader
    ensures { result ≡ names_header name part }
{
    const SHT_STRTAB: u32 = 3;
    SectionHeader {
        name,
        kind: SHT_STRTAB,
        flags: 0,
        addr: 0,
        offset: part.offset,
        size: part.size,
        link: 0,
        info: 0,
        entry_size: 0,
    }
}

/// Adds the section headers of a file: the null section, `.text`, `.symtab`, `.strtab` and `.shstrtab`.
#[tactic(auto, unfolding(crate::specs::Made::section_headers))]
pub fn push_section_headers(out: &mut Vec<u8>, at: &Layout) -> Result<(), NoMemory>
    ensures { OnOk result (out.new.items ≡ out.old.items ++ section_headers at.now) }
{
    push_zeros(out, SECTION_HEADER_LEN)?;
    push_section_header(out, text_header(at.text))?;
    push_section_header(out, symbols_header(at.symbols))?;
    push_section_header(out, names_header(15, at.strings))?;
    push_section_header(out, names_header(23, at.section_names))
}
