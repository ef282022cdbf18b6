//! The names of sections.

ghost use Rattle.std.specs.Prelude.{◌≡◌, ◌<◌, Ok, IfOk};
ghost use Rattle.std.specs.Option.{option_copied};
ghost use Rattle.elf_file.specs.Tables.{name_index, section_at, section_bytes};
ghost use Rattle.elf_file.specs.Names.{name_text, name_of};
ghost use Rattle.elf_file.specs.ElfChecks.{checked, name_table_checks, section_has_name};
ghost use Rattle.elf_file.specs.Known.{HasHeader, HasSection, HasSections, HasNameTable, HasNames, sections_fit, sections_have_names};

use crate::constants::{SHN_XINDEX, SHT_NULL};
use crate::layout::{E_SHOFF, E_SHSTRNDX, SECTION_LEN, SH_NAME};
use crate::sections::{section_bytes, section_header};
use byte_cursor::{Encoding, text_at};
use size_core::{BadFile, Fault};

/// The section name table.
#[derive(Clone, Copy)]
pub struct NameTable<'a> {
    /// The number of its section, or 0 if sections have no names.
    pub index: u32,
    /// Its bytes.
    pub bytes: &'a [u8],
}

/// Returns the number of the section name table, or 0 if sections have no names.
#[tactic(auto, unfolding(crate::specs::Tables::name_index))]
fn name_index(file: &[u8], encoding: Encoding, sections: u32) -> u32
    requires { HasSections file.now encoding sections }
    ensures { result ≡ name_index file.now }
{
    if sections == 0 {
        return 0;
    }
    let index = encoding.half(file, 0, E_SHSTRNDX);
    if index == SHN_XINDEX {
        section_header(file, encoding, 0).link
    } else {
        index as u32
    }
}

/// Returns the number of the section name table, or 0 if sections have no names. BadIndex at `e_shstrndx` if no
/// section has the number.
#[tactic(auto, unfolding(crate::specs::ElfChecks::name_table_checks))]
pub fn name_table(file: &[u8], encoding: Encoding, sections: u32) -> Result<u32, BadFile>
    requires { HasSections file.now encoding sections }
    ensures value { result ≡ checked (name_table_checks file.now) (name_index file.now) }
    ensures known { IfOk result (λ n. HasNameTable file.now sections n) }
{
    let index = name_index(file, encoding, sections);
    if index != 0 && index >= sections {
        return Err(BadFile {
            fault: Fault::BadIndex,
            offset: encoding.pick(E_SHSTRNDX),
        });
    }
    Ok(index)
}

/// Returns the bytes of the section name table.
#[tactic(auto, using(crate::proofs::KnownLemmas::fits_at), unfolding(crate::specs::Tables::section_bytes))]
pub fn names_of<'a>(file: &'a [u8], encoding: Encoding, sections: u32, index: u32) -> &'a [u8]
    requires table { HasSections file.now encoding sections }
    requires name_table { HasNameTable file.now sections index }
    requires fit { sections_fit file.now ≡ Ok tt }
    ensures { result.now ≡ section_bytes file.now index }
{
    if index == 0 {
        &[]
    } else {
        section_bytes(file, encoding, sections, index)
    }
}

/// Returns the name of section `i`. `None` if it has no terminating zero byte in the section name table.
#[tactic(auto, unfolding(crate::specs::Names::name_text, crate::specs::Tables::name_offset))]
fn name_text<'a>(file: &[u8], encoding: Encoding, names: &'a [u8], i: u32) -> Option<&'a [u8]>
    requires header { HasHeader file.now encoding }
    requires within { HasSection file.now i }
    requires names { names.now ≡ section_bytes file.now (name_index file.now) }
    ensures { option_copied result ≡ name_text file.now i }
{
    let place = encoding.word(file, 0, E_SHOFF) + i as u64 * encoding.pick(SECTION_LEN);
    text_at(names, encoding.four(file, place, SH_NAME) as usize)
}

/// Checks that the name of section `i` has its terminating zero byte. NameOutside at the section header if it has
/// none.
#[tactic(auto, unfolding(crate::specs::ElfChecks::section_has_name))]
fn section_has_name(
    file: &[u8],
    encoding: Encoding,
    sections: u32,
    names: NameTable<'_>,
    i: u32,
) -> Result<(), BadFile>
    requires table { HasSections file.now encoding sections }
    requires names { HasNames file.now sections names.index names.bytes.now }
    requires index { i < sections }
    ensures { result ≡ section_has_name file.now i }
{
    let section = section_header(file, encoding, i);
    if i == 0 || section.kind == SHT_NULL || names.index == 0 {
        return Ok(());
    }
    match name_text(file, encoding, names.bytes, i) {
        Some(_) => Ok(()),
        None => Err(BadFile {
            fault: Fault::NameOutside,
            offset: section.place,
        }),
    }
}

/// Checks that the name of each section has its terminating zero byte.
#[tactic(auto, using(size_core::proofs::Each::each_next, size_core::proofs::Each::each_bad, size_core::proofs::Each::each_end))]
pub fn sections_have_names(
    file: &[u8],
    encoding: Encoding,
    sections: u32,
    names: NameTable<'_>,
) -> Result<(), BadFile>
    requires table { HasSections file.now encoding sections }
    requires names { HasNames file.now sections names.index names.bytes.now }
    ensures { result ≡ sections_have_names file.now }
{
    for i in 1..sections {
        section_has_name(file, encoding, sections, names, i)?;
    }
    Ok(())
}

/// Returns the name of section `i`, which has this type.
#[tactic(auto, unfolding(crate::specs::Names::name_of))]
pub fn name_of<'a>(
    file: &[u8],
    encoding: Encoding,
    names: NameTable<'a>,
    i: u32,
    kind: u32,
) -> &'a [u8]
    requires header { HasHeader file.now encoding }
    requires within { HasSection file.now i }
    requires name_index { names.index ≡ name_index file.now }
    requires names { names.bytes.now ≡ section_bytes file.now (name_index file.now) }
    requires kind { kind ≡ (section_at file.now i).kind }
    ensures { result.now ≡ name_of file.now i }
{
    if i == 0 || kind == SHT_NULL || names.index == 0 {
        return &[];
    }
    match name_text(file, encoding, names.bytes, i) {
        Some(name) => name,
        None => &[],
    }
}
