//! The loads of a file: the parts that are mapped at virtual addresses.

ghost use Rattle.std.specs.Prelude.{◌≡◌, ◌<◌, All, IfOk, IfSome};
ghost use Rattle.size_model.specs.Loads.{IsLoad};
ghost use Rattle.elf_file.specs.Tables.{section_count, segment_count, is_null};
ghost use Rattle.elf_claims.specs.Loads.{has_addresses, has_flag, is_relocatable, loads_of, section_load, segment_load, slot_count, slot_load};

use claim_sheet::push_load;
use elf_file::{ET_REL, ElfFile, PT_LOAD, SHF_ALLOC, SHF_TLS, SHT_NOBITS, SHT_NULL};
use size_core::{Load, NoMemory};
use std::alloc::Global;

/// Returns whether the file is an object file (ET_REL). Each section with addresses then has its own address space.
#[tactic(auto, unfolding(elf_file::specs::Tables::header_of))]
pub fn is_relocatable(file: &ElfFile<'_>) -> bool
    ensures { result ≡ is_relocatable file.now }
{
    file.header().kind == ET_REL
}

/// Returns whether a section has virtual addresses: it has SHF_ALLOC, and isn't `.tbss`, which takes no memory in the
/// image of the process.
#[tactic(auto, unfolding(crate::specs::Loads::has_addresses))]
pub fn has_addresses(file: &ElfFile<'_>, i: u32) -> bool
    requires { i < section_count file.now }
    ensures { result ≡ has_addresses file.now i }
{
    let section = file.section(i);
    let is_null = i == 0 || section.kind == SHT_NULL;
    let is_empty_tls = section.kind == SHT_NOBITS && section.flags & SHF_TLS != 0;
    !is_null && section.flags & SHF_ALLOC != 0 && !is_empty_tls
}

#[tactic(auto, unfolding(crate::specs::Loads::section_load))]
fn section_load(file: &ElfFile<'_>, i: u32) -> Option<Load>
    requires { i < section_count file.now }
    ensures load { result ≡ section_load file.now i }
    ensures fits { IfSome result IsLoad }
{
    if !has_addresses(file, i) {
        return None;
    }
    let section = file.section(i);
    let filesz = if section.kind == SHT_NOBITS {
        0
    } else {
        section.size
    };
    Some(Load {
        space: i,
        vaddr: 0,
        memsz: section.size,
        offset: section.offset,
        filesz,
    })
}

#[tactic(auto, unfolding(crate::specs::Loads::segment_load))]
fn segment_load(file: &ElfFile<'_>, i: u32) -> Option<Load>
    requires { i < segment_count file.now }
    ensures load { result ≡ segment_load file.now i }
    ensures fits { IfSome result IsLoad }
{
    let segment = file.segment(i);
    if segment.kind != PT_LOAD {
        return None;
    }
    Some(Load {
        space: 0,
        vaddr: segment.vaddr,
        memsz: segment.memsz,
        offset: segment.offset,
        filesz: segment.filesz,
    })
}

/// Returns the number of slots: the program headers, or the sections of a relocatable file. Each slot may be a load.
#[tactic(auto, unfolding(crate::specs::Loads::slot_count, elf_file::specs::Tables::header_of))]
pub fn load_slots(file: &ElfFile<'_>) -> u32
    ensures { result ≡ slot_count file.now }
{
    let header = file.header();
    if header.kind == ET_REL {
        header.sections
    } else {
        header.segments
    }
}

/// Returns the load of a slot, or None if the slot is no load.
#[tactic(auto, unfolding(crate::specs::Loads::slot_count, crate::specs::Loads::slot_load))]
pub fn load_at(file: &ElfFile<'_>, i: u32) -> Option<Load>
    requires { i < slot_count file.now }
    ensures load { result ≡ slot_load file.now i }
    ensures fits { IfSome result IsLoad }
{
    if is_relocatable(file) {
        section_load(file, i)
    } else {
        segment_load(file, i)
    }
}

/// Returns all loads, in the order of the slots. It walks the file's tables once.
#[tactic(auto, using(size_core::proofs::Gathered::gather_next, size_core::proofs::Gathered::gather_end), unfolding(crate::specs::Loads::loads_of))]
pub fn loads_of(alloc: Global, file: &ElfFile<'_>) -> Result<Vec<Load>, NoMemory>
    ensures are { IfOk result (λ v. v.items ≡ loads_of file.now) }
    ensures fit { IfOk result (λ v. All IsLoad v.items) }
{
    let mut loads = Vec::new(alloc);
    for i in 0..load_slots(file) {
        push_load(&mut loads, load_at(file, i))?;
    }
    Ok(loads)
}
