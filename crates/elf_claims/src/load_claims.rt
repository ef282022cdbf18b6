//! The claims of loads.

ghost use Rattle.std.specs.Prelude.{◌≡◌, ◌<◌, ◌++◌, codes, decimal, IfOk, OnOk};
ghost use Rattle.elf_file.specs.Tables.{section_at, section_count, segment_at, segment_count};
ghost use Rattle.claim_sheet.specs.Adds.{Adds};
ghost use Rattle.elf_claims.specs.Claims.{flag_text, load_claim, load_claims, load_label, section_flags, segment_flags};
ghost use Rattle.elf_claims.specs.Loads.{has_flag, slot_count};

use crate::loads::{is_relocatable, load_at, load_slots};
use claim_sheet::{ClaimSheet, Reach, Wrap, append};
use elf_file::{ElfFile, PF_R, PF_W, PF_X, SHF_EXECINSTR, SHF_WRITE};
use itoa::Buffer;
use size_core::NoMemory;
use std::alloc::Global;

fn flag_text(flag: bool, letter: &'static [u8]) -> &'static [u8]
    ensures { result.now ≡ flag_text flag letter.now }
{
    if flag { letter } else { b"" }
}

// Appends the letters R, W and X for the flags of a program header (`p_flags`).
fn append_segment_flags(text: &mut Vec<u8>, flags: u32) -> Result<(), NoMemory>
    ensures { OnOk result (text.new.items ≡ text.old.items ++ segment_flags flags) }
{
    append(text, flag_text(flags & PF_R != 0, b"R"))?;
    append(text, flag_text(flags & PF_W != 0, b"W"))?;
    append(text, flag_text(flags & PF_X != 0, b"X"))
}

// Returns the label of the load of a program header.
fn segment_label(alloc: Global, file: &ElfFile<'_>, i: u32) -> Result<Vec<u8>, NoMemory>
    requires { i < segment_count file.now }
    ensures { IfOk result (λ v. v.items
        ≡ codes "LOAD #" ++ decimal i
        ++ codes " [" ++ segment_flags (segment_at file.now i).flags ++ codes "]") }
{
    let mut text = Vec::new(alloc);
    append(&mut text, b"LOAD #")?;
    append(&mut text, Buffer::new().format(i).as_bytes())?;
    append(&mut text, b" [")?;
    append_segment_flags(&mut text, file.segment(i).flags)?;
    append(&mut text, b"]")?;
    Ok(text)
}

// Returns the label of the load of a section. Its letters are those of `sh_flags`.
fn section_load_label(alloc: Global, file: &ElfFile<'_>, i: u32) -> Result<Vec<u8>, NoMemory>
    requires { i < section_count file.now }
    ensures { IfOk result (λ v. v.items
        ≡ codes "SECTION [" ++ section_flags (section_at file.now i).flags ++ codes "]") }
{
    let flags = file.section(i).flags;
    let parts = [
        b"SECTION [R".as_slice(),
        flag_text(flags & SHF_WRITE != 0, b"W"),
        flag_text(flags & SHF_EXECINSTR != 0, b"X"),
        b"]",
    ];
    parts.concat(alloc).map_err(NoMemory::from)
}

#[tactic(auto, unfolding(crate::specs::Claims::load_label, crate::specs::Loads::slot_count))]
fn load_label(alloc: Global, file: &ElfFile<'_>, i: u32) -> Result<Vec<u8>, NoMemory>
    requires { i < slot_count file.now }
    ensures { IfOk result (λ v. v.items ≡ load_label file.now i) }
{
    if is_relocatable(file) {
        section_load_label(alloc, file, i)
    } else {
        segment_label(alloc, file, i)
    }
}

#[tactic(auto, using(claim_sheet::proofs::SheetLemmas::adding_none), unfolding(crate::specs::Claims::load_claim))]
fn add_load(
    alloc: Global,
    file: &ElfFile<'_>,
    i: u32,
    wrap: Wrap,
    sheet: &mut ClaimSheet,
) -> Result<(), NoMemory>
    requires { i < slot_count file.now }
    ensures { Adds result sheet.old sheet.new (load_claim wrap file.now i) }
{
    match load_at(file, i) {
        None => Ok(()),
        Some(load) => {
            let label = load_label(alloc, file, i)?;
            let len = file.bytes().len() as u64;
            sheet.add(Reach::of_load(len, &load), wrap, &label)
        }
    }
}

/// Adds the claims of the loads, in order.
#[tactic(auto, using(claim_sheet::proofs::LoopLemmas::gather_goes, claim_sheet::proofs::LoopLemmas::gather_ends), unfolding(crate::specs::Claims::load_claims))]
pub fn add_loads(
    alloc: Global,
    file: &ElfFile<'_>,
    wrap: Wrap,
    sheet: &mut ClaimSheet,
) -> Result<(), NoMemory>
    ensures { Adds result sheet.old sheet.new (load_claims wrap file.now) }
{
    for i in 0..load_slots(file) {
        add_load(alloc, file, i, wrap, sheet)?;
    }
    Ok(())
}
