//! The claims of sections (ELF gABI, Sections).

ghost use Rattle.std.specs.Prelude.{◌≡◌, ◌<◌};
ghost use Rattle.elf_file.specs.Tables.{section_count};
ghost use Rattle.claim_sheet.specs.Adds.{Adds};
ghost use Rattle.elf_claims.specs.Claims.{section_addresses, section_claim, section_claims, section_reach};

use crate::loads::{has_addresses, is_relocatable};
use claim_sheet::{ClaimSheet, Reach, Wrap, or_if_empty, span};
use elf_file::{ElfFile, SHF_ALLOC, SHT_NOBITS, SHT_NULL};
use size_core::{NoMemory, Span};

fn section_addresses(file: &ElfFile<'_>, i: u32) -> Span
    requires { i < section_count file.now }
    ensures { result ≡ section_addresses file.now i }
{
    let section = file.section(i);
    if is_relocatable(file) {
        span(i, 0, section.size)
    } else {
        span(0, section.addr, section.size)
    }
}

// Returns what the claim of a section covers.
#[tactic(auto, unfolding(crate::specs::Claims::section_reach))]
fn section_reach(file: &ElfFile<'_>, i: u32) -> Option<Reach>
    requires { i < section_count file.now }
    ensures { result ≡ section_reach file.now i }
{
    let section = file.section(i);
    if i == 0 || section.kind == SHT_NULL {
        return None;
    }
    if section.kind == SHT_NOBITS {
        if has_addresses(file, i) {
            return Some(Reach::in_memory(section_addresses(file, i)));
        }
        return None;
    }
    let bytes = span(0, section.offset, section.size);
    if section.flags & SHF_ALLOC != 0 {
        Some(Reach::in_both(section_addresses(file, i), bytes))
    } else {
        Some(Reach::in_file(bytes))
    }
}

#[tactic(auto, unfolding(crate::specs::Claims::section_claim))]
fn add_section(
    file: &ElfFile<'_>,
    i: u32,
    wrap: Wrap,
    sheet: &mut ClaimSheet,
) -> Result<(), NoMemory>
    requires { i < section_count file.now }
    ensures { Adds result sheet.old sheet.new (section_claim wrap file.now i) }
{
    let label = or_if_empty(file.section(i).name, b"[Unnamed section]");
    sheet.add_some(section_reach(file, i), wrap, label)
}

/// Adds the claims of the sections, in order.
#[tactic(auto, using(claim_sheet::proofs::LoopLemmas::gather_goes, claim_sheet::proofs::LoopLemmas::gather_ends), unfolding(crate::specs::Claims::section_claims, elf_file::specs::Tables::header_of))]
pub fn add_sections(file: &ElfFile<'_>, wrap: Wrap, sheet: &mut ClaimSheet) -> Result<(), NoMemory>
    ensures { Adds result sheet.old sheet.new (section_claims wrap file.now) }
{
    for i in 1..file.header().sections {
        add_section(file, i, wrap, sheet)?;
    }
    Ok(())
}
