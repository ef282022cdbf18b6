//! The claims of sections (`mach-o/loader.h`: `section`, `section_64`).

ghost use Rattle.std.specs.Prelude.{◌≡◌, IfOk};
ghost use Rattle.macho_file.specs.Shown.{section_shown};
ghost use Rattle.claim_sheet.specs.Adds.{Adds};
ghost use Rattle.macho_claims.specs.Claims.{section_claim, section_claims, section_label, section_reach};

use claim_sheet::{ClaimSheet, Reach, Wrap, span};
use macho_file::{MachoFile, MachoSection};
use size_core::NoMemory;
use std::alloc::Global;

// Returns what the claim of a section covers.
#[tactic(auto, unfolding(crate::specs::Claims::section_reach))]
fn section_reach(section: &MachoSection<'_>) -> Reach
    ensures { result ≡ section_reach (section_shown section.now) }
{
    let addresses = span(0, section.addr, section.size);
    if section.in_file {
        Reach::in_both(addresses, span(0, section.offset, section.size))
    } else {
        Reach::in_memory(addresses)
    }
}

// Returns the label of a section: the names of its segment and its own, with a comma between them.
fn section_label(alloc: Global, section: &MachoSection<'_>) -> Result<Vec<u8>, NoMemory>
    ensures { IfOk result (λ v. v.items ≡ section_label (section_shown section.now)) }
{
    let parts = [section.segment, b",", section.name];
    parts.concat(alloc).map_err(NoMemory::from)
}

#[tactic(auto, unfolding(crate::specs::Claims::section_claim))]
fn add_section(
    alloc: Global,
    section: &MachoSection<'_>,
    wrap: Wrap,
    sheet: &mut ClaimSheet,
) -> Result<(), NoMemory>
    ensures { Adds result sheet.old sheet.new (section_claim wrap (section_shown section.now)) }
{
    let label = section_label(alloc, section)?;
    sheet.add(section_reach(section), wrap, &label)
}

/// Adds the claims of the sections of all segments, in order.
#[tactic(auto, using(claim_sheet::proofs::LoopLemmas::list_goes, claim_sheet::proofs::ListLemmas::none_left), unfolding(crate::specs::Claims::section_claims))]
pub fn add_sections(
    alloc: Global,
    file: &MachoFile<'_>,
    wrap: Wrap,
    sheet: &mut ClaimSheet,
) -> Result<(), NoMemory>
    ensures { Adds result sheet.old sheet.new (section_claims wrap file.now) }
{
    for section in file.sections() {
        add_section(alloc, &section, wrap, sheet)?;
    }
    Ok(())
}
