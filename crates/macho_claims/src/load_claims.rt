//! The claims of loads.

ghost use Rattle.macho_file.specs.Shown.{segment_shown};
ghost use Rattle.claim_sheet.specs.Adds.{Adds};
ghost use Rattle.macho_claims.specs.Claims.{load_claim, load_claims};

use crate::loads::segment_load;
use claim_sheet::{ClaimSheet, Reach, Wrap, or_if_empty};
use macho_file::{MachoFile, MachoSegment};
use size_core::NoMemory;

#[tactic(auto, using(claim_sheet::proofs::SheetLemmas::adding_none), unfolding(crate::specs::Claims::load_claim))]
fn add_load(
    len: u64,
    segment: &MachoSegment<'_>,
    wrap: Wrap,
    sheet: &mut ClaimSheet,
) -> Result<(), NoMemory>
    ensures { Adds result sheet.old sheet.new (load_claim wrap len (segment_shown segment.now)) }
{
    match segment_load(segment) {
        None => Ok(()),
        Some(load) => {
            let label = or_if_empty(segment.name, b"[Unnamed segment]");
            sheet.add(Reach::of_load(len, &load), wrap, label)
        }
    }
}

/// Adds the claims of the loads, in order.
#[tactic(auto, using(claim_sheet::proofs::LoopLemmas::list_goes, claim_sheet::proofs::ListLemmas::none_left), unfolding(crate::specs::Claims::load_claims))]
pub fn add_loads(file: &MachoFile<'_>, wrap: Wrap, sheet: &mut ClaimSheet) -> Result<(), NoMemory>
    ensures { Adds result sheet.old sheet.new (load_claims wrap file.now) }
{
    let len = file.bytes().len() as u64;
    for segment in file.segments() {
        add_load(len, &segment, wrap, sheet)?;
    }
    Ok(())
}
