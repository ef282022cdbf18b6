//! The claims of the Mach-O header and of the load commands (`mach-o/loader.h`: `mach_header`).

ghost use Rattle.std.specs.Prelude.{◌≡◌};
ghost use Rattle.claim_sheet.specs.Adds.{Adds};
ghost use Rattle.macho_claims.specs.Claims.{commands_reach, header_claims};

use claim_sheet::{ClaimSheet, Reach, Wrap, span};
use macho_file::MachoFile;
use size_core::NoMemory;

fn commands_reach(file: &MachoFile<'_>) -> Reach
    ensures { result ≡ commands_reach file.now }
{
    let len = u64::from(file.commands_size());
    Reach::in_file(span(0, file.header_len(), len))
}

/// Adds the claims of the header and of the load commands, which follow it.
#[tactic(auto, using(claim_sheet::proofs::SheetLemmas::adding_more), unfolding(crate::specs::Claims::header_claims))]
pub fn add_headers(file: &MachoFile<'_>, sheet: &mut ClaimSheet) -> Result<(), NoMemory>
    ensures { Adds result sheet.old sheet.new (header_claims file.now) }
{
    let header = span(0, 0, file.header_len());
    sheet.add(Reach::in_file(header), Wrap::Plain, b"[Mach-O Header]")?;
    sheet.add(commands_reach(file), Wrap::Plain, b"[Mach-O Load Commands]")
}
