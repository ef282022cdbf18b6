//! The claim of a module's header (WebAssembly core 2.0, 5.5.16 Modules).

ghost use Rattle.claim_sheet.specs.Adds.{Adds};
ghost use Rattle.claim_sheet.specs.Reaches.{claim_on, in_file, span};
ghost use Rattle.wasm_claims.specs.Claims.{header_claims};

use claim_sheet::{ClaimSheet, Reach, Wrap, span};
use size_core::NoMemory;
use wasm_file::WasmFile;

// Adds the claim of bytes of the file.
fn add_part(offset: u64, len: u64, label: &[u8], sheet: &mut ClaimSheet) -> Result<(), NoMemory>
    ensures { Adds result sheet.old sheet.new (claim_on (in_file (span 0 offset len)) label.now) }
{
    sheet.add(Reach::in_file(span(0, offset, len)), Wrap::Plain, label)
}

/// Adds the claim of the first eight bytes of a module: the magic number and the version.
#[tactic(auto, unfolding(crate::specs::Claims::header_reach))]
pub fn add_headers(_file: &WasmFile<'_>, sheet: &mut ClaimSheet) -> Result<(), NoMemory>
    ensures { Adds result sheet.old sheet.new (header_claims _file.now) }
{
    add_part(0, 8, b"[WASM Header]", sheet)
}
