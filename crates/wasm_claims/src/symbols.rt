//! The claims of functions (WebAssembly core 2.0, 5.5.13 Code Section).

ghost use Rattle.std.specs.Prelude.{◌≡◌, map, Ok, Err, IfOk, IsErrOf};
ghost use Rattle.std.specs.List.{flat_map};
ghost use Rattle.size_core.specs.declared.fault.BadFile.{BadFile as BadFileSpec};
ghost use Rattle.claim_sheet.specs.Adds.{Adds, AddsRead};
ghost use Rattle.wasm_file.specs.Shown.{body as body_of};
ghost use Rattle.wasm_file.specs.Functions.{functions_of};
ghost use Rattle.wasm_claims.specs.Claims.{body_claim, symbols_claims};

use crate::label::numbered_label;
use claim_sheet::{ClaimSheet, Reach, Stop, Wrap, span};
use size_core::NoMemory;
use std::alloc::Global;
use wasm_file::{Body, WasmAnswer, WasmFile};

#[tactic(auto, unfolding(crate::specs::Claims::body_claim))]
fn add_body(alloc: Global, body: &Body<'_>, sheet: &mut ClaimSheet) -> Result<(), NoMemory>
    ensures { Adds result sheet.old sheet.new (body_claim (body_of body.now)) }
{
    let reach = Reach::in_file(span(0, body.place, body.len));
    match body.name {
        Some(name) => sheet.add(reach, Wrap::Plain, name),
        None => {
            let label = numbered_label(alloc, b"func[", body.index)?;
            sheet.add(reach, Wrap::Plain, &label)
        }
    }
}

// Adds the claims of function bodies, in order.
#[tactic(auto, using(claim_sheet::proofs::ListLemmas::shown_goes, claim_sheet::proofs::ListLemmas::shown_ends))]
fn add_bodies(alloc: Global, bodies: &[Body<'_>], sheet: &mut ClaimSheet) -> Result<(), NoMemory>
    ensures { Adds result sheet.old sheet.new (flat_map body_claim (map body_of bodies.now)) }
{
    for body in bodies {
        add_body(alloc, body, sheet)?;
    }
    Ok(())
}

// Returns the functions that have bodies. Bad is the first fault of the imports or of the bodies.
fn functions_of<'a>(alloc: Global, file: &WasmFile<'a>) -> Result<Vec<Body<'a>>, Stop>
    ensures made { IfOk result (λ v. functions_of file.now ≡ Ok (map body_of v.items)) }
    ensures bad { (bad : BadFileSpec) → IsErrOf result (Stop.Bad bad)
        → functions_of file.now ≡ Err bad }
{
    match file.functions(alloc) {
        Ok(bodies) => Ok(bodies),
        Err(WasmAnswer::Bad(bad)) => Err(Stop::Bad(bad)),
        Err(WasmAnswer::NoMemory) => Err(Stop::NoMemory),
    }
}

/// Adds the claims of the functions that have bodies. A claim covers the body and its size field. Bad is the first
/// fault of the imports, or else of the bodies.
#[tactic(auto, unfolding(crate::specs::Claims::symbols_claims))]
pub fn add_symbols(alloc: Global, file: &WasmFile<'_>, sheet: &mut ClaimSheet) -> Result<(), Stop>
    ensures { AddsRead result sheet.old sheet.new (symbols_claims file.now) }
{
    let bodies = functions_of(alloc, file)?;
    add_bodies(alloc, &bodies, sheet).map_err(Stop::from)
}
