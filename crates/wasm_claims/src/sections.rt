//! The claims of sections (WebAssembly core 2.0, 5.5.2 Sections).

ghost use Rattle.std.specs.Prelude.{◌≡◌};
ghost use Rattle.std.specs.Option.{option_copied};
ghost use Rattle.claim_sheet.specs.Adds.{Adds};
ghost use Rattle.wasm_file.specs.Shown.{section as section_of};
ghost use Rattle.wasm_claims.specs.Claims.{known_label, section_claim, section_claims, standard_name};

use crate::label::numbered_label;
use claim_sheet::{ClaimSheet, Reach, Wrap, span};
use size_core::NoMemory;
use std::alloc::Global;
use wasm_file::{
    CODE, CUSTOM, DATA, DATA_COUNT, ELEMENT, EXPORT, FUNCTION, GLOBAL, IMPORT, MEMORY, START,
    TABLE, TYPE, WasmFile, WasmSection,
};

// Returns the name that the standard gives the sections with this id.
fn standard_name(id: u8) -> Option<&'static [u8]>
    ensures { option_copied result ≡ standard_name id }
{
    match id {
        TYPE => Some(b"Type"),
        IMPORT => Some(b"Import"),
        FUNCTION => Some(b"Function"),
        TABLE => Some(b"Table"),
        MEMORY => Some(b"Memory"),
        GLOBAL => Some(b"Global"),
        EXPORT => Some(b"Export"),
        START => Some(b"Start"),
        ELEMENT => Some(b"Element"),
        CODE => Some(b"Code"),
        DATA => Some(b"Data"),
        DATA_COUNT => Some(b"DataCount"),
        _ => None,
    }
}

// Returns the label of a custom section, or of one whose id is in the standard.
fn known_label<'a>(section: &WasmSection<'a>) -> Option<&'a [u8]>
    ensures { option_copied result ≡ known_label (section_of section.now) }
{
    if section.id == CUSTOM {
        return Some(section.name.unwrap_or(b"[Custom]"));
    }
    standard_name(section.id)
}

#[tactic(auto, unfolding(crate::specs::Claims::section_claim))]
fn add_section(
    alloc: Global,
    section: &WasmSection<'_>,
    wrap: Wrap,
    sheet: &mut ClaimSheet,
) -> Result<(), NoMemory>
    ensures { Adds result sheet.old sheet.new (section_claim wrap (section_of section.now)) }
{
    let reach = Reach::in_file(span(0, section.place, section.len));
    match known_label(section) {
        Some(label) => sheet.add(reach, wrap, label),
        None => {
            let label = numbered_label(alloc, b"[Section #", u32::from(section.id))?;
            sheet.add(reach, wrap, &label)
        }
    }
}

/// Adds the claims of the sections, in order.
#[tactic(auto, using(claim_sheet::proofs::LoopLemmas::list_goes, claim_sheet::proofs::ListLemmas::none_left), unfolding(crate::specs::Claims::section_claims))]
pub fn add_sections(
    alloc: Global,
    file: &WasmFile<'_>,
    wrap: Wrap,
    sheet: &mut ClaimSheet,
) -> Result<(), NoMemory>
    ensures { Adds result sheet.old sheet.new (section_claims wrap file.now) }
{
    for section in file.sections() {
        add_section(alloc, &section, wrap, sheet)?;
    }
    Ok(())
}
