//! The claims of the sets of `.debug_aranges` (DWARF 5, section 6.1.2).

ghost use Rattle.std.specs.Prelude.{◌≡◌, Some};
ghost use Rattle.claim_sheet.specs.Adds.{Adds, AddsRead};
ghost use Rattle.claim_sheet.specs.Known.{IsKnown};
ghost use Rattle.dwarf_units.specs.Units.{units_of};
ghost use Rattle.dwarf_claims.specs.SetClaims.{labels_of, named_claims, set_claims, sets_claims, tuple_claim};
ghost use Rattle.dwarf_claims.specs.Tables.{AreReadUnits, shown_units};

use crate::known::{KnownUnit, label_at};
use claim_sheet::{ClaimSheet, KnownLabel, Reach, Stop, span};
use dwarf_ranges::{AddressSet, Tuples, arange_sets, claims_nothing};
use dwarf_units::Sections;
use size_core::{BadFile, NoMemory};

// Adds the claims of a set under the label of its unit. Empty tuples, and those of dropped functions, claim nothing.
#[tactic(auto, using(claim_sheet::proofs::LoopLemmas::list_goes, claim_sheet::proofs::ListLemmas::none_left, claim_sheet::proofs::SheetLemmas::adding_more, claim_sheet::proofs::SheetLemmas::adding_none), unfolding(crate::specs::SetClaims::named_claims, crate::specs::SetClaims::tuple_claim, crate::specs::UnitClaims::range_claim))]
fn add_named(
    set: AddressSet<'_>,
    label: KnownLabel<'_>,
    sheet: &mut ClaimSheet,
) -> Result<(), NoMemory>
    requires { IsKnown sheet.old.made label }
    ensures { Adds result sheet.old sheet.new
        (named_claims set.entry (Some label.entry.text.now)) }
{
    let mut label = label;
    let bytes = Reach::in_file(span(0, set.place, set.len));
    let size = set.address;
    for tuple in set.tuples {
        if claims_nothing(size, tuple.0, tuple.1) {
            continue;
        }
        sheet.add_known(Reach::in_memory(span(0, tuple.0, tuple.1)), &mut label)?;
    }
    sheet.add_known(bytes, &mut label)
}

// Adds the claims of a set. Without a unit at its offset there are none. Bad is the fault that ends the sets.
#[tactic(auto, using(claim_sheet::proofs::SheetLemmas::adding_none), unfolding(crate::specs::SetClaims::named_claims))]
fn add_set(
    units: &[KnownUnit<'_>],
    set: Result<AddressSet<'_>, BadFile>,
    sheet: &mut ClaimSheet,
) -> Result<(), Stop>
    requires { AreReadUnits sheet.old.made units.now }
    ensures { AddsRead result sheet.old sheet.new (set_claims (shown_units units.now) set.entry) }
{
    match set {
        Ok(set) => match label_at(units, set.info_offset) {
            Some(label) => add_named(set, label, sheet).map_err(Stop::from),
            None => Ok(()),
        },
        Err(bad) => Err(Stop::Bad(bad)),
    }
}

/// Adds the claims of the address sets, in order, each under the label of its unit. Bad is the fault that ends them.
#[tactic(auto, using(claim_sheet::proofs::LoopLemmas::read_list_goes, claim_sheet::proofs::LoopLemmas::read_list_ends, crate::proofs::KnownLemmas::read_after), unfolding(crate::specs::SetClaims::sets_claims))]
pub fn add_sets(
    sections: &Sections<'_>,
    units: &[KnownUnit<'_>],
    sheet: &mut ClaimSheet,
) -> Result<(), Stop>
    requires labels { shown_units units.now ≡ labels_of sections.now (units_of sections.now) }
    requires read { AreReadUnits sheet.old.made units.now }
    ensures { AddsRead result sheet.old sheet.new (sets_claims sections.now) }
{
    for set in arange_sets(sections) {
        add_set(units, set, sheet)?;
    }
    Ok(())
}
