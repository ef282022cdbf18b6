//! The labels of the units that were read, by their offsets.

ghost use Rattle.std.specs.Prelude.{◌≡◌, List, IfSome};
ghost use Rattle.std.specs.Option.{option_map};
ghost use Rattle.size_model.specs.declared.view.LabelledClaim.{LabelledClaim};
ghost use Rattle.claim_sheet.specs.Known.{IsKnown};
ghost use Rattle.dwarf_claims.specs.SetClaims.{label_at};
ghost use Rattle.dwarf_claims.specs.Tables.{AreKnownUnits, Ascends, shown_units};

use claim_sheet::KnownLabel;

/// A unit that was read, with its offset in `.debug_info` and its label.
#[derive(Clone, Copy)]
pub struct KnownUnit<'a> {
    pub offset: u64,
    pub label: KnownLabel<'a>,
}

/// Returns the label of the unit that begins at an offset of `.debug_info`. `None` if none of these units does.
#[tactic(auto, unfolding(crate::specs::Tables::AreKnownUnits))]
pub fn label_at<'a>(units: &[KnownUnit<'a>], offset: u64) -> Option<KnownLabel<'a>>
    requires { Ascends 0 (shown_units units.now) }
    ensures label { option_map (λ l. l.text.now) result ≡ label_at (shown_units units.now) offset }
    ensures known { (made : List LabelledClaim) → AreKnownUnits made units.now
        → IfSome result (λ l. IsKnown made l) }
{
    match units.binary_search_by_key(&offset, |unit| unit.offset) {
        Ok(i) => Some(units[i].label),
        Err(_) => None,
    }
}
