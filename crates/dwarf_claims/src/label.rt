//! The labels of units.

ghost use Rattle.std.specs.Prelude.{◌≡◌};
ghost use Rattle.std.specs.Option.{option_copied};
ghost use Rattle.size_core.specs.Checks.{Gives};
ghost use Rattle.dwarf_units.specs.Roots.{shown_root};
ghost use Rattle.dwarf_claims.specs.UnitClaims.{label_of, or_unnamed};

use dwarf_units::{Root, Sections};
use size_core::BadFile;

fn or_unnamed(name: Option<&[u8]>) -> &[u8]
    ensures { result.now ≡ or_unnamed (option_copied name.entry) }
{
    match name {
        Some(name) if !name.is_empty() => name,
        _ => b"[Unnamed unit]",
    }
}

/// Returns the label of a unit, or the fault of its name. A missing or empty name gives `[Unnamed unit]`.
#[tactic(auto, unfolding(crate::specs::UnitClaims::label_of))]
pub fn label_of<'a>(root: &Root<'a>, sections: &Sections<'a>) -> Result<&'a [u8], BadFile>
    ensures { Gives (λ t. t.now) result (label_of sections.now (shown_root root.now)) }
{
    match root.name_text(sections) {
        Ok(name) => Ok(or_unnamed(name)),
        Err(bad) => Err(bad),
    }
}
