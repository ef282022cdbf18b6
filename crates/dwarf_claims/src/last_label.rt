//! The label of the unit that was read last. Units in a row may have one name, which may be long.

ghost use Rattle.std.specs.Prelude.{List};
ghost use Rattle.size_core.specs.Checks.{Gives};
ghost use Rattle.size_model.specs.declared.view.LabelledClaim.{LabelledClaim};
ghost use Rattle.claim_sheet.specs.Known.{IsKnown};
ghost use Rattle.dwarf_units.specs.Roots.{shown_root};
ghost use Rattle.dwarf_claims.specs.KnownLabels.{IsLabelOf};
ghost use Rattle.dwarf_claims.specs.UnitClaims.{label_of};

use crate::label::label_of;
use claim_sheet::KnownLabel;
use dwarf_units::{Root, Sections, StringAt};
use size_core::BadFile;

/// The label of the unit that was read last, and the section and offset of its name, if it is in a section of strings.
#[derive(Clone, Copy)]
pub struct LastLabel<'a> {
    pub name: Option<StringAt>,
    pub label: KnownLabel<'a>,
}

impl<'a> LastLabel<'a> {
    /// Sets `self` to the label of a unit. A name that the unit before had isn't read again. The fault is that of the
    /// name.
    #[tactic(auto, using(crate::proofs::KeptLemmas::label_again, crate::proofs::KeptLemmas::label_new))]
    pub fn read(&mut self, root: &Root<'a>, sections: &Sections<'a>) -> Result<(), BadFile>
        requires { IsLabelOf sections.now self.old }
        ensures label { Gives (λ _. self.new.label.text.now) result
            (label_of sections.now (shown_root root.now)) }
        ensures last { IsLabelOf sections.now self.new }
        ensures known { (made : List LabelledClaim) → IsKnown made self.old.label
            → IsKnown made self.new.label }
    {
        let name = root.name_at(sections);
        if name.is_some() && name == self.name {
            return Ok(());
        }
        let text = label_of(root, sections)?;
        let label = KnownLabel { text, claim: None };
        *self = LastLabel { name, label };
        Ok(())
    }
}
