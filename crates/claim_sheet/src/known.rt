//! Labels that are known by a claim of a sheet.

ghost use Rattle.std.specs.Prelude.{◌≡◌, IfOk, OnOk, OnErr};
ghost use Rattle.claim_sheet.specs.Adds.{Adds};
ghost use Rattle.claim_sheet.specs.Known.{IsKnown, IsKnownBy, position_added, position_known};
ghost use Rattle.claim_sheet.specs.Reaches.{claim_on};

use crate::labels::{ClaimLabel, Wrap};
use crate::reach::Reach;
use crate::sheet::ClaimSheet;
use size_core::NoMemory;

/// A label, and the position of a claim with this label on a sheet, if one is known. Such a label isn't looked up
/// again, which takes as long as the label.
#[derive(Clone, Copy)]
pub struct KnownLabel<'a> {
    /// The label.
    pub text: &'a [u8],
    /// The position of a claim with this label.
    pub claim: Option<usize>,
}

impl ClaimSheet {
    /// Adds a claim, and returns its position on the sheet, counted from 0. The position is None if no claim was
    /// kept.
    #[tactic(auto, using(crate::proofs::KnownLemmas::noted, crate::proofs::SheetLemmas::adding_none))]
    pub fn add_noted(&mut self, reach: Reach, label: &[u8]) -> Result<Option<usize>, NoMemory>
        ensures adds { Adds result self.old self.new (claim_on reach label.now) }
        ensures known { IfOk result (λ claim. IsKnownBy self.new.made label.now claim) }
        ensures position { IfOk result (λ claim.
            claim ≡ position_added self.old.made self.new.made) }
        ensures same { OnErr result (self.new ≡ self.old) }
    {
        if reach.is_empty() {
            return Ok(None);
        }
        let next = self.len();
        self.add_any(reach, ClaimLabel::Text(label, Wrap::Plain))?;
        if self.len() > next {
            return Ok(Some(next));
        }
        Ok(None)
    }

    /// Adds a claim under a label that may be known. If it isn't, and the claim was kept, it is known from then on.
    #[tactic(auto, using(crate::proofs::KnownLemmas::known_after))]
    pub fn add_known(&mut self, reach: Reach, label: &mut KnownLabel<'_>) -> Result<(), NoMemory>
        requires { IsKnown self.old.made label.old }
        ensures adds { Adds result self.old self.new (claim_on reach label.old.text.now) }
        ensures known { OnOk result (IsKnown self.new.made label.new) }
        ensures position { OnOk result (label.new.claim
            ≡ position_known label.old.claim self.old.made self.new.made) }
        ensures same { OnErr result (self.new ≡ self.old) }
        ensures text { label.new.text.now ≡ label.old.text.now }
    {
        if let Some(claim) = label.claim {
            return self.add_like(reach, claim);
        }
        label.claim = self.add_noted(reach, label.text)?;
        Ok(())
    }
}
