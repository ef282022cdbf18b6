//! The claims of a whole file, under its name.

ghost use Rattle.claim_sheet.specs.Adds.{Adds};
ghost use Rattle.data_sources.specs.Groups.{groups_of};
ghost use Rattle.data_sources.specs.Sources.{address_claims, whole_claims};

use crate::groups::FileClaims;
use crate::loads::loads_of;
use claim_sheet::{ClaimSheet, Reach, Wrap, span};
use size_core::NoMemory;

impl FileClaims<'_, '_> {
    // Adds the claims of the addresses of all loads.
    #[tactic(auto, using(crate::proofs::LoadLemmas::loads_go, crate::proofs::LoadLemmas::loads_end, crate::proofs::LoadLemmas::by_loads))]
    fn add_addresses(&self, name: &[u8], sheet: &mut ClaimSheet) -> Result<(), NoMemory>
        ensures { Adds result sheet.old sheet.new
            (address_claims name.now (groups_of self.now.file.now)) }
    {
        let loads = loads_of(self.alloc, self.file)?;
        for load in &loads {
            sheet.add(Reach::of_addresses(load), Wrap::Plain, name)?;
        }
        Ok(())
    }

    /// Adds the claims of all bytes of the file and of the addresses of all loads, under the name of the file.
    #[tactic(auto, using(claim_sheet::proofs::SheetLemmas::adding_more), unfolding(crate::specs::Sources::whole_claims))]
    pub fn add_whole(&self, name: &[u8], sheet: &mut ClaimSheet) -> Result<(), NoMemory>
        ensures { Adds result sheet.old sheet.new
            (whole_claims name.now (groups_of self.now.file.now)) }
    {
        let len = self.file.bytes().len() as u64;
        sheet.add(Reach::in_file(span(0, 0, len)), Wrap::Plain, name)?;
        self.add_addresses(name, sheet)
    }
}
