//! The claims of a data source on a debug file: those on the addresses of the stripped file that it belongs to.

ghost use Rattle.claim_sheet.specs.Adds.{AddsRead};
ghost use Rattle.data_sources.specs.Groups.{groups_of};
ghost use Rattle.data_sources.specs.Lists.{Lists};
ghost use Rattle.data_sources.specs.Sources.{debug_claims_of, debug_records};

use crate::answer::ClaimAnswer;
use crate::binary::Binary;
use crate::groups::FileClaims;
use crate::listing::finish;
use claim_sheet::{ClaimSheet, Stop};
use size_core::{Claim, LabelPool, Source};
use std::alloc::Global;

impl FileClaims<'_, '_> {
    // Adds the claims of the records of a data source on a debug file. Bad is their first fault.
    #[tactic(auto, using(claim_sheet::proofs::SheetLemmas::adding_none))]
    fn add_debug_records(&self, source: Source, sheet: &mut ClaimSheet) -> Result<(), Stop>
        ensures { AddsRead result sheet.old sheet.new
            (debug_records source (groups_of self.now.file.now)) }
    {
        match source {
            Source::Segments | Source::Sections | Source::InputFiles => Ok(()),
            Source::Symbols | Source::RawSymbols | Source::CompileUnits | Source::Inlines => {
                self.add_records(source, sheet)
            }
        }
    }
}

/// Returns the claims of a data source on a debug file, in order, with labels as numbers in the pool. They are the
/// claims on addresses, without bytes of the file, of the symbols, of the compile units and address sets, or of the
/// lines. A data source over the parts of the file itself (segments, sections, input files) has none.
///
/// Bad is the first fault of these records. If there is none, TooManyClaims means that there are more claims than
/// `limit`. In all cases the labels of the pool keep their numbers. If the claims are returned, each new label is that of
/// a claim.
pub fn debug_claims(
    alloc: Global,
    binary: &Binary<'_>,
    source: Source,
    pool: &mut LabelPool,
    limit: u64,
) -> Result<Vec<Claim>, ClaimAnswer>
    ensures { Lists (debug_claims_of source binary.now) limit result pool.old pool.new }
{
    let mut sheet = ClaimSheet::begin_on_addresses(alloc, pool, limit);
    let walk = FileClaims {
        alloc,
        file: binary,
    }
    .add_debug_records(source, &mut sheet);
    finish(sheet, walk, pool)
}
