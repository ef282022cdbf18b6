//! The claims of a data source on a file.

ghost use Rattle.std.specs.Prelude.{ℕ};
ghost use Rattle.claim_sheet.specs.Adds.{Adds, AddsRead};
ghost use Rattle.data_sources.specs.Groups.{Reading, groups_of};
ghost use Rattle.data_sources.specs.Lists.{Fills, Lists};
ghost use Rattle.data_sources.specs.Sources.{claims_of, parts_claims, records_of, segments_claims, with_tail};

use crate::answer::ClaimAnswer;
use crate::binary::Binary;
use crate::groups::FileClaims;
use claim_sheet::{ClaimSheet, Stop, Wrap};
use size_core::{Claim, LabelPool, NoMemory, Source};
use std::alloc::Global;

impl FileClaims<'_, '_> {
    // Adds the claims of the group that `segments` shows, and then those of the headers.
    #[tactic(auto, using(claim_sheet::proofs::SheetLemmas::adding_more), unfolding(crate::specs::Sources::segments_claims))]
    fn add_segments_and_headers(&self, sheet: &mut ClaimSheet) -> Result<(), NoMemory>
        ensures { Adds result sheet.old sheet.new (segments_claims (groups_of self.now.file.now)) }
    {
        self.add_segments(sheet)?;
        self.add_headers(sheet)
    }

    // Adds the claims of the sections, the link-edit parts and the headers, and then those of the loads in brackets.
    #[tactic(auto, using(claim_sheet::proofs::SheetLemmas::adding_more), unfolding(crate::specs::Sources::parts_claims))]
    fn add_parts(&self, wrap: Wrap, sheet: &mut ClaimSheet) -> Result<(), NoMemory>
        ensures { Adds result sheet.old sheet.new
            (parts_claims wrap (groups_of self.now.file.now)) }
    {
        self.add_sections(wrap, sheet)?;
        self.add_link_edit(sheet)?;
        self.add_headers(sheet)?;
        self.add_loads(Wrap::Brackets, sheet)
    }

    /// Adds the claims of the records of a data source: units, lines or symbols. Bad is their first fault.
    pub fn add_records(&self, source: Source, sheet: &mut ClaimSheet) -> Result<(), Stop>
        ensures { AddsRead result sheet.old sheet.new
            (records_of source (groups_of self.now.file.now)) }
    {
        match source {
            Source::CompileUnits => self.add_units(sheet),
            Source::Inlines => self.add_lines(sheet),
            _ => self.add_symbols(sheet),
        }
    }

    // Adds the claims of the records, and then those of the parts of the file. So a byte that no record claims has the
    // label of its section or load.
    #[tactic(auto, using(claim_sheet::proofs::LoopLemmas::joined_front, claim_sheet::proofs::LoopLemmas::joined_claims), unfolding(crate::specs::Sources::with_tail))]
    fn add_with_tail(&self, source: Source, sheet: &mut ClaimSheet) -> Result<(), Stop>
        ensures { let g = groups_of self.now.file.now in
            AddsRead result sheet.old sheet.new (with_tail (records_of source g) g) }
    {
        self.add_records(source, sheet)?;
        self.add_parts(Wrap::Section, sheet)?;
        Ok(())
    }

    // Adds the claims of a data source. Bad is its first fault.
    fn add_source(&self, source: Source, name: &[u8], sheet: &mut ClaimSheet) -> Result<(), Stop>
        ensures { AddsRead result sheet.old sheet.new
            (claims_of source name.now self.now.file.now) }
    {
        match source {
            Source::Segments => self.add_segments_and_headers(sheet).map_err(Stop::from),
            Source::Sections => self.add_parts(Wrap::Plain, sheet).map_err(Stop::from),
            Source::InputFiles => self.add_whole(name, sheet).map_err(Stop::from),
            Source::Symbols | Source::RawSymbols | Source::CompileUnits | Source::Inlines => {
                self.add_with_tail(source, sheet)
            }
        }
    }
}

// Returns the claims of a sheet after the walk over its records. The fault of the walk comes before too many claims.
pub(crate) fn finish(
    sheet: ClaimSheet,
    walk: Result<(), Stop>,
    pool: &mut LabelPool,
) -> Result<Vec<Claim>, ClaimAnswer>
    ensures { (reading : Reading) (limit : ℕ) → Fills reading limit walk sheet
        → Lists reading limit result sheet.pool pool.new }
{
    let made = sheet.finish(pool);
    walk?;
    Ok(made?)
}

/// Returns the claims of a data source on a file, in order. Labels are numbers in the pool; `name` is the name of the
/// file, which is the label of InputFiles.
///
/// Bad is the first fault of the source. If there is none, TooManyClaims means that there are more claims than `limit`.
/// In all cases the labels of the pool keep their numbers. If the claims are returned, each new label is that of a claim.
pub fn claims(
    alloc: Global,
    binary: &Binary<'_>,
    source: Source,
    name: &[u8],
    pool: &mut LabelPool,
    limit: u64,
) -> Result<Vec<Claim>, ClaimAnswer>
    ensures { Lists (claims_of source name.now binary.now) limit result pool.old pool.new }
{
    let mut sheet = ClaimSheet::begin(alloc, pool, limit);
    let walk = FileClaims {
        alloc,
        file: binary,
    }
    .add_source(source, name, &mut sheet);
    finish(sheet, walk, pool)
}
