//! Reading the roots of units in a row. Many units share a table of abbreviations (DWARF 5, section 7.5.3), so the last
//! tables are kept. Of a table that a second unit uses, the code of that unit is kept, too. If another unit has another
//! code, the table gets an index.

ghost use Rattle.std.specs.Prelude.{◌≡◌};
ghost use Rattle.size_core.specs.Checks.{Gives};
ghost use Rattle.dwarf_units.specs.Filling.{code_of};
ghost use Rattle.dwarf_units.specs.Roots.{root_in, root_of, shown_root};
ghost use Rattle.dwarf_claims.specs.Codes.{IsKnownOf};
ghost use Rattle.dwarf_claims.specs.Reads.{Reads};
ghost use Rattle.dwarf_claims.specs.Tables.{AreTablesOf, IsStillTable, IsTableOf};

use crate::index::index_of;
use crate::known_codes::{KnownCodes, one_code};
use claim_sheet::Stop;
use dwarf_abbrev::Abbrevs;
use dwarf_units::{DwarfUnit, Root, Sections};
use size_core::{BadFile, NoMemory};
use std::alloc::Global;
use std::mem::swap;

/// A table of abbreviations, with its offset in `.debug_abbrev`, and what is known of its declarations.
#[derive(Drop)]
pub struct LastTable<'a> {
    pub offset: u64,
    pub table: Abbrevs<'a>,
    pub known: KnownCodes,
}

impl<'a> LastTable<'a> {
    // Makes the declaration of a code known for one more unit, if there is a code. If another code is known already,
    // all codes of the table become known.
    fn know(&mut self, alloc: Global, code: Option<u64>) -> Result<(), NoMemory>
        requires { IsKnownOf self.old.table.declarations self.old.known }
        ensures { IsStillTable self.old self.new }
    {
        let Some(code) = code else {
            return Ok(());
        };
        let known = match &self.known {
            KnownCodes::Nothing => one_code(alloc, &self.table, code)?,
            KnownCodes::One(known) if known.code != code => {
                KnownCodes::Index(index_of(alloc, &self.table)?)
            }
            KnownCodes::One(_) | KnownCodes::Index(_) => return Ok(()),
        };
        self.known = known;
        Ok(())
    }

    // Returns the root of a unit of the table, whose root has this code.
    fn root_by_known(&self, unit: &DwarfUnit<'a>, code: Option<u64>) -> Result<Root<'a>, BadFile>
        requires code { code ≡ code_of unit.now }
        requires known { IsKnownOf self.now.table.declarations self.now.known }
        ensures { Gives shown_root result (root_in self.now.table unit.now) }
    {
        match &self.known {
            KnownCodes::One(one) if code == Some(one.code) => unit.root_with(
                &self.table,
                &one.specs,
            ),
            KnownCodes::Index(index) => unit.root_by(&self.table, index),
            _ => unit.root_in(&self.table),
        }
    }

    // Returns the root of one more unit of the table.
    fn root_again(&mut self, alloc: Global, unit: &DwarfUnit<'a>) -> Result<Root<'a>, Stop>
        requires { IsKnownOf self.old.table.declarations self.old.known }
        ensures root { Reads shown_root result (root_in self.old.table unit.now) }
        ensures table { IsStillTable self.old self.new }
    {
        let code = unit.code();
        self.know(alloc, code)?;
        self.root_by_known(unit, code).map_err(Stop::Bad)
    }
}

/// The last two tables that were used. Two are kept because units of two tables may alternate.
#[derive(Drop)]
pub struct LastTables<'a> {
    pub recent: Option<LastTable<'a>>,
    pub older: Option<LastTable<'a>>,
}

// Returns the root of a unit. If `last` isn't its table, its table is read and replaces `last`.
#[tactic(auto, using(crate::proofs::KeptLemmas::same_table, crate::proofs::KeptLemmas::still_read))]
fn root_by_last<'a>(
    alloc: Global,
    sections: &Sections<'a>,
    unit: &DwarfUnit<'a>,
    last: &mut Option<LastTable<'a>>,
) -> Result<Root<'a>, Stop>
    requires { IsTableOf sections.now last.old }
    ensures root { Reads shown_root result (root_of sections.now unit.now) }
    ensures table { IsTableOf sections.now last.new }
{
    if let Some(known) = last
        && known.offset == unit.abbrev_offset
    {
        return known.root_again(alloc, unit);
    }
    let table = Abbrevs::at(&sections.abbrev, unit.abbrev_offset, unit.place)?;
    let root = unit.root_in(&table).map_err(Stop::Bad);
    *last = Some(LastTable {
        offset: unit.abbrev_offset,
        table,
        known: KnownCodes::Nothing,
    });
    root
}

/// Returns the root of a unit. Its table of abbreviations is read only if it isn't one of the last two. The table that was
/// used last is never the one that the next new table replaces. Bad is the first fault of the table or the root.
#[tactic(auto, using(crate::proofs::KeptLemmas::still_read))]
pub fn root_of<'a>(
    alloc: Global,
    sections: &Sections<'a>,
    unit: &DwarfUnit<'a>,
    last: &mut LastTables<'a>,
) -> Result<Root<'a>, Stop>
    requires { AreTablesOf sections.now last.old }
    ensures root { Reads shown_root result (root_of sections.now unit.now) }
    ensures tables { AreTablesOf sections.now last.new }
{
    if let Some(recent) = &mut last.recent
        && recent.offset == unit.abbrev_offset
    {
        return recent.root_again(alloc, unit);
    }
    swap(&mut last.recent, &mut last.older);
    root_by_last(alloc, sections, unit, &mut last.recent)
}
