//! Reading the root of a unit.

ghost use Rattle.std.specs.Prelude.{◌≡◌, []};
ghost use Rattle.size_core.specs.Checks.{Gives, bad};
ghost use Rattle.size_core.specs.declared.fault.Fault.TheVariants.{BadAbbrev};
ghost use Rattle.dwarf_units.specs.Filling.{AreSpecsOf, IsIndexOf, code_of, filled_from, root_code};
ghost use Rattle.dwarf_units.specs.Roots.{root_in, root_of, root_with, shown_root};

use crate::root::{Root, add_value};
use crate::sections::Sections;
use crate::unit::DwarfUnit;
use byte_cursor::Cursor;
use dwarf_abbrev::{Abbrevs, Entry, Spec, UnitShape, read_form};
use size_core::{BadFile, Fault};
use std::collections::BTreeMap;

/// Reads the values of a declaration into the root. The cursor is at the first value.
#[tactic(auto, using(crate::proofs::RootLemmas::filled_end, crate::proofs::RootLemmas::filled_more, crate::proofs::RootLemmas::filled_bad))]
fn read_values<'a>(
    declared: Entry<'a>,
    shape: &UnitShape,
    mut cursor: Cursor<'a>,
    mut root: Root<'a>,
) -> Result<Root<'a>, BadFile>
    ensures { Gives shown_root result
        (filled_from shape.now declared.entry.specs cursor.entry (shown_root root.entry)) }
{
    for spec in declared {
        let value = read_form(&mut cursor, &spec, shape)?;
        add_value(&mut root, spec.attribute, value);
    }
    Ok(root)
}

/// Reads the values of these attributes into the root. The cursor is at the first value.
#[tactic(auto, using(crate::proofs::RootLemmas::listed_end, crate::proofs::RootLemmas::listed_bad))]
fn read_listed<'a>(
    specs: &[Spec],
    shape: &UnitShape,
    mut cursor: Cursor<'a>,
    mut root: Root<'a>,
) -> Result<Root<'a>, BadFile>
    ensures { Gives shown_root result
        (filled_from shape.now specs.now cursor.entry (shown_root root.entry)) }
{
    for spec in specs {
        let value = read_form(&mut cursor, spec, shape)?;
        add_value(&mut root, spec.attribute, value);
    }
    Ok(root)
}

/// The root of a unit with no values.
#[tactic(auto, unfolding(crate::specs::Roots::first_value))]
fn bare_root<'a>(unit: &DwarfUnit<'a>, table: &Abbrevs<'a>) -> Root<'a>
    ensures { shown_root result ≡ root_with unit.now table.now [] }
{
    Root {
        place: unit.place,
        shape: unit.shape,
        table_place: table.table_place(),
        table_len: table.table_len(),
        name: None,
        low: None,
        high: None,
        ranges: None,
        lines: None,
        str_base: None,
        addr_base: None,
        list_base: None,
    }
}

/// The code of the unit's root, and a cursor at the first value. `None` if the root has no values.
#[tactic(auto, unfolding(crate::specs::Filling::root_code, dwarf_abbrev::specs::Reads::uleb_from))]
fn root_code<'a>(unit: &DwarfUnit<'a>) -> Result<Option<(u64, Cursor<'a>)>, BadFile>
    ensures { result ≡ root_code unit.now }
{
    let mut cursor = unit.body.fork();
    if cursor.left() == 0 {
        return Ok(None);
    }
    let code = cursor.uleb()?;
    if code == 0 {
        return Ok(None);
    }
    Ok(Some((code, cursor)))
}

/// The fault of a unit whose root has a code that isn't declared.
fn undeclared<'a>(place: u64) -> Result<Root<'a>, BadFile>
    ensures { Gives shown_root result (bad BadAbbrev place) }
{
    Err(BadFile {
        fault: Fault::BadAbbrev,
        offset: place,
    })
}

impl<'a> DwarfUnit<'a> {
    /// The root of the unit, with the table of its abbreviations: `Abbrevs::at` of the unit's `abbrev_offset`.
    /// Units that share a table need it read only once.
    ///
    /// The root has no values if its code is 0, or if no byte follows the header. Truncated or BadLeb at
    /// the code's file offset if the code can't be read. BadAbbrev at the unit's file offset if the table
    /// doesn't declare the code. After those comes the first fault of `read_form` among the values.
    #[tactic(auto, using(crate::proofs::RootLemmas::root_none, crate::proofs::RootLemmas::root_bad, crate::proofs::RootLemmas::root_undeclared, crate::proofs::RootLemmas::root_declared))]
    pub fn root_in(&self, table: &Abbrevs<'a>) -> Result<Root<'a>, BadFile>
        ensures { Gives shown_root result (root_in table.now self.now) }
    {
        let root = bare_root(self, table);
        let Some((code, cursor)) = root_code(self)? else {
            return Ok(root);
        };
        match table.entry(code) {
            Some(declared) => read_values(declared, &self.shape, cursor, root),
            None => undeclared(self.place),
        }
    }

    /// The code of the unit's root. `None` if the root has no values, or if its code can't be read.
    pub fn code(&self) -> Option<u64>
        ensures { result ≡ code_of self.now }
    {
        match root_code(self) {
            Ok(Some((code, _))) => Some(code),
            Ok(None) | Err(_) => None,
        }
    }

    /// The root as `root_in` returns it. It is read with these attribute specifications instead of those that the
    /// table declares for the root's code, and they must give the same roots. So the table is searched only once for
    /// all units whose roots have this code.
    #[tactic(auto, using(crate::proofs::RootLemmas::root_none, crate::proofs::RootLemmas::root_bad, crate::proofs::RootLemmas::root_known))]
    pub fn root_with(&self, table: &Abbrevs<'a>, specs: &[Spec]) -> Result<Root<'a>, BadFile>
        requires { AreSpecsOf table.now.declarations (code_of self.now) specs.now }
        ensures { Gives shown_root result (root_in table.now self.now) }
    {
        let root = bare_root(self, table);
        let Some((_, cursor)) = root_code(self)? else {
            return Ok(root);
        };
        read_listed(specs, &self.shape, cursor, root)
    }

    /// The root as `root_in` returns it. It is read with an index of the table, which has attribute specifications
    /// for each code that the table declares. They must give the same roots as all those of the declaration. So a
    /// root needs no search of the table, and no walk over attributes that change nothing.
    #[tactic(auto, using(crate::proofs::RootLemmas::root_none, crate::proofs::RootLemmas::root_bad, crate::proofs::RootLemmas::root_unlisted, crate::proofs::RootLemmas::root_listed))]
    pub fn root_by(
        &self,
        table: &Abbrevs<'a>,
        index: &BTreeMap<u64, Vec<Spec>>,
    ) -> Result<Root<'a>, BadFile>
        requires { IsIndexOf table.now.declarations index.now }
        ensures { Gives shown_root result (root_in table.now self.now) }
    {
        let root = bare_root(self, table);
        let Some((code, cursor)) = root_code(self)? else {
            return Ok(root);
        };
        match index.get(&code) {
            Some(specs) => read_listed(specs, &self.shape, cursor, root),
            None => undeclared(self.place),
        }
    }

    /// The root of the unit. The faults of `Abbrevs::at` come first, with OffsetOutside at the unit's file
    /// offset, and then those of `root_in`.
    pub fn root(&self, sections: &Sections<'a>) -> Result<Root<'a>, BadFile>
        ensures { Gives shown_root result (root_of sections.now self.now) }
    {
        let table = Abbrevs::at(&sections.abbrev, self.abbrev_offset, self.place)?;
        self.root_in(&table)
    }
}
