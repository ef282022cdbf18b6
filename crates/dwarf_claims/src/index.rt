//! An index of a table of abbreviations. It finds the declaration of a unit's root without a search of the table, and
//! leaves out the attributes that change nothing in a root.

ghost use Rattle.std.specs.Prelude.{◌≡◌, true, IfOk, OnOk};
ghost use Rattle.dwarf_units.specs.Filling.{GiveSameRoots, IsIndexOf, specs_at};
ghost use Rattle.dwarf_claims.specs.Indexes.{AreAmong, GiveTheSame, HasEntry, TakesSpec};

use dwarf_abbrev::{Abbrevs, Entry, Spec};
use dwarf_units::is_read;
use size_core::NoMemory;
use std::alloc::Global;
use std::collections::BTreeMap;

/// The attributes of a declaration that its roots depend on. Those that take no bytes are at most as many as a root has
/// values, so a root is read in time proportional to its bytes.
#[derive(Drop)]
pub struct Needed {
    /// The attributes, in the order of the declaration.
    pub specs: Vec<Spec>,
    /// The numbers of those that take no bytes.
    pub bare: Vec<u64>,
}

// Returns whether one more attribute changes nothing in a root. It changes nothing if it takes no bytes, and either no
// root keeps its value or the same attribute came before it.
fn changes_nothing(needed: &Needed, spec: Spec) -> bool
    requires { AreAmong needed.now.bare.items needed.now.specs.items }
    ensures { result ≡ true
        → GiveTheSame needed.now.specs.items spec needed.now.specs.items }
{
    if spec.has_bytes() {
        return false;
    }
    !is_read(spec.attribute) || needed.bare.contains(&spec.attribute)
}

// Adds the next attribute of a declaration, unless it changes nothing.
fn add_spec(needed: &mut Needed, spec: Spec) -> Result<(), NoMemory>
    requires { AreAmong needed.old.bare.items needed.old.specs.items }
    ensures { OnOk result (TakesSpec needed.old needed.new spec) }
{
    if changes_nothing(needed, spec) {
        return Ok(());
    }
    if !spec.has_bytes() {
        needed.bare.push(spec.attribute)?;
    }
    needed.specs.push(spec).map_err(NoMemory::from)
}

/// Returns the attributes of a declaration that its roots depend on.
#[tactic(auto, using(crate::proofs::IndexLemmas::same_goes, crate::proofs::IndexLemmas::same_ends))]
pub fn needed_specs(alloc: Global, declared: Entry<'_>) -> Result<Vec<Spec>, NoMemory>
    ensures { IfOk result (λ v. GiveSameRoots v.items declared.entry.specs) }
{
    let mut needed = Needed {
        specs: Vec::new(alloc),
        bare: Vec::new(alloc),
    };
    for spec in declared {
        add_spec(&mut needed, spec)?;
    }
    Ok(needed.specs)
}

// Adds a declaration, unless its code has one already: the first one counts.
#[tactic(auto, using(crate::proofs::IndexLemmas::entry_known, crate::proofs::IndexLemmas::entry_new))]
fn add_entry(
    alloc: Global,
    declared: Entry<'_>,
    index: &mut BTreeMap<u64, Vec<Spec>>,
) -> Result<(), NoMemory>
    ensures { OnOk result (HasEntry declared.entry (specs_at index.old) (specs_at index.new)) }
{
    let code = declared.code();
    if index.contains_key(&code) {
        return Ok(());
    }
    let specs = needed_specs(alloc, declared)?;
    index.insert(code, specs)?;
    Ok(())
}

/// Returns the index of a table: for the code of each declaration, the attributes that its roots depend on.
#[tactic(auto, using(crate::proofs::IndexLemmas::filled_goes, crate::proofs::IndexLemmas::filled_ends))]
pub fn index_of(alloc: Global, table: &Abbrevs<'_>) -> Result<BTreeMap<u64, Vec<Spec>>, NoMemory>
    ensures { IfOk result (λ index. IsIndexOf table.now.declarations index) }
{
    let mut index = BTreeMap::new(alloc);
    for declared in table.entries() {
        add_entry(alloc, declared, &mut index)?;
    }
    Ok(index)
}
