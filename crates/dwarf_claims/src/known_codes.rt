//! What is known of a table of abbreviations that units have used again. Most units of a table have roots of one code,
//! which needs no index of the table.

ghost use Rattle.std.specs.Prelude.{IfOk};
ghost use Rattle.dwarf_claims.specs.Codes.{IsKnownOf};

use crate::index::needed_specs;
use dwarf_abbrev::{Abbrevs, Spec};
use size_core::NoMemory;
use std::alloc::Global;
use std::collections::BTreeMap;

/// A code that a table declares, with the attributes that its roots depend on.
#[derive(Drop)]
pub struct KnownCode {
    pub code: u64,
    pub specs: Vec<Spec>,
}

/// The codes of a table whose declarations are known.
#[derive(Drop)]
pub enum KnownCodes {
    /// No code.
    Nothing,
    /// One code.
    One(KnownCode),
    /// All codes, by an index of the table.
    Index(BTreeMap<u64, Vec<Spec>>),
}

/// Returns what is known of one code: nothing if the table doesn't declare it.
pub fn one_code(alloc: Global, table: &Abbrevs<'_>, code: u64) -> Result<KnownCodes, NoMemory>
    ensures { IfOk result (IsKnownOf table.now.declarations) }
{
    let Some(declared) = table.entry(code) else {
        return Ok(KnownCodes::Nothing);
    };
    let specs = needed_specs(alloc, declared)?;
    Ok(KnownCodes::One(KnownCode { code, specs }))
}
