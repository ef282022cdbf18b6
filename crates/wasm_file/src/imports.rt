//! Imports.

ghost use Rattle.std.specs.Prelude.{◌≡◌, None, MatchOption, count_by};
ghost use Rattle.size_core.specs.declared.fault.Fault.TheVariants.{BadWasm};
ghost use Rattle.wasm_file.specs.Imports.{after_description, after_limits, function_count, import_at, imports_in};
ghost use Rattle.wasm_file.specs.Module.{checked};
ghost use Rattle.wasm_file.specs.Records.{Reads, checks_of, fault_in, under, values_in};
ghost use Rattle.wasm_file.specs.Steps.{IsPassed};

use crate::constants::{FUNCTION_IMPORT, GLOBAL_IMPORT, MEMORY_IMPORT, TABLE_IMPORT};
use crate::reads::{name, number};
use byte_cursor::Cursor;
use size_core::{BadFile, Fault};

/// Skips limits: a flag and the minimum, and the maximum if bit 0 of the flag is set (WebAssembly core
/// 2.0, 5.3.7 Limits).
#[tactic(auto, unfolding(crate::specs::Imports::after_limits, crate::specs::Numbers::byte_at, crate::specs::Numbers::long_number_at))]
fn skip_limits(cursor: &mut Cursor) -> Option<()>
    ensures { MatchOption result
        (after_limits cursor.old.bytes cursor.old.at ≡ None)
        (λ _. IsPassed cursor.old (after_limits cursor.old.bytes cursor.old.at) cursor.new) }
{
    let flag = cursor.u8().ok()?;
    cursor.uleb().ok()?;
    if flag % 2 == 1 {
        cursor.uleb().ok()?;
    }
    Some(())
}

/// Skips the description of an import of this kind.
#[tactic(auto, unfolding(crate::specs::Imports::after_description, crate::specs::Numbers::byte_at))]
fn skip_description(cursor: &mut Cursor, kind: u8) -> Option<()>
    ensures { MatchOption result
        (after_description cursor.old.bytes kind cursor.old.at ≡ None)
        (λ _. IsPassed cursor.old (after_description cursor.old.bytes kind cursor.old.at)
        cursor.new) }
{
    match kind {
        FUNCTION_IMPORT => {
            number(cursor)?;
            Some(())
        }
        TABLE_IMPORT => {
            cursor.u8().ok()?;
            skip_limits(cursor)
        }
        MEMORY_IMPORT => skip_limits(cursor),
        GLOBAL_IMPORT => {
            cursor.u8().ok()?;
            cursor.u8().ok()?;
            Some(())
        }
        _ => None,
    }
}

/// Reads an import, and returns whether it is a function.
#[tactic(auto, unfolding(crate::specs::Imports::import_at, crate::specs::Numbers::byte_at))]
fn read_import(cursor: &mut Cursor) -> Option<bool>
    ensures { Reads result import_at cursor.old cursor.new }
{
    name(cursor)?;
    name(cursor)?;
    let kind = cursor.u8().ok()?;
    skip_description(cursor, kind)?;
    Some(kind == FUNCTION_IMPORT)
}

/// Returns how many of the next `count` imports are functions. BadWasm at the first import that can't be
/// read.
#[tactic(auto, using(crate::proofs::RecordLemmas::fault_end, crate::proofs::RecordLemmas::fault_here, crate::proofs::RecordLemmas::fault_later, crate::proofs::RecordLemmas::values_end, crate::proofs::RecordLemmas::values_next))]
fn count_functions(cursor: Cursor, count: u32) -> Result<u32, BadFile>
    ensures { result ≡ under (fault_in import_at count cursor.entry)
        (count_by (λ is_function. is_function) (values_in import_at count cursor.entry)) }
{
    let mut rest = cursor;
    let mut found = 0;
    for i in 0..count {
        let place = rest.place();
        match read_import(&mut rest) {
            Some(is_function) => found += u32::from(is_function),
            None => return Err(bad_wasm(place)),
        }
    }
    Ok(found)
}

/// Returns the number of imported functions of an Import section, and 0 if there is no such section.
/// BadWasm if the count or an import can't be read.
#[tactic(auto, unfolding(crate::specs::Imports::imports_in, crate::specs::Records::vector, crate::specs::Records::fault_in, crate::specs::Records::values_in))]
pub fn function_imports(section: Option<Cursor>) -> Result<u32, BadFile>
    ensures { result
        ≡ checked (checks_of (imports_in section.entry))
        (function_count (imports_in section.entry)) }
{
    let Some(mut cursor) = section else {
        return Ok(0);
    };
    let place = cursor.place();
    match number(&mut cursor) {
        Some(count) => count_functions(cursor, count),
        None => Err(bad_wasm(place)),
    }
}

/// Returns the fault BadWasm at file offset `place`.
pub fn bad_wasm(place: u64) -> BadFile
    ensures { result ≡ record { fault = BadWasm; offset = place } }
{
    BadFile {
        fault: Fault::BadWasm,
        offset: place,
    }
}
