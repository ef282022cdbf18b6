//! The bodies of functions, with their indices and names.

ghost use Rattle.std.specs.Prelude.{◌≡◌, ℕ, ◌+◌, ◌<◌, ◌^◌, ◌==◌, length, None, Some, IfOk, OnOk, MatchOption, if◌then◌else◌, nat_eq};
ghost use Rattle.std.specs.Option.{option_copied};
ghost use Rattle.std.specs.HashMap.{get};
ghost use Rattle.wasm_file.specs.Functions.{bodies_in, body_at, first_with, numbered};
ghost use Rattle.wasm_file.specs.Module.{checked};
ghost use Rattle.wasm_file.specs.Names.{first_of_index, some_name};
ghost use Rattle.wasm_file.specs.Records.{Reads, checks_of, fault_in, under, values, values_in};
ghost use Rattle.wasm_file.specs.Shown.{Answers};

use crate::answer::WasmAnswer;
use crate::body::{Body, Extent};
use crate::function_names::FunctionNames;
use crate::imports::bad_wasm;
use crate::reads::{number, piece};
use crate::sections::WasmSections;
use byte_cursor::Cursor;
use size_core::NoMemory;
use std::alloc::Global;
use std::collections::HashMap;

/// Returns the contents of the first section with this id. `None` if there is no such section.
pub fn first_with<'a>(sections: WasmSections<'a>, id: u8) -> Option<Cursor<'a>>
    ensures { result ≡ first_with id sections.entry }
{
    for section in sections {
        if section.id == id {
            return Some(section.contents);
        }
    }
    None
}

/// Returns the names by index. If an index has several, the first one counts.
fn name_table<'a>(
    alloc: Global,
    names: FunctionNames<'a>,
) -> Result<HashMap<u32, &'a [u8]>, NoMemory>
    ensures { IfOk result (λ t. (k : ℕ)
        → option_copied (get nat_eq t k) ≡ first_of_index k names.entry) }
{
    let mut table = HashMap::new(alloc);
    for (index, name) in names {
        if table.contains_key(&index) {
            continue;
        }
        table.insert(index, name)?;
    }
    Ok(table)
}

/// Returns the name of an index in the table. `None` if the name is empty.
fn name_at<'a>(table: &HashMap<u32, &'a [u8]>, index: u32) -> Option<&'a [u8]>
    ensures { option_copied result ≡ some_name (option_copied (get nat_eq table.now index)) }
{
    match table.get(&index) {
        Some(name) if !name.is_empty() => Some(name),
        _ => None,
    }
}

/// Reads a body. `None` if it can't be read.
#[tactic(auto, unfolding(crate::specs::Functions::body_at), using(crate::proofs::NameLemmas::piece_forward))]
fn read_extent(cursor: &mut Cursor) -> Option<Extent>
    ensures { Reads result body_at cursor.old cursor.new }
{
    let place = cursor.place();
    piece(cursor)?;
    Some(Extent {
        place,
        len: cursor.place() - place,
    })
}

/// Reads `count` bodies. They get the function indices from `first` on, and their names. BadWasm at the
/// first body that can't be read.
#[tactic(auto, using(crate::proofs::RecordLemmas::fault_end, crate::proofs::RecordLemmas::fault_here, crate::proofs::RecordLemmas::values_end))]
fn read_bodies<'a>(
    alloc: Global,
    cursor: Cursor<'a>,
    count: u32,
    first: u32,
    names: FunctionNames<'a>,
) -> Result<Vec<Body<'a>>, WasmAnswer>
    requires { first + length (values_in body_at count cursor) < 2 ^ 32 }
    ensures { Answers result (under (fault_in body_at count cursor.entry)
        (numbered names.entry first (values_in body_at count cursor.entry))) }
{
    let table = name_table(alloc, names)?;
    let mut rest = cursor;
    let mut bodies = Vec::new(alloc);
    for i in 0..count {
        let place = rest.place();
        match read_extent(&mut rest) {
            Some(extent) => {
                let index = first + i;
                bodies.push(Body {
                    index,
                    place: extent.place,
                    len: extent.len,
                    name: name_at(&table, index),
                })?;
            }
            None => return Err(WasmAnswer::Bad(bad_wasm(place))),
        }
    }
    Ok(bodies)
}

/// Returns the bodies of a Code section, and none if there is no such section. BadWasm if the count
/// or a body can't be read.
#[tactic(auto, unfolding(crate::specs::Functions::bodies_in, crate::specs::Records::vector, crate::specs::Records::fault_in, crate::specs::Records::values_in))]
pub fn numbered_bodies<'a>(
    alloc: Global,
    section: Option<Cursor<'a>>,
    first: u32,
    names: FunctionNames<'a>,
) -> Result<Vec<Body<'a>>, WasmAnswer>
    requires { first + length (values (bodies_in section)) < 2 ^ 32 }
    ensures { Answers result (checked (checks_of (bodies_in section.entry))
        (numbered names.entry first (values (bodies_in section.entry)))) }
{
    let Some(mut cursor) = section else {
        return Ok(Vec::new(alloc));
    };
    let place = cursor.place();
    match number(&mut cursor) {
        Some(count) => read_bodies(alloc, cursor, count, first, names),
        None => Err(WasmAnswer::Bad(bad_wasm(place))),
    }
}
