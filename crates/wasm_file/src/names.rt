//! The names of functions.

ghost use Rattle.std.specs.Prelude.{◌≡◌, codes};
ghost use Rattle.std.specs.Option.{option_copied};
ghost use Rattle.wasm_file.specs.Names.{custom_named, function_names, is_name, name_in, subsection_at, subsection_from, subsection_of_names};
ghost use Rattle.wasm_file.specs.Records.{Reads};

use crate::constants::FUNCTION_NAMES;
use crate::function_names::{FunctionNames, no_names, pairs_in};
use crate::reads::{name, piece};
use crate::sections::WasmSections;
use byte_cursor::Cursor;

/// Returns whether there is a name and it is the wanted one.
fn is_name(name: Option<&[u8]>, wanted: &[u8]) -> bool
    ensures { result ≡ is_name (option_copied name.entry) wanted.now }
{
    match name {
        Some(name) => name == wanted,
        None => false,
    }
}

/// Returns the contents of the first custom section with this name.
fn find_custom_section<'a>(sections: WasmSections<'a>, wanted: &[u8]) -> Option<Cursor<'a>>
    ensures { result ≡ custom_named wanted.now sections.entry }
{
    for section in sections {
        if is_name(section.name, wanted) {
            return Some(section.contents);
        }
    }
    None
}

/// Reads a subsection, and returns its id and its contents.
#[tactic(auto, unfolding(crate::specs::Names::subsection_at, crate::specs::Numbers::byte_at))]
fn next_subsection<'a>(cursor: &mut Cursor<'a>) -> Option<(u8, Cursor<'a>)>
    ensures { Reads result subsection_at cursor.old cursor.new }
{
    let kind = cursor.u8().ok()?;
    let contents = piece(cursor)?;
    Some((kind, contents))
}

/// Returns the contents of the first subsection with this id, from the cursor's position on.
#[tactic(auto, using(crate::proofs::NameLemmas::found_here, crate::proofs::NameLemmas::found_later, crate::proofs::NameLemmas::found_none, crate::proofs::NameLemmas::smaller))]
fn find_subsection<'a>(cursor: Cursor<'a>, id: u8) -> Option<Cursor<'a>>
    ensures { result ≡ subsection_from id cursor.entry }
{
    let mut rest = cursor;
    loop {
        match next_subsection(&mut rest) {
            Some((kind, contents)) => {
                if kind == id {
                    return Some(contents);
                }
            }
            None => return None,
        }
    }
}

/// Returns the contents of the function names subsection of the first custom section `name`.
#[tactic(auto, unfolding(crate::specs::Names::subsection_of_names))]
fn find_name_subsection<'a>(sections: WasmSections<'a>) -> Option<Cursor<'a>>
    ensures { result ≡ subsection_of_names (custom_named (codes "name") sections.entry) }
{
    let mut contents = find_custom_section(sections, b"name")?;
    name(&mut contents)?;
    find_subsection(contents, FUNCTION_NAMES)
}

/// Returns the function names of a module with these sections, as pairs of index and name.
#[tactic(auto, unfolding(crate::specs::Names::function_names, crate::specs::Names::pairs_in))]
pub fn function_names<'a>(sections: WasmSections<'a>) -> FunctionNames<'a>
    ensures { result ≡ function_names sections.entry }
{
    match find_name_subsection(sections) {
        Some(contents) => pairs_in(contents),
        None => no_names(),
    }
}

/// Returns the name of the function with this index. `None` if it has no name or an empty one.
pub fn name_in<'a>(names: FunctionNames<'a>, index: u32) -> Option<&'a [u8]>
    ensures { option_copied result ≡ name_in names.entry index }
{
    for (i, name) in names {
        if i == index {
            return if name.is_empty() { None } else { Some(name) };
        }
    }
    None
}
