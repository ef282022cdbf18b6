//! Sections.

ghost use Rattle.std.specs.Prelude.{◌≡◌, ◌<◌, length, Err, MatchResult};
ghost use Rattle.std.specs.Option.{option_copied};
ghost use Rattle.wasm_file.specs.Sections.{IsFound, IsUnreadable, section_name, size_at};
ghost use Rattle.wasm_file.specs.Steps.{HasSize};
ghost use Rattle.wasm_file.specs.Shown.{section};

use crate::constants::CUSTOM;
use crate::reads::name;
use byte_cursor::Cursor;
use size_core::{BadFile, Fault};

/// A section of a module (WebAssembly core 2.0, 5.5.2 Sections).
#[derive(Drop)]
pub struct WasmSection<'a> {
    /// The file offset of its id.
    pub place: u64,
    /// Its length in bytes, from the id to the end of its contents.
    pub len: u64,
    /// Its id.
    pub id: u8,
    /// The name of a custom section, if it can be read.
    pub name: Option<&'a [u8]>,
    /// The bytes after the id and the size field.
    pub contents: Cursor<'a>,
}

/// Returns the name at the start of the contents of a custom section.
#[tactic(auto, unfolding(crate::specs::Sections::section_name))]
fn section_name<'a>(id: u8, contents: &Cursor<'a>) -> Option<&'a [u8]>
    requires { contents.now.at ≡ 0 }
    ensures { option_copied result ≡ section_name id contents.now.bytes }
{
    if id != CUSTOM {
        return None;
    }
    name(&mut contents.fork())
}

/// Returns the size of the contents of the section at file offset `place`. Truncated if the size field
/// has no end, and BadLeb if it isn't a number below 2^32 in at most five bytes.
#[tactic(auto, unfolding(crate::specs::Sections::size_at, crate::specs::Numbers::number_at))]
fn section_size(cursor: &mut Cursor, place: u64) -> Result<u32, BadFile>
    ensures { MatchResult result
        (λ n. HasSize cursor.old place n cursor.new)
        (λ e. size_at cursor.old.bytes cursor.old.at place ≡ Err e) }
{
    let start = cursor.place();
    let fault = match cursor.uleb() {
        Ok(size) if size <= u32::MAX as u64 && cursor.place() - start <= 5 => {
            return Ok(size as u32);
        }
        Err(
            BadFile {
                fault: Fault::Truncated,
                ..
            },
        ) => Fault::Truncated,
        _ => Fault::BadLeb,
    };
    Err(BadFile {
        fault,
        offset: place,
    })
}

/// Reads a section. Its faults are at the file offset of its id: Truncated or BadLeb for the size field, and
/// SectionPastEnd if the contents don't lie in the file.
#[tactic(auto, unfolding(crate::specs::Sections::section_at, crate::specs::Sections::size_at))]
pub fn read_section<'a>(cursor: &mut Cursor<'a>) -> Result<WasmSection<'a>, BadFile>
    requires whole { cursor.old.base ≡ 0 }
    requires some { cursor.old.at < length cursor.old.bytes }
    ensures { MatchResult result
        (λ s. IsFound cursor.old (section s) cursor.new)
        (IsUnreadable cursor.old) }
{
    let place = cursor.place();
    let id = cursor.u8()?;
    let size = section_size(cursor, place)? as u64;
    if cursor.left() < size {
        return Err(BadFile {
            fault: Fault::SectionPastEnd,
            offset: place,
        });
    }
    let contents = cursor.take(size)?;
    Ok(WasmSection {
        place,
        len: cursor.place() - place,
        id,
        name: section_name(id, &contents),
        contents,
    })
}
