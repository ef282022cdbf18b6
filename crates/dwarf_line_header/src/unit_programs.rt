//! Where a unit's line program is, and its bytes.

ghost use Rattle.std.specs.Prelude.{◌≡◌};
ghost use Rattle.dwarf_abbrev.specs.Values.{meaning};
ghost use Rattle.dwarf_units.specs.Roots.{shown_root};
ghost use Rattle.dwarf_line_header.specs.UnitPrograms.{bytes_here, bytes_in, program_bytes, program_offset, unit_program};

use byte_cursor::{Cursor, Order};
use dwarf_abbrev::{Content, LENGTH_LEN, Value, initial_length, inside};
use dwarf_units::{Root, Sections};
use size_core::{BadFile, Fault, Span};

fn program_offset(version: u16, value: &Value<'_>) -> Option<u64>
    ensures { result ≡ program_offset version (meaning value.now.content) }
{
    match value.content {
        Content::SecOffset(offset) => Some(offset),
        Content::Constant(offset) if version < 4 => Some(offset),
        _ => None,
    }
}

/// The offset of the unit's line program in `.debug_line`, and the file offset of the attribute value that names it
/// (DWARF 5, section 3.1.1). `None` if the unit has no such attribute, or if its value is no offset. A constant is an
/// offset before DWARF 4 (DWARF 3, section 7.5.4).
pub fn unit_program(root: &Root<'_>) -> Option<(u64, u64)>
    ensures { result ≡ unit_program (shown_root root.now) }
{
    let value = root.lines.as_ref()?;
    let offset = program_offset(root.shape.version, value)?;
    Some((offset, value.place))
}

/// The file range of the program at the cursor, with its length field.
#[tactic(auto, unfolding(crate::specs::UnitPrograms::bytes_here, dwarf_abbrev::specs::Lengths::contents_from))]
fn bytes_here(mut cursor: Cursor<'_>, order: Order) -> Result<Span, BadFile>
    ensures { result ≡ bytes_here order cursor.entry }
{
    let place = cursor.place();
    let initial = initial_length(&mut cursor, order)?;
    let contents = cursor.take(initial.len)?;
    Ok(Span {
        space: 0,
        start: place,
        len: LENGTH_LEN.pick(initial.wide) + contents.left(),
    })
}

fn bytes_in(cursor: Option<Cursor<'_>>, place: u64, order: Order) -> Result<Span, BadFile>
    ensures { result ≡ bytes_in order place cursor.entry }
{
    match cursor {
        Some(cursor) => bytes_here(cursor, order),
        None => Err(BadFile {
            fault: Fault::OffsetOutside,
            offset: place,
        }),
    }
}

/// The file range of a line program, with its length field. `program` is that of `unit_program`; `None` gives `None`.
/// OffsetOutside at the file offset of the value that names the program if its offset isn't below the section's
/// length. Truncated or BadUnit at the program's file offset if its length can't be read or exceeds the section.
pub fn program_bytes(
    sections: &Sections<'_>,
    program: Option<(u64, u64)>,
) -> Result<Option<Span>, BadFile>
    ensures { result ≡ program_bytes sections.now program }
{
    let Some((offset, place)) = program else {
        return Ok(None);
    };
    let bytes = bytes_in(inside(&sections.lines, offset), place, sections.order)?;
    Ok(Some(bytes))
}
