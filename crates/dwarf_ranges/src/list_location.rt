//! The offsets of range lists in their sections.

ghost use Rattle.std.specs.Prelude.{◌≡◌, ◌+◌};
ghost use Rattle.dwarf_abbrev.specs.Reads.{inside};
ghost use Rattle.dwarf_abbrev.specs.Values.{meaning};
ghost use Rattle.dwarf_ranges.specs.Ranges.{list_at, list_name, opened, up_to};

use byte_cursor::Cursor;
use dwarf_abbrev::{ByFormat, Content, UnitShape, Value, inside};
use dwarf_units::{OffsetTable, Sections};
use size_core::{BadFile, Fault};

/// The form in which a unit refers to its range list.
#[derive(Clone, Copy, PartialEq, Eq)]
pub enum ListName {
    /// The list's offset in its section.
    Offset(u64),
    /// The index of the list's offset in `.debug_rnglists`.
    Index(u64),
}

/// A reference of a unit to its range list.
#[derive(Clone, Copy)]
pub struct ListReference {
    /// The file offset of the value that refers to the list.
    pub place: u64,
    /// The form of the reference.
    pub name: ListName,
}

/// The list that a value of `DW_AT_ranges` refers to. The value is an offset; in DWARF 5 it can also be an
/// index. DWARF 2 and 3 had no form for offsets, so there it can also be a constant. `None` for any other value.
pub fn list_name(version: u16, value: &Value) -> Option<ListName>
    ensures { result ≡ list_name version (meaning value.now.content) }
{
    match value.content {
        Content::SecOffset(offset) => Some(ListName::Offset(offset)),
        Content::ListIndex(index) if version == 5 => Some(ListName::Index(index)),
        Content::Constant(offset) if version < 4 => Some(ListName::Offset(offset)),
        _ => None,
    }
}

/// The size of the header of a table of range lists. Its offsets begin after the header if no attribute gives their
/// base (DWARF 5, section 7.28).
pub const LISTS_HEADER_LEN: ByFormat = ByFormat(12, 20);

/// The window at an offset of a section, or at the section's end. `None` if the offset exceeds the section's
/// length.
fn up_to<'a>(section: &Cursor<'a>, offset: u64) -> Option<Cursor<'a>>
    ensures { result ≡ up_to section.now offset }
{
    let mut window = section.fork();
    match window.skip(offset) {
        Ok(()) => Some(window),
        Err(_) => None,
    }
}

/// The window at the sum of two offsets. `None` if it isn't below the section's length.
fn inside_sum<'a>(section: &Cursor<'a>, base: u64, offset: u64) -> Option<Cursor<'a>>
    ensures { result ≡ inside section.now (base + offset) }
{
    let sum = base as u128 + offset as u128;
    if sum >= section.left() as u128 {
        return None;
    }
    inside(section, sum as u64)
}

/// The window, or OffsetOutside if there is none.
fn opened<'a>(window: Option<Cursor<'a>>, place: u64) -> Result<Cursor<'a>, BadFile>
    ensures { result ≡ opened window.entry place }
{
    match window {
        Some(window) => Ok(window),
        None => Err(BadFile {
            fault: Fault::OffsetOutside,
            offset: place,
        }),
    }
}

/// The window at a unit's range list: in `.debug_rnglists` in DWARF 5, in `.debug_ranges` in earlier versions.
/// OffsetOutside at the file offset `place` if the list doesn't begin inside the section, or if the entry
/// that has its offset isn't completely inside it. The end of `.debug_ranges` counts as inside.
#[tactic(auto, unfolding(crate::specs::Ranges::list_at))]
pub fn list_at<'a>(
    sections: &Sections<'a>,
    shape: &UnitShape,
    base: u64,
    place: u64,
    name: ListName,
) -> Result<Cursor<'a>, BadFile>
    ensures { result ≡ list_at sections.now shape.now base place name }
{
    match name {
        ListName::Offset(offset) if shape.version == 5 => {
            opened(inside(&sections.rnglists, offset), place)
        }
        ListName::Offset(offset) => opened(up_to(&sections.ranges, offset), place),
        ListName::Index(index) => {
            let table = OffsetTable {
                order: sections.order,
                wide: shape.wide,
                section: &sections.rnglists,
                base,
            };
            let offset = table.offset(index, place)?;
            opened(inside_sum(&sections.rnglists, base, offset), place)
        }
    }
}
