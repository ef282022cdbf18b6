//! Units (DWARF 5, section 7.5.1).

ghost use Rattle.std.specs.Prelude.{◌≡◌};
ghost use Rattle.size_core.specs.Checks.{bad};
ghost use Rattle.size_core.specs.declared.fault.Fault.TheVariants.{BadUnit};
ghost use Rattle.byte_cursor.specs.Window.{Window, place_of};
ghost use Rattle.dwarf_abbrev.specs.Reads.{Reads};
ghost use Rattle.dwarf_units.specs.Units.{headed, position_of, unit_from, versioned};

use crate::header::{Header, header_from};
use byte_cursor::{Cursor, Order};
use dwarf_abbrev::{InitialLength, LENGTH_LEN, UnitShape, initial_length};
use size_core::{BadFile, Fault};

/// A unit of `.debug_info`.
#[derive(Drop)]
pub struct DwarfUnit<'a> {
    /// The unit's file offset.
    pub place: u64,
    /// The unit's length in bytes, with its length field.
    pub len: u64,
    /// The unit's offset in `.debug_info`.
    pub offset: u64,
    /// The format of the unit's values.
    pub shape: UnitShape,
    /// The unit's type (section 7.5.1, table 7.2). It is 1 in DWARF 2 to 4.
    pub kind: u8,
    /// The offset of the unit's abbreviation table in `.debug_abbrev`.
    pub abbrev_offset: u64,
    /// The unit's entries: all bytes after its header.
    pub body: Cursor<'a>,
}

/// What is known of a unit before its header is read.
#[derive(Clone, Copy)]
pub struct Position {
    /// The unit's file offset.
    pub place: u64,
    /// The unit's offset in `.debug_info`.
    pub offset: u64,
    /// The unit's length in bytes, with its length field.
    pub len: u64,
    /// Whether offsets have 8 bytes or 4.
    pub wide: bool,
}

/// The fault of a unit whose header can't be read.
fn bad_unit<'a>(place: u64) -> Result<Option<DwarfUnit<'a>>, BadFile>
    ensures { result ≡ bad BadUnit place }
{
    Err(BadFile {
        fault: Fault::BadUnit,
        offset: place,
    })
}

/// The position of a unit. Its length is that of the length field and the contents together.
fn position_of(start: u64, place: u64, initial: InitialLength, contents: &Cursor) -> Position
    ensures { (w : Window) → place ≡ place_of w
        → result ≡ position_of start w initial contents.now }
{
    Position {
        place,
        offset: place.saturating_sub(start),
        len: LENGTH_LEN.pick(initial.wide) + contents.left(),
        wide: initial.wide,
    }
}

/// The unit with this header. The cursor is at the first byte after the header.
fn headed<'a>(
    order: Order,
    position: &Position,
    version: u16,
    header: Option<Header>,
    body: Cursor<'a>,
) -> Result<Option<DwarfUnit<'a>>, BadFile>
    ensures { result ≡ headed order position.now version header body.entry }
{
    let Some(header) = header else {
        return Ok(None);
    };
    if !matches!(header.address, 2 | 4 | 8) {
        return bad_unit(position.place);
    }
    Ok(Some(DwarfUnit {
        place: position.place,
        len: position.len,
        offset: position.offset,
        shape: UnitShape {
            version,
            wide: position.wide,
            address: header.address,
            order,
        },
        kind: header.kind,
        abbrev_offset: header.abbrev_offset,
        body,
    }))
}

/// Reads the rest of a unit, after its version.
#[tactic(auto, unfolding(crate::specs::Units::versioned))]
fn versioned<'a>(
    order: Order,
    position: &Position,
    version: u16,
    mut cursor: Cursor<'a>,
) -> Result<Option<DwarfUnit<'a>>, BadFile>
    ensures { result ≡ versioned order position.now version cursor.entry }
{
    if version < 2 || version > 5 {
        return Ok(None);
    }
    match header_from(&mut cursor, order, position.wide, version) {
        Ok(header) => headed(order, position, version, header, cursor),
        Err(_) => bad_unit(position.place),
    }
}

/// Reads the unit at the cursor. `start` is the file offset of `.debug_info`. `None` if the unit is skipped.
/// Truncated or BadUnit at the unit if its length or its header can't be read, or BadUnit if its addresses don't have
/// 2, 4 or 8 bytes.
#[tactic(auto, unfolding(crate::specs::Units::unit_from, crate::specs::Units::unit_in, dwarf_abbrev::specs::Lengths::contents_from, dwarf_abbrev::specs::Reads::num_from))]
pub fn unit_from<'a>(
    cursor: &mut Cursor<'a>,
    order: Order,
    start: u64,
) -> Result<Option<DwarfUnit<'a>>, BadFile>
    ensures { Reads (λ x. x) result cursor.new (unit_from order start cursor.old) }
{
    let place = cursor.place();
    let initial = initial_length(cursor, order)?;
    let mut contents = cursor.take(initial.len)?;
    let position = position_of(start, place, initial, &contents);
    if contents.left() < 2 {
        return Ok(None);
    }
    let version = contents.u16(order)?;
    versioned(order, &position, version, contents)
}
