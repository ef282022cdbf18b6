//! The headers of units (DWARF 5, section 7.5.1).

ghost use Rattle.std.specs.Prelude.{◌≡◌};
ghost use Rattle.dwarf_abbrev.specs.Reads.{Reads};
ghost use Rattle.dwarf_units.specs.Units.{extra_len, header_from, old_header_from, typed_header_from};

use crate::constants::{
    DW_UT_COMPILE, DW_UT_SKELETON, DW_UT_SPLIT_COMPILE, DW_UT_SPLIT_TYPE, DW_UT_TYPE,
};
use byte_cursor::{Cursor, Order};
use dwarf_abbrev::offset_from;
use size_core::BadFile;

/// The fields of a unit's header after its version.
#[derive(Clone, Copy, Debug)]
pub struct Header {
    /// The unit's type, `DW_UT_*`.
    pub kind: u8,
    /// The size of an address in bytes.
    pub address: u8,
    /// The offset of the unit's abbreviation table in `.debug_abbrev`.
    pub abbrev_offset: u64,
}

/// The number of bytes after the offset of the abbreviations, by the type of a unit of DWARF 5.
fn extra_len(kind: u8, wide: bool) -> u64
    ensures { result ≡ extra_len kind wide }
{
    match kind {
        DW_UT_SKELETON | DW_UT_SPLIT_COMPILE => 8,
        DW_UT_TYPE | DW_UT_SPLIT_TYPE if wide => 16,
        DW_UT_TYPE | DW_UT_SPLIT_TYPE => 12,
        _ => 0,
    }
}

/// Reads the header of a unit of DWARF 2 to 4, after its version.
#[tactic(auto, unfolding(crate::specs::Units::old_header_from, dwarf_abbrev::specs::Reads::num_from))]
fn old_header(cursor: &mut Cursor, order: Order, wide: bool) -> Result<Header, BadFile>
    ensures { Reads (λ x. x) result cursor.new (old_header_from order wide cursor.old) }
{
    let abbrev_offset = offset_from(cursor, order, wide)?;
    let address = cursor.u8()?;
    Ok(Header {
        kind: DW_UT_COMPILE,
        address,
        abbrev_offset,
    })
}

/// Reads the header of a unit of DWARF 5, after its type.
#[tactic(auto, unfolding(crate::specs::Units::typed_header_from, dwarf_abbrev::specs::Reads::num_from, dwarf_abbrev::specs::Reads::skip_from))]
fn typed_header(cursor: &mut Cursor, order: Order, wide: bool, kind: u8) -> Result<Header, BadFile>
    ensures { Reads (λ x. x) result cursor.new (typed_header_from order wide kind cursor.old) }
{
    let address = cursor.u8()?;
    let abbrev_offset = offset_from(cursor, order, wide)?;
    cursor.skip(extra_len(kind, wide))?;
    Ok(Header {
        kind,
        address,
        abbrev_offset,
    })
}

/// Reads the header of a unit, after its version. `None` if the unit is skipped, since the standard doesn't define
/// its type.
#[tactic(auto, unfolding(crate::specs::Units::new_header_from, dwarf_abbrev::specs::Reads::num_from))]
pub fn header_from(
    cursor: &mut Cursor,
    order: Order,
    wide: bool,
    version: u16,
) -> Result<Option<Header>, BadFile>
    ensures { Reads (λ x. x) result cursor.new (header_from order wide version cursor.old) }
{
    if version != 5 {
        let header = old_header(cursor, order, wide)?;
        return Ok(Some(header));
    }
    let kind = cursor.u8()?;
    if kind < DW_UT_COMPILE || kind > DW_UT_SPLIT_TYPE {
        return Ok(None);
    }
    let header = typed_header(cursor, order, wide, kind)?;
    Ok(Some(header))
}
