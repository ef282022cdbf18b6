//! The headers of address sets (DWARF 5, section 6.1.2).

ghost use Rattle.dwarf_abbrev.specs.Reads.{Reads};
ghost use Rattle.dwarf_ranges.specs.Sets.{header_from};

use byte_cursor::{Cursor, Order};
use dwarf_abbrev::offset_from;
use size_core::BadFile;

/// The fields of an address set between its length and its tuples.
#[derive(Clone, Copy)]
pub struct SetHeader {
    /// The version of the section's format.
    pub version: u16,
    /// The offset of the set's unit in `.debug_info`.
    pub info_offset: u64,
    /// The size of an address in bytes.
    pub address: u8,
    /// The size of a segment selector in bytes.
    pub segment: u8,
}

/// Reads the header of an address set, after its length.
#[tactic(auto, unfolding(crate::specs::Sets::header_from, dwarf_abbrev::specs::Reads::num_from))]
pub fn header_from(cursor: &mut Cursor, order: Order, wide: bool) -> Result<SetHeader, BadFile>
    ensures { Reads (λ h. h) result cursor.new (header_from order wide cursor.old) }
{
    let version = cursor.u16(order)?;
    let info_offset = offset_from(cursor, order, wide)?;
    let address = cursor.u8()?;
    let segment = cursor.u8()?;
    Ok(SetHeader {
        version,
        info_offset,
        address,
        segment,
    })
}
