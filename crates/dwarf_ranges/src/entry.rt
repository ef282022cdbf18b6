//! Range list entries of DWARF 5 (sections 2.17.3 and 7.25).

ghost use Rattle.std.specs.Prelude.{◌≡◌};
ghost use Rattle.size_core.specs.Checks.{bad};
ghost use Rattle.size_core.specs.declared.fault.Fault.TheVariants.{BadRangeList};
ghost use Rattle.dwarf_abbrev.specs.Reads.{Reads};
ghost use Rattle.dwarf_ranges.specs.Entries.{entry_from, kind_and_operands, operands_from};

use crate::constants::{
    DW_RLE_BASE_ADDRESS, DW_RLE_BASE_ADDRESSX, DW_RLE_END_OF_LIST, DW_RLE_OFFSET_PAIR,
    DW_RLE_START_END, DW_RLE_START_LENGTH, DW_RLE_STARTX_ENDX, DW_RLE_STARTX_LENGTH,
};
use crate::operands::{address_uleb_from, addresses_from, ulebs_from};
use byte_cursor::{Cursor, Order};
use dwarf_abbrev::address_from;
use size_core::{BadFile, Fault};

/// A range list entry: its kind and its operands. Indices are into `.debug_addr`.
#[derive(Clone, Copy)]
pub enum Entry {
    /// The end of the list.
    EndOfList,
    /// A new base, by its index.
    BaseAddressx(u64),
    /// A start and an end, by their indices.
    StartxEndx(u64, u64),
    /// A start, by its index, and a length.
    StartxLength(u64, u64),
    /// A start and an end as offsets from the base.
    OffsetPair(u64, u64),
    /// A new base.
    BaseAddress(u64),
    /// A start and an end.
    StartEnd(u64, u64),
    /// A start and a length.
    StartLength(u64, u64),
}

/// The fault of a list at this file offset.
pub fn bad_list<T>(place: u64) -> Result<T, BadFile>
    ensures { result ≡ bad BadRangeList place }
{
    Err(BadFile {
        fault: Fault::BadRangeList,
        offset: place,
    })
}

/// Reads the operands of an entry, after its kind.
#[tactic(auto, unfolding(crate::specs::Entries::operands_from, dwarf_abbrev::specs::Reads::uleb_from))]
fn operands_from(cursor: &mut Cursor, order: Order, size: u8, kind: u8) -> Result<Entry, BadFile>
    ensures { Reads (λ e. e) result cursor.new (operands_from order size kind cursor.old) }
{
    match kind {
        DW_RLE_END_OF_LIST => Ok(Entry::EndOfList),
        DW_RLE_BASE_ADDRESSX => {
            let index = cursor.uleb()?;
            Ok(Entry::BaseAddressx(index))
        }
        DW_RLE_STARTX_ENDX => {
            let (start, end) = ulebs_from(cursor)?;
            Ok(Entry::StartxEndx(start, end))
        }
        DW_RLE_STARTX_LENGTH => {
            let (start, len) = ulebs_from(cursor)?;
            Ok(Entry::StartxLength(start, len))
        }
        DW_RLE_OFFSET_PAIR => {
            let (start, end) = ulebs_from(cursor)?;
            Ok(Entry::OffsetPair(start, end))
        }
        DW_RLE_BASE_ADDRESS => {
            let base = address_from(cursor, order, size)?;
            Ok(Entry::BaseAddress(base))
        }
        DW_RLE_START_END => {
            let (start, end) = addresses_from(cursor, order, size)?;
            Ok(Entry::StartEnd(start, end))
        }
        DW_RLE_START_LENGTH => {
            let (start, len) = address_uleb_from(cursor, order, size)?;
            Ok(Entry::StartLength(start, len))
        }
        _ => bad_list(cursor.place()),
    }
}

/// Reads the kind of an entry and its operands.
#[tactic(auto, unfolding(dwarf_abbrev::specs::Reads::num_from))]
fn kind_and_operands(cursor: &mut Cursor, order: Order, size: u8) -> Result<Entry, BadFile>
    ensures { Reads (λ e. e) result cursor.new (kind_and_operands order size cursor.old) }
{
    let kind = cursor.u8()?;
    operands_from(cursor, order, size, kind)
}

/// Reads an entry. BadRangeList at its file offset if its kind is unknown or an operand can't be read.
#[tactic(auto, unfolding(crate::specs::Entries::entry_from))]
pub fn entry_from(cursor: &mut Cursor, order: Order, size: u8) -> Result<Entry, BadFile>
    ensures { Reads (λ e. e) result cursor.new (entry_from order size cursor.old) }
{
    let place = cursor.place();
    match kind_and_operands(cursor, order, size) {
        Ok(entry) => Ok(entry),
        Err(_) => bad_list(place),
    }
}
