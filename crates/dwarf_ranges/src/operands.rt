//! Pairs of numbers that follow one another.

ghost use Rattle.dwarf_abbrev.specs.Reads.{Reads};
ghost use Rattle.dwarf_ranges.specs.Entries.{addresses_from, address_uleb_from, ulebs_from};

use byte_cursor::{Cursor, Order};
use dwarf_abbrev::address_from;
use size_core::BadFile;

/// Reads two addresses of this size.
#[tactic(auto, unfolding(crate::specs::Entries::addresses_from))]
pub fn addresses_from(cursor: &mut Cursor, order: Order, size: u8) -> Result<(u64, u64), BadFile>
    ensures { Reads (λ p. p) result cursor.new (addresses_from order size cursor.old) }
{
    let first = address_from(cursor, order, size)?;
    let second = address_from(cursor, order, size)?;
    Ok((first, second))
}

/// Reads two unsigned LEB128 numbers.
#[tactic(auto, unfolding(crate::specs::Entries::ulebs_from, dwarf_abbrev::specs::Reads::uleb_from))]
pub fn ulebs_from(cursor: &mut Cursor) -> Result<(u64, u64), BadFile>
    ensures { Reads (λ p. p) result cursor.new (ulebs_from cursor.old) }
{
    let first = cursor.uleb()?;
    let second = cursor.uleb()?;
    Ok((first, second))
}

/// Reads an address of this size and an unsigned LEB128 number.
#[tactic(auto, unfolding(crate::specs::Entries::address_uleb_from, dwarf_abbrev::specs::Reads::uleb_from))]
pub fn address_uleb_from(cursor: &mut Cursor, order: Order, size: u8) -> Result<(u64, u64), BadFile>
    ensures { Reads (λ p. p) result cursor.new (address_uleb_from order size cursor.old) }
{
    let first = address_from(cursor, order, size)?;
    let second = cursor.uleb()?;
    Ok((first, second))
}
