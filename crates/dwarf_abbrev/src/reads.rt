//! Reads of a window: the numbers, offsets and addresses of DWARF. Each public call moves the cursor past what it read. A fault
//! leaves the cursor where the call began, and has this file offset. Only a three-byte number may have a fault at a
//! later offset: that of its part that isn't complete.

ghost use Rattle.std.specs.Int.{w16};
ghost use Rattle.std.specs.Prelude.{◌≡◌, ◌+◌, ◌*◌};
ghost use Rattle.byte_cursor.specs.declared.order.Order.TheVariants.{Little};
ghost use Rattle.dwarf_abbrev.specs.Reads.{Takes, Reads, byte_from, num_from, uleb_from, three_from, number_from, offset_from, address_from, inside};

use crate::form::{Digits, address_digits, offset_digits};
use byte_cursor::{Cursor, Order};
use size_core::BadFile;

/// Reads a three-byte number.
#[tactic(auto, unfolding(crate::specs::Reads::three_from, crate::specs::Reads::num_from))]
fn three_from(cursor: &mut Cursor, order: Order) -> Result<u64, BadFile>
    ensures { Reads (λ n. n) result cursor.new (three_from order cursor.old) }
{
    match order {
        Order::Little => {
            let low = cursor.u16(Order::Little)?;
            let high = cursor.u8()?;
            Ok(low as u64 + 65536 * high as u64)
        }
        Order::Big => {
            let high = cursor.u8()?;
            let low = cursor.u16(Order::Big)?;
            Ok(low as u64 + 65536 * high as u64)
        }
    }
}

/// Reads a three-byte number. On a fault the cursor doesn't move.
fn try_three_from(cursor: &mut Cursor, order: Order) -> Result<u64, BadFile>
    ensures { Takes (λ n. n) result cursor.old cursor.new (three_from order cursor.old) }
{
    let mut ahead = cursor.fork();
    match three_from(&mut ahead, order) {
        Ok(number) => {
            *cursor = ahead;
            Ok(number)
        }
        Err(bad) => Err(bad),
    }
}

/// Reads a number in this encoding. Truncated if it isn't complete, and BadLeb if a LEB128 number exceeds 2^64 - 1.
#[tactic(auto, unfolding(crate::specs::Reads::number_from, crate::specs::Reads::num_from, crate::specs::Reads::uleb_from))]
pub fn number_from(cursor: &mut Cursor, order: Order, digits: Digits) -> Result<u64, BadFile>
    ensures { Takes (λ n. n) result cursor.old cursor.new (number_from order digits cursor.old) }
{
    match digits {
        Digits::One => Ok(cursor.u8()? as u64),
        Digits::Two => Ok(cursor.u16(order)? as u64),
        Digits::Three => try_three_from(cursor, order),
        Digits::Four => Ok(cursor.u32(order)? as u64),
        Digits::Eight => cursor.u64(order),
        Digits::Uleb => cursor.uleb(),
    }
}

/// Reads an offset: 8 bytes in the 64-bit format, 4 in the 32-bit format (DWARF 5, section 7.4). Truncated
/// if fewer bytes are left.
pub fn offset_from(cursor: &mut Cursor, order: Order, wide: bool) -> Result<u64, BadFile>
    ensures { Takes (λ n. n) result cursor.old cursor.new (offset_from order wide cursor.old) }
{
    number_from(cursor, order, offset_digits(wide))
}

/// Reads an address of 2, 4 or 8 bytes. A `size` other than 2 and 4 is read as 8. Truncated if fewer bytes
/// are left.
pub fn address_from(cursor: &mut Cursor, order: Order, size: u8) -> Result<u64, BadFile>
    ensures { Takes (λ n. n) result cursor.old cursor.new (address_from order size cursor.old) }
{
    number_from(cursor, order, address_digits(size))
}

/// A cursor at an offset of a section. The section begins at the position of its cursor. `None` if the offset
/// isn't below the section's length.
pub fn inside<'a>(section: &Cursor<'a>, offset: u64) -> Option<Cursor<'a>>
    ensures { result ≡ inside section.now offset }
{
    if offset >= section.left() {
        return None;
    }
    let mut window = section.fork();
    match window.skip(offset) {
        Ok(()) => Some(window),
        Err(_) => None,
    }
}
