//! The fields of the header of a line program (DWARF 2 to 5, section 6.2.4).

ghost use Rattle.std.specs.Prelude.{◌≡◌, ◌<◌, length, IfOk};
ghost use Rattle.dwarf_abbrev.specs.Reads.{Reads};
ghost use Rattle.dwarf_line_header.specs.Header.{IsUsable, address_size, divisor_from, encoding_from, instructions_from, lengths_from, max_ops_from, sizes_from, table_from};

use crate::encoding::{AddressSize, LineEncoding};
use byte_cursor::Cursor;
use dwarf_abbrev::{UnitShape, offset_from};
use size_core::{BadFile, Fault};

/// Skips the sizes of an address and of a segment selector, which are stored from DWARF 5 on.
#[tactic(auto, unfolding(crate::specs::Header::sizes_from, dwarf_abbrev::specs::Reads::skip_from))]
fn skip_sizes(version: u16, cursor: &mut Cursor) -> Result<(), BadFile>
    ensures { Reads (λ u. u) result cursor.new (sizes_from version cursor.old) }
{
    if version < 5 {
        return Ok(());
    }
    cursor.skip(2)
}

/// Returns a cursor at the first instruction, by the length of the header. `cursor` itself moves past the length
/// field.
#[tactic(auto, unfolding(crate::specs::Header::instructions_from))]
pub fn instructions<'a>(shape: &UnitShape, cursor: &mut Cursor<'a>) -> Result<Cursor<'a>, BadFile>
    ensures { Reads (λ w. w) result cursor.new (instructions_from shape.now cursor.old) }
{
    skip_sizes(shape.version, cursor)?;
    let len = offset_from(cursor, shape.order, shape.wide)?;
    let mut instructions = cursor.fork();
    instructions.skip(len)?;
    Ok(instructions)
}

/// The maximum number of operations in an instruction. It is 1 before DWARF 4.
#[tactic(auto, unfolding(crate::specs::Header::max_ops_from, dwarf_abbrev::specs::Reads::num_from))]
fn max_ops(version: u16, cursor: &mut Cursor) -> Result<u8, BadFile>
    ensures reads { Reads (λ n. n) result cursor.new (max_ops_from version cursor.old) }
    ensures some { IfOk result (λ n. 0 < n) }
{
    if version < 4 {
        return Ok(1);
    }
    let max_ops = cursor.u8()?;
    Ok(max_ops.max(1))
}

/// Reads a number of one byte that may not be 0. BadHeader at the number if it is.
#[tactic(auto, unfolding(crate::specs::Header::divisor_from, dwarf_abbrev::specs::Reads::num_from))]
fn divisor(cursor: &mut Cursor) -> Result<u8, BadFile>
    ensures reads { Reads (λ n. n) result cursor.new (divisor_from cursor.old) }
    ensures some { IfOk result (λ n. 0 < n) }
{
    let place = cursor.place();
    let number = cursor.u8()?;
    if number == 0 {
        return Err(BadFile {
            fault: Fault::BadHeader,
            offset: place,
        });
    }
    Ok(number)
}

/// The size of an address. A number of bytes other than 2 and 4 counts as 8.
pub fn address_size(bytes: u8) -> AddressSize
    ensures { result ≡ address_size bytes }
{
    match bytes {
        2 => AddressSize::Two,
        4 => AddressSize::Four,
        _ => AddressSize::Eight,
    }
}

/// Reads the parameters that the instructions depend on.
#[tactic(auto, unfolding(crate::specs::Header::encoding_from, dwarf_abbrev::specs::Reads::num_from))]
pub fn encoding(shape: &UnitShape, cursor: &mut Cursor) -> Result<LineEncoding, BadFile>
    ensures reads { Reads (λ e. e) result cursor.new (encoding_from shape.now cursor.old) }
    ensures usable { IfOk result IsUsable }
    ensures some { IfOk result (λ e. 0 < e.opcode_base) }
{
    let min_inst = cursor.u8()?;
    let max_ops = max_ops(shape.version, cursor)?;
    let _default_is_stmt = cursor.u8()?;
    let line_base = cursor.u8()?;
    let line_range = divisor(cursor)?;
    let opcode_base = divisor(cursor)?;
    Ok(LineEncoding {
        order: shape.order,
        address_size: address_size(shape.address),
        min_inst,
        max_ops,
        line_base: line_base.cast_signed(),
        line_range,
        opcode_base,
    })
}

/// The number of operands of each of `count` standard opcodes.
#[tactic(auto, unfolding(crate::specs::Header::lengths_from, dwarf_abbrev::specs::Lengths::contents_from))]
pub fn lengths<'a>(count: u8, cursor: &mut Cursor<'a>) -> Result<&'a [u8], BadFile>
    ensures reads { Reads (λ l. l.now) result cursor.new (lengths_from count cursor.old) }
    ensures all { IfOk result (λ l. length l.now ≡ count) }
{
    let lengths = cursor.take(count as u64)?;
    Ok(lengths.rest())
}
