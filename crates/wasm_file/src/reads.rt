//! Reads numbers, names and byte vectors of a module. Each read returns the value at the cursor's position
//! and moves past it. It returns `None` if the value can't be read, and the position is then
//! unspecified.

ghost use Rattle.std.specs.Option.{option_copied};
ghost use Rattle.wasm_file.specs.Numbers.{number_at, piece_at, name_at};
ghost use Rattle.wasm_file.specs.Records.{Reads};

use byte_cursor::Cursor;

/// Reads a size, a count or an index: a LEB128 number below 2^32 in at most five bytes (WebAssembly core
/// 2.0, 5.2.2 Integers, u32).
#[tactic(auto, unfolding(crate::specs::Numbers::number_at))]
pub fn number(cursor: &mut Cursor) -> Option<u32>
    ensures { Reads result (λ w. number_at w.bytes w.at) cursor.old cursor.new }
{
    let place = cursor.place();
    let value = cursor.uleb().ok()?;
    if value > u32::MAX as u64 || cursor.place() - place > 5 {
        return None;
    }
    Some(value as u32)
}

/// Reads a size and that many bytes, and returns a cursor over these bytes.
#[tactic(auto, unfolding(crate::specs::Numbers::piece_at))]
pub fn piece<'a>(cursor: &mut Cursor<'a>) -> Option<Cursor<'a>>
    ensures { Reads result (λ w. piece_at w.base w.bytes w.at) cursor.old cursor.new }
{
    let size = number(cursor)?;
    let bytes = cursor.take(size as u64).ok()?;
    Some(bytes)
}

/// Reads a name: a size and that many bytes.
#[tactic(auto, unfolding(crate::specs::Numbers::name_at, crate::specs::Numbers::piece_at))]
pub fn name<'a>(cursor: &mut Cursor<'a>) -> Option<&'a [u8]>
    ensures { Reads (option_copied result) (λ w. name_at w.bytes w.at) cursor.old cursor.new }
{
    let bytes = piece(cursor)?;
    Some(bytes.rest())
}
