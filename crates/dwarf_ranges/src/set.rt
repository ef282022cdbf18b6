//! Address sets (DWARF 5, section 6.1.2).

ghost use Rattle.std.specs.Prelude.{◌≡◌, ◌<◌};
ghost use Rattle.dwarf_abbrev.specs.Reads.{Reads};
ghost use Rattle.dwarf_ranges.specs.Sets.{first_tuple, set_from, set_with};

use crate::header::{SetHeader, header_from};
use crate::tuples::Tuples;
use byte_cursor::{Cursor, Order};
use dwarf_abbrev::{ByFormat, LENGTH_LEN, initial_length};
use size_core::BadFile;

/// An address set of `.debug_aranges`: the addresses of one unit.
#[derive(Drop)]
pub struct AddressSet<'a> {
    /// The set's file offset.
    pub place: u64,
    /// The set's length in bytes, with its length field.
    pub len: u64,
    /// The offset of the set's unit in `.debug_info`.
    pub info_offset: u64,
    /// The size of an address in bytes: 2, 4 or 8.
    pub address: u8,
    /// The set's tuples.
    pub tuples: Tuples<'a>,
}

/// The size of a set's header, with its length field.
const HEADER_LEN: ByFormat = ByFormat(12, 24);

/// The cursor at the first tuple of a set: the next multiple of a tuple's size, counted from the set's first
/// byte. `contents` is at the first byte after the length field.
fn first_tuple<'a>(wide: bool, address: u8, contents: &Cursor<'a>) -> Cursor<'a>
    requires { 0 < address }
    ensures { result ≡ first_tuple wide address contents.now }
{
    let mut cursor = contents.fork();
    let size = 2 * address as u64;
    let start = (HEADER_LEN.pick(wide) + (size - 1)) / size * size - LENGTH_LEN.pick(wide);
    let _ = cursor.skip(start.min(cursor.left()));
    cursor
}

/// The set with this header and these contents. `None` if it is skipped: only version 2 is supported, with no segments,
/// and with addresses of 2, 4 or 8 bytes.
fn set_with<'a>(
    order: Order,
    place: u64,
    wide: bool,
    contents: &Cursor<'a>,
    header: &SetHeader,
) -> Option<AddressSet<'a>>
    ensures { result ≡ set_with order place wide contents.now header.now }
{
    if header.version != 2 || !matches!(header.address, 2 | 4 | 8) || header.segment != 0 {
        return None;
    }
    let cursor = first_tuple(wide, header.address, contents);
    Some(AddressSet {
        place,
        len: LENGTH_LEN.pick(wide) + contents.left(),
        info_offset: header.info_offset,
        address: header.address,
        tuples: Tuples::new(order, header.address, cursor),
    })
}

/// Reads the set at the cursor. `None` if it is skipped: it is too short for its header, has a version other
/// than 2, has segments, or has addresses of a size other than 2, 4 and 8.
#[tactic(auto, unfolding(crate::specs::Sets::set_from, crate::specs::Sets::set_in, dwarf_abbrev::specs::Lengths::contents_from))]
pub fn set_from<'a>(
    cursor: &mut Cursor<'a>,
    order: Order,
) -> Result<Option<AddressSet<'a>>, BadFile>
    ensures { Reads (λ x. x) result cursor.new (set_from order cursor.old) }
{
    let place = cursor.place();
    let initial = initial_length(cursor, order)?;
    let contents = cursor.take(initial.len)?;
    let mut fields = contents.fork();
    match header_from(&mut fields, order, initial.wide) {
        Ok(header) => Ok(set_with(order, place, initial.wide, &contents, &header)),
        Err(_) => Ok(None),
    }
}
