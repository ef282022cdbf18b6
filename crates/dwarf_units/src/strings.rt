//! Strings and addresses that attribute values refer to (DWARF 5, sections 7.26 and 7.27).

ghost use Rattle.std.specs.Prelude.{◌≡◌, ◌+◌, ◌*◌, IfSome};
ghost use Rattle.std.specs.Option.{option_copied};
ghost use Rattle.size_core.specs.Checks.{Gives, bad};
ghost use Rattle.size_core.specs.declared.fault.Fault.TheVariants.{OffsetOutside};
ghost use Rattle.dwarf_abbrev.specs.Reads.{inside};
ghost use Rattle.dwarf_abbrev.specs.Values.{meaning, shown};
ghost use Rattle.dwarf_units.specs.Strings.{address_at, address_by, address_size, base_or, named, offset_at, stored_string, string_at, string_in_section, string_offset_at, text_by, text_of};
ghost use Rattle.dwarf_units.specs.Roots.{shown_value};

use crate::sections::Sections;
use byte_cursor::{Cursor, Order};
use dwarf_abbrev::{
    ByFormat, Content, OFFSET_LEN, UnitShape, Value, address_from, inside, offset_from,
};
use size_core::{BadFile, Fault};

/// A string in a section, by its offset.
#[derive(Clone, Copy, Debug, PartialEq, Eq)]
pub enum StringAt {
    /// In `.debug_str`.
    Strings(u64),
    /// In `.debug_line_str`.
    LineStrings(u64),
}

/// The string at an offset of a section. Its faults have the file offset `place`.
#[tactic(auto, unfolding(crate::specs::Strings::string_at))]
fn string_at<'a>(section: &Cursor<'a>, offset: u64, place: u64) -> Result<&'a [u8], BadFile>
    ensures { Gives (λ t. t.now) result (string_at section.now offset place) }
{
    let Some(mut cursor) = inside(section, offset) else {
        return Err(BadFile {
            fault: Fault::OffsetOutside,
            offset: place,
        });
    };
    match cursor.cstr() {
        Ok(text) => Ok(text),
        Err(_) => Err(BadFile {
            fault: Fault::BadString,
            offset: place,
        }),
    }
}

/// The cursor at an entry of a table, if the entry begins inside the section.
fn entry_inside<'a>(section: &Cursor<'a>, base: u64, index: u64, size: u64) -> Option<Cursor<'a>>
    ensures { result ≡ inside section.now (base + index * size) }
{
    let offset = base as u128 + index as u128 * size as u128;
    if offset >= section.left() as u128 {
        return None;
    }
    inside(section, offset as u64)
}

/// The size of an address in bytes.
fn address_size(shape: &UnitShape) -> u64
    ensures { result ≡ address_size shape.now }
{
    match shape.address {
        2 => 2,
        4 => 4,
        _ => 8,
    }
}

/// The fault of an entry that isn't completely inside its section.
fn outside_section(place: u64) -> Result<u64, BadFile>
    ensures { result ≡ bad OffsetOutside place }
{
    Err(BadFile {
        fault: Fault::OffsetOutside,
        offset: place,
    })
}

/// A table of offsets in a section: in `.debug_str_offsets`, or in `.debug_rnglists` (DWARF 5, sections 7.26 and
/// 7.28).
#[derive(Clone, Copy)]
pub struct OffsetTable<'s, 'a> {
    /// The byte order.
    pub order: Order,
    /// Whether offsets have 8 bytes or 4.
    pub wide: bool,
    /// The section.
    pub section: &'s Cursor<'a>,
    /// The offset of the first entry in the section.
    pub base: u64,
}

impl<'s, 'a> OffsetTable<'s, 'a> {
    /// The offset at an index. OffsetOutside at the file offset `place` if the entry isn't completely inside the
    /// section.
    #[tactic(auto, unfolding(crate::specs::Strings::offset_at))]
    pub fn offset(self, index: u64, place: u64) -> Result<u64, BadFile>
        ensures { result ≡ offset_at self.entry.order self.entry.wide self.entry.section.now
            self.entry.base index place }
    {
        let size = OFFSET_LEN.pick(self.wide);
        let Some(mut cursor) = entry_inside(self.section, self.base, index, size) else {
            return outside_section(place);
        };
        match offset_from(&mut cursor, self.order, self.wide) {
            Ok(offset) => Ok(offset),
            Err(_) => outside_section(place),
        }
    }
}

impl Sections<'_> {
    /// The offset at an index of the table in `.debug_str_offsets` that begins at `base`.
    fn string_offset(&self, wide: bool, base: u64, index: u64, place: u64) -> Result<u64, BadFile>
        ensures { result ≡ string_offset_at self.now wide base index place }
    {
        let table = OffsetTable {
            order: self.order,
            wide,
            section: &self.str_offsets,
            base,
        };
        table.offset(index, place)
    }
}

/// The address at an index of the table in `.debug_addr` that begins at `base`. OffsetOutside at the file offset
/// `place` if the entry isn't completely inside the section.
#[tactic(auto, unfolding(crate::specs::Strings::address_at))]
pub fn address_at(
    sections: &Sections,
    shape: &UnitShape,
    base: u64,
    index: u64,
    place: u64,
) -> Result<u64, BadFile>
    ensures { result ≡ address_at sections.now shape.now base index place }
{
    let Some(mut cursor) = entry_inside(&sections.addresses, base, index, address_size(shape))
    else {
        return outside_section(place);
    };
    match address_from(&mut cursor, sections.order, shape.address) {
        Ok(address) => Ok(address),
        Err(_) => outside_section(place),
    }
}

/// The size of the header of a table of offsets or addresses. It is the offset in the section of the first entry, if
/// no attribute gives it (DWARF 5, sections 7.26 and 7.27).
pub const TABLE_HEADER_LEN: ByFormat = ByFormat(8, 16);

/// The offset, in bytes, that an attribute gives as the base of a table in its section. It is `other` if the
/// attribute is absent or gives no offset.
pub fn base_or(value: &Option<Value>, other: u64) -> u64
    ensures { result ≡ base_or (shown_value value.now) other }
{
    match value {
        Some(
            Value {
                content: Content::SecOffset(base),
                ..
            },
        ) => *base,
        _ => other,
    }
}

/// The string that a value refers to: its own text, a string of `.debug_str` or `.debug_line_str` by its
/// offset, or a string of `.debug_str` by the index of its offset. The entries of the index begin at `base` in
/// `.debug_str_offsets`. `None` if the value refers to no string.
///
/// OffsetOutside if an offset isn't below the length of its section, or if the entry isn't completely
/// inside it. BadString if the string has no null byte. Each fault has the value's file offset.
#[tactic(auto, unfolding(crate::specs::Strings::text_by))]
pub fn text_of<'a>(
    value: &Value<'a>,
    wide: bool,
    base: u64,
    sections: &Sections<'a>,
) -> Result<Option<&'a [u8]>, BadFile>
    ensures { Gives option_copied result (text_of sections.now wide base (shown value.now)) }
{
    match value.content {
        Content::Text(text) => Ok(Some(text)),
        Content::StrOffset(offset) => {
            let text = string_at(&sections.strings, offset, value.place)?;
            Ok(Some(text))
        }
        Content::LineStrOffset(offset) => {
            let text = string_at(&sections.line_strings, offset, value.place)?;
            Ok(Some(text))
        }
        Content::StrIndex(index) => {
            let offset = sections.string_offset(wide, base, index, value.place)?;
            let text = string_at(&sections.strings, offset, value.place)?;
            Ok(Some(text))
        }
        _ => Ok(None),
    }
}

/// The section and the offset of the string that a value refers to, if it is in a section. `None` also if the index of
/// its offset has a fault. The arguments are those of `text_of`.
#[tactic(auto, unfolding(crate::specs::Strings::text_by, crate::specs::Strings::stored_string_by))]
pub fn string_of(value: &Value, wide: bool, base: u64, sections: &Sections) -> Option<StringAt>
    ensures stored { result ≡ stored_string sections.now wide base (shown value.now) }
    ensures text { IfSome result (λ at. text_of sections.now wide base (shown value.now)
        ≡ named (string_in_section sections.now at value.now.place)) }
{
    match value.content {
        Content::StrOffset(offset) => Some(StringAt::Strings(offset)),
        Content::LineStrOffset(offset) => Some(StringAt::LineStrings(offset)),
        Content::StrIndex(index) => {
            let offset = sections.string_offset(wide, base, index, value.place).ok()?;
            Some(StringAt::Strings(offset))
        }
        _ => None,
    }
}

/// The address that a value gives, directly or by its index. The entries of the index begin at `base` in
/// `.debug_addr`. `None` if it gives none, and OffsetOutside at the value's file offset if the entry
/// isn't completely inside the section.
#[tactic(auto, unfolding(crate::specs::Strings::address_by))]
pub fn address_by(
    value: &Value,
    shape: &UnitShape,
    base: u64,
    sections: &Sections,
) -> Result<Option<u64>, BadFile>
    ensures { result
        ≡ address_by sections.now shape.now base value.now.place (meaning value.now.content) }
{
    match value.content {
        Content::Address(address) => Ok(Some(address)),
        Content::AddrIndex(index) => {
            let address = address_at(sections, shape, base, index, value.place)?;
            Ok(Some(address))
        }
        _ => Ok(None),
    }
}
