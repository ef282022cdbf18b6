//! The roots of units. The root is the first entry of a unit, and describes the unit itself (DWARF 5, section 3.1).

ghost use Rattle.std.specs.Prelude.{◌≡◌, false, IfSome};
ghost use Rattle.std.specs.Option.{option_copied};
ghost use Rattle.size_core.specs.Checks.{Gives};
ghost use Rattle.dwarf_abbrev.specs.Values.{shown};
ghost use Rattle.dwarf_units.specs.Filling.{IsUnread, earlier_value, is_read, with_value};
ghost use Rattle.dwarf_units.specs.Roots.{IsNameAt, address_of, name_of, shown_root, shown_value, stored_name};

use crate::constants::{
    DW_AT_ADDR_BASE, DW_AT_HIGH_PC, DW_AT_LOW_PC, DW_AT_NAME, DW_AT_RANGES, DW_AT_RNGLISTS_BASE,
    DW_AT_STMT_LIST, DW_AT_STR_OFFSETS_BASE,
};
use crate::sections::Sections;
use crate::strings::{StringAt, TABLE_HEADER_LEN, address_by, base_or, string_of, text_of};
use dwarf_abbrev::{UnitShape, Value};
use size_core::BadFile;

/// The attribute values of a unit's root that this crate distinguishes. It has the first value of each attribute, if
/// there is one.
#[derive(Clone, Copy, Debug)]
pub struct Root<'a> {
    /// The unit's file offset.
    pub place: u64,
    /// The format of the unit's values.
    pub shape: UnitShape,
    /// The file offset of the unit's abbreviation table.
    pub table_place: u64,
    /// The length of that table in bytes.
    pub table_len: u64,
    /// `DW_AT_name`
    pub name: Option<Value<'a>>,
    /// `DW_AT_low_pc`
    pub low: Option<Value<'a>>,
    /// `DW_AT_high_pc`
    pub high: Option<Value<'a>>,
    /// `DW_AT_ranges`
    pub ranges: Option<Value<'a>>,
    /// `DW_AT_stmt_list`
    pub lines: Option<Value<'a>>,
    /// `DW_AT_str_offsets_base`
    pub str_base: Option<Value<'a>>,
    /// `DW_AT_addr_base`
    pub addr_base: Option<Value<'a>>,
    /// `DW_AT_rnglists_base`
    pub list_base: Option<Value<'a>>,
}

/// The value to keep of an attribute: the one that is kept already, or else the new one.
fn earlier_value<'a>(old: Option<Value<'a>>, value: Value<'a>) -> Option<Value<'a>>
    ensures { shown_value result ≡ earlier_value (shown_value old.entry) (shown value.entry) }
{
    match old {
        Some(first) => Some(first),
        None => Some(value),
    }
}

/// Adds the next value of the root. A value counts only if it is the first of its attribute.
pub fn add_value<'a>(root: &mut Root<'a>, attribute: u64, value: Value<'a>)
    ensures { shown_root root.new ≡ with_value attribute (shown value.entry) (shown_root root.old) }
{
    match attribute {
        DW_AT_NAME => root.name = earlier_value(root.name, value),
        DW_AT_LOW_PC => root.low = earlier_value(root.low, value),
        DW_AT_HIGH_PC => root.high = earlier_value(root.high, value),
        DW_AT_RANGES => root.ranges = earlier_value(root.ranges, value),
        DW_AT_STMT_LIST => root.lines = earlier_value(root.lines, value),
        DW_AT_STR_OFFSETS_BASE => root.str_base = earlier_value(root.str_base, value),
        DW_AT_ADDR_BASE => root.addr_base = earlier_value(root.addr_base, value),
        DW_AT_RNGLISTS_BASE => root.list_base = earlier_value(root.list_base, value),
        _ => {}
    }
}

/// Returns whether a root keeps the values of this attribute.
pub fn is_read(attribute: u64) -> bool
    ensures value { result ≡ is_read attribute }
    ensures unread { result ≡ false → IsUnread attribute }
{
    match attribute {
        DW_AT_NAME | DW_AT_LOW_PC | DW_AT_HIGH_PC | DW_AT_RANGES | DW_AT_STMT_LIST => true,
        DW_AT_STR_OFFSETS_BASE | DW_AT_ADDR_BASE | DW_AT_RNGLISTS_BASE => true,
        _ => false,
    }
}

impl<'a> Root<'a> {
    /// The unit's name, if it has one. It is a string in the unit, in `.debug_str` or in `.debug_line_str`.
    ///
    /// OffsetOutside if its offset isn't below the section's length, or if the entry that has the offset
    /// isn't completely inside `.debug_str_offsets`. BadString if it has no null byte. Each fault has the
    /// value's file offset.
    pub fn name_text(&self, sections: &Sections<'a>) -> Result<Option<&'a [u8]>, BadFile>
        ensures { Gives option_copied result (name_of sections.now (shown_root self.now)) }
    {
        match &self.name {
            Some(name) => {
                let base = base_or(&self.str_base, TABLE_HEADER_LEN.pick(self.shape.wide));
                text_of(name, self.shape.wide, base, sections)
            }
            None => Ok(None),
        }
    }

    /// The section and the offset of the unit's name. `None` if it isn't in a section of strings, or if the index of
    /// its offset has a fault.
    pub fn name_at(&self, sections: &Sections<'a>) -> Option<StringAt>
        ensures stored { result ≡ stored_name sections.now (shown_root self.now) }
        ensures name { IfSome result (λ at. IsNameAt sections.now (shown_root self.now) at) }
    {
        let name = self.name.as_ref()?;
        let base = base_or(&self.str_base, TABLE_HEADER_LEN.pick(self.shape.wide));
        string_of(name, self.shape.wide, base, sections)
    }

    /// The address that a value of the unit gives, directly or by its index in `.debug_addr`. `None` if it
    /// gives none. OffsetOutside at the value's file offset if the entry isn't completely inside the
    /// section.
    pub fn address(
        &self,
        value: &Value<'a>,
        sections: &Sections<'a>,
    ) -> Result<Option<u64>, BadFile>
        ensures { result ≡ address_of sections.now (shown_root self.now) (shown value.now) }
    {
        let base = base_or(&self.addr_base, TABLE_HEADER_LEN.pick(self.shape.wide));
        address_by(value, &self.shape, base, sections)
    }
}
