//! The ranges of units (DWARF 5, section 2.17).

ghost use Rattle.std.specs.Prelude.{◌≡◌, true, Ok, IfErr, IfSome, OnErr, OnOk};
ghost use Rattle.std.specs.Option.{option_to_list};
ghost use Rattle.dwarf_units.specs.Roots.{shown_root};
ghost use Rattle.dwarf_ranges.specs.Hollow.{AreOneList, IsHollowKey};
ghost use Rattle.dwarf_ranges.specs.Keys.{IsKeyOf};
ghost use Rattle.dwarf_ranges.specs.Lists.{GivesRanges, Refuses, appended};
ghost use Rattle.dwarf_ranges.specs.Ranges.{high_of, list_ranges, one_range, range_to, ranges_of, signed_length, table_of, told_address, attribute_ranges};

use crate::answer::RangeAnswer;
use crate::claims::claims_nothing;
use crate::hollow::is_hollow_list;
use crate::item::ListUnit;
use crate::list::list_of;
use crate::list_location::{LISTS_HEADER_LEN, ListName, ListReference, list_at, list_name};
use dwarf_abbrev::{Content, UnitShape, Value};
use dwarf_units::{Root, Sections, TABLE_HEADER_LEN, base_or};
use size_core::BadFile;
use std::alloc::Global;

/// The end of a unit's range, if the unit has no range list.
#[derive(Clone, Copy)]
pub enum High {
    /// The first address after the range.
    End(u64),
    /// The range's length in bytes.
    Length(u64),
}

/// What the ranges of a list depend on, beside the list.
#[derive(Clone, Copy, PartialEq, Eq)]
pub struct ListContext {
    /// The offset of the unit's table in `.debug_rnglists`, or 0 if the list isn't named by an index.
    pub lists: u64,
    /// The format of the unit's values.
    pub shape: UnitShape,
    /// The unit's first address, which is the first base of the list.
    pub low: Option<u64>,
    /// The offset of the unit's table in `.debug_addr`.
    pub table: u64,
}

/// What the ranges of a unit depend on if it names a range list.
#[derive(Clone, Copy, PartialEq, Eq)]
pub struct RangeKey {
    /// The form in which the unit names the list.
    pub name: ListName,
    /// What its ranges depend on besides.
    pub context: ListContext,
}

/// What `DW_AT_low_pc` gives: the unit's first address. `None` if the unit has none.
fn low_of(root: &Root, sections: &Sections) -> Result<Option<u64>, BadFile>
    ensures { result ≡ told_address sections.now (shown_root root.now) (shown_root root.now).low }
{
    match &root.low {
        Some(value) => root.address(value, sections),
        None => Ok(None),
    }
}

/// The length of a range. `None` if the number is negative.
fn signed_length(length: i64) -> Option<High>
    ensures { result ≡ signed_length length }
{
    if length < 0 {
        None
    } else {
        Some(High::Length(length as u64))
    }
}

/// What `DW_AT_high_pc` gives: the address after the range, or the range's length. `None` if it gives neither.
fn high_of(root: &Root, sections: &Sections) -> Result<Option<High>, BadFile>
    ensures { result ≡ high_of sections.now (shown_root root.now) (shown_root root.now).high }
{
    let Some(value) = &root.high else {
        return Ok(None);
    };
    match value.content {
        Content::Constant(length) => Ok(Some(High::Length(length))),
        Content::Signed(length) => Ok(signed_length(length)),
        _ => match root.address(value, sections)? {
            Some(end) => Ok(Some(High::End(end))),
            None => Ok(None),
        },
    }
}

/// The range from its start to its end. None if one of them is absent, or if the range claims nothing.
fn range_to(size: u8, low: Option<u64>, high: Option<High>) -> Option<(u64, u64)>
    ensures { option_to_list result ≡ range_to size low high }
{
    let start = low?;
    let len = match high? {
        High::End(end) => end.saturating_sub(start),
        High::Length(len) => len,
    };
    if claims_nothing(size, start, len) {
        None
    } else {
        Some((start, len))
    }
}

/// The range from `DW_AT_low_pc` to `DW_AT_high_pc`.
fn one_range(
    alloc: Global,
    root: &Root,
    sections: &Sections,
    low: Option<u64>,
) -> Result<Vec<(u64, u64)>, RangeAnswer>
    ensures { GivesRanges result (one_range sections.now (shown_root root.now) low) }
{
    let high = high_of(root, sections)?;
    let mut ranges = Vec::new(alloc);
    if let Some(range) = range_to(root.shape.address, low, high) {
        ranges.push(range)?;
    }
    Ok(ranges)
}

/// The ranges of a range list. The unit's first address is the first base.
fn list_ranges(
    alloc: Global,
    root: &Root,
    sections: &Sections,
    low: Option<u64>,
    list: ListReference,
) -> Result<Vec<(u64, u64)>, RangeAnswer>
    ensures { GivesRanges result
        (list_ranges sections.now (shown_root root.now) low list.place list.name) }
{
    let wide = root.shape.wide;
    let lists = base_or(&root.list_base, LISTS_HEADER_LEN.pick(wide));
    let cursor = list_at(sections, &root.shape, lists, list.place, list.name)?;
    let table = base_or(&root.addr_base, TABLE_HEADER_LEN.pick(wide));
    let unit = ListUnit {
        sections,
        shape: root.shape,
        table,
    };
    list_of(alloc, unit, low.unwrap_or(0), cursor)
}

/// The ranges of a unit, given its first address.
fn attribute_ranges(
    alloc: Global,
    root: &Root,
    sections: &Sections,
    low: Option<u64>,
) -> Result<Vec<(u64, u64)>, RangeAnswer>
    ensures { GivesRanges result
        (attribute_ranges sections.now (shown_root root.now) low (shown_root root.now).ranges) }
{
    let Some(value) = &root.ranges else {
        return one_range(alloc, root, sections, low);
    };
    match list_name(root.shape.version, value) {
        Some(name) => {
            let list = ListReference {
                place: value.place,
                name,
            };
            list_ranges(alloc, root, sections, low, list)
        }
        None => one_range(alloc, root, sections, low),
    }
}

/// Appends the ranges of a unit, each as its first address and its length in bytes. Ranges that claim nothing
/// are left out. The ranges are those of the unit's range list, in order. A unit without a list has the one
/// range from `DW_AT_low_pc` to `DW_AT_high_pc`. On an error `out` is unchanged.
///
/// The first fault is returned, in this order. Unless stated otherwise, it has the file offset of the value
/// that refers outside.
///
/// - OffsetOutside if the address that `DW_AT_low_pc` refers to isn't in `.debug_addr`.
/// - OffsetOutside if the list doesn't begin in its section, or if the entry that has its offset isn't in the
///   section. A list at the end of `.debug_ranges` counts as in the section, and has the fault of its first entry.
/// - In a list, at the entry's file offset: OffsetOutside if an address that an entry refers to isn't in
///   `.debug_addr`; BadRangeList if an entry has an unknown kind or isn't complete.
/// - Without a list: OffsetOutside if the address that `DW_AT_high_pc` refers to isn't in `.debug_addr`.
#[tactic(auto, unfolding(crate::specs::Ranges::ranges_of))]
pub fn unit_ranges(
    alloc: Global,
    root: &Root,
    sections: &Sections,
    out: &mut Vec<(u64, u64)>,
) -> Result<(), RangeAnswer>
    ensures added { OnOk result
        (appended out.old.items (ranges_of sections.now (shown_root root.now))
        ≡ Ok out.new.items) }
    ensures fault { IfErr result (Refuses (ranges_of sections.now (shown_root root.now))) }
    ensures same { OnErr result (out.new.items ≡ out.old.items) }
{
    let low = low_of(root, sections)?;
    let ranges = attribute_ranges(alloc, root, sections, low)?;
    out.extend_from_slice(ranges.as_slice())?;
    Ok(())
}

/// Returns the offset of the table in `.debug_rnglists` that an index is counted in, or 0 if the name is no index.
fn table_of(root: &Root, name: ListName) -> u64
    ensures { result ≡ table_of (shown_root root.now) name }
{
    match name {
        ListName::Index(_) => base_or(&root.list_base, LISTS_HEADER_LEN.pick(root.shape.wide)),
        ListName::Offset(_) => 0,
    }
}

/// Returns what the ranges of a unit depend on. It is None if the unit names no range list, or if its first address
/// has a fault.
pub fn range_key(root: &Root, sections: &Sections) -> Option<RangeKey>
    ensures { IfSome result (λ key. IsKeyOf sections.now (shown_root root.now) key) }
{
    let value = root.ranges.as_ref()?;
    let name = list_name(root.shape.version, value)?;
    let low = low_of(root, sections).ok()?;
    let context = ListContext {
        lists: table_of(root, name),
        shape: root.shape,
        low,
        table: base_or(&root.addr_base, TABLE_HEADER_LEN.pick(root.shape.wide)),
    };
    Some(RangeKey { name, context })
}

impl RangeKey {
    /// Returns true only if two keys name one list, which units of different bases may do.
    pub fn is_list_of(&self, other: &RangeKey) -> bool
        ensures { result ≡ true → AreOneList self.now other.now }
    {
        self.name == other.name
            && self.context.lists == other.context.lists
            && self.context.shape == other.context.shape
    }

    /// Returns true only if the list has no fault and no range that claims something, whatever the first base and the
    /// table of addresses are.
    #[tactic(auto, using(crate::proofs::HollowLemmas::hollow_key))]
    pub fn is_hollow(&self, sections: &Sections) -> bool
        ensures { result ≡ true → IsHollowKey sections.now self.now }
    {
        let context = &self.context;
        match list_at(sections, &context.shape, context.lists, 0, self.name) {
            Ok(list) => is_hollow_list(sections, &context.shape, list),
            Err(_) => false,
        }
    }
}
