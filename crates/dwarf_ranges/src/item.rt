//! What range list entries mean.

ghost use Rattle.std.specs.Prelude.{◌≡◌};
ghost use Rattle.dwarf_abbrev.specs.Reads.{Reads};
ghost use Rattle.dwarf_units.specs.Strings.{address_at};
ghost use Rattle.dwarf_ranges.specs.Entries.{range_between, item_from, item_of, pair_item};

use crate::claims::{base_sum, greatest};
use crate::entry::{Entry, bad_list, entry_from};
use crate::operands::addresses_from;
use byte_cursor::{Cursor, Order};
use dwarf_abbrev::UnitShape;
use dwarf_units::{Sections, address_at};
use size_core::BadFile;

/// What a range list entry means.
#[derive(Clone, Copy)]
pub enum ListItem {
    /// The end of the list.
    End,
    /// A new base for the offsets that follow.
    Base(u64),
    /// A range: its first address and its length in bytes.
    Range(u64, u64),
}

/// What the entries of a unit's range list depend on, beside the list.
#[derive(Clone, Copy)]
pub struct ListUnit<'s, 'a> {
    /// The debug sections.
    pub sections: &'s Sections<'a>,
    /// The format of the unit's values.
    pub shape: UnitShape,
    /// The offset of the unit's table of addresses in `.debug_addr`.
    pub table: u64,
}

/// The range from a start to an end.
fn range_between(start: u64, end: u64) -> ListItem
    ensures { result ≡ range_between start end }
{
    ListItem::Range(start, end.saturating_sub(start))
}

/// What a pair of `.debug_ranges` means, with this base.
fn pair_item(size: u8, base: u64, begin: u64, end: u64) -> ListItem
    ensures { result ≡ pair_item size base begin end }
{
    if begin == 0 && end == 0 {
        ListItem::End
    } else if begin == greatest(size) {
        ListItem::Base(end)
    } else {
        range_between(base_sum(size, base, begin), base_sum(size, base, end))
    }
}

impl<'s, 'a> ListUnit<'s, 'a> {
    /// The address at an index of the unit's table in `.debug_addr`.
    fn address(self, index: u64, place: u64) -> Result<u64, BadFile>
        ensures { result ≡ address_at self.entry.sections.now self.entry.shape self.entry.table
            index place }
    {
        address_at(self.sections, &self.shape, self.table, index, place)
    }

    /// What an entry at the file offset `place` means, with this base.
    #[tactic(auto, unfolding(crate::specs::Entries::item_of))]
    fn item_of(self, place: u64, base: u64, entry: Entry) -> Result<ListItem, BadFile>
        ensures { result ≡ item_of self.entry.sections.now self.entry.shape self.entry.table
            place base entry }
    {
        match entry {
            Entry::EndOfList => Ok(ListItem::End),
            Entry::BaseAddressx(index) => {
                let other = self.address(index, place)?;
                Ok(ListItem::Base(other))
            }
            Entry::StartxEndx(first, second) => {
                let start = self.address(first, place)?;
                let end = self.address(second, place)?;
                Ok(range_between(start, end))
            }
            Entry::StartxLength(index, len) => {
                let start = self.address(index, place)?;
                Ok(ListItem::Range(start, len))
            }
            Entry::OffsetPair(first, second) => {
                let start = base_sum(self.shape.address, base, first);
                let end = base_sum(self.shape.address, base, second);
                Ok(range_between(start, end))
            }
            Entry::BaseAddress(other) => Ok(ListItem::Base(other)),
            Entry::StartEnd(start, end) => Ok(range_between(start, end)),
            Entry::StartLength(start, len) => Ok(ListItem::Range(start, len)),
        }
    }

    /// Reads an item of a range list: an entry in DWARF 5, a pair of addresses in earlier versions. BadRangeList at its
    /// file offset if it isn't complete.
    #[tactic(auto, unfolding(crate::specs::Entries::entry_item_from, crate::specs::Entries::pair_item_from))]
    pub fn item_from(self, cursor: &mut Cursor, base: u64) -> Result<ListItem, BadFile>
        ensures { Reads (λ i. i) result cursor.new
            (item_from self.entry.sections.now self.entry.shape self.entry.table base cursor.old) }
    {
        let place = cursor.place();
        let size = self.shape.address;
        if self.shape.version == 5 {
            let entry = entry_from(cursor, self.sections.order, size)?;
            return self.item_of(place, base, entry);
        }
        match addresses_from(cursor, self.sections.order, size) {
            Ok((begin, end)) => Ok(pair_item(size, base, begin, end)),
            Err(_) => bad_list(place),
        }
    }
}
