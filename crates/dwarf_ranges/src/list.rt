//! Range lists.

ghost use Rattle.dwarf_ranges.specs.Lists.{GivesRanges, list_of};

use crate::answer::RangeAnswer;
use crate::claims::claims_nothing;
use crate::item::{ListItem, ListUnit};
use byte_cursor::Cursor;
use std::alloc::Global;

/// The ranges of the list at the cursor, without those that claim nothing. `first` is the first base.
#[tactic(auto, using(crate::proofs::ItemLemmas::item_less, crate::proofs::ListLemmas::appended_none, crate::proofs::ListLemmas::list_end, crate::proofs::ListLemmas::list_bad, crate::proofs::ListLemmas::list_base, crate::proofs::ListLemmas::list_kept, crate::proofs::ListLemmas::list_dropped))]
pub fn list_of(
    alloc: Global,
    unit: ListUnit<'_, '_>,
    first: u64,
    mut cursor: Cursor,
) -> Result<Vec<(u64, u64)>, RangeAnswer>
    ensures { GivesRanges result
        (list_of unit.entry.sections.now unit.entry.shape unit.entry.table first cursor.entry) }
{
    let mut ranges = Vec::new(alloc);
    let mut base = first;
    'entries: loop {
        match unit.item_from(&mut cursor, base)? {
            ListItem::End => return Ok(ranges),
            ListItem::Base(other) => base = other,
            ListItem::Range(start, len) => {
                if !claims_nothing(unit.shape.address, start, len) {
                    ranges.push((start, len))?;
                }
            }
        }
    }
}
