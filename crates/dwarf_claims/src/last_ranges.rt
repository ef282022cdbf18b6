//! The ranges that were read last. Units in a row may name one range list.

ghost use Rattle.std.specs.Prelude.{◌≡◌, true};
ghost use Rattle.dwarf_ranges.specs.Ranges.{ranges_of};
ghost use Rattle.dwarf_units.specs.Roots.{shown_root};
ghost use Rattle.dwarf_claims.specs.KnownRanges.{AreRangesOf, HaveSameRanges, IsHollowBy};
ghost use Rattle.dwarf_claims.specs.Reads.{Reads};

use claim_sheet::Stop;
use dwarf_ranges::{RangeAnswer, RangeKey, range_key, unit_ranges};
use dwarf_units::{Root, Sections};
use std::alloc::Global;

/// The ranges of the unit that was read last.
#[derive(Drop)]
pub struct LastRanges {
    /// What the ranges depend on, if the unit names a range list.
    pub key: Option<RangeKey>,
    /// Each as its first address and its length in bytes.
    pub ranges: Vec<(u64, u64)>,
    /// Whether the list is known to have no ranges, whatever the first address of a unit is.
    pub is_hollow: bool,
}

// Returns whether units with these keys have the same ranges. `is_hollow` is whether the list of the last key is known
// to have no ranges.
fn have_same_ranges(is_hollow: bool, last: &RangeKey, key: &RangeKey) -> bool
    ensures { result ≡ true → HaveSameRanges is_hollow last.now key.now }
{
    if is_hollow {
        last.is_list_of(key)
    } else {
        *last == *key
    }
}

// Returns whether the list of a key is known to have no ranges. The list is read only if the unit has no ranges.
fn is_hollow(sections: &Sections<'_>, key: Option<RangeKey>, ranges: &[(u64, u64)]) -> bool
    ensures { IsHollowBy sections.now result key }
{
    if !ranges.is_empty() {
        return false;
    }
    match key {
        Some(key) => key.is_hollow(sections),
        None => false,
    }
}

// Reads the ranges of a unit.
fn ranges_of(
    alloc: Global,
    sections: &Sections<'_>,
    root: &Root<'_>,
) -> Result<Vec<(u64, u64)>, Stop>
    ensures { Reads (λ v. v.items) result (ranges_of sections.now (shown_root root.now)) }
{
    let mut ranges = Vec::new(alloc);
    match unit_ranges(alloc, root, sections, &mut ranges) {
        Ok(()) => Ok(ranges),
        Err(RangeAnswer::Bad(bad)) => Err(Stop::Bad(bad)),
        Err(RangeAnswer::NoMemory) => Err(Stop::NoMemory),
    }
}

/// Sets `last` to the ranges of a unit, without those that claim nothing. The list that the unit before named is read
/// again only if the two units differ in what its ranges depend on. A list without ranges doesn't depend on the
/// unit's first address. Bad is the first fault of the ranges.
#[tactic(auto, using(crate::proofs::KeptLemmas::ranges_again, crate::proofs::KeptLemmas::ranges_new))]
pub fn read_ranges(
    alloc: Global,
    sections: &Sections<'_>,
    root: &Root<'_>,
    last: &mut LastRanges,
) -> Result<(), Stop>
    requires { AreRangesOf sections.now last.old }
    ensures ranges { Reads (λ _. last.new.ranges.items) result
        (ranges_of sections.now (shown_root root.now)) }
    ensures last { AreRangesOf sections.now last.new }
{
    let key = range_key(root, sections);
    if let (Some(known), Some(key)) = (last.key, key)
        && have_same_ranges(last.is_hollow, &known, &key)
    {
        return Ok(());
    }
    let ranges = ranges_of(alloc, sections, root)?;
    let is_hollow = is_hollow(sections, key, &ranges);
    *last = LastRanges {
        key,
        ranges,
        is_hollow,
    };
    Ok(())
}
