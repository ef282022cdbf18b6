//! The walk through the maps of all data sources side by side.

ghost use Rattle.std.specs.Prelude.{false, ◌≡◌, ◌+◌, ◌-◌, ◌^◌, ◌<◌, ◌≤◌, ℕ, Bool, List, IfOk, OnOk, IsTrue, All, length, slice_index_or};
ghost use Rattle.std.specs.List.{list_any};
ghost use Rattle.std.specs.Option.{option_copied};
ghost use Rattle.dual_map.specs.Layout.{LabelsBelow};
ghost use Rattle.rollup.specs.Adding.{passes};
ghost use Rattle.rollup.specs.Walk.{Each, IsAt, IsReached, layers, reads, piece_total, stop_of, no_cursor};
ghost use Rattle.rollup.specs.Sizes.{IsGrownIf, IsEntry, all_started, labels_of, is_counted, no_entry, size_in, weight, other};
ghost use Rattle.rollup.specs.Counted.{counted};

use crate::cursor::{Cursor, Part};
use crate::sizes::PathSizes;
use dual_map::DualMap;
use size_core::{NoMemory, Steps};
use std::alloc::{AllocError, Global};
use std::sync::ledger::Ledger;

/// What a walk counts: the positions of one part, by the labels of the maps. With marks, a position counts only if one
/// of its labels is marked true.
#[derive(Clone, Copy)]
pub struct Walked<'m, 'f> {
    /// The maps of the data sources in their order.
    pub maps: &'m [DualMap],
    /// Which map of each data source is walked.
    pub part: Part,
    /// For each number of a label, whether the filter passes the label.
    pub marks: Option<&'f [bool]>,
}

// The positions from `at` up to `to`.
#[derive(Clone, Copy)]
struct Stretch {
    at: u128,
    to: u128,
}

// The first piece of each map.
fn first_pieces<L: Ledger>(
    alloc: Global,
    maps: &[DualMap],
    part: Part,
    steps: &mut Steps<L>,
) -> Result<Vec<Cursor>, AllocError>
    ensures at { IfOk result (λ v. Each (λ ps c. IsAt ps 0 c) (layers part maps.now) v.items) }
    ensures cost { IfOk result (λ v. steps.new ≡ steps.old + reads (layers part maps.now) v.items) }
    ensures bound { steps.new ≤ steps.old + piece_total (layers part maps.now) }
{
    let mut cursors = Vec::new(alloc);
    for map in maps {
        let cursor = Cursor::read(part.map_of(map), 0, steps);
        cursors.push(cursor)?;
    }
    Ok(cursors)
}

// The least position at which a label changes, or the limit.
fn next_stop(cursors: &[Cursor], at: u128, limit: u128) -> u128
    requires limit { at < limit }
    requires ahead { (i : ℕ) → i < length cursors.now
        → at < (slice_index_or cursors.now i no_cursor).end }
    ensures ahead { at < result }
    ensures limit { result ≤ limit }
    ensures least { (i : ℕ) → i < length cursors.now
        → result ≤ stop_of at (slice_index_or cursors.now i no_cursor) }
{
    let mut to = limit;
    for cursor in cursors {
        to = to.min(cursor.stop(at));
    }
    to
}

// The numbers of the labels at a position. False if a map has none there.
fn labels_at(cursors: &[Cursor], at: u128, numbers: &mut Vec<usize>) -> Result<bool, AllocError>
    ensures all { IfOk result (λ all. all ≡ all_started at cursors.now) }
    ensures numbers { IfOk result (λ all. IsTrue all → numbers.new.items ≡ labels_of cursors.now) }
{
    numbers.clear();
    for cursor in cursors {
        if at < cursor.start {
            return Ok(false);
        }
        numbers.push(cursor.label)?;
    }
    Ok(true)
}

// Whether one of these labels is marked true.
fn any_is_marked(marks: &[bool], numbers: &[usize]) -> bool
    ensures { result ≡ list_any (λ n. slice_index_or marks.now n false) numbers.now }
{
    numbers
        .iter()
        .any(|n| marks.get(*n).copied().unwrap_or(false))
}

// Whether the filter passes one of the labels.
fn pass(marks: Option<&[bool]>, numbers: &[usize]) -> bool
    ensures { result ≡ passes (option_copied marks.entry) numbers.now }
{
    match marks {
        None => true,
        Some(marks) => any_is_marked(marks, numbers),
    }
}

// Counts positions, which all have the current labels.
fn count(
    sizes: &mut PathSizes,
    walked: Walked<'_, '_>,
    cursors: &[Cursor],
    stretch: Stretch,
    numbers: &mut Vec<usize>,
) -> Result<(), NoMemory>
    requires order { stretch.at ≤ stretch.to }
    requires fits { (i : ℕ) → size_in walked.part (slice_index_or sizes.old i no_entry)
        + (stretch.to - stretch.at) < 2 ^ 128 }
    ensures grown { OnOk result (IsGrownIf
        (is_counted (option_copied walked.entry.marks) stretch.at cursors.now)
        walked.entry.part (labels_of cursors.now) (stretch.to - stretch.at)
        sizes.old sizes.new) }
{
    if !labels_at(cursors, stretch.at, numbers)? {
        return Ok(());
    }
    if !pass(walked.marks, numbers.as_slice()) {
        return Ok(());
    }
    sizes.add(walked.part, numbers.as_slice(), stretch.to - stretch.at)
}

// Moves on to a position: reads the next piece of each map whose current piece ends there.
fn advance<L: Ledger>(
    cursors: &mut [Cursor],
    maps: &[DualMap],
    part: Part,
    to: u128,
    steps: &mut Steps<L>,
)
    requires reached { Each (λ ps c. IsReached ps to c) (layers part maps.now) cursors.old }
    requires fits { to ≤ 2 ^ 97 }
    ensures at { Each (λ ps c. IsAt ps to c) (layers part maps.now) cursors.new }
    ensures cost { steps.new + reads (layers part maps.now) cursors.old
        ≡ steps.old + reads (layers part maps.now) cursors.new }
{
    for i in 0..maps.len() {
        cursors[i] = cursors[i].after(part.map_of(&maps[i]), to, steps);
    }
}

/// Counts the positions below a limit at which each map has a label and the filter passes, by the numbers of the
/// labels. Without maps these are all positions below it.
pub fn walk<L: Ledger>(
    alloc: Global,
    sizes: &mut PathSizes,
    walked: Walked<'_, '_>,
    limit: u128,
    steps: &mut Steps<L>,
) -> Result<(), NoMemory>
    requires none { (test : List ℕ → Bool) → weight walked.part test sizes.old ≡ 0 }
    requires fits { limit ≤ 2 ^ 97 }
    ensures counted { OnOk result ((test : List ℕ → Bool)
        → weight walked.entry.part test sizes.new
        ≡ counted test (option_copied walked.entry.marks)
        (layers walked.entry.part walked.entry.maps.now) limit) }
    ensures other { OnOk result ((test : List ℕ → Bool)
        → weight (other walked.entry.part) test sizes.new
        ≡ weight (other walked.entry.part) test sizes.old) }
    ensures entries { OnOk result ((n : ℕ) → All (LabelsBelow n) walked.entry.maps.now
        → All (IsEntry (length walked.entry.maps.now) n) sizes.old
        → All (IsEntry (length walked.entry.maps.now) n) sizes.new) }
    ensures cost { steps.new
        ≤ steps.old + piece_total (layers walked.entry.part walked.entry.maps.now) }
{
    let mut cursors = first_pieces(alloc, walked.maps, walked.part, steps)?;
    let mut numbers = Vec::new(alloc);
    let mut at = 0;
    while at < limit {
        let to = next_stop(cursors.as_slice(), at, limit);
        let stretch = Stretch { at, to };
        count(sizes, walked, cursors.as_slice(), stretch, &mut numbers)?;
        advance(cursors.as_mut_slice(), walked.maps, walked.part, to, steps);
        at = to;
    }
    Ok(())
}
