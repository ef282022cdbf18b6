//! Merges rows into a sorted list of rows, in which each path is once.

ghost use Rattle.std.specs.Prelude.{false, ◌≡◌, ◌+◌, ◌-◌, ◌<◌, ◌≤◌, [], ◌∷◌, ◌++◌, OnOk, OnErr, length, reverse, drop, take, vec_len, vec_capacity};
ghost use Rattle.std.specs.List.Sorted.{IsSorted, IsStrictlySortedBy};
ghost use Rattle.std.specs.Ordering.{is_lt};
ghost use Rattle.path_rows.specs.Paths.{row_cmp};
ghost use Rattle.path_rows.specs.Rows.{Climbs, EndsUpto, EndsUptoFirst, FitTogether};
ghost use Rattle.path_rows.specs.Rows.{falling, joins_last, pushed, with_row, with_rows};

use crate::order::compare_paths;
use crate::row::RollupRow;
use size_core::{NoMemory, Path};
use std::alloc::Global;
use std::cmp::Ordering;

// Keeps the first `kept` rows and moves the others to the end of another list, the last row first.
fn move_after(rows: &mut Vec<RollupRow>, kept: usize, to: &mut Vec<RollupRow>)
    requires kept { kept ≤ vec_len rows.old }
    requires spare { vec_len to.old + (vec_len rows.old - kept) ≤ vec_capacity to.old }
    ensures rows { rows.new.items ≡ take kept rows.old.items }
    ensures to { to.new.items ≡ to.old.items ++ reverse (drop kept rows.old.items) }
    ensures rows_len { vec_len rows.new ≡ kept }
    ensures to_len { vec_len to.new ≡ vec_len to.old + (vec_len rows.old - kept) }
    ensures rows_capacity { vec_capacity rows.new ≡ vec_capacity rows.old }
    ensures to_capacity { vec_capacity to.new ≡ vec_capacity to.old }
{
    while rows.len() > kept {
        let Some(row) = rows.pop() else {
            return;
        };
        to.push_reserved(row);
    }
}

fn joins(rows: &[RollupRow], path: &Path) -> bool
    ensures { result ≡ joins_last rows.now path.now }
{
    match rows.last() {
        Some(last) => compare_paths(&last.path, path) == Ordering::Equal,
        None => false,
    }
}

// Adds a row at the end. If the last row has the same path, the sizes are added to it.
fn push(rows: &mut Vec<RollupRow>, row: RollupRow)
    requires spare { vec_len rows.old < vec_capacity rows.old }
    requires fits { FitTogether rows.old.items (row ∷ []) }
    ensures rows { rows.new.items ≡ pushed rows.old.items row }
    ensures len { vec_len rows.new ≤ vec_len rows.old + 1 }
    ensures capacity { vec_capacity rows.new ≡ vec_capacity rows.old }
{
    if joins(rows.as_slice(), &row.path) {
        if let Some(last) = rows.last_mut() {
            last.vm += row.vm;
            last.file += row.file;
        }
    } else {
        rows.push_reserved(row);
    }
}

// Inserts a row into sorted rows, of which the upper ones are in a list of their own, the greatest first. Those of
// them that are not above the new row are moved back first.
fn insert(rows: &mut Vec<RollupRow>, above: &mut Vec<RollupRow>, row: RollupRow)
    requires spare { vec_len rows.old + vec_len above.old < vec_capacity rows.old }
    requires ordered { IsStrictlySortedBy row_cmp (rows.old.items ++ reverse above.old.items) }
    requires ends { EndsUpto rows.old.items row }
    requires fits { FitTogether (rows.old.items ++ reverse above.old.items) (row ∷ []) }
    ensures rows { rows.new.items ++ reverse above.new.items
        ≡ with_row (rows.old.items ++ reverse above.old.items) row }
    ensures ends { (s : RollupRow) → is_lt (row_cmp s row) ≡ false → EndsUpto rows.new.items s }
    ensures spare { vec_len rows.new + vec_len above.new
        ≤ vec_len rows.old + vec_len above.old + 1 }
    ensures capacity { vec_capacity rows.new ≡ vec_capacity rows.old }
{
    let kept = above.partition_point(|old| compare_paths(&old.path, &row.path).is_gt());
    move_after(above, kept, rows);
    push(rows, row);
}

// Inserts all rows. The last one is the least.
fn insert_all(rows: &mut Vec<RollupRow>, mut above: Vec<RollupRow>, mut new: Vec<RollupRow>)
    requires spare { vec_len rows.old + vec_len above + vec_len new ≤ vec_capacity rows.old }
    requires ordered { IsStrictlySortedBy row_cmp (rows.old.items ++ reverse above.items) }
    requires climbs { Climbs (reverse new.items) }
    requires ends { EndsUptoFirst rows.old.items (reverse new.items) }
    requires fits { FitTogether (rows.old.items ++ reverse above.items) new.items }
    ensures { rows.new.items
        ≡ with_rows (rows.old.items ++ reverse above.items) (reverse new.items) }
{
    while let Some(row) = new.pop() {
        insert(rows, &mut above, row);
    }
    move_after(&mut above, 0, rows);
}

// How many of the old rows are not above the least new row, which is the last one.
fn count_below(rows: &[RollupRow], new: &[RollupRow]) -> usize
    requires { IsStrictlySortedBy row_cmp rows.now }
    ensures bound { result ≤ length rows.now }
    ensures ends { EndsUptoFirst (take result rows.now) (reverse new.now) }
{
    match new.last() {
        Some(row) => rows.partition_point(|old| compare_paths(&old.path, &row.path).is_le()),
        None => rows.len(),
    }
}

/// Merges new rows, the greatest path first, into rows that ascend by path. The sizes of a path that is there already
/// are added to its row. After an error the rows are unchanged.
pub fn merge(alloc: Global, rows: &mut Vec<RollupRow>, new: Vec<RollupRow>) -> Result<(), NoMemory>
    requires ordered { IsStrictlySortedBy row_cmp rows.old.items }
    requires falls { IsSorted falling new.items }
    requires fits { FitTogether rows.old.items new.items }
    ensures ok { OnOk result (rows.new.items ≡ with_rows rows.old.items (reverse new.items)) }
    ensures err { OnErr result (rows.new.items ≡ rows.old.items) }
{
    rows.reserve(new.len())?;
    let kept = count_below(rows.as_slice(), new.as_slice());
    let mut above = Vec::with_capacity(alloc, rows.len() - kept)?;
    move_after(rows, kept, &mut above);
    insert_all(rows, above, new);
    Ok(())
}
