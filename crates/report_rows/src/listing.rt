//! The rows of all levels.

ghost use Rattle.std.specs.Prelude.{◌≡◌, ◌-◌, ◌<◌, ◌≤◌, ◌++◌, ℕ, All, length, map, IfOk, OnOk};
ghost use Rattle.report_rows.specs.declared.groups.Kind.TheVariants.{Label};
ghost use Rattle.report_rows.specs.Groups.{table_at, group_entry, IsPart};
ghost use Rattle.report_rows.specs.Rows.{listing, row_of, row_tree};
ghost use Rattle.report_rows.specs.Tables.{vm_sum, file_sum};
ghost use Rattle.report_rows.specs.Trees.{IsTree, AddsUp};

use crate::groups::{Group, Kind, entries, sums};
use crate::levels::Levels;
use crate::row::{Row, RowKind, RowOptions, RowTree, Rows};
use rollup::{Rollup, RollupRow};
use size_core::NoMemory;
use std::alloc::Global;

// The row of a group.
fn make_row(rows: &[&RollupRow], level: u32, group: &Group) -> Result<Row, NoMemory>
    requires some { group.now.kind ≡ Label → group.now.from < length rows.now }
    requires deep { All (λ r. level < length r.now.path) rows.now }
    ensures { IfOk result (λ r. r
        ≡ row_of level (group_entry level (map (λ r. r.now) rows.now) group.now)) }
{
    let kind = match group.kind {
        Kind::Label => RowKind::Label(rows[group.from].path.get(level as usize).copy()?),
        Kind::Others(count) => RowKind::Others(count),
    };
    Ok(Row {
        level,
        kind,
        vm: group.vm,
        file: group.file,
    })
}

// Appends the rows of the levels from this one on.
fn list(levels: Levels, rows: &[&RollupRow], level: u32, out: &mut Rows) -> Result<(), NoMemory>
    requires part { IsPart levels.depth level (map (λ r. r.now) rows.now) }
    requires within { level ≤ levels.depth }
    ensures { OnOk result (out.new
        ≡ out.old ++ listing levels.options (levels.depth - level) level
        (table_at level (map (λ r. r.now) rows.now))) }
{
    if level == levels.depth {
        return Ok(());
    }
    let groups = entries(levels, rows, level)?;
    for group in &groups {
        let below = &rows[group.from..group.to];
        out.push(make_row(rows, level, group)?)?;
        list(levels, below, level + 1, out)?;
    }
    Ok(())
}

// The tree of these rows. They are sorted by path.
fn tree(
    alloc: Global,
    options: &RowOptions,
    depth: u32,
    rows: &[&RollupRow],
) -> Result<RowTree, NoMemory>
    requires { IsPart depth 0 (map (λ r. r.now) rows.now) }
    ensures { let all = map (λ r. r.now) rows.now in
        IfOk result (λ t. t
        ≡ record {
          depth = depth;
          vm = vm_sum all;
          file = file_sum all;
          rows = listing options.now depth 0 all;
        }) }
{
    let mut out = Rows::new(alloc);
    let levels = Levels {
        alloc,
        depth,
        options: *options,
    };
    list(levels, rows, 0, &mut out)?;
    let (vm, file) = sums(rows);
    Ok(RowTree {
        depth,
        vm,
        file,
        rows: out,
    })
}

/// The rows of a report over a rollup: the labels of each level with a shown size above 0. They are ordered by
/// key, the larger first, and for equal keys by label. With a limit, the labels beyond it become one row,
/// before the labels with the same key. The only error is running out of memory.
pub fn rows(alloc: Global, rollup: &Rollup, options: &RowOptions) -> Result<RowTree, NoMemory>
    ensures rows { IfOk result (λ t. t ≡ row_tree options.now rollup.now) }
    ensures levels { IfOk result (λ t. IsTree t.depth t.rows) }
    ensures sums { IfOk result (AddsUp options.now.domain) }
{
    let mut all = Vec::with_capacity(alloc, rollup.len())?;
    for i in 0..rollup.len() {
        all.push(rollup.row(i))?;
    }
    tree(alloc, options, rollup.depth(), all.as_slice())
}
