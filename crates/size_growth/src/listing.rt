//! The rows of all levels.

ghost use Rattle.std.specs.Prelude.{◌≡◌, ◌-◌, ◌<◌, ◌≤◌, ◌++◌, All, IfOk, OnOk, length};
ghost use Rattle.report_rows.specs.declared.groups.Kind.TheVariants.{Label};
ghost use Rattle.size_growth.specs.Groups.{IsPart, group_entry};
ghost use Rattle.size_growth.specs.Rows.{growth_tree, listing, row_of};
ghost use Rattle.size_growth.specs.Runs.{table_at};
ghost use Rattle.size_growth.specs.Trees.{GrowsAlike, IsGrowthTree};

use crate::groups::{Group, entries, sums};
use crate::growth::{Growth, GrowthPath};
use crate::row::{GrowthKind, GrowthRow, GrowthRows, GrowthTree};
use report_rows::{Kind, Levels, RowOptions};
use size_core::{Domain, NoMemory, Sort};
use std::alloc::Global;

// The row of a group.
fn make_row(paths: &[GrowthPath], level: u32, group: &Group) -> Result<GrowthRow, NoMemory>
    requires some { group.now.kind ≡ Label → group.now.from < length paths.now }
    requires deep { All (λ p. level < length p.path) paths.now }
    ensures { IfOk result (λ r. r ≡ row_of level (group_entry level paths.now group.now)) }
{
    let kind = match group.kind {
        Kind::Label => GrowthKind::Label(paths[group.from].path.get(level as usize).copy()?),
        Kind::Others(count) => GrowthKind::Others(count),
    };
    Ok(GrowthRow {
        level,
        kind,
        sizes: group.sizes,
    })
}

// Appends the rows of the levels from this one on.
fn list(
    levels: Levels,
    paths: &[GrowthPath],
    level: u32,
    out: &mut GrowthRows,
) -> Result<(), NoMemory>
    requires part { IsPart levels.depth paths.now }
    requires within { level ≤ levels.depth }
    ensures { OnOk result (out.new ≡ out.old
        ++ listing levels.options (levels.depth - level) level (table_at level paths.now)) }
{
    if level == levels.depth {
        return Ok(());
    }
    let groups = entries(levels, paths, level)?;
    for group in &groups {
        let below = &paths[group.from..group.to];
        out.push(make_row(paths, level, group)?)?;
        list(levels, below, level + 1, out)?;
    }
    Ok(())
}

/// The rows of a report over a growth: the labels of each level with a changed shown size. A label's key is the
/// absolute difference of a new size and its base size. `sort` selects the VM size, the file size, or the
/// larger difference of the two; a size that `domain` doesn't show counts as 0. Rows are ordered by key, the
/// larger first, and for equal keys by label. With a limit, the labels beyond it become one row, before the
/// labels with the same key. A limit of 0 means no limit. The only error is running out of memory.
pub fn growth_rows(
    alloc: Global,
    growth: &Growth,
    limit: u32,
    sort: Sort,
    domain: Domain,
) -> Result<GrowthTree, NoMemory>
    ensures rows { IfOk result (λ t. t
        ≡ growth_tree (record { limit = limit; sort = sort; domain = domain })
        growth.now.depth growth.now.paths) }
    ensures levels { IfOk result (λ t. IsGrowthTree t.depth t.rows) }
    ensures growths { IfOk result (GrowsAlike domain) }
{
    let options = RowOptions {
        limit,
        sort,
        domain,
    };
    let depth = growth.depth();
    let paths = growth.paths.as_slice();
    let mut rows = GrowthRows::new(alloc);
    let levels = Levels {
        alloc,
        depth,
        options,
    };
    list(levels, paths, 0, &mut rows)?;
    Ok(GrowthTree {
        depth,
        sizes: sums(paths),
        rows,
    })
}
