//! What the trees of rows of these tests have in common, whether they are of sizes or of growth.

ghost use Rattle.std.specs.Prelude.{◌≡◌, ◌+◌, ◌<◌, ◌==◌, ◌||◌, Some, true, length, map, drop, slice_get};
ghost use Rattle.report_rows.specs.declared.row.Row.{Row as RowSpec};
ghost use Rattle.report_rows.specs.Trees.{IsTree, has_children, is_others};
ghost use Rattle.size_growth.specs.Trees.{new_row};

use report_rows::{Row, RowKind};
use size_core::{List, Names, Text};
use size_growth::{GrowthKind, GrowthRow};
use std::alloc::Global;
use std::process::Abort;

/// What a row is: a label, or this many labels that a limit leaves out.
#[derive(Clone, Copy)]
pub enum Kind<'a> {
    Label(&'a [u8]),
    Others(u64),
}

/// A row in a tree.
pub trait TreeRow: Drop {
    /// The row of sizes that has its level and its kind.
    ghost as_row: { Self → RowSpec };

    /// How many rows are above it.
    fn level(&self) -> u32
        ensures { result ≡ (as_row self.now).level };

    /// Whether it is a row of others.
    fn is_others(&self) -> bool
        ensures { result ≡ is_others (as_row self.now).kind };
}

impl TreeRow for Row {
    ghost as_row = { λ r. r };

    fn level(&self) -> u32 {
        self.level
    }

    fn is_others(&self) -> bool {
        match &self.kind {
            RowKind::Label(_) => false,
            RowKind::Others(_) => true,
        }
    }
}

impl TreeRow for GrowthRow {
    ghost as_row = { new_row };

    fn level(&self) -> u32 {
        self.level
    }

    fn is_others(&self) -> bool {
        match &self.kind {
            GrowthKind::Label(_) => false,
            GrowthKind::Others(_) => true,
        }
    }
}

// Whether the row after a row has a greater level.
fn has_children<R: TreeRow>(rows: &List<R>, i: usize) -> bool
    requires { i < length rows.now }
    ensures { (row : R) → slice_get rows.now i ≡ Some row
        → result ≡ has_children (R.as_row row) (map R.as_row (drop (i + 1) rows.now)) }
{
    if i == rows.len() - 1 {
        return false;
    }
    rows.get(i).level() < rows.get(i + 1).level()
}

// Whether a row must have no children: it is an Others row, or is of the last level.
fn is_last<R: TreeRow>(depth: u32, row: &R) -> bool
    requires { (R.as_row row.now).level < depth }
    ensures { result
        ≡ (is_others (R.as_row row.now).kind || ((R.as_row row.now).level + 1 == depth)) }
{
    if row.is_others() {
        return true;
    }
    row.level() + 1 == depth
}

/// True only if the levels of rows are those of a tree.
pub fn is_tree<R: TreeRow>(depth: u32, rows: &List<R>) -> bool
    ensures { result ≡ true → IsTree depth (map R.as_row rows.now) }
{
    let mut highest = 0;
    for i in 0..rows.len() {
        let row = rows.get(i);
        let level = row.level();
        if level > highest {
            return false;
        }
        if level >= depth {
            return false;
        }
        if has_children(rows, i) == is_last(depth, row) {
            return false;
        }
        highest = level + 1;
    }
    true
}

/// Names of data sources.
pub fn names(rt: &impl Abort, alloc: Global, sources: &[&str]) -> Names {
    let mut names = Names::new(alloc);
    for source in sources {
        let name = Text::of(alloc, source).expect(rt, "memory");
        names.push(name).expect(rt, "memory");
    }
    names
}

/// Texts one after the other.
pub fn joined(rt: &impl Abort, alloc: Global, parts: &[&[u8]]) -> Vec<u8> {
    let mut out = Vec::new(alloc);
    for part in parts {
        out.extend_from_slice(part).expect(rt, "memory");
    }
    out
}

/// `before` letters, then these bytes, and then letters up to `len` bytes.
pub fn letters(rt: &impl Abort, alloc: Global, before: usize, bytes: &[u8], len: usize) -> Vec<u8> {
    let mut label = Vec::new(alloc);
    for _ in 0..before {
        label.push(b'a').expect(rt, "memory");
    }
    label.extend_from_slice(bytes).expect(rt, "memory");
    for _ in label.len()..len {
        label.push(b'a').expect(rt, "memory");
    }
    label
}
