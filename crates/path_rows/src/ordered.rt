//! Rows in order, to which others are added.

ghost use Rattle.std.specs.Prelude.{◌≡◌, ◌+◌, ◌^◌, ◌<◌, [], ◌∷◌, ◌++◌, Some, IfOk, OnOk, OnErr, length, map, reverse, slice_get};
ghost use Rattle.std.specs.List.Sorted.{IsSorted, IsStrictlySortedBy};
ghost use Rattle.path_rows.specs.Paths.{row_cmp};
ghost use Rattle.path_rows.specs.Parts.{AreAlone, alone, rows_at};
ghost use Rattle.path_rows.specs.Rows.{FitTogether, Merges, falling, with_rows};
ghost use Rattle.path_rows.specs.Tree.{rows_in};

use crate::merge::merge;
use crate::order::compare_paths;
use crate::row::RollupRow;
use crate::tree::{Branch, Tree, build, join, rising, unite};
use size_core::NoMemory;
use std::alloc::Global;
use std::boxed::Box;
use std::marker::Model;
use std::mem;

/// Rows in the order of their paths, each path once. Contracts see them as a list. They are in a sorted list as long as
/// each addition has many rows in proportion to those already there, or rows above all of them, since a merge then
/// moves few rows for each new one. Otherwise all rows are moved into a balanced tree, which is united with a tree of
/// the new rows. While they are being moved, the rows of the list are below those of the tree.
#[derive(Debug, Drop)]
pub struct OrderedRows {
    list: Vec<RollupRow>,
    tree: Tree,
}

impl Model for OrderedRows {
    ghost use Rattle.std.specs.Prelude.{List, ◌++◌, ◌+◌, ◌^◌, ◌<◌, length};
    ghost use Rattle.path_rows.specs.declared.row.RollupRow.{RollupRow};

    ghost Value = { List RollupRow };

    ghost use Rattle.path_rows.specs.Tree.{rows_in};

    ghost view = { λ r. r.list.items ++ rows_in r.tree };

    ghost invariant = { λ r. length r.list.items + length (rows_in r.tree) < 2 ^ 64 };
}

// A branch for each row.
fn branches_of(alloc: Global, rows: Vec<RollupRow>) -> Result<Vec<Box<Branch>>, NoMemory>
    ensures { IfOk result (λ v. map (λ b. b.value) v.items ≡ map alone rows.items) }
{
    let mut branches = Vec::with_capacity(alloc, rows.len())?;
    for row in rows {
        match Branch::of(alloc, row) {
            Ok(branch) => branches.push(branch)?,
            Err(_) => return Err(NoMemory),
        }
    }
    Ok(branches)
}

// Moves all rows of a list into a tree whose rows are above them. After an error some may have been moved.
fn plant(alloc: Global, list: &mut Vec<RollupRow>, tree: &mut Tree) -> Result<(), NoMemory>
    requires count { length list.old.items + length (rows_in tree.old) < 2 ^ 64 }
    ensures same { list.new.items ++ rows_in tree.new ≡ list.old.items ++ rows_in tree.old }
    ensures all { OnOk result (list.new.items ≡ []) }
{
    while let Some(row) = list.pop() {
        match Branch::of(alloc, row) {
            Ok(branch) => {
                let rows = mem::replace(tree, Tree::Leaf);
                *tree = Tree::Fork(join(Tree::Leaf, branch, rows));
            }
            Err(row) => {
                list.push_reserved(row);
                return Err(NoMemory);
            }
        }
    }
    Ok(())
}

// Inserts the rows of branches into a tree, the last one first.
fn insert_all(tree: &mut Tree, mut branches: Vec<Box<Branch>>)
    requires alone { AreAlone branches.items }
    requires ordered { IsStrictlySortedBy row_cmp (rows_in tree.old) }
    requires fits { FitTogether (rows_in tree.old) (rows_at branches.items) }
    requires count { length (rows_in tree.old) + length branches.items < 2 ^ 64 }
    ensures { rows_in tree.new ≡ with_rows (rows_in tree.old) (reverse (rows_at branches.items)) }
{
    while branches.len() > 0 {
        let count = rising(branches.as_slice());
        let run = build(&mut branches, count);
        let rows = mem::replace(tree, Tree::Leaf);
        *tree = unite(rows, run);
    }
}

// Whether new rows, the greatest path first, are all above the rows that are there.
fn come_after(rows: &[RollupRow], new: &[RollupRow]) -> bool {
    match (rows.last(), new.last()) {
        (Some(last), Some(least)) => compare_paths(&last.path, &least.path).is_lt(),
        _ => true,
    }
}

// Whether a merge of new rows, the greatest path first, moves few of the rows that are there for each new one.
fn is_cheap(rows: &[RollupRow], new: &[RollupRow]) -> bool {
    rows.len() / 8 <= new.len() || come_after(rows, new)
}

impl OrderedRows {
    /// No rows.
    pub fn new(alloc: Global) -> OrderedRows
        ensures { result ≡ [] }
    {
        OrderedRows {
            list: Vec::new(alloc),
            tree: Tree::Leaf,
        }
    }

    /// How many rows there are.
    pub fn len(&self) -> usize
        ensures { result ≡ length self.now }
    {
        self.list.len() + self.tree.len()
    }

    /// The row of a number, from 0 on.
    pub fn row(&self, i: usize) -> &RollupRow
        requires { i < length self.now }
        ensures { slice_get self.now i ≡ Some result.now }
    {
        let count = self.list.len();
        if i < count {
            &self.list[i]
        } else {
            self.tree.row(i - count)
        }
    }

    /// Adds rows, the greatest path first. The sizes of a path that is there already are added to its row.
    ///
    /// # Errors
    ///
    /// `NoMemory` if there is not enough memory. Then the rows are unchanged.
    pub fn add(&mut self, alloc: Global, new: Vec<RollupRow>) -> Result<(), NoMemory>
        requires ordered { IsStrictlySortedBy row_cmp self.old }
        requires falls { IsSorted falling new.items }
        requires fits { FitTogether self.old new.items }
        ensures ok { OnOk result (Merges self.old new.items self.new) }
        ensures err { OnErr result (self.new ≡ self.old) }
    {
        if new.len() > usize::MAX - self.len() {
            return Err(NoMemory);
        }
        if self.tree.len() == 0 && is_cheap(self.list.as_slice(), new.as_slice()) {
            return merge(alloc, &mut self.list, new);
        }
        let branches = branches_of(alloc, new)?;
        plant(alloc, &mut self.list, &mut self.tree)?;
        insert_all(&mut self.tree, branches);
        Ok(())
    }
}
