//! Rows in the order of their paths, in a balanced tree.

ghost use Rattle.std.specs.Prelude.{◌≡◌, ◌+◌, ◌-◌, ◌^◌, ◌<◌, ◌≤◌, Some, [], ◌∷◌, ◌++◌, length, reverse, slice_get, vec_len, IfErr, IfOk, IsTrue};
ghost use Rattle.std.specs.List.Sorted.{IsStrictlySortedBy};
ghost use Rattle.path_rows.specs.Paths.{row_cmp};
ghost use Rattle.path_rows.specs.Rows.{FitTogether, IsSplit, RisesAt, RisesFrom, larger, with_rows};
ghost use Rattle.path_rows.specs.Parts.{AreAlone, IsAlone, all_of, alone, rows_at};
ghost use Rattle.path_rows.specs.Tree.{rows_in};

use crate::order::compare_paths;
use crate::prefix::word_of;
use crate::row::RollupRow;
use std::alloc::Global;
use std::boxed::Box;
use std::cmp::Ordering;
use std::marker::Model;
use std::mem;

/// A row of a tree, with the rows below it and those above it. Contracts see these three parts.
#[cycle(tree)]
#[derive(Debug, Drop)]
pub struct Branch {
    len: usize,
    // The first bytes of the path.
    word: u64,
    low: Tree,
    row: RollupRow,
    high: Tree,
}

/// Rows in the order of their paths.
#[cycle(tree)]
#[derive(Debug, Drop)]
pub enum Tree {
    /// No rows.
    Leaf,
    /// The rows of a branch.
    Fork(Box<Branch>),
}

impl Model for Branch {
    ghost use Rattle.std.specs.Prelude.{◌≡◌, ◌+◌, length};
    ghost use Rattle.path_rows.specs.Parts.{Parts, all_of};

    ghost Value = { Parts };

    ghost use Rattle.path_rows.specs.Tree.{rows_in};
    ghost use Rattle.path_rows.specs.Words.{word_of};

    ghost view = { λ b. record { low = rows_in b.low; row = b.row; high = rows_in b.high } };

    ghost invariant = { λ b. (b.len ≡ length (rows_in b.low) + 1 + length (rows_in b.high))
        × (b.word ≡ word_of b.row.path) };

    ghost size = { λ p. length (all_of p) };

    ghost use Rattle.path_rows.specs.TreeFalls.{deep_le-length};

    ghost size_decreases = { λ a h. deep_le-length a.low a.row a.high };
}

impl Tree {
    /// How many rows there are.
    pub fn len(&self) -> usize
        ensures { result ≡ length (rows_in self.now) }
    {
        match self {
            Tree::Leaf => 0,
            Tree::Fork(top) => top.len,
        }
    }

    /// The row of a number, from 0 on.
    pub fn row(&self, i: usize) -> &RollupRow
        requires { i < length (rows_in self.now) }
        ensures { slice_get (rows_in self.now) i ≡ Some result.now }
    {
        match self {
            Tree::Leaf => unreachable!(),
            Tree::Fork(top) => {
                let below = top.low.len();
                if i < below {
                    top.low.row(i)
                } else if i == below {
                    &top.row
                } else {
                    top.high.row(i - below - 1)
                }
            }
        }
    }
}

impl Branch {
    /// A branch of one row. If there is not enough memory, the row is returned as the error.
    pub fn of(alloc: Global, row: RollupRow) -> Result<Box<Branch>, RollupRow>
        ensures ok { IfOk result (λ b. b.value ≡ alone row) }
        ensures err { IfErr result (λ r. r ≡ row) }
    {
        let branch = Branch {
            len: 1,
            word: word_of(&row.path),
            low: Tree::Leaf,
            row,
            high: Tree::Leaf,
        };
        match Box::new(alloc, branch) {
            Ok(branch) => Ok(branch),
            Err(failed) => {
                let branch = failed.value;
                Err(branch.row)
            }
        }
    }

    // Compares the paths of two rows, by their first bytes if these differ.
    fn compare(&self, other: &Branch) -> Ordering
        ensures { result ≡ row_cmp self.now.row other.now.row }
    {
        match self.word.cmp(&other.word) {
            Ordering::Equal => compare_paths(&self.row.path, &other.row.path),
            order => order,
        }
    }

    // Removes the rows below this one and returns them.
    fn take_low(&mut self) -> Tree
        ensures low { rows_in result ≡ self.old.low }
        ensures rest { self.new ≡ record { low = []; row = self.old.row; high = self.old.high } }
    {
        let low = mem::replace(&mut self.low, Tree::Leaf);
        self.len -= low.len();
        low
    }

    // Removes the rows above this one and returns them.
    fn take_high(&mut self) -> Tree
        ensures high { rows_in result ≡ self.old.high }
        ensures rest { self.new ≡ record { low = self.old.low; row = self.old.row; high = [] } }
    {
        let high = mem::replace(&mut self.high, Tree::Leaf);
        self.len -= high.len();
        high
    }

    // Sets the rows below this one, which has none.
    fn set_low(&mut self, low: Tree)
        requires none { self.old.low ≡ [] }
        requires fits { length (rows_in low) + 1 + length self.old.high < 2 ^ 64 }
        ensures { self.new
            ≡ record { low = rows_in low; row = self.old.row; high = self.old.high } }
    {
        self.len += low.len();
        self.low = low;
    }

    // Sets the rows above this one, which has none.
    fn set_high(&mut self, high: Tree)
        requires none { self.old.high ≡ [] }
        requires fits { length self.old.low + 1 + length (rows_in high) < 2 ^ 64 }
        ensures { self.new
            ≡ record { low = self.old.low; row = self.old.row; high = rows_in high } }
    {
        self.len += high.len();
        self.high = high;
    }

    // Adds the sizes of a row with the same path.
    fn enlarge(&mut self, row: &RollupRow)
        requires { FitTogether (all_of self.old) (row.now ∷ []) }
        ensures { self.new
            ≡ record {
              low = self.old.low;
              row = larger self.old.row row.now;
              high = self.old.high;
            } }
    {
        self.row.vm += row.vm;
        self.row.file += row.file;
    }

    // Whether the rows above this one are more than three times as many as all other rows.
    fn leans_high(&self) -> bool {
        let high = self.high.len();
        high / 3 > self.len.saturating_sub(high)
    }

    // Whether the rows below this one are more than three times as many as all other rows.
    fn leans_low(&self) -> bool {
        let low = self.low.len();
        low / 3 > self.len.saturating_sub(low)
    }

    // Whether the low rows are more than twice the high rows. A rotation to the left at the parent leaves the low rows of
    // its high side on their level, so a side with too many of them is rotated itself first.
    fn bends_low(&self) -> bool {
        self.low.len() / 2 > self.high.len()
    }

    fn bends_high(&self) -> bool {
        self.high.len() / 2 > self.low.len()
    }
}

// Rotates left: the top row of the high side becomes the top.
fn turn_low(mut top: Box<Branch>) -> Box<Branch>
    requires { length (all_of top.value) < 2 ^ 64 }
    ensures { all_of result.value ≡ all_of top.value }
{
    match top.take_high() {
        Tree::Leaf => top,
        Tree::Fork(mut up) => {
            top.set_high(up.take_low());
            up.set_low(Tree::Fork(top));
            up
        }
    }
}

// Rotates right: the top row of the low side becomes the top.
fn turn_high(mut top: Box<Branch>) -> Box<Branch>
    requires { length (all_of top.value) < 2 ^ 64 }
    ensures { all_of result.value ≡ all_of top.value }
{
    match top.take_low() {
        Tree::Leaf => top,
        Tree::Fork(mut up) => {
            top.set_low(up.take_high());
            up.set_high(Tree::Fork(top));
            up
        }
    }
}

// Prepares a high side for a rotation to the left at its parent.
fn unbent_high(side: Box<Branch>) -> Box<Branch>
    requires { length (all_of side.value) < 2 ^ 64 }
    ensures { all_of result.value ≡ all_of side.value }
{
    if side.bends_low() {
        return turn_high(side);
    }
    side
}

fn unbent_low(side: Box<Branch>) -> Box<Branch>
    requires { length (all_of side.value) < 2 ^ 64 }
    ensures { all_of result.value ≡ all_of side.value }
{
    if side.bends_high() {
        return turn_low(side);
    }
    side
}

// Sets the rows above a top row, and balances both sides.
fn with_high(mut top: Box<Branch>, high: Box<Branch>) -> Box<Branch>
    requires none { top.value.high ≡ [] }
    requires fits { length top.value.low + 1 + length (all_of high.value) < 2 ^ 64 }
    ensures { all_of result.value ≡ top.value.low ++ top.value.row ∷ all_of high.value }
{
    top.set_high(Tree::Fork(high));
    if !top.leans_high() {
        return top;
    }
    match top.take_high() {
        Tree::Leaf => top,
        Tree::Fork(side) => {
            top.set_high(Tree::Fork(unbent_high(side)));
            turn_low(top)
        }
    }
}

// Sets the rows below a top row, and balances both sides.
fn with_low(mut top: Box<Branch>, low: Box<Branch>) -> Box<Branch>
    requires none { top.value.low ≡ [] }
    requires fits { length (all_of low.value) + 1 + length top.value.high < 2 ^ 64 }
    ensures { all_of result.value ≡ all_of low.value ++ top.value.row ∷ top.value.high }
{
    top.set_low(Tree::Fork(low));
    if !top.leans_low() {
        return top;
    }
    match top.take_low() {
        Tree::Leaf => top,
        Tree::Fork(side) => {
            top.set_low(Tree::Fork(unbent_low(side)));
            turn_high(top)
        }
    }
}

/// Joins two trees by a branch of one row, which is above the rows of the first tree and below those of the second one. If
/// one tree is much larger, the other one is joined to the near side of its top.
pub fn join(low: Tree, mut top: Box<Branch>, high: Tree) -> Box<Branch>
    requires alone { IsAlone top.value }
    requires count { length (rows_in low) + 1 + length (rows_in high) < 2 ^ 64 }
    ensures { all_of result.value ≡ rows_in low ++ top.value.row ∷ rows_in high }
{
    if low.len() / 3 > high.len() {
        match low {
            Tree::Leaf => {
                top.set_high(high);
                return top;
            }
            Tree::Fork(mut side) => {
                let near = side.take_high();
                return with_high(side, join(near, top, high));
            }
        }
    }
    if high.len() / 3 > low.len() {
        match high {
            Tree::Leaf => {
                top.set_low(low);
                return top;
            }
            Tree::Fork(mut side) => {
                let near = side.take_low();
                return with_low(side, join(low, top, near));
            }
        }
    }
    top.set_low(low);
    top.set_high(high);
    top
}

// Splits a tree at the path of a branch, into the rows below it and those above it. The sizes of the row with that path
// are added to the branch.
fn split(rows: Tree, at: &mut Branch) -> (Tree, Tree)
    requires ordered { IsStrictlySortedBy row_cmp (rows_in rows) }
    requires fits { FitTogether (all_of at.old) (rows_in rows) }
    requires count { length (rows_in rows) < 2 ^ 64 }
    ensures split { IsSplit at.old.row at.new.row
        (rows_in rows) (rows_in result.0) (rows_in result.1) }
    ensures low { at.new.low ≡ at.old.low }
    ensures high { at.new.high ≡ at.old.high }
{
    match rows {
        Tree::Leaf => (Tree::Leaf, Tree::Leaf),
        Tree::Fork(mut top) => {
            let low = top.take_low();
            let high = top.take_high();
            match at.compare(&top) {
                Ordering::Less => {
                    let (below, above) = split(low, at);
                    (below, Tree::Fork(join(above, top, high)))
                }
                Ordering::Equal => {
                    at.enlarge(&top.row);
                    (low, high)
                }
                Ordering::Greater => {
                    let (below, above) = split(high, at);
                    (Tree::Fork(join(low, top, below)), above)
                }
            }
        }
    }
}

/// Unites the rows of two trees. The sizes of a path that both have are added up. If all rows of one tree are between
/// two rows of the other, only the rows on the way to these are visited.
pub fn unite(rows: Tree, new: Tree) -> Tree
    requires ordered { IsStrictlySortedBy row_cmp (rows_in rows) }
    requires new_ordered { IsStrictlySortedBy row_cmp (rows_in new) }
    requires fits { FitTogether (rows_in rows) (rows_in new) }
    requires count { length (rows_in rows) + length (rows_in new) < 2 ^ 64 }
    ensures { rows_in result ≡ with_rows (rows_in rows) (rows_in new) }
{
    match rows {
        Tree::Leaf => new,
        Tree::Fork(mut top) => {
            if new.len() == 0 {
                return Tree::Fork(top);
            }
            let (below, above) = split(new, &mut top);
            let low = unite(top.take_low(), below);
            let high = unite(top.take_high(), above);
            Tree::Fork(join(low, top, high))
        }
    }
}

/// Makes a balanced tree of the last branches of a list, each of one row. The last one of the list becomes the least.
pub fn build(branches: &mut Vec<Box<Branch>>, count: usize) -> Tree
    requires alone { AreAlone branches.old.items }
    requires count { count ≤ vec_len branches.old }
    ensures rows { rows_at branches.old.items
        ≡ rows_at branches.new.items ++ reverse (rows_in result) }
    ensures alone { AreAlone branches.new.items }
    ensures count { length (rows_in result) ≡ count }
    ensures len { vec_len branches.new + count ≡ vec_len branches.old }
{
    if count == 0 {
        return Tree::Leaf;
    }
    let low = build(branches, count / 2);
    let Some(mut top) = branches.pop() else {
        return low;
    };
    let high = build(branches, count - count / 2 - 1);
    top.set_low(low);
    top.set_high(high);
    Tree::Fork(top)
}

// True only if the branch before the last `count` ones of a list is above the next one.
fn climbs(branches: &[Box<Branch>], count: usize) -> bool
    requires some { 0 < count }
    requires within { count < length branches.now }
    ensures { IsTrue result → RisesAt (rows_at branches.now) (length branches.now - count - 1) }
{
    let next = branches.len() - count;
    branches[next].compare(&branches[next - 1]) == Ordering::Less
}

/// The length of a run at the end of a list of branches whose paths ascend from the last one on.
pub fn rising(branches: &[Box<Branch>]) -> usize
    requires some { 0 < length branches.now }
    ensures some { 0 < result }
    ensures bound { result ≤ length branches.now }
    ensures rising { RisesFrom (rows_at branches.now) (length branches.now - result) }
{
    let mut count = 1;
    while count < branches.len() {
        if !climbs(branches, count) {
            return count;
        }
        count += 1;
    }
    count
}
