//! Comparing the rows of two rollups.

ghost use Rattle.std.specs.Prelude.{◌≡◌, ◌+◌, ◌^◌, ◌<◌, ◌≤◌, ◌++◌, IfOk, OnOk, drop, length, map};
ghost use Rattle.size_growth.specs.Between.{IsBetween, IsWithin};
ghost use Rattle.size_growth.specs.Merged.{base_path, both_path, new_path, left};

use crate::growth::{Growth, GrowthPath, GrowthSizes};
use rollup::{Rollup, RollupRow, compare_paths};
use size_core::{NoMemory, Path};
use std::alloc::Global;
use std::cmp::Ordering;

/// How many rows of each rollup have been processed.
#[derive(Clone, Copy, Debug)]
pub struct Processed {
    /// How many rows of the new files.
    pub new: usize,
    /// How many rows of the base files.
    pub base: usize,
}

// A copy of the path.
fn copy(alloc: Global, path: &Path) -> Result<Path, NoMemory>
    ensures { IfOk result (λ p. p ≡ path.now) }
{
    let mut labels = Path::new(alloc);
    for i in 0..path.len() {
        labels.push(path.get(i).copy()?)?;
    }
    Ok(labels)
}

// The sizes of a path that only the new files have.
fn only_new(alloc: Global, row: &RollupRow) -> Result<GrowthPath, NoMemory>
    ensures { IfOk result (λ p. p ≡ new_path row.now) }
{
    Ok(GrowthPath {
        path: copy(alloc, &row.path)?,
        sizes: GrowthSizes {
            new_vm: row.vm,
            new_file: row.file,
            base_vm: 0,
            base_file: 0,
        },
    })
}

// The sizes of a path that only the base files have.
fn only_base(alloc: Global, row: &RollupRow) -> Result<GrowthPath, NoMemory>
    ensures { IfOk result (λ p. p ≡ base_path row.now) }
{
    Ok(GrowthPath {
        path: copy(alloc, &row.path)?,
        sizes: GrowthSizes {
            new_vm: 0,
            new_file: 0,
            base_vm: row.vm,
            base_file: row.file,
        },
    })
}

// The sizes of a path that both have.
fn in_both(alloc: Global, new: &RollupRow, base: &RollupRow) -> Result<GrowthPath, NoMemory>
    ensures { IfOk result (λ p. p ≡ both_path new.now base.now) }
{
    Ok(GrowthPath {
        path: copy(alloc, &new.path)?,
        sizes: GrowthSizes {
            new_vm: new.vm,
            new_file: new.file,
            base_vm: base.vm,
            base_file: base.file,
        },
    })
}

/// The rollups that are compared, and the allocator for the paths.
#[derive(Clone, Copy)]
struct Rollups<'r> {
    alloc: Global,
    new: &'r Rollup,
    base: &'r Rollup,
}

impl<'r> Rollups<'r> {
    // Processes the lesser of the two next paths, or both if they are equal.
    fn pass_lesser(&self, at: Processed, paths: &mut Vec<GrowthPath>) -> Result<Processed, NoMemory>
        requires new { at.new < length self.now.new.now.rows }
        requires base { at.base < length self.now.base.now.rows }
        requires new_fits { length self.now.new.now.rows < 2 ^ 64 }
        requires base_fits { length self.now.base.now.rows < 2 ^ 64 }
        ensures left { let new = self.now.new.now.rows in let base = self.now.base.now.rows in
            IfOk result (λ to. paths.new.items ++ left new base to
            ≡ paths.old.items ++ left new base at) }
        ensures within { IfOk result (IsWithin self.now.new.now.rows self.now.base.now.rows) }
        ensures further { IfOk result (λ to. at.new + at.base < to.new + to.base) }
    {
        let ours = self.new.row(at.new);
        let theirs = self.base.row(at.base);
        match compare_paths(&ours.path, &theirs.path) {
            Ordering::Less => {
                paths.push(only_new(self.alloc, ours)?)?;
                Ok(Processed {
                    new: at.new + 1,
                    base: at.base,
                })
            }
            Ordering::Equal => {
                paths.push(in_both(self.alloc, ours, theirs)?)?;
                Ok(Processed {
                    new: at.new + 1,
                    base: at.base + 1,
                })
            }
            Ordering::Greater => {
                paths.push(only_base(self.alloc, theirs)?)?;
                Ok(Processed {
                    new: at.new,
                    base: at.base + 1,
                })
            }
        }
    }

    // Processes the next path, up to one row of the new rollup.
    fn pass(&self, at: Processed, paths: &mut Vec<GrowthPath>) -> Result<Processed, NoMemory>
        requires new { at.new < length self.now.new.now.rows }
        requires base { at.base ≤ length self.now.base.now.rows }
        requires new_fits { length self.now.new.now.rows < 2 ^ 64 }
        ensures left { let new = self.now.new.now.rows in let base = self.now.base.now.rows in
            IfOk result (λ to. paths.new.items ++ left new base to
            ≡ paths.old.items ++ left new base at) }
        ensures within { IfOk result (IsWithin self.now.new.now.rows self.now.base.now.rows) }
        ensures further { IfOk result (λ to. at.new + at.base < to.new + to.base) }
    {
        if at.base < self.base.len() {
            return self.pass_lesser(at, paths);
        }
        paths.push(only_new(self.alloc, self.new.row(at.new))?)?;
        Ok(Processed {
            new: at.new + 1,
            base: at.base,
        })
    }

    // Processes the remaining rows of the base rollup. The new one has none left.
    fn pass_rest(&self, at: Processed, paths: &mut Vec<GrowthPath>) -> Result<(), NoMemory>
        requires { at.base ≤ length self.now.base.now.rows }
        ensures { OnOk result (paths.new.items
            ≡ paths.old.items ++ map base_path (drop at.base self.now.base.now.rows)) }
    {
        for i in at.base..self.base.len() {
            paths.push(only_base(self.alloc, self.base.row(i))?)?;
        }
        Ok(())
    }
}

impl Growth {
    /// The paths that the new files or the base files have, each with its sizes in both. A size is 0 if the
    /// files don't have the path. The only error is running out of memory.
    pub fn between(alloc: Global, new: &Rollup, base: &Rollup) -> Result<Growth, NoMemory>
        requires { new.now.depth ≡ base.now.depth }
        ensures depth { IfOk result (λ g. g.depth ≡ new.now.depth) }
        ensures sizes { IfOk result (λ g. IsBetween new.now.rows base.now.rows g.paths) }
    {
        let mut paths = Vec::with_capacity(alloc, new.len().max(base.len()))?;
        let rollups = Rollups { alloc, new, base };
        let mut at = Processed { new: 0, base: 0 };
        while at.new < new.len() {
            at = rollups.pass(at, &mut paths)?;
        }
        rollups.pass_rest(at, &mut paths)?;
        Ok(Growth {
            depth: new.depth(),
            paths,
        })
    }
}
