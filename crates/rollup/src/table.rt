//! The sizes of the paths of all files.

ghost use Rattle.std.specs.Prelude.{◌≡◌, ◌+◌, ◌-◌, ◌^◌, ◌<◌, ◌≤◌, ◌↔◌, ℕ, Bool, List, [], All, OnOk, OnErr, length, slice_get};
ghost use Rattle.std.specs.Option.{option_copied, ForSome};
ghost use Rattle.std.specs.Result.{IsErrOf};
ghost use Rattle.size_model.specs.Loads.{mapped_count};
ghost use Rattle.dual_map.specs.Layout.{IsOver, LabelsBelow};
ghost use Rattle.path_rows.specs.Sums.{file_where, vm_where};
ghost use Rattle.rollup.specs.Totals.{IsTotals};
ghost use Rattle.rollup.specs.Adding.{file_count, vm_count, piece_count};
ghost use Rattle.rollup.specs.Counted.{vm_limit};
ghost use Rattle.rollup.specs.Files.{AddsFile, CountsInto, FitsInto};
ghost use Rattle.rollup.specs.Sizes.{IsEntry};

use crate::answer::RollupAnswer;
use crate::cursor::Part;
use crate::file::FileSizes;
use crate::fresh::new_rows;
use crate::sizes::PathSizes;
use crate::walk::{Walked, walk};
use dual_map::{Base, DualMap};
use path_rows::{OrderedRows, RollupRow};
use size_core::{LabelPool, NoMemory, Steps};
use std::alloc::Global;
use std::marker::Model;
use std::sync::ledger::Ledger;

/// The sizes of the paths of all files added so far. Contracts see the rows, ascending by path, each path once, and
/// the total length and mapped size of the files, whether a filter passed them or not.
#[derive(Debug, Drop)]
pub struct Rollup {
    alloc: Global,
    depth: u32,
    rows: OrderedRows,
    lengths: u64,
    mapped: u64,
}

impl Model for Rollup {
    ghost use Rattle.rollup.specs.Totals.{Totals, IsTotals};

    ghost Value = { Totals };

    ghost view = { λ r.
        record { depth = r.depth; rows = r.rows; lengths = r.lengths; mapped = r.mapped } };

    ghost invariant = { λ r. IsTotals r.depth r.rows r.lengths r.mapped };
}

// The most that the lengths of all files, or their mapped sizes, add up to.
const MOST: u128 = (1 << 63) - 1;

// The end of the positions that are walked. Without maps there is no way to distinguish mapped positions from others,
// so only their number counts.
fn last_position(base: &Base, maps: &[DualMap]) -> u128
    ensures { result ≡ vm_limit base.now.loads maps.now }
{
    if maps.is_empty() {
        base.mapped_size()
    } else {
        1 << 96
    }
}

impl Rollup {
    /// A rollup for paths of `depth` labels, to which no file was added.
    pub fn new(alloc: Global, depth: u32) -> Rollup
        ensures { result ≡ record { depth = depth; rows = []; lengths = 0; mapped = 0 } }
    {
        Rollup {
            alloc,
            depth,
            rows: OrderedRows::new(alloc),
            lengths: 0,
            mapped: 0,
        }
    }

    /// How many labels each path has.
    pub fn depth(&self) -> u32
        ensures { result ≡ self.now.depth }
    {
        self.depth
    }

    /// How many paths there are, and what is known of every rollup.
    pub fn len(&self) -> usize
        ensures count { result ≡ length self.now.rows }
        ensures totals { IsTotals self.now.depth self.now.rows self.now.lengths self.now.mapped }
    {
        self.rows.len()
    }

    /// The row of a number, from 0 on.
    pub fn row(&self, i: usize) -> &RollupRow
        requires { i < length self.now.rows }
        ensures { slice_get self.now.rows i ≡ Some result.now }
    {
        self.rows.row(i)
    }

    /// Adds the sizes of a file of `file_len` bytes: to each path the number of offsets, and of mapped addresses,
    /// at which the labels of `maps`, one pair of maps for each data source, spell it. The numbers of the labels
    /// are those of `pool`. With `passes`, which has a truth value for each label, a byte counts only if one of its
    /// labels is marked true.
    ///
    /// # Errors
    ///
    /// `TooManyBytes` if the lengths of all files added exceed 2^63 - 1, and `MappedTooLarge` if they don't and the
    /// mapped sizes do. `NoMemory` may come otherwise. After an error the rollup is unchanged.
    pub fn add_file<L: Ledger>(
        &mut self,
        base: &Base,
        file_len: u64,
        maps: &[DualMap],
        pool: &LabelPool,
        passes: Option<&[bool]>,
        steps: &mut Steps<L>,
    ) -> Result<(), RollupAnswer>
        requires len { base.now.len ≡ file_len }
        requires depth { length maps.now ≡ self.old.depth }
        requires over { All (IsOver base.now) maps.now }
        requires labels { All (LabelsBelow (length pool.now)) maps.now }
        requires passes { ForSome (option_copied passes) (λ marks. length marks ≡ length pool.now) }

        // For any test of a path (for example, that it is a given path or begins with one): the sizes of the rows
        // that pass it grow by the number of positions whose labels count and form a path that passes it.
        ensures file { OnOk result ((test : List (List ℕ) → Bool)
            → file_where test self.new.rows
            ≡ file_where test self.old.rows
            + file_count test pool.now (option_copied passes.entry) maps.now file_len) }
        ensures vm { OnOk result ((test : List (List ℕ) → Bool)
            → vm_where test self.new.rows
            ≡ vm_where test self.old.rows
            + vm_count test pool.now (option_copied passes.entry) maps.now base.now.loads) }

        // What was added, filtered or not.
        ensures depth { self.new.depth ≡ self.old.depth }
        ensures lengths { OnOk result (self.new.lengths ≡ self.old.lengths + file_len) }
        ensures mapped { OnOk result (self.new.mapped
            ≡ self.old.mapped + mapped_count base.now.loads) }

        // Refusals.
        ensures too_many_bytes { IsErrOf result RollupAnswer.TooManyBytes
            ↔ (2 ^ 63 - 1 < self.old.lengths + file_len) }
        ensures mapped_too_large { IsErrOf result RollupAnswer.MappedTooLarge
            ↔ ((self.old.lengths + file_len ≤ 2 ^ 63 - 1)
            × (2 ^ 63 - 1 < self.old.mapped + mapped_count base.now.loads)) }
        ensures unchanged { OnErr result (self.new ≡ self.old) }

        // At most as many pieces are read as the maps have.
        ensures cost { steps.new ≤ steps.old + piece_count maps.now }
    {
        let sizes = self.count_file(base, maps, passes, steps)?;
        self.add_sizes(pool, sizes)?;
        Ok(())
    }

    /// Counts the sizes of a file as `add_file` does, but adds nothing yet: a caller can drop the maps before the paths
    /// are spelled.
    ///
    /// # Errors
    ///
    /// Those of `add_file`.
    pub fn count_file<L: Ledger>(
        &self,
        base: &Base,
        maps: &[DualMap],
        passes: Option<&[bool]>,
        steps: &mut Steps<L>,
    ) -> Result<FileSizes, RollupAnswer>
        requires over { All (IsOver base.now) maps.now }
        ensures counts { CountsInto self.now base.now maps.now (option_copied passes.entry) result }
        ensures cost { steps.new ≤ steps.old + piece_count maps.now }
    {
        let len = base.len();
        if u128::from(self.lengths) + u128::from(len) > MOST {
            return Err(RollupAnswer::TooManyBytes);
        }
        let mapped = base.mapped_size();
        if u128::from(self.mapped) + mapped > MOST {
            return Err(RollupAnswer::MappedTooLarge);
        }
        let mut sizes = PathSizes::new(self.alloc);
        let marks = passes;
        let part = Part::File;
        walk(
            self.alloc,
            &mut sizes,
            Walked { maps, part, marks },
            u128::from(len),
            steps,
        )?;
        let last = last_position(base, maps);
        let part = Part::Vm;
        walk(
            self.alloc,
            &mut sizes,
            Walked { maps, part, marks },
            last,
            steps,
        )?;
        let sizes = sizes.without_hints(self.alloc);
        let mapped = mapped as u64;
        Ok(FileSizes { sizes, len, mapped })
    }

    /// Adds the sizes of a file that `count_file` counted. The numbers of its labels are those of `pool`. After an error
    /// the rollup is unchanged.
    pub fn add_sizes(&mut self, pool: &LabelPool, counted: FileSizes) -> Result<(), NoMemory>
        requires entries { All (IsEntry self.old.depth (length pool.now)) counted.entries }
        requires fits { FitsInto self.old counted }
        ensures { AddsFile result pool.now counted self.old self.new }
    {
        let new = new_rows(self.alloc, pool, counted.sizes)?;
        self.rows.add(self.alloc, new)?;
        self.lengths += counted.len;
        self.mapped += counted.mapped;
        Ok(())
    }
}
