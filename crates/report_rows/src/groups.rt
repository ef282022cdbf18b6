//! The labels of a level, grouped with their rows, in the order of a report.

ghost use Rattle.std.specs.Prelude.{◌≡◌, ◌≢◌, ◌+◌, ◌-◌, ◌^◌, ◌<◌, ◌≤◌, ◌++◌, [], ◌∷◌, ℕ, All, length, map, filter, get_or, IfOk, OnOk, if◌then◌else◌};
ghost use Rattle.std.specs.List.Sorted.{IsPermutation, IsSorted};
ghost use Rattle.report_rows.specs.Groups.{table_at, labels_at, group_cmp, group_label, group_entry, AreFirst, IsLevel, IsGroup, IsBorder, IsRange, Fits, others_group};
ghost use Rattle.report_rows.specs.Keys.{is_shown};
ghost use Rattle.report_rows.specs.Rows.{entries_of, has_shown};
ghost use Rattle.report_rows.specs.Tables.{vm_sum, file_sum, first_labels};

use crate::keys::{is_shown, key};
use crate::leading::{has_small_limit, top_entries};
use crate::levels::Levels;
use crate::limits::{Grouped, leaves_out, place};
use crate::paths::{HasPath, run_len};
use crate::row::RowOptions;
use rollup::RollupRow;
use size_core::{NoMemory, Path};
use std::alloc::Global;
use std::cmp::Reverse;

/// The kind of a group.
#[derive(Clone, Copy, PartialEq, Eq, PartialOrd, Ord, Debug)]
pub enum Kind {
    /// One label.
    Label,
    /// This many labels that a limit leaves out.
    Others(u64),
}

/// A group: the rows of a rollup from index `from` up to `to`, which share a label; or labels that a limit
/// leaves out, with no rows. Groups are ordered as in a report: by key, the larger first, and for equal keys by
/// label, which is the order of the rows.
#[derive(Clone, Copy, PartialEq, Eq, PartialOrd, Ord, Debug)]
pub struct Group {
    /// The sort key: the shown size that rows are sorted by.
    pub key: Reverse<u64>,
    /// The index of the first row.
    pub from: usize,
    /// The index after the last row.
    pub to: usize,
    /// Whether this is one label, or the labels that a limit leaves out.
    pub kind: Kind,
    /// The sum of the VM sizes in bytes.
    pub vm: u64,
    /// The sum of the file sizes in bytes.
    pub file: u64,
}

/// The sums of the rows' VM sizes and file sizes, in bytes.
pub fn sums(rows: &[&RollupRow]) -> (u64, u64)
    requires vm_fits { vm_sum (map (λ r. r.now) rows.now) ≤ 2 ^ 63 - 1 }
    requires file_fits { file_sum (map (λ r. r.now) rows.now) ≤ 2 ^ 63 - 1 }
    ensures vm { result.0 ≡ vm_sum (map (λ r. r.now) rows.now) }
    ensures file { result.1 ≡ file_sum (map (λ r. r.now) rows.now) }
{
    let mut vm = 0;
    let mut file = 0;
    for row in rows {
        vm += row.vm;
        file += row.file;
    }
    (vm, file)
}

impl<'a> HasPath for &'a RollupRow {
    ghost path = { λ r. r.now.path };

    fn path(&self) -> &Path {
        &self.path
    }
}

/// The group whose first row is at `from`. No earlier row has its label.
pub fn make_group(levels: Levels, rows: &[&RollupRow], level: u32, from: usize) -> Group
    requires part { IsLevel levels.depth level (map (λ r. r.now) rows.now) }
    requires inside { from < length rows.now }
    requires border { IsBorder (labels_at level (map (λ r. r.now) rows.now)) from }
    ensures first { result.from ≡ from }
    ensures group { IsGroup levels.options level (map (λ r. r.now) rows.now) result }
    ensures border { IsBorder (labels_at level (map (λ r. r.now) rows.now)) result.to }
    ensures same { let labels = labels_at level (map (λ r. r.now) rows.now) in
        (k : ℕ) → from ≤ k → k < result.to → get_or labels k [] ≡ get_or labels from [] }
{
    let to = from + run_len(&rows[from..], level as usize);
    let (vm, file) = sums(&rows[from..to]);
    Group {
        key: Reverse(key(&levels.options, vm, file)),
        from,
        to,
        kind: Kind::Label,
        vm,
        file,
    }
}

// Appends a group if one of its shown sizes is above 0.
fn keep(options: &RowOptions, groups: &mut Vec<Group>, group: Group) -> Result<(), NoMemory>
    ensures { OnOk result (groups.new.items
        ≡ groups.old.items
        ++ (if is_shown options.now group.vm group.file then group ∷ [] else [])) }
{
    if is_shown(options, group.vm, group.file) {
        groups.push(group)?;
    }
    Ok(())
}

// The groups of a level with a shown size above 0, in the order of the rows.
fn groups_of(levels: Levels, rows: &[&RollupRow], level: u32) -> Result<Vec<Group>, NoMemory>
    requires { IsLevel levels.depth level (map (λ r. r.now) rows.now) }
    ensures labels { let all = map (λ r. r.now) rows.now in let table = table_at level all in
        IfOk result (λ groups. map (group_label level all) groups.items
        ≡ filter (has_shown levels.options table) (first_labels table)) }
    ensures groups { IfOk result
        (λ groups. All (IsGroup levels.options level (map (λ r. r.now) rows.now)) groups.items) }
{
    let mut groups = Vec::with_capacity(levels.alloc, rows.len())?;
    let mut from = 0;
    while from < rows.len() {
        let group = make_group(levels, rows, level, from);
        keep(&levels.options, &mut groups, group)?;
        from = group.to;
    }
    Ok(groups)
}

// Returns these groups, sorted, and a last one.
#[tactic(auto, using(crate::proofs::SortLemmas::derived_sorted))]
fn sorted_with(alloc: Global, front: &mut [Group], last: Group) -> Result<Vec<Group>, NoMemory>
    ensures permutation { IsPermutation front.old front.new }
    ensures sorted { IsSorted group_cmp front.new }
    ensures items { IfOk result (λ groups. groups.items ≡ front.new ++ last ∷ []) }
{
    front.sort_unstable();
    let mut groups = Vec::new(alloc);
    groups.extend_from_slice(front)?;
    groups.push(last)?;
    Ok(groups)
}

impl Grouped for Group {
    ghost key = { λ g. g.key.0 };

    ghost fits = { Fits };

    ghost together = { others_group };

    fn key(&self) -> u64 {
        self.key.0
    }

    fn together(options: &RowOptions, left: &[Group]) -> Group {
        let mut vm = 0;
        let mut file = 0;
        for group in left {
            vm += group.vm;
            file += group.file;
        }
        Group {
            key: Reverse(key(options, vm, file)),
            from: 0,
            to: 0,
            kind: Kind::Others(left.len() as u64),
            vm,
            file,
        }
    }
}

// The groups that come first, as many as the limit, with one group for the others. Those aren't sorted.
fn first_groups(levels: Levels, mut groups: Vec<Group>) -> Result<Vec<Group>, NoMemory>
    requires some { 0 < levels.options.limit }
    requires more { levels.options.limit < length groups.items }
    requires fits { Fits groups.items }
    ensures { IfOk result (λ first. AreFirst levels.options groups.items first.items) }
{
    let kept = levels.options.limit as usize;
    let (front, last, left) = groups.select_nth_unstable(kept - 1);
    let mut first = sorted_with(levels.alloc, front, *last)?;
    let others = Group::together(&levels.options, left);
    place(&mut first, others)?;
    Ok(first)
}

/// The groups of a level of these rows, within the limit, in the order of a report.
pub fn entries(levels: Levels, rows: &[&RollupRow], level: u32) -> Result<Vec<Group>, NoMemory>
    requires { IsLevel levels.depth level (map (λ r. r.now) rows.now) }
    ensures entries { let all = map (λ r. r.now) rows.now in
        IfOk result (λ groups. map (group_entry level all) groups.items
        ≡ entries_of levels.options (table_at level all)) }
    ensures ranges { IfOk result
        (λ groups. All (IsRange level (map (λ r. r.now) rows.now)) groups.items) }
{
    if has_small_limit(&levels.options) {
        return top_entries(levels, rows, level);
    }
    let mut groups = groups_of(levels, rows, level)?;
    if leaves_out(&levels.options, groups.len()) {
        return first_groups(levels, groups);
    }
    groups.sort_unstable();
    Ok(groups)
}
