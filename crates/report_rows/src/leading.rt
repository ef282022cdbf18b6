//! The groups within a small limit, kept while the rows are read. The others are added up at once, so that there is
//! no list of all groups.

ghost use Rattle.std.specs.Prelude.{true, false, ◌≡◌, ◌<◌, ◌≤◌, ◌++◌, [], ◌∷◌, ℕ, List, All, length, map, take, drop, IfOk, OnOk, if◌then◌else◌};
ghost use Rattle.std.specs.List.Sorted.{IsSorted};
ghost use Rattle.std.specs.Ordering.{is_lt};
ghost use Rattle.report_rows.specs.declared.groups.Group.{Group};
ghost use Rattle.report_rows.specs.Groups.{table_at, group_cmp, group_entry, IsLevel, IsRange};
ghost use Rattle.report_rows.specs.Keys.{is_shown};
ghost use Rattle.report_rows.specs.Leading.{CanAdd, Inserts, Leads, WithOthers, one_group, with_group};
ghost use Rattle.report_rows.specs.Rows.{entries_of};

use crate::groups::{Group, Kind, make_group};
use crate::keys::{is_shown, key};
use crate::levels::Levels;
use crate::limits::place;
use crate::row::RowOptions;
use rollup::RollupRow;
use size_core::NoMemory;
use std::alloc::Global;
use std::cmp::Reverse;

// The largest limit for which the groups within it are kept in order while the rows are read. A group that is kept
// moves those after it. With a larger limit these moves would cost more than to collect all groups and then select.
const SMALL_LIMIT: u32 = 64;

/// Whether there is a limit and it is small.
pub fn has_small_limit(options: &RowOptions) -> bool
    ensures { result ≡ true → 0 < options.now.limit }
{
    if options.limit == 0 {
        return false;
    }
    options.limit <= SMALL_LIMIT
}

/// Groups that a limit leaves out.
#[derive(Clone, Copy)]
pub struct LeftOut {
    /// How many groups there are.
    pub count: u64,
    /// The sum of their VM sizes in bytes.
    pub vm: u64,
    /// The sum of their file sizes in bytes.
    pub file: u64,
}

impl LeftOut {
    // Adds a group.
    fn add(&mut self, group: &Group)
        requires { CanAdd self.old group.now }
        ensures { self.new ≡ with_group self.old group.now }
    {
        self.count += 1;
        self.vm += group.vm;
        self.file += group.file;
    }

    // One group for all of them. It has no rows.
    fn together(self, options: &RowOptions) -> Group
        ensures { result ≡ one_group options.now self }
    {
        Group {
            key: Reverse(key(options, self.vm, self.file)),
            from: 0,
            to: 0,
            kind: Kind::Others(self.count),
            vm: self.vm,
            file: self.file,
        }
    }
}

// The index after the last group that comes before this one. The search begins at the end, since few groups come
// before many of those that are kept.
fn position(kept: &[Group], group: &Group) -> usize
    ensures within { result ≤ length kept.now }
    ensures before { IsSorted group_cmp kept.now
        → All (λ g. is_lt (group_cmp group.now g) ≡ false) (take result kept.now) }
    ensures after { All (λ g. is_lt (group_cmp g group.now) ≡ false) (drop result kept.now) }
{
    let mut index = kept.len();
    while index > 0 {
        if kept[index - 1].cmp(group).is_le() {
            return index;
        }
        index -= 1;
    }
    0
}

// Inserts a group into sorted groups.
fn insert(kept: &mut Vec<Group>, group: Group) -> Result<(), NoMemory>
    ensures { OnOk result (Inserts group kept.old.items kept.new.items) }
{
    let index = position(kept.as_slice(), &group);
    kept.insert(index, group)?;
    Ok(())
}

// Of the groups that were added, those that come first, in order, and the others.
#[derive(Drop)]
struct Leading {
    kept: Vec<Group>,
    left_out: LeftOut,
}

impl Leading {
    // No groups.
    fn new(alloc: Global) -> Leading
        ensures { (limit : ℕ) → Leads limit [] result.kept.items result.left_out }
    {
        Leading {
            kept: Vec::new(alloc),
            left_out: LeftOut {
                count: 0,
                vm: 0,
                file: 0,
            },
        }
    }

    // Adds a group. If as many as the limit are kept already, the last of them or the group itself is left out.
    fn keep(&mut self, limit: usize, group: Group) -> Result<(), NoMemory>
        requires some { 0 < limit }
        requires fits { All (CanAdd self.old.left_out) (group ∷ self.old.kept.items) }
        ensures { OnOk result ((groups : List Group)
            → Leads limit groups self.old.kept.items self.old.left_out
            → Leads limit (groups ++ group ∷ []) self.new.kept.items self.new.left_out) }
    {
        let count = self.kept.len();
        if count < limit {
            return insert(&mut self.kept, group);
        }
        let last = self.kept[count - 1];
        if last.cmp(&group).is_le() {
            self.left_out.add(&group);
            return Ok(());
        }
        self.left_out.add(&last);
        self.kept.pop();
        insert(&mut self.kept, group)
    }

    // Adds a group if one of its shown sizes is above 0.
    fn add(&mut self, options: &RowOptions, group: Group) -> Result<(), NoMemory>
        requires some { 0 < options.now.limit }
        requires fits { is_shown options.now group.vm group.file ≡ true
            → All (CanAdd self.old.left_out) (group ∷ self.old.kept.items) }
        ensures { OnOk result ((groups : List Group)
            → Leads options.now.limit groups self.old.kept.items self.old.left_out
            → Leads options.now.limit
            (groups ++ (if is_shown options.now group.vm group.file then group ∷ [] else []))
            self.new.kept.items self.new.left_out) }
    {
        if is_shown(options, group.vm, group.file) {
            return self.keep(options.limit as usize, group);
        }
        Ok(())
    }

    // The groups that are kept, with one group for the others if there are any.
    fn finish(self, options: &RowOptions) -> Result<Vec<Group>, NoMemory>
        ensures { IfOk result
            (λ made. WithOthers options.now self.kept.items self.left_out made.items) }
    {
        let Leading { kept, left_out } = self;
        let mut groups = kept;
        if left_out.count == 0 {
            return Ok(groups);
        }
        place(&mut groups, left_out.together(options))?;
        Ok(groups)
    }
}

/// The groups of a level of these rows, within the limit, in the order of a report. Only groups within the limit are
/// kept while the rows are read.
pub fn top_entries(levels: Levels, rows: &[&RollupRow], level: u32) -> Result<Vec<Group>, NoMemory>
    requires part { IsLevel levels.depth level (map (λ r. r.now) rows.now) }
    requires some { 0 < levels.options.limit }
    ensures entries { let all = map (λ r. r.now) rows.now in
        IfOk result (λ groups. map (group_entry level all) groups.items
        ≡ entries_of levels.options (table_at level all)) }
    ensures ranges { IfOk result
        (λ groups. All (IsRange level (map (λ r. r.now) rows.now)) groups.items) }
{
    let mut leading = Leading::new(levels.alloc);
    let mut from = 0;
    while from < rows.len() {
        let group = make_group(levels, rows, level, from);
        leading.add(&levels.options, group)?;
        from = group.to;
    }
    leading.finish(&levels.options)
}
