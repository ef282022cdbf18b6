//! The labels of a level, grouped with their paths, in the order of a report.

ghost use Rattle.std.specs.Prelude.{◌≡◌, ◌<◌, ◌++◌, ◌∷◌, [], All, IfOk, OnOk, filter, length, map, if◌then◌else◌};
ghost use Rattle.size_growth.specs.Groups.{IsGroup, IsPart, IsRange, IsRun, Rise, group_entry, others_group};
ghost use Rattle.size_growth.specs.Keys.{growth_key, has_changed};
ghost use Rattle.size_growth.specs.Paths.{sums};
ghost use Rattle.size_growth.specs.Rows.{entries_of, is_child, label_entry};
ghost use Rattle.size_growth.specs.Runs.{runs, table_at};
ghost use Rattle.size_growth.specs.Sizes.{Fits, sums_by};

use crate::growth::{GrowthPath, GrowthSizes};
use report_rows::{Grouped, HasPath, Kind, Levels, RowOptions, is_shown, key, limit, run_len};
use size_core::{NoMemory, Path};
use std::cmp::Reverse;

/// A group: the paths of a growth from index `from` up to `to`, which share a label; or labels that a limit
/// leaves out, with no paths. Groups are ordered as in a report: by key, the larger first, and for equal keys by
/// label, which is the order of the paths.
#[derive(Clone, Copy, PartialEq, Eq, PartialOrd, Ord, Debug)]
pub struct Group {
    /// The sort key: the shown difference that rows are sorted by.
    pub key: Reverse<u64>,
    /// The index of the first path.
    pub from: usize,
    /// The index after the last path.
    pub to: usize,
    /// Whether this is one label, or the labels that a limit leaves out.
    pub kind: Kind,
    /// The sums of the sizes in bytes.
    pub sizes: GrowthSizes,
}

/// The sums of the paths' sizes.
#[tactic(auto, using(crate::proofs::SumLemmas::sums_more, crate::proofs::SumLemmas::fits_more))]
pub fn sums(paths: &[GrowthPath]) -> GrowthSizes
    requires { Fits (sums paths.now) }
    ensures { result ≡ sums paths.now }
{
    let mut sizes = GrowthSizes::none();
    for path in paths {
        sizes = sizes.plus(path.sizes);
    }
    sizes
}

// The sort key: the shown change that rows are sorted by.
fn growth_key(options: &RowOptions, sizes: &GrowthSizes) -> u64
    ensures { result ≡ growth_key options.now sizes.now }
{
    let vm = sizes.new_vm.abs_diff(sizes.base_vm);
    let file = sizes.new_file.abs_diff(sizes.base_file);
    key(options, vm, file)
}

// Whether a shown size has changed.
fn has_changed(options: &RowOptions, sizes: &GrowthSizes) -> bool
    ensures { result ≡ has_changed options.now sizes.now }
{
    let vm = sizes.new_vm.abs_diff(sizes.base_vm);
    let file = sizes.new_file.abs_diff(sizes.base_file);
    is_shown(options, vm, file)
}

impl HasPath for GrowthPath {
    ghost path = { λ p. p.path };

    fn path(&self) -> &Path {
        &self.path
    }
}

// The group whose first path is at `from`.
fn make_group(levels: Levels, paths: &[GrowthPath], level: u32, from: usize) -> Group
    requires part { IsPart levels.depth paths.now }
    requires below { level < levels.depth }
    requires inside { from < length paths.now }
    ensures from { result.from ≡ from }
    ensures group { IsGroup levels.options paths.now result }
    ensures run { IsRun level paths.now from result.to }
{
    let to = from + run_len(&paths[from..], level as usize);
    let sizes = sums(&paths[from..to]);
    Group {
        key: Reverse(growth_key(&levels.options, &sizes)),
        from,
        to,
        kind: Kind::Label,
        sizes,
    }
}

// Appends a group if one of its shown sizes has changed.
fn keep(options: &RowOptions, groups: &mut Vec<Group>, group: Group) -> Result<(), NoMemory>
    ensures { OnOk result (groups.new.items
        ≡ groups.old.items ++ (if has_changed options.now group.sizes then group ∷ [] else [])) }
{
    if has_changed(options, &group.sizes) {
        groups.push(group)?;
    }
    Ok(())
}

// The groups of a level with a changed shown size, in the order of the paths.
fn groups_of(levels: Levels, paths: &[GrowthPath], level: u32) -> Result<Vec<Group>, NoMemory>
    requires part { IsPart levels.depth paths.now }
    requires below { level < levels.depth }
    ensures entries { IfOk result (λ groups. map (group_entry level paths.now) groups.items
        ≡ filter (is_child levels.options) (map label_entry (runs (table_at level paths.now)))) }
    ensures groups { IfOk result (λ groups. All (IsGroup levels.options paths.now) groups.items) }
    ensures rise { IfOk result (λ groups. Rise groups.items) }
{
    let mut groups = Vec::new(levels.alloc);
    let mut from = 0;
    while from < paths.len() {
        let group = make_group(levels, paths, level, from);
        keep(&levels.options, &mut groups, group)?;
        from = group.to;
    }
    Ok(groups)
}

impl Grouped for Group {
    ghost key = { λ g. g.key.0 };

    ghost fits = { λ groups. Fits (sums_by (λ g. g.sizes) groups) };

    ghost together = { others_group };

    fn key(&self) -> u64 {
        self.key.0
    }

    #[tactic(auto, using(crate::proofs::SumLemmas::sums_more, crate::proofs::SumLemmas::fits_more))]
    fn together(options: &RowOptions, left: &[Group]) -> Group {
        let mut sizes = GrowthSizes::none();
        for group in left {
            sizes = sizes.plus(group.sizes);
        }
        Group {
            key: Reverse(growth_key(options, &sizes)),
            from: 0,
            to: 0,
            kind: Kind::Others(left.len() as u64),
            sizes,
        }
    }
}

/// The groups of a level of these paths, within the limit, in the order of a report.
pub fn entries(levels: Levels, paths: &[GrowthPath], level: u32) -> Result<Vec<Group>, NoMemory>
    requires part { IsPart levels.depth paths.now }
    requires below { level < levels.depth }
    ensures entries { IfOk result (λ groups. map (group_entry level paths.now) groups.items
        ≡ entries_of levels.options (table_at level paths.now)) }
    ensures ranges { IfOk result (λ groups. All (IsRange paths.now) groups.items) }
{
    let mut groups = groups_of(levels, paths, level)?;
    groups.sort_unstable();
    limit(&levels.options, &mut groups)?;
    Ok(groups)
}
