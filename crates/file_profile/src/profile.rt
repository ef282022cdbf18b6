//! The sizes of an opened file.

ghost use Rattle.std.specs.Prelude.{◌≡◌, ◌+◌, ◌≤◌, length, map, IfOk};
ghost use Rattle.rollup.specs.Adding.{piece_count};
ghost use Rattle.custom_rewrites.specs.Pattern.{is_found};
ghost use Rattle.data_sources.specs.Groups.{bytes_of};
ghost use Rattle.file_profile.specs.Added.{CountsMaps};
ghost use Rattle.file_profile.specs.Claims.{layout_of};
ghost use Rattle.file_profile.specs.Counts.{marks_by};
ghost use Rattle.file_profile.specs.MapLabels.{AreOver};
ghost use Rattle.file_profile.specs.Profiles.{CanProfile, Profiles};
ghost use Rattle.file_profile.specs.Views.{OpenedAnswers, opened_view, opened_viewed};

use crate::answer::OpenedAnswer;
use crate::maps::{FileMaps, maps_of};
use crate::plan::Plan;
use crate::subject::Subject;
use custom_rewrites::LabelPattern;
use rollup::{FileSizes, Rollup, RollupAnswer};
use size_core::{LabelPool, Limits, NoMemory, Steps};
use std::alloc::Global;
use std::sync::ledger::Ledger;

// Whether the pattern is found in each label. Each label is tried once.
fn marks_of(alloc: Global, pattern: &LabelPattern, pool: &LabelPool) -> Result<Vec<bool>, NoMemory>
    ensures { IfOk result (λ marks. marks.items ≡ map (is_found pattern.now) pool.now) }
{
    let mut finder = pattern.finder(alloc)?;
    let mut marks = Vec::new(alloc);
    for k in 0..pool.len() {
        marks.push(finder.finds(pool.get(k)))?;
    }
    Ok(marks)
}

// Counts the bytes and addresses of the maps that pass the plan's filter.
fn count_maps<L: Ledger>(
    plan: &Plan,
    subject: &Subject,
    maps: &FileMaps,
    total: &Rollup,
    steps: &mut Steps<L>,
) -> Result<FileSizes, RollupAnswer>
    requires over { AreOver (layout_of subject.now.binary) maps.now }
    ensures counts { CountsMaps total.now (layout_of subject.now.binary) maps.now
        (marks_by plan.now.filter maps.now.pool) result }
    ensures cost { steps.new ≤ steps.old + piece_count maps.now.maps.items }
{
    let base = subject.base();
    match &plan.filter {
        None => total.count_file(base, &maps.maps, None, steps),
        Some(pattern) => {
            let marks = marks_of(subject.alloc, pattern, &maps.pool)?;
            total.count_file(base, &maps.maps, Some(&marks), steps)
        }
    }
}

/// Adds the sizes of an opened file to `total`: for each path of labels, one label for each data source of the plan,
/// the number of the file's bytes and of its mapped addresses that have this path and pass the filter.
///
/// # Errors
///
/// The first of these:
///
/// - `Bad` or `TooManyClaims` of the first data source that has a fault or with which the claims exceed
///   `limits.claims`,
/// - `MappedTooLarge`: the mapped sizes of this file and of those in `total` exceed 2^63 - 1.
///
/// `NoMemory` may come at any step. After an error `total` is as before.
#[tactic(auto, unfolding(crate::specs::Views::opened_viewed))]
pub fn profile_opened<L: Ledger>(
    plan: &Plan,
    subject: &Subject,
    total: &mut Rollup,
    limits: &Limits,
    steps: &mut Steps<L>,
) -> Result<(), OpenedAnswer>
    requires { CanProfile (length (bytes_of subject.now.binary)) plan.now.sources total.old }
    ensures answer { OpenedAnswers result
        (opened_viewed total.old.mapped limits.now.claims subject.now plan.now.sources) }
    ensures effect { let file = subject.now in
        let counted = opened_viewed total.old.mapped limits.now.claims file plan.now.sources in
        let view = opened_view limits.now.claims file plan.now.sources in
        Profiles result counted view plan.now.filter (length (bytes_of file.binary))
        total.old total.new steps.old steps.new }
{
    let maps = maps_of(plan, subject, limits.claims)?;
    let sizes = count_maps(plan, subject, &maps, total, steps)?;
    // The maps are dropped before the paths are spelled.
    let FileMaps { maps, pool } = maps;
    drop(maps);
    total.add_sizes(&pool, sizes)?;
    Ok(())
}
