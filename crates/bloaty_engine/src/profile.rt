//! The sizes of one file.

ghost use Rattle.std.specs.Prelude.{length};
ghost use Rattle.file_profile.specs.Profiles.{CanProfile, Profiles};
ghost use Rattle.file_profile.specs.Views.{Answers, file_view, viewed};

use data_sources::open_binary;
use file_profile::{Plan, ProfileAnswer, Subject, profile_opened};
use rollup::Rollup;
use size_core::{Limits, Steps};
use std::alloc::Global;
use std::sync::ledger::Ledger;

/// Adds the sizes of one file to `total`: for each path of labels, one label for each data source of the plan, the
/// number of the file's bytes and of its mapped addresses that have this path and pass the filter. `inputfiles` labels
/// them `name`.
///
/// # Errors
///
/// The first of these:
///
/// - `Bad`: the first fault of the file,
/// - `Bad` or `TooManyClaims` of the first data source that has a fault or with which the claims exceed
///   `limits.claims`,
/// - `MappedTooLarge`: the mapped sizes of this file and of those in `total` exceed 2^63 - 1.
///
/// `NoMemory` may come at any step. After an error `total` is as before.
#[tactic(auto, unfolding(file_profile::specs::Views::viewed))]
pub fn profile_file<L: Ledger>(
    alloc: Global,
    plan: &Plan,
    name: &str,
    file: &[u8],
    total: &mut Rollup,
    limits: &Limits,
    steps: &mut Steps<L>,
) -> Result<(), ProfileAnswer>
    requires { CanProfile (length file.now) plan.now.sources total.old }

    // The result is the first fault or exceeded limit of the file, unless memory runs out.
    ensures answer { Answers result
        (viewed total.old.mapped limits.now.claims name.now file.now plan.now.sources) }

    // What is added, and what it costs.
    ensures effect { let claims = limits.now.claims in
        let counted = viewed total.old.mapped claims name.now file.now plan.now.sources in
        let view = file_view claims name.now file.now plan.now.sources in
        Profiles result counted view plan.now.filter (length file.now)
        total.old total.new steps.old steps.new }
{
    let binary = open_binary(file)?;
    let subject = Subject::new(alloc, name.as_bytes(), binary, None)?;
    profile_opened(plan, &subject, total, limits, steps)?;
    Ok(())
}
