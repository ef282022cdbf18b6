//! The plan of a run, from its options and its configuration.

ghost use Rattle.std.specs.Prelude.{IfOk, IfErr};
ghost use Rattle.file_profile.specs.Plans.{HasCause, IsPlan};
ghost use Rattle.run_plan.specs.PatternLists.{plan_patterns};
ghost use Rattle.run_plan.specs.Planning.{Plans};

use config_text::CustomSource;
use custom_rewrites::Patterns;
use file_profile::{Plan, PlanAnswer};
use run_plan::{choices_of, filter_of, rewrites_of};
use size_options::Options;
use std::alloc::Global;

/// The plan of a run: the data source of each name in `-d`, and the compiled patterns. A name means the built-in data
/// source of that name, or else the first custom one. The filter is pattern 0, the rewrites of all custom data sources
/// are the patterns from 1 on. Each pattern is compiled once, in the order of these numbers, up to the first that fails.
///
/// # Errors
///
/// The first of these:
///
/// - `UnknownSource` with the number, from 1, of the first name that means no data source,
/// - `PatternSyntax` or `PatternTooBig` with the number of a pattern that isn't a regular expression, or that was refused
///   for its size. All patterns with smaller numbers are regular expressions.
///
/// `NoMemory` may come at any step.
pub fn plan<P: Patterns>(
    alloc: Global,
    options: &Options,
    custom: &[CustomSource],
    patterns: &mut P,
) -> Result<Plan, PlanAnswer>
    ensures plan { IfOk result (IsPlan options.now.sources options.now.filter custom.now) }
    ensures cause { IfErr result (HasCause options.now.sources options.now.filter custom.now
        (P.refused patterns.old) (P.refused patterns.new) (P.last_refused patterns.new)) }
    ensures patterns { let o = options.now in
        Plans P.Patterns (plan_patterns o.sources o.filter custom.now) result
        patterns.old patterns.new }
{
    let choices = choices_of(alloc, &options.sources, custom)?;
    let filter = filter_of(alloc, options.filter.as_ref(), patterns)?;
    let rewrites = rewrites_of(alloc, custom, patterns)?;
    Ok(Plan::of(choices, rewrites, filter))
}
