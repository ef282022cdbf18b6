//! The input of a run: its options and limits, its configuration, and its plan.

ghost use Rattle.std.specs.Prelude.{◌≡◌, ◌≤◌};
ghost use Rattle.bloaty_engine.specs.PlanSteps.{MakesPlan, ReadsConfig, end_of_plan};
ghost use Rattle.bloaty_engine.specs.Verdict.{next_limit, total_limit};

use crate::files::read_file;
use crate::planning::plan;
use config_text::{ConfigAnswer, CustomSource, parse};
use custom_rewrites::Patterns;
use file_profile::{Plan, PlanAnswer};
use outside::Files;
use run_outcome::Outcome;
use size_core::Limits;
use size_options::Options;
use std::alloc::Global;

/// What a run is asked for.
#[derive(Drop)]
pub struct Run {
    /// The allocator with which values are made.
    pub alloc: Global,
    /// The options that the arguments give.
    pub options: Options,
    /// The limits of the bytes that are read and of the claims.
    pub limits: Limits,
}

impl Run {
    /// The largest length in bytes of a file that is read after other files, whose lengths add up to `lengths`.
    pub fn next_limit(&self, lengths: u64) -> u64
        requires { lengths ≤ total_limit self.now.limits }
        ensures { result ≡ next_limit self.now.limits lengths }
    {
        let file = self.limits.file.min(u64::from(u32::MAX));
        let total = self.limits.total.min(1 << 62);
        file.min(total - lengths)
    }
}

/// Reads and parses the configuration, if the options name one, and returns its custom data sources. The outcome is
/// `ReadFailed` or `TooLong` with file 0, `Config` with the first fault, or `NoMemory`.
pub fn customs_of<F: Files>(run: &Run, files: &mut F) -> Result<Vec<CustomSource>, Outcome>
    ensures { ReadsConfig F.Files run.now.limits run.now.options result files.old files.new }
{
    let Some(name) = &run.options.config else {
        return Ok(Vec::new(run.alloc));
    };
    // The largest length of a configuration in bytes.
    let limit = run.limits.file.min(1 << 20);
    let text = read_file(run.alloc, files, name.as_str(), 0, limit)?;
    match parse(run.alloc, &text) {
        Ok(customs) => Ok(customs),
        Err(ConfigAnswer::Bad(kind, offset)) => Err(Outcome::Config(kind, offset)),
        Err(ConfigAnswer::NoMemory) => Err(Outcome::NoMemory),
    }
}

// The outcome of a run without a plan.
fn end_of_plan(answer: PlanAnswer) -> Outcome
    ensures { result ≡ end_of_plan answer }
{
    match answer {
        PlanAnswer::UnknownSource(i) => Outcome::UnknownSource(i),
        PlanAnswer::PatternSyntax(i) => Outcome::PatternSyntax(i),
        PlanAnswer::PatternTooBig(i) => Outcome::PatternTooBig(i),
        PlanAnswer::NoMemory => Outcome::NoMemory,
    }
}

/// The plan for these options and custom data sources.
pub fn plan_of<P: Patterns>(
    run: &Run,
    customs: &[CustomSource],
    patterns: &mut P,
) -> Result<Plan, Outcome>
    ensures { MakesPlan P.Patterns run.now.options customs.now result patterns.old patterns.new }
{
    match plan(run.alloc, &run.options, customs, patterns) {
        Ok(plan) => Ok(plan),
        Err(answer) => Err(end_of_plan(answer)),
    }
}
