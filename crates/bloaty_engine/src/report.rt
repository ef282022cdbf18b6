//! The report of a run, up to its text.

ghost use Rattle.std.specs.Prelude.{◌≡◌};
ghost use Rattle.size_options.specs.Answers.{KeepsLimits};
ghost use Rattle.bloaty_engine.specs.FileSteps.{CanTotal, CountsTotal};
ghost use Rattle.bloaty_engine.specs.Reports.{BeginsFiles, BeginsReport, Reports, ReportsFiles};
ghost use Rattle.bloaty_engine.specs.RunSteps.{MakesText};

use crate::files::{Tally, count_files, count_made, file_count};
use crate::pair::pair_report;
use crate::place::place_report;
use crate::request::{Run, customs_of, plan_of};
use custom_rewrites::Patterns;
use file_profile::Plan;
use file_reports::{report_of_growth, report_of_sizes};
use outside::Files;
use rollup::Rollup;
use run_outcome::Outcome;
use std::sync::ledger::Ledger;

// Counts the files of the options, or the synthetic file.
fn total_of<L: Ledger, F: Files>(
    run: &Run,
    plan: &Plan,
    files: &mut F,
    tally: &mut Tally<L>,
) -> Result<Rollup, Outcome>
    requires { CanTotal run.now.limits plan.now run.now.options tally.old }
    ensures { CountsTotal F.Files run.now.limits plan.now run.now.options result
        files.old files.new tally.old tally.new }
{
    match run.options.synth {
        Some(n) => count_made(run, plan, n, tally),
        None => count_files(run, plan, &run.options.files, files, tally),
    }
}

// Counts all files, and makes their report.
fn report_of_files<L: Ledger, F: Files>(
    run: &Run,
    plan: &Plan,
    files: &mut F,
    tally: &mut Tally<L>,
) -> Result<Vec<u8>, Outcome>
    requires { BeginsFiles run.now.options plan.now tally.old }
    ensures { ReportsFiles F.Files run.now.limits plan.now run.now.options result
        files.old files.new tally.old tally.new }
{
    let bases = run.options.bases.len();
    if file_count(&run.options).checked_add(bases).is_none() {
        return Err(Outcome::NoMemory);
    }
    let total = total_of(run, plan, files, tally)?;
    if bases == 0 {
        return report_of_sizes(run.alloc, &run.options, &total).map_err(Outcome::from);
    }
    let base = count_files(run, plan, &run.options.bases, files, tally)?;
    report_of_growth(run.alloc, &run.options, &total, &base).map_err(Outcome::from)
}

// The explanation of a location, the report of the only file with its debug file, or that of all files, as the options
// ask.
fn report_of_kind<L: Ledger, F: Files>(
    run: &Run,
    plan: &Plan,
    files: &mut F,
    tally: &mut Tally<L>,
) -> Result<Vec<u8>, Outcome>
    requires { BeginsReport run.now.options plan.now tally.old }
    ensures { Reports F.Files run.now.limits plan.now run.now.options result
        files.old files.new tally.old.steps tally.new.steps }
{
    match (&run.options.place, &run.options.debug) {
        (Some(place), _) => place_report(run, plan, place, files),
        (None, Some(debug)) => pair_report(run, plan, debug, files, &mut tally.steps),
        (None, None) => report_of_files(run, plan, files, tally),
    }
}

/// The text of the report that the options ask for. `tally` counts no file yet. It counts a step for each piece of a map that
/// is read.
pub fn report<L: Ledger, F: Files, P: Patterns>(
    run: &Run,
    files: &mut F,
    patterns: &mut P,
    tally: &mut Tally<L>,
) -> Result<Vec<u8>, Outcome>
    requires none { (tally.old.files ≡ 0) × (tally.old.bytes ≡ 0) }
    requires limits { KeepsLimits run.now.options }
    ensures { MakesText F.Files P.Patterns run.now.limits run.now.options result
        files.old files.new patterns.old patterns.new tally.old.steps tally.new.steps }
{
    let customs = customs_of(run, files)?;
    let plan = plan_of(run, &customs, patterns)?;
    report_of_kind(run, &plan, files, tally)
}
