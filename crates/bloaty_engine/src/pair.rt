//! A file with its debug file.

ghost use Rattle.std.specs.Prelude.{◌≡◌, ◌^◌, ◌<◌, length};
ghost use Rattle.data_sources.specs.Opened.{opened};
ghost use Rattle.bloaty_engine.specs.PairSteps.{CountsPair};
ghost use Rattle.bloaty_engine.specs.Reports.{AsksPair, Reports};
ghost use Rattle.bloaty_engine.specs.Steps.{EndsAs};
ghost use Rattle.bloaty_engine.specs.Verdict.{end_of_pair, if_sound};

use crate::files::{first_name, only_file, read_file};
use crate::request::Run;
use data_sources::open_binary;
use file_profile::{PairAnswer, PairFile, Plan, profile_pair};
use file_reports::report_of_sizes;
use outside::Files;
use rollup::Rollup;
use run_outcome::Outcome;
use size_core::{BadFile, Steps, Text};
use std::sync::ledger::Ledger;

// The outcome of a run in which a file can't be counted with its debug file.
fn end_of_pair(answer: PairAnswer) -> Outcome
    ensures { result ≡ end_of_pair answer }
{
    match answer {
        PairAnswer::Bad(PairFile::Own, BadFile { fault, offset }) => Outcome::Bad {
            file: 1,
            fault,
            offset,
        },
        PairAnswer::Bad(PairFile::Debug, BadFile { fault, offset }) => Outcome::Bad {
            file: 2,
            fault,
            offset,
        },
        PairAnswer::NoMatch => Outcome::NoMatch,
        PairAnswer::TooManyClaims => Outcome::TooManyClaims(1),
        PairAnswer::MappedTooLarge => Outcome::MappedTooLarge,
        PairAnswer::NoMemory => Outcome::NoMemory,
    }
}

// Checks that the format of the first file has no fault.
fn check_format(file: &[u8]) -> Result<(), Outcome>
    requires { length file.now < 2 ^ 32 }
    ensures { EndsAs result (if_sound (opened file.now)) }
{
    match open_binary(file) {
        Ok(_) => Ok(()),
        Err(BadFile { fault, offset }) => Err(Outcome::Bad {
            file: 1,
            fault,
            offset,
        }),
    }
}

// Reads and counts the file with its debug file.
fn count_pair<L: Ledger, F: Files>(
    run: &Run,
    plan: &Plan,
    debug: &Text,
    files: &mut F,
    steps: &mut Steps<L>,
) -> Result<Rollup, Outcome>
    requires { AsksPair run.now.options plan.now debug.now }
    ensures { CountsPair F.Files run.now.limits plan.now run.now.options
        result files.old files.new steps.old steps.new }
{
    let file = only_file(run, files)?;
    check_format(&file)?;
    let limit = run.next_limit(file.len() as u64);
    let other = read_file(run.alloc, files, debug.as_str(), 2, limit)?;
    let name = first_name(&run.options);
    let mut total = Rollup::new(run.alloc, plan.depth());
    match profile_pair(
        run.alloc,
        plan,
        name,
        &file,
        &other,
        &mut total,
        &run.limits,
        steps,
    ) {
        Ok(()) => Ok(total),
        Err(answer) => Err(end_of_pair(answer)),
    }
}

/// Reads and counts the file with its debug file, and makes the report of its sizes.
pub fn pair_report<L: Ledger, F: Files>(
    run: &Run,
    plan: &Plan,
    debug: &Text,
    files: &mut F,
    steps: &mut Steps<L>,
) -> Result<Vec<u8>, Outcome>
    requires { AsksPair run.now.options plan.now debug.now }
    ensures { Reports F.Files run.now.limits plan.now run.now.options result
        files.old files.new steps.old steps.new }
{
    let total = count_pair(run, plan, debug, files, steps)?;
    report_of_sizes(run.alloc, &run.options, &total).map_err(Outcome::from)
}
