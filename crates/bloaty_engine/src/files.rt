//! The files of a run, read and counted one after the other.

ghost use Rattle.std.specs.Prelude.{◌≡◌, ◌≤◌, length};
ghost use Rattle.elf_synth.specs.Made.{made};
ghost use Rattle.size_options.specs.Answers.{IsOneInput};
ghost use Rattle.bloaty_engine.specs.FileSteps.{AddsFile, CanCount, CanMake, CountsBatch, CountsMade, FitsTotal, UsesMade};
ghost use Rattle.bloaty_engine.specs.FileReads.{HasOneInput, ReadsFile, ReadsOnly};
ghost use Rattle.run_outcome.specs.Names.{file_names};
ghost use Rattle.bloaty_engine.specs.RunSteps.{IsBlankOf};
ghost use Rattle.bloaty_engine.specs.Steps.{Finds, batch_of};
ghost use Rattle.bloaty_engine.specs.Verdict.{end_at, first_name, next_limit};

use crate::profile::profile_file;
use crate::request::Run;
use elf_synth::synth;
use file_profile::{Plan, ProfileAnswer};
use outside::{FileAnswer, Files};
use rollup::Rollup;
use run_outcome::Outcome;
use size_core::{BadFile, Names, Steps, Text};
use size_options::Options;
use std::alloc::Global;
use std::sync::ledger::{Blank, Ledger};

/// What a run has counted so far.
#[derive(Drop)]
pub struct Tally<L: Ledger> {
    /// The number of files. The next file has the number after it.
    pub files: usize,
    /// The sum of their lengths in bytes.
    pub bytes: u64,
    /// The steps that they took.
    pub steps: Steps<L>,
}

impl<L: Ledger> Tally<L> {
    /// Returns the tally before the first file is counted. `blank` opens the counter of steps.
    pub fn begin(blank: Blank) -> Tally<L>
        requires { IsBlankOf L.name L.parts blank.name blank.parts }
        ensures { result ≡ record { files = 0; bytes = 0; steps = 0 } }
    {
        Tally {
            files: 0,
            bytes: 0,
            steps: Steps::<L>::begin(blank),
        }
    }
}

/// Reads file `number`, which has the name `name` and may have at most `limit` bytes. The outcome is `ReadFailed` or
/// `TooLong` with this number, or `NoMemory`.
pub fn read_file<F: Files>(
    alloc: Global,
    files: &mut F,
    name: &str,
    number: usize,
    limit: u64,
) -> Result<Vec<u8>, Outcome>
    ensures { ReadsFile F.Files number name.now limit result files.old files.new }
{
    match files.read(alloc, name, limit) {
        Ok(bytes) => Ok(bytes),
        Err(FileAnswer::Failed) => Err(Outcome::ReadFailed(number)),
        Err(FileAnswer::TooLong) => Err(Outcome::TooLong(number)),
        Err(FileAnswer::NoMemory) => Err(Outcome::NoMemory),
    }
}

// The outcome of a run in which file `number` can't be counted.
fn end_at(number: usize, answer: ProfileAnswer) -> Outcome
    ensures { result ≡ end_at number answer }
{
    match answer {
        ProfileAnswer::Bad(BadFile { fault, offset }) => Outcome::Bad {
            file: number,
            fault,
            offset,
        },
        ProfileAnswer::TooManyClaims => Outcome::TooManyClaims(number),
        ProfileAnswer::MappedTooLarge => Outcome::MappedTooLarge,
        ProfileAnswer::NoMemory => Outcome::NoMemory,
    }
}

// A file in memory: its number, its name and its bytes.
#[derive(Clone, Copy)]
struct Input<'n, 'b> {
    number: usize,
    name: &'n Text,
    bytes: &'b [u8],
}

// Counts a file.
fn count_file<L: Ledger>(
    run: &Run,
    plan: &Plan,
    file: Input<'_, '_>,
    total: &mut Rollup,
    steps: &mut Steps<L>,
) -> Result<(), Outcome>
    requires { FitsTotal run.now.limits plan.now.sources total.old file.bytes.now }
    ensures { let bytes = file.entry.bytes.now in
        AddsFile run.now.limits plan.now file.entry.number file.entry.name.now bytes result
        total.old total.new steps.old steps.new }
{
    let name = file.name.as_str();
    match profile_file(run.alloc, plan, name, file.bytes, total, &run.limits, steps) {
        Ok(()) => Ok(()),
        Err(answer) => Err(end_at(file.number, answer)),
    }
}

/// The number of files, without base files.
pub fn file_count(options: &Options) -> usize
    ensures { result ≡ length (file_names options.now) }
{
    match options.synth {
        Some(_) => 1,
        None => options.files.len(),
    }
}

/// The name of the only file.
pub fn first_name(options: &Options) -> &str
    requires { IsOneInput options.now.synth options.now.files }
    ensures { result.now ≡ first_name options.now }
{
    match options.synth {
        Some(_) => "synth",
        None => options.files.get(0).as_str(),
    }
}

/// Reads and counts the files of these names, and returns the sizes of each path over them. Adds them to `tally`,
/// which counts the files before them. Each file's memory is freed before the next file is read. The outcome is that
/// of the first file that can't be read or counted, or `NoMemory`.
pub fn count_files<L: Ledger, F: Files>(
    run: &Run,
    plan: &Plan,
    names: &Names,
    files: &mut F,
    tally: &mut Tally<L>,
) -> Result<Rollup, Outcome>
    requires { let batch = batch_of tally.old.files tally.old.bytes names.now in
        CanCount run.now.limits plan.now.sources batch }
    ensures { CountsBatch F.Files run.now.limits plan.now names.now result
        files.old files.new tally.old tally.new }
{
    let before = tally.files;
    let mut total = Rollup::new(run.alloc, plan.depth());
    for k in 0..names.len() {
        let number = before + 1 + k;
        let name = names.get(k);
        let limit = run.next_limit(tally.bytes);
        let file = read_file(run.alloc, files, name.as_str(), number, limit)?;
        let input = Input {
            number,
            name,
            bytes: &file,
        };
        count_file(run, plan, input, &mut total, &mut tally.steps)?;
        tally.bytes += file.len() as u64;
    }
    tally.files = before + names.len();
    Ok(total)
}

/// Returns the bytes of the synthetic file of `n` functions, which is file 1. The outcome is `TooLong` if it exceeds a
/// limit, or `NoMemory`.
pub fn made_file(run: &Run, n: u32) -> Result<Vec<u8>, Outcome>
    requires { n ≤ 1_000_000 }
    ensures { UsesMade (Finds 1 (next_limit run.now.limits 0) (made n)) result }
{
    let file = synth(run.alloc, n)?;
    let limit = run.next_limit(0);
    if file.len() as u64 > limit {
        return Err(Outcome::TooLong(1));
    }
    Ok(file)
}

/// Counts the synthetic file of `n` functions, which is the first file, and adds it to `tally`. Returns the sizes of
/// each path in it. The outcome is `TooLong` if the file exceeds a limit, or that of a file that can't be counted.
pub fn count_made<L: Ledger>(
    run: &Run,
    plan: &Plan,
    n: u32,
    tally: &mut Tally<L>,
) -> Result<Rollup, Outcome>
    requires { CanMake n plan.now tally.old }
    ensures { CountsMade run.now.limits plan.now n result tally.old tally.new }
{
    let file = made_file(run, n)?;
    let name = Text::of(run.alloc, "synth")?;
    let mut total = Rollup::new(run.alloc, plan.depth());
    let input = Input {
        number: 1,
        name: &name,
        bytes: &file,
    };
    count_file(run, plan, input, &mut total, &mut tally.steps)?;
    tally.files = 1;
    tally.bytes = file.len() as u64;
    Ok(total)
}

/// Reads the only file, or makes the synthetic one, and returns its bytes. The outcome is `ReadFailed` or `TooLong` with
/// file 1, or `NoMemory`.
pub fn only_file<F: Files>(run: &Run, files: &mut F) -> Result<Vec<u8>, Outcome>
    requires { HasOneInput run.now.options }
    ensures { ReadsOnly F.Files run.now.limits run.now.options result files.old files.new }
{
    match run.options.synth {
        Some(n) => made_file(run, n),
        None => read_file(
            run.alloc,
            files,
            first_name(&run.options),
            1,
            run.next_limit(0),
        ),
    }
}
