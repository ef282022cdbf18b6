//! The whole run. The contract of `bloaty` is the main contract of the program.
//!
//! A data source makes claims: each gives a label to a span of file offsets or of addresses. The label of a file
//! byte, or of an address that a file maps, is that of the first claim that covers it, or `[Unmapped]` if none does.
//! A claim of addresses alone also covers the file bytes that are loaded there, and a claim of file offsets alone the
//! addresses that are loaded from them. A custom data source rewrites the labels. The labels by all data sources in
//! `-d`, in this order, are the path of the byte or address. The file size of a path is the number of file bytes
//! whose path begins with it, and its VM size the number of mapped addresses whose path does.
//!
//! `files`, `patterns`, `out` and `err` are the devices of a run. Each has ghost state, which only clauses see: what
//! the files hold (`held`), which reads were made and what they returned (`asked`, `gave`), which patterns were built
//! (`built`), which bytes were written (`written`), and counts of failures (`faults`, `refused`).
//!
//! To understand the clauses, begin with `IsRun` (specs/Answers.antt). It joins `verdict` (specs/Verdict.antt), which
//! is the outcome as a function of the arguments and the bytes of the files, and `IsReport` (specs/Reports.antt),
//! which says what a report is. For sizes this is `IsSizeReport` (specs/SizeReport.antt of the crate `file_reports`).
//! The clauses about the devices are in specs/Devices.antt.

ghost use Rattle.std.specs.Prelude.{◌≡◌, false};
ghost use Rattle.size_options.specs.Answers.{KeepsLimits, are_taken};
ghost use Rattle.size_options.specs.Asked.{asked as options_of};
ghost use Rattle.size_options.specs.Words.{seen_words};
ghost use Rattle.bloaty_engine.specs.Answers.{IsRun};
ghost use Rattle.bloaty_engine.specs.Devices.{BuildsAsked, CountsWrites, PrintsLine, Reads, ended};
ghost use Rattle.bloaty_engine.specs.Given.{seen_files};
ghost use Rattle.bloaty_engine.specs.Reading.{run_reading};
ghost use Rattle.bloaty_engine.specs.RunSteps.{EndsRun, IsBlankOf, WritesReport};
ghost use Rattle.run_outcome.specs.Line.{line_of};

use crate::files::Tally;
use crate::report::report;
use crate::request::Run;
use custom_rewrites::Patterns;
use outside::{Files, Sink, write_whole};
use run_outcome::{Outcome, tell, tell_no_memory, tell_usage};
use size_core::Limits;
use size_options::{OptionAnswer, UsageKind, options};
use std::alloc::Global;
use std::marker::Brand;
use std::sync::ledger::{Blank, Ledger};

// Writes the report to `out`.
fn write<O: Sink>(out: &mut O, report: &[u8]) -> Outcome
    ensures { WritesReport O.Sink report.now result out.old out.new }
{
    match write_whole(out, report) {
        Ok(()) => Outcome::Done,
        Err(_) => Outcome::WriteFailed,
    }
}

// Makes the report and writes it. `blank` opens the counter of steps.
fn answer<L: Ledger, F: Files, P: Patterns, O: Sink>(
    run: &Run,
    files: &mut F,
    patterns: &mut P,
    out: &mut O,
    blank: Blank,
) -> Outcome
    requires blank { IsBlankOf L.name L.parts blank.name blank.parts }
    requires limits { KeepsLimits run.now.options }
    ensures { EndsRun F.Files P.Patterns O.Sink run.now.limits run.now.options result
        files.old files.new patterns.old patterns.new out.old out.new }
{
    let mut tally = Tally::<L>::begin(blank);
    match report(run, files, patterns, &mut tally) {
        Err(end) => end,
        Ok(text) => write(out, &text),
    }
}

/// Makes the report that the arguments (`words`) ask for and writes it to `out`. If that fails, it prints one line
/// with the reason on `err`. `patterns` compiles the filter and the patterns of the configuration. `limits` bounds
/// the bytes that are read and the number of claims. Offsets, lengths and sizes are in bytes.
///
/// A run that returns `Done` has written the whole report (`run.written`) on the bytes that its reads returned
/// (`run.gave`), and on its synthetic file if it has one. In a report of sizes, the row of a label has as its sizes
/// the numbers of file bytes and of mapped addresses, over all files but a debug file, that pass the filter and whose
/// path begins with the path of the row (`IsSizeReport.each`). A byte is never counted for two paths with the same
/// number of labels (`IsSizeReport.once`), and a path has at most one row (`IsSizeReport.order`).
///
/// Any other outcome has a cause: a fault or an exceeded limit that the arguments and these bytes decide
/// (`run.answer`), arguments that clap can't parse (`words`), a failed read (`files`), a pattern that was refused for
/// its size (`patterns`), or a failed write (`out`). A fault comes only after the reads of the files that it needs
/// returned their bytes (`run.planned`, `files`). Only for running out of memory no clause gives a cause.
pub fn bloaty<F: Files, P: Patterns, O: Sink, E: Sink>(
    alloc: Global,
    words: &[String],
    files: &mut F,
    patterns: &mut P,
    out: &mut O,
    err: &mut E,
    limits: &Limits,
) -> Outcome
    // The outcome and what is written. Unless the run is interrupted, the arguments and the bytes of the files decide
    // both.
    ensures run { let given = options_of (seen_words words.now) in
        IsRun (seen_files F.Files files.old files.new) limits.now given
        (P.last_refused patterns.new) (O.written out.old) (O.written out.new) result }

    // The causes of interruptions, except for running out of memory: arguments that clap can't parse, a failed read,
    // a pattern that was refused for its size, a failed write to the output. With any other outcome no read failed,
    // no pattern was refused, and no write to the output failed.
    ensures words { (result ≡ Outcome.Usage UsageKind.Words)
        → are_taken (seen_words words.now) ≡ false }
    ensures files { let reading = run_reading limits.now (options_of (seen_words words.now)) in
        Reads F.Files reading (ended result) files.old files.new }
    ensures patterns { let given = options_of (seen_words words.now) in
        BuildsAsked P.Patterns (seen_files F.Files files.old files.new) limits.now given
        (ended result) patterns.old patterns.new }
    ensures out { CountsWrites O.Sink result out.old out.new }

    // The line of the outcome, on the error output.
    ensures err { let line = line_of (options_of (seen_words words.now)) result in
        PrintsLine E.Sink line result err.old err.new }
{
    match options(alloc, words) {
        Ok(options) => {
            let run = Run {
                alloc,
                options,
                limits: *limits,
            };
            let outcome = answer::<Brand, F, P, O>(&run, files, patterns, out, Blank::new(1));
            let _ = tell(err, &run.options, &outcome);
            outcome
        }
        Err(OptionAnswer::Usage(kind)) => {
            let _ = tell_usage(err, kind);
            Outcome::Usage(kind)
        }
        Err(OptionAnswer::NoMemory) => {
            let _ = tell_no_memory(err);
            Outcome::NoMemory
        }
    }
}
