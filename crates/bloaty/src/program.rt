//! The whole program over the host's files and its two outputs.

ghost use Rattle.std.specs.Prelude.{◌≡◌, IfErr, IfOk, OnErr, drop};
ghost use Rattle.std.specs.IoError.{error_kind};
ghost use Rattle.size_options.specs.Words.{seen_words};
ghost use Rattle.bloaty.specs.Program.{IsProgramRun, IsUnread, seen};

use bloaty_engine::bloaty;
use custom_rewrites::RegexPatterns;
use outside::{HostFiles, HostSink};
use size_core::FULL;
use std::alloc::Global;
use std::io::ErrorKind;
use std::rt::{Stderr, Stdout};
use std::{io, rt};

// The exit status if there is no memory for the arguments.
const NO_MEMORY: u8 = 5;

// The exit status if the arguments can't be read for any other reason.
const NO_ARGUMENTS: u8 = 7;

/// The devices of a run on the host: its files, the patterns, the standard output and the standard error output.
#[derive(Drop)]
pub struct Host<'r, R: rt::Files> {
    pub files: HostFiles<'r, R>,
    pub patterns: RegexPatterns,
    pub out: HostSink<Stdout>,
    pub err: HostSink<Stderr>,
}

// The exit status if the arguments can't be read.
fn status_without_arguments(e: &io::Error) -> u8
    ensures { IsUnread (error_kind e.now) result }
{
    if e.kind() == ErrorKind::OutOfMemory {
        NO_MEMORY
    } else {
        NO_ARGUMENTS
    }
}

// Runs the program with the arguments after its name, and returns the exit status.
fn run_arguments<R: rt::Files>(alloc: Global, arguments: &[String], host: &mut Host<'_, R>) -> u8
    ensures { let before = seen host.old.files host.old.patterns host.old.out host.old.err in
        let after = seen host.new.files host.new.patterns host.new.out host.new.err in
        IsProgramRun FULL (seen_words arguments.now) before after result }
{
    let outcome = bloaty(
        alloc,
        arguments,
        &mut host.files,
        &mut host.patterns,
        &mut host.out,
        &mut host.err,
        &FULL,
    );
    outcome.status()
}

/// Runs the program with its arguments, the first of which is its name, and returns the exit status. If the arguments
/// can't be read, it leaves the devices as they are.
pub fn run<R: rt::Files>(
    alloc: Global,
    args: &io::Result<Vec<String>>,
    host: &mut Host<'_, R>,
) -> u8
    ensures run { let before = seen host.old.files host.old.patterns host.old.out host.old.err in
        let after = seen host.new.files host.new.patterns host.new.out host.new.err in
        IfOk args.now
        (λ all. IsProgramRun FULL (seen_words (drop 1 all.items)) before after result) }
    ensures unread { IfErr args.now (λ e. IsUnread (error_kind e) result) }
    ensures kept { OnErr args.now (host.new ≡ host.old) }
{
    match args {
        Err(e) => status_without_arguments(e),
        Ok(all) => match all.as_slice() {
            [] => run_arguments(alloc, &[], host),
            [_, rest @ ..] => run_arguments(alloc, rest, host),
        },
    }
}
