//! One run of the whole tool over files and sinks in memory, and checks of how it ended and what it wrote. The crate
//! has no contracts: each test states how its run ends. A library can't assert, since only tests may abort, so a test
//! asserts `is_report` or `is_end` itself.
#![tactic(auto)]

mod runs;

use bloaty_engine::{Outcome, bloaty};
use custom_rewrites::RegexPatterns;
use outside::{MemFiles, MemSink};
pub use runs::{COMMAND, is_end, is_report};
use size_core::{FULL, Limits, NoMemory};
use std::alloc::Global;

/// How the devices of a run fail, and the limits of the run. Calls are counted from 1.
#[derive(Drop)]
pub struct Devices {
    /// The numbers of the reads that fail.
    pub failing_reads: Vec<u64>,
    /// The numbers of the patterns that are refused for their size, in the order in which they are compiled.
    pub refused_patterns: Vec<u64>,
    /// The most bytes that the output takes in a call.
    pub take: usize,
    /// The numbers of the writes to the output that fail.
    pub failing_writes: Vec<u64>,
    /// The numbers of the writes to the error output that fail.
    pub failing_lines: Vec<u64>,
    /// The limits of the run.
    pub limits: Limits,
}

// More bytes than any report here has.
const ROOM: usize = 1 << 16;

/// Devices that don't fail.
pub fn sound(alloc: Global) -> Devices {
    Devices {
        failing_reads: Vec::new(alloc),
        refused_patterns: Vec::new(alloc),
        take: ROOM,
        failing_writes: Vec::new(alloc),
        failing_lines: Vec::new(alloc),
        limits: FULL,
    }
}

/// How a run ended, and what it wrote.
#[derive(Drop)]
pub struct Ran {
    /// The outcome.
    pub outcome: Outcome,
    /// The bytes on the output.
    pub out: Vec<u8>,
    /// The bytes on the error output.
    pub err: Vec<u8>,
}

/// A file's name and its bytes.
pub type NamedFile<'a> = (&'a str, &'a [u8]);

fn words_of(alloc: Global, words: &[&str]) -> Result<Vec<String>, NoMemory> {
    let mut owned = Vec::new(alloc);
    for word in words {
        owned.push(String::from_str(alloc, word)?)?;
    }
    Ok(owned)
}

fn pairs_of(alloc: Global, files: &[NamedFile<'_>]) -> Result<Vec<(String, Vec<u8>)>, NoMemory> {
    let mut pairs = Vec::new(alloc);
    for (name, bytes) in files {
        pairs.push((String::from_str(alloc, name)?, bytes.to_vec(alloc)?))?;
    }
    Ok(pairs)
}

/// Runs the arguments over files of these names.
pub fn run_over(
    alloc: Global,
    words: &[&str],
    files: &[NamedFile<'_>],
    devices: Devices,
) -> Result<Ran, NoMemory> {
    let words = words_of(alloc, words)?;
    let mut files = MemFiles::new(pairs_of(alloc, files)?, devices.failing_reads);
    let mut patterns = RegexPatterns::new(devices.refused_patterns);
    let mut out = MemSink::new(alloc, ROOM, devices.take, devices.failing_writes)?;
    let mut err = MemSink::new(alloc, ROOM, ROOM, devices.failing_lines)?;
    let outcome = bloaty(
        alloc,
        &words,
        &mut files,
        &mut patterns,
        &mut out,
        &mut err,
        &devices.limits,
    );
    Ok(Ran {
        outcome,
        out: out.written().to_vec(alloc)?,
        err: err.written().to_vec(alloc)?,
    })
}

/// Runs the arguments over one file named `a.elf`.
pub fn run(alloc: Global, words: &[&str], file: &[u8], devices: Devices) -> Result<Ran, NoMemory> {
    run_over(alloc, words, &[("a.elf", file)], devices)
}
