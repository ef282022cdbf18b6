//! How a run over a broken file ends.

use crate::totals::sum_of_last;
use bloaty_engine::Outcome;
use sample_runs::{Ran, run, sound};
use size_core::Fault;
use std::alloc::{AllocError, Global};
use std::process::Abort;
use std::test::Fail;

/// What was done to a file.
#[derive(Clone, Copy, Debug)]
pub enum Harm {
    CutTo(usize),
    /// The byte at an offset has another value.
    Set { offset: usize, value: u8 },
}

// The file with the harm done.
fn harmed(alloc: Global, whole: &[u8], harm: Harm) -> Result<Vec<u8>, AllocError> {
    let mut bytes = whole.to_vec(alloc)?;
    match harm {
        Harm::CutTo(len) => bytes.truncate(len),
        Harm::Set { offset, value } => {
            if let Some(byte) = bytes.get_mut(offset) {
                *byte = value;
            }
        }
    }
    Ok(bytes)
}

// The line that reports a fault of the file.
fn line_of(alloc: Global, fault: Fault, offset: u64) -> Result<String, AllocError> {
    format!(in alloc; "bloaty: a.elf: offset {offset}: {fault:?}\n")
}

// A report of the whole file, and no line.
fn assert_done(rt: &impl Abort, ran: &Ran, len: usize, harm: Harm) {
    assert_eq!(rt; sum_of_last(&ran.out), len as u64, "{harm:?}");
    assert!(rt; ran.out.ends_with(b"\n"), "{harm:?}");
    assert!(rt; ran.err.is_empty(), "{harm:?}");
}

// No report, and one line.
fn assert_refused(rt: &impl Abort, ran: &Ran, status: u8, line: &str, harm: Harm) {
    assert_eq!(rt; ran.outcome.status(), status, "{harm:?}");
    assert!(rt; ran.out.is_empty(), "{harm:?}");
    assert!(rt; ran.err.as_slice() == line.as_bytes(), "{harm:?}");
}

// The run ends with the report of a file of `len` bytes, with the line of its fault, or with the line for a mapped
// size that is too large.
fn assert_ended(
    rt: &impl Abort,
    alloc: Global,
    ran: &Ran,
    len: usize,
    harm: Harm,
) -> Result<(), AllocError> {
    match ran.outcome {
        Outcome::Done => assert_done(rt, ran, len, harm),
        Outcome::Bad {
            file: 1,
            fault,
            offset,
        } => assert_refused(rt, ran, 1, &line_of(alloc, fault, offset)?, harm),
        outcome => {
            assert_eq!(rt; outcome, Outcome::MappedTooLarge, "{harm:?}");
            assert_refused(rt, ran, 6, "bloaty: mapped size too large\n", harm)
        }
    }
    Ok(())
}

// Both runs have the same outcome and the same output.
fn assert_same(rt: &impl Abort, ran: &Ran, again: &Ran, harm: Harm) {
    assert_eq!(rt; again.outcome, ran.outcome, "{harm:?}");
    assert!(rt; again.out.as_slice() == ran.out.as_slice(), "{harm:?}");
    assert!(rt; again.err.as_slice() == ran.err.as_slice(), "{harm:?}");
}

/// Runs the data sources of a list over the harmed file twice, and returns the outcome. The first run ends with a
/// report or with one line. The second run has the same outcome and the same output.
pub fn assert_ends(
    rt: &impl Abort,
    alloc: Global,
    whole: &[u8],
    list: &str,
    harm: Harm,
) -> Result<Outcome, Fail> {
    let file = harmed(alloc, whole, harm)?;
    let words = ["--csv", "-d", list, "a.elf"];
    let ran = run(alloc, &words, &file, sound(alloc))?;
    assert_ended(rt, alloc, &ran, file.len(), harm)?;
    let again = run(alloc, &words, &file, sound(alloc))?;
    assert_same(rt, &ran, &again, harm);
    Ok(ran.outcome)
}
