//! Runs over devices that fail.

use crate::files::run_named;
use bloaty_engine::Outcome;
use sample_files::{Input, bytes_of};
use sample_runs::{COMMAND, is_end, is_report, run, sound};
use std::alloc::Global;
use std::process::Abort;
use std::test::Fail;

// Arguments, the read that fails, the number of its file, and the line that reports it.
type Failing<'a> = (&'a [&'a str], u64, usize, &'a str);

const FILES: [Failing<'static>; 5] = [
    (&["a.elf"], 1, 1, "bloaty: a.elf: cannot be read"),
    (&["a.elf", "b.elf"], 1, 1, "bloaty: a.elf: cannot be read"),
    (&["a.elf", "b.elf"], 2, 2, "bloaty: b.elf: cannot be read"),
    (
        &["-c", "conf", "-d", "mine", "a.elf"],
        1,
        0,
        "bloaty: conf: cannot be read",
    ),
    (
        &["-c", "conf", "-d", "mine", "a.elf"],
        2,
        1,
        "bloaty: a.elf: cannot be read",
    ),
];

const BASE_FILES: [Failing<'static>; 4] = [
    (
        &["a.elf", "--", "big.elf"],
        2,
        2,
        "bloaty: big.elf: cannot be read",
    ),
    // The synthetic file isn't read.
    (
        &["--synth", "1", "--", "a.elf"],
        1,
        2,
        "bloaty: a.elf: cannot be read",
    ),
    (
        &["a.elf", "big.elf", "--", "a.elf", "--"],
        4,
        4,
        "bloaty: --: cannot be read",
    ),
    (
        &["-c", "conf", "-d", "mine", "a.elf", "--", "big.elf"],
        3,
        2,
        "bloaty: big.elf: cannot be read",
    ),
];

const PAIR: [Failing<'static>; 2] = [
    (
        &["-d", "symbols", "--debug-file=d.elf", "s.elf"],
        1,
        1,
        "bloaty: s.elf: cannot be read",
    ),
    (
        &["-d", "symbols", "--debug-file=d.elf", "s.elf"],
        2,
        2,
        "bloaty: d.elf: cannot be read",
    ),
];

fn assert_failing(rt: &impl Abort, alloc: Global, cases: &[Failing<'_>]) -> Result<(), Fail> {
    for &(words, call, number, line) in cases {
        let mut devices = sound(alloc);
        devices.failing_reads.push(call)?;
        let ran = run_named(alloc, words, devices)?;
        assert!(rt;
            is_end(&ran, Outcome::ReadFailed(number), 3, line),
            "{line}"
        );
    }
    Ok(())
}

#[test]
fn a_file_that_cannot_be_read(rt: HostRuntime) -> Result<(), Fail> {
    assert_failing(&rt, rt.alloc(), &FILES)
}

#[test]
fn a_base_file_that_cannot_be_read(rt: HostRuntime) -> Result<(), Fail> {
    assert_failing(&rt, rt.alloc(), &BASE_FILES)
}

#[test]
fn a_file_of_the_pair_that_cannot_be_read(rt: HostRuntime) -> Result<(), Fail> {
    assert_failing(&rt, rt.alloc(), &PAIR)
}

#[test]
fn a_made_file_is_not_read(rt: HostRuntime) -> Result<(), Fail> {
    let alloc = rt.alloc();
    let mut devices = sound(alloc);
    devices.failing_reads.push(1)?;
    let words = ["--synth", "1", "--csv", "-d", "inputfiles"];
    let ran = run_named(alloc, &words, devices)?;
    assert!(rt; is_report(&ran, &["inputfiles,vmsize,filesize", "synth,136,547"]));
    Ok(())
}

#[test]
fn patterns_that_are_refused_for_their_size(rt: HostRuntime) -> Result<(), Fail> {
    let alloc = rt.alloc();
    // Arguments, the call that is refused, and the number of its pattern. The second call is that of the first rewrite, if
    // there is a filter, and else of the second rewrite.
    let cases: [(&[&str], u64, usize, &str); 3] = [
        (
            &["--source-filter=zzz", "a.elf"],
            1,
            0,
            "bloaty: pattern 0: too big",
        ),
        (
            &["-c", "conf", "--source-filter=zzz", "a.elf"],
            2,
            1,
            "bloaty: pattern 1: too big",
        ),
        (
            &["-c", "conf", "-w", "a.elf"],
            2,
            2,
            "bloaty: pattern 2: too big",
        ),
    ];
    for &(words, call, number, line) in &cases {
        let ran = run_named(alloc, words, sound(alloc))?;
        assert_eq!(rt; ran.outcome, Outcome::Done);
        let mut devices = sound(alloc);
        devices.refused_patterns.push(call)?;
        let ran = run_named(alloc, words, devices)?;
        assert!(rt;
            is_end(&ran, Outcome::PatternTooBig(number), 2, line),
            "{line}"
        );
    }
    Ok(())
}

#[test]
fn an_output_that_fails_has_the_beginning_of_the_report(rt: HostRuntime) -> Result<(), Fail> {
    let alloc = rt.alloc();
    let whole = run_named(alloc, &COMMAND, sound(alloc))?;
    assert_eq!(rt; whole.outcome, Outcome::Done);
    for (take, failing, held) in [(100, 2, 100), (1, 1, 0), (1, 7, 6), (50, 3, 100)] {
        let mut devices = sound(alloc);
        devices.take = take;
        devices.failing_writes.push(failing)?;
        let ran = run_named(alloc, &COMMAND, devices)?;
        assert_eq!(rt; ran.outcome, Outcome::WriteFailed);
        assert_eq!(rt; ran.outcome.status(), 4);
        assert_eq!(rt; ran.out.len(), held);
        assert!(rt; whole.out.starts_with(&ran.out));
        assert!(rt; ran.err.as_slice() == b"bloaty: output failed\n".as_slice());
    }
    Ok(())
}

// The output takes a byte in a call. Each of its calls fails once, and the one after the last has nothing to write.
#[test]
fn each_write_that_fails_leaves_the_bytes_before_it(rt: HostRuntime) -> Result<(), Fail> {
    let alloc = rt.alloc();
    let whole = run_named(alloc, &COMMAND, sound(alloc))?;
    assert_eq!(rt; whole.out.len(), 120);
    for k in 0..=120usize {
        let mut devices = sound(alloc);
        devices.take = 1;
        devices.failing_writes.push(k as u64 + 1)?;
        let ran = run_named(alloc, &COMMAND, devices)?;
        let want = if k < 120 {
            Outcome::WriteFailed
        } else {
            Outcome::Done
        };
        assert_eq!(rt; ran.outcome, want);
        assert_eq!(rt; Some(ran.out.as_slice()), whole.out.get(..k));
    }
    Ok(())
}

#[test]
fn an_error_output_that_fails_changes_nothing(rt: HostRuntime) -> Result<(), Fail> {
    let alloc = rt.alloc();
    for input in [Input::Text(b""), Input::Text(b"!<arch>\n"), Input::Cut(63)] {
        let file = bytes_of(alloc, input)?;
        let ran = run(alloc, &COMMAND, &file, sound(alloc))?;
        assert_eq!(rt; ran.outcome.status(), 1);
        let mut devices = sound(alloc);
        devices.failing_lines.push(1)?;
        let again = run(alloc, &COMMAND, &file, devices)?;
        assert_eq!(rt; again.outcome, ran.outcome);
        assert!(rt; again.out.is_empty());
        assert!(rt; again.err.is_empty());
    }
    Ok(())
}
