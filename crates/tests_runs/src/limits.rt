//! Runs with other limits.

use crate::files::run_named;
use bloaty_engine::Outcome;
use sample_runs::{COMMAND, Ran, is_end, is_report, sound};
use size_core::{FULL, Fault, Limits, NoMemory};
use std::alloc::Global;
use std::process::Abort;
use std::test::Fail;

fn run_limited(alloc: Global, words: &[&str], limits: Limits) -> Result<Ran, NoMemory> {
    let mut devices = sound(alloc);
    devices.limits = limits;
    run_named(alloc, words, devices)
}

// Arguments, the limits that they pass, the outcome with its status, and the line that reports it.
type Passed<'a> = (&'a [&'a str], Limits, Outcome, u8, &'a str);

fn assert_passed(rt: &impl Abort, alloc: Global, cases: &[Passed<'_>]) -> Result<(), Fail> {
    for &(words, limits, outcome, status, line) in cases {
        let ran = run_limited(alloc, words, limits)?;
        assert!(rt; is_end(&ran, outcome, status, line), "{line}");
    }
    Ok(())
}

const PASSED: [Passed<'static>; 4] = [
    (
        &["a.elf"],
        Limits { file: 351, ..FULL },
        Outcome::TooLong(1),
        6,
        "bloaty: a.elf: too long",
    ),
    (
        &["a.elf", "a.elf"],
        Limits { total: 703, ..FULL },
        Outcome::TooLong(2),
        6,
        "bloaty: a.elf: too long",
    ),
    (
        &["--synth", "1"],
        Limits { file: 546, ..FULL },
        Outcome::TooLong(1),
        6,
        "bloaty: synth: too long",
    ),
    // The claims of all sources together: four of segments and six of sections.
    (
        &["-d", "segments,sections", "a.elf"],
        Limits { claims: 9, ..FULL },
        Outcome::TooManyClaims(1),
        6,
        "bloaty: a.elf: too many claims",
    ),
];

#[test]
fn passed_limits(rt: HostRuntime) -> Result<(), Fail> {
    assert_passed(&rt, rt.alloc(), &PASSED)
}

// Six claims, by each smaller limit and by their number.
#[test]
fn each_limit_on_the_claims(rt: HostRuntime) -> Result<(), Fail> {
    let alloc = rt.alloc();
    for claims in 0..=6 {
        let ran = run_limited(alloc, &COMMAND, Limits { claims, ..FULL })?;
        if claims < 6 {
            let line = "bloaty: a.elf: too many claims";
            assert!(rt; is_end(&ran, Outcome::TooManyClaims(1), 6, line), "{line}");
        } else {
            assert_eq!(rt; ran.outcome, Outcome::Done);
        }
    }
    Ok(())
}

#[test]
fn limits_that_are_met(rt: HostRuntime) -> Result<(), Fail> {
    let limits = Limits {
        file: 352,
        total: 704,
        claims: 10,
    };
    let words = ["-d", "segments,sections", "a.elf", "a.elf"];
    let ran = run_limited(rt.alloc(), &words, limits)?;
    assert_eq!(rt; ran.outcome, Outcome::Done);
    Ok(())
}

const PLACES: [Passed<'static>; 3] = [
    // The fault of the location comes before the claims.
    (
        &["--debug-fileoff=352", "a.elf"],
        Limits { claims: 5, ..FULL },
        Outcome::PlaceOutside,
        2,
        "bloaty: place outside the file",
    ),
    (
        &["--debug-fileoff=1", "a.elf"],
        Limits { claims: 5, ..FULL },
        Outcome::TooManyClaims(1),
        6,
        "bloaty: a.elf: too many claims",
    ),
    (
        &["--debug-fileoff=1", "a.elf"],
        Limits { file: 351, ..FULL },
        Outcome::TooLong(1),
        6,
        "bloaty: a.elf: too long",
    ),
];

#[test]
fn places_within_limits(rt: HostRuntime) -> Result<(), Fail> {
    assert_passed(&rt, rt.alloc(), &PLACES)
}

const BASE_FILES: [Passed<'static>; 4] = [
    (
        &["big.elf", "--", "a.elf"],
        Limits { total: 767, ..FULL },
        Outcome::TooLong(2),
        6,
        "bloaty: a.elf: too long",
    ),
    (
        &["--synth", "1", "--", "a.elf", "big.elf"],
        Limits {
            total: 547 + 352 + 415,
            ..FULL
        },
        Outcome::TooLong(3),
        6,
        "bloaty: big.elf: too long",
    ),
    (
        &["a.elf", "--", "big.elf"],
        Limits { file: 415, ..FULL },
        Outcome::TooLong(2),
        6,
        "bloaty: big.elf: too long",
    ),
    // Six claims on the file, and seven on the base file.
    (
        &["a.elf", "--", "big.elf"],
        Limits { claims: 6, ..FULL },
        Outcome::TooManyClaims(2),
        6,
        "bloaty: big.elf: too many claims",
    ),
];

#[test]
fn limits_that_a_base_file_passes(rt: HostRuntime) -> Result<(), Fail> {
    assert_passed(&rt, rt.alloc(), &BASE_FILES)
}

#[test]
fn limits_that_a_base_file_meets(rt: HostRuntime) -> Result<(), Fail> {
    let limits = Limits {
        file: 416,
        total: 768,
        claims: 7,
    };
    let words = ["--csv", "-n", "0", "big.elf", "--", "a.elf"];
    let ran = run_limited(rt.alloc(), &words, limits)?;
    let report = [
        "sections,vmsize,filesize",
        ".bss,1099511627776,0",
        "[ELF Section Headers],0,64",
        ".shstrtab,0,5",
        "[Unmapped],0,-5",
    ];
    assert!(rt; is_report(&ran, &report));
    Ok(())
}

const PAIR: [&str; 4] = ["-d", "symbols", "--debug-file=d.elf", "s.elf"];

const PAIRS: [Passed<'static>; 5] = [
    // The fault of the file's format comes before the debug file's length.
    (
        &["-d", "symbols", "--debug-file=d.elf", "cut.elf"],
        Limits { total: 400, ..FULL },
        Outcome::Bad {
            file: 1,
            fault: Fault::TablePastEnd,
            offset: 160,
        },
        1,
        "bloaty: cut.elf: offset 160: TablePastEnd",
    ),
    // The lengths of both are added up.
    (
        &PAIR,
        Limits { total: 447, ..FULL },
        Outcome::TooLong(1),
        6,
        "bloaty: s.elf: too long",
    ),
    (
        &PAIR,
        Limits { total: 600, ..FULL },
        Outcome::TooLong(2),
        6,
        "bloaty: d.elf: too long",
    ),
    (
        &PAIR,
        Limits { file: 448, ..FULL },
        Outcome::TooLong(2),
        6,
        "bloaty: d.elf: too long",
    ),
    // The claims of both are added up, too.
    (
        &PAIR,
        Limits { claims: 7, ..FULL },
        Outcome::TooManyClaims(1),
        6,
        "bloaty: s.elf: too many claims",
    ),
];

#[test]
fn limits_that_a_pair_passes(rt: HostRuntime) -> Result<(), Fail> {
    assert_passed(&rt, rt.alloc(), &PAIRS)
}

#[test]
fn limits_that_a_pair_meets(rt: HostRuntime) -> Result<(), Fail> {
    let ran = run_limited(rt.alloc(), &PAIR, Limits { claims: 8, ..FULL })?;
    assert_eq!(rt; ran.outcome, Outcome::Done);
    Ok(())
}
