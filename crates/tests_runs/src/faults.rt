//! Faults of files that are cut short or that have other bytes, with their offsets.

use bloaty_engine::Outcome;
use sample_files::{Input, bytes_of, patched, plain_file};
use sample_runs::{COMMAND, is_end, is_report, run, sound};
use size_core::{BadFile, Fault};
use std::alloc::Global;
use std::process::Abort;
use std::test::Fail;

// The outcome of a fault of the one file.
fn bad(fault: Fault, offset: u64) -> Outcome {
    Outcome::Bad {
        file: 1,
        fault,
        offset,
    }
}

// A run over the first bytes of a file ends so, and has a report only if it is done.
fn assert_cut(
    rt: &impl Abort,
    alloc: Global,
    words: &[&str],
    cut: &[u8],
    want: Outcome,
) -> Result<(), Fail> {
    let len = cut.len();
    let ran = run(alloc, words, cut, sound(alloc))?;
    assert_eq!(rt; ran.outcome, want, "cut to {len} bytes");
    assert_eq!(rt;
        ran.out.is_empty(),
        want != Outcome::Done,
        "cut to {len} bytes"
    );
    Ok(())
}

#[test]
fn finds_the_first_fault(rt: HostRuntime) -> Result<(), Fail> {
    let alloc = rt.alloc();
    let whole = plain_file(alloc)?;
    for n in 0..352usize {
        let want = match n {
            0..4 => bad(Fault::UnknownFormat, 0),
            4..64 => bad(Fault::Truncated, 0),
            _ => bad(Fault::TablePastEnd, 160),
        };
        assert_cut(&rt, alloc, &COMMAND, whole.get(..n).unwrap_or(b""), want)?;
    }
    Ok(())
}

#[test]
fn cut_macho_files(rt: HostRuntime) -> Result<(), Fail> {
    let alloc = rt.alloc();
    let whole = bytes_of(alloc, Input::MachoProgram)?;
    let words = ["-d", "symbols", "a.elf"];
    for n in 0..=whole.len() {
        let want = match n {
            0..4 => bad(Fault::UnknownFormat, 0),
            4..32 => bad(Fault::Truncated, 0),
            32..352 => bad(Fault::TablePastEnd, 32),
            352..2064 => bad(Fault::SectionPastEnd, 176),
            2064..4152 => bad(Fault::TablePastEnd, 328),
            _ => Outcome::Done,
        };
        assert_cut(&rt, alloc, &words, whole.get(..n).unwrap_or(b""), want)?;
    }
    Ok(())
}

// A module with a type, three imported functions, one with a body, and a section of names that is cut short.
const MODULE: Input = Input::Text(
    b"\0asm\x01\0\0\0\x01\x04\x01\x60\0\0\x02\x13\x03\x01m\x01f\0\0\x01m\x01f\0\0\x01m\x01f\0\0\
\x03\x02\x01\0\x0a\x04\x01\x02\0\x0b\0\x08\x04name\x01\x05\x01",
);

#[test]
fn cut_modules(rt: HostRuntime) -> Result<(), Fail> {
    let alloc = rt.alloc();
    let whole = bytes_of(alloc, MODULE)?;
    let words = ["-d", "sections", "a.elf"];
    for n in 0..=whole.len() {
        let want = match n {
            0..4 => bad(Fault::UnknownFormat, 0),
            4..8 => bad(Fault::Truncated, 4),
            8 | 14 | 35 | 39 | 45 | 55 => Outcome::Done,
            9 => bad(Fault::Truncated, 8),
            10..14 => bad(Fault::SectionPastEnd, 8),
            15 => bad(Fault::Truncated, 14),
            16..35 => bad(Fault::SectionPastEnd, 14),
            36 => bad(Fault::Truncated, 35),
            37..39 => bad(Fault::SectionPastEnd, 35),
            40 => bad(Fault::Truncated, 39),
            41..45 => bad(Fault::SectionPastEnd, 39),
            46 => bad(Fault::Truncated, 45),
            _ => bad(Fault::SectionPastEnd, 45),
        };
        assert_cut(&rt, alloc, &words, whole.get(..n).unwrap_or(b""), want)?;
    }
    Ok(())
}

// The message of a fault is the end of its error line.
#[test]
fn prints_a_fault_as_in_the_error_line(rt: HostRuntime) -> Result<(), Fail> {
    let alloc = rt.alloc();
    let whole = plain_file(alloc)?;
    for (len, fault, offset, line) in [
        (3, Fault::UnknownFormat, 0, "offset 0: UnknownFormat"),
        (351, Fault::TablePastEnd, 160, "offset 160: TablePastEnd"),
    ] {
        let message = format!(in alloc; "{}", BadFile { fault, offset })?;
        assert_eq!(rt; message.as_str(), line);
        let ran = run(
            alloc,
            &COMMAND,
            whole.get(..len).unwrap_or(b""),
            sound(alloc),
        )?;
        let end = format!(in alloc; "bloaty: a.elf: {message}\n")?;
        assert!(rt; ran.err.as_slice() == end.as_bytes(), "{message}");
    }
    Ok(())
}

#[test]
fn checks_the_numbers_of_tables(rt: HostRuntime) -> Result<(), Fail> {
    let alloc = rt.alloc();
    // The offsets of p_vaddr and p_memsz of the program header, and of e_shoff and e_shstrndx of the file header.
    const VADDR: usize = 64 + 16;
    const MEMSZ: usize = 64 + 40;
    const SHOFF: usize = 40;
    const SHSTRNDX: usize = 62;
    let top = u64::MAX - 4095;
    let moved = patched(plain_file(alloc)?, VADDR, &top.to_le_bytes());
    let whole = patched(moved.to_vec(alloc)?, MEMSZ, &4096u64.to_le_bytes());
    let past = patched(moved, MEMSZ, &4097u64.to_le_bytes());
    let index = patched(plain_file(alloc)?, SHSTRNDX, &[3]);
    let table = patched(plain_file(alloc)?, SHOFF, &(1u64 << 63).to_le_bytes());
    for (file, want) in [
        (whole, Outcome::Done),
        (past, bad(Fault::RangeOverflow, 64)),
        (index, bad(Fault::BadIndex, 62)),
        (table, bad(Fault::TablePastEnd, 1 << 63)),
    ] {
        let ran = run(alloc, &COMMAND, &file, sound(alloc))?;
        assert_eq!(rt; ran.outcome, want);
    }
    Ok(())
}

#[test]
fn macho_symbols_at_one_place_and_a_short_command(rt: HostRuntime) -> Result<(), Fail> {
    let alloc = rt.alloc();
    // The second function begins where the first one does.
    let file = patched(bytes_of(alloc, Input::MachoProgram)?, 4136, &[0, 8]);
    let words = ["--csv", "-d", "symbols", "--source-filter=^_[ab]$", "a.elf"];
    let ran = run(alloc, &words, &file, sound(alloc))?;
    assert!(rt; is_report(&ran, &["symbols,vmsize,filesize", "_a,16,16"]));
    // The size of the second command.
    let file = patched(bytes_of(alloc, Input::MachoProgram)?, 108, &[7]);
    let ran = run(alloc, &words, &file, sound(alloc))?;
    let line = "bloaty: a.elf: offset 104: BadCommand";
    assert!(rt;
        is_end(&ran, bad(Fault::BadCommand, 104), 1, line),
        "{line}"
    );
    Ok(())
}

// More imports than there are: the fourth would begin where the section ends.
#[test]
fn faults_of_modules(rt: HostRuntime) -> Result<(), Fail> {
    let alloc = rt.alloc();
    let many_imports = patched(bytes_of(alloc, MODULE)?, 16, &[127]);
    let words = ["-d", "symbols", "a.elf"];
    let ran = run(alloc, &words, &many_imports, sound(alloc))?;
    let line = "bloaty: a.elf: offset 35: BadWasm";
    assert!(rt; is_end(&ran, bad(Fault::BadWasm, 35), 1, line), "{line}");
    Ok(())
}

// Two offsets with the bytes that are written at them, and the outcomes by units and by lines.
type Broken<'a> = ([(usize, &'a [u8]); 2], Outcome, Outcome);

const SAME: (usize, &[u8]) = (0, b"");

// The code of the root of `b.c`, whose unit begins at 256, the length of the first set, and values of `a.c`.
const NO_CODE: (usize, &[u8]) = (267, b"\x09");

const NO_LENGTH: (usize, &[u8]) = (398, b"\xf0\xff\xff\xff");

const NO_NAME: (usize, &[u8]) = (236, b"\x08");

const NO_RANGES: (usize, &[u8]) = (248, b"\x51");

const NO_LINES: (usize, &[u8]) = (252, b"\x38");

#[test]
fn the_first_fault_of_debug_sections(rt: HostRuntime) -> Result<(), Fail> {
    let alloc = rt.alloc();
    let unit = bad(Fault::BadAbbrev, 256);
    let lines = bad(Fault::OffsetOutside, 252);
    let broken: [Broken<'_>; 7] = [
        ([NO_CODE, SAME], unit, unit),
        ([NO_LENGTH, SAME], bad(Fault::BadUnit, 398), Outcome::Done),
        // Units come before sets, and the values of one unit in the order in which they are used.
        ([NO_LENGTH, NO_CODE], unit, unit),
        ([NO_LINES, NO_CODE], lines, lines),
        ([NO_NAME, NO_CODE], bad(Fault::OffsetOutside, 236), unit),
        ([NO_RANGES, NO_LINES], bad(Fault::OffsetOutside, 248), lines),
        ([SAME, SAME], Outcome::Done, Outcome::Done),
    ];
    for ([first, second], by_units, by_lines) in broken {
        let file = patched(bytes_of(alloc, Input::Units(4))?, first.0, first.1);
        let file = patched(file, second.0, second.1);
        for (source, want) in [("compileunits", by_units), ("inlines", by_lines)] {
            let ran = run(alloc, &["-d", source, "a.elf"], &file, sound(alloc))?;
            assert_eq!(rt; ran.outcome, want, "{source}");
        }
    }
    Ok(())
}
