//! Line programs: their headers, their rows, the paths of their files, and their faults.

ghost use Rattle.std.specs.Prelude.{◌≡◌, ◌<◌, length};

use byte_cursor::{Cursor, Order};
use dwarf_abbrev::UnitShape;
use dwarf_lines::{LineProgram, LineRow};
use dwarf_units::Sections;
use size_core::{BadFile, Fault, NoMemory};
use std::alloc::{AllocError, Global};
use std::process::Abort;

/// The sections of a file that has line programs from offset 1,000 on, and strings.
fn sections<'a>(lines: &'a [u8], strings: &'a [u8], line_strings: &'a [u8]) -> Sections<'a>
    requires lines { length lines.now < 10000 }
    requires strings { length strings.now < 10000 }
    requires line_strings { length line_strings.now < 10000 }
{
    Sections {
        order: Order::Little,
        info: Cursor::new(0, &[]),
        abbrev: Cursor::new(0, &[]),
        strings: Cursor::new(50, strings),
        line_strings: Cursor::new(60, line_strings),
        str_offsets: Cursor::new(0, &[]),
        addresses: Cursor::new(0, &[]),
        ranges: Cursor::new(0, &[]),
        rnglists: Cursor::new(0, &[]),
        aranges: Cursor::new(0, &[]),
        lines: Cursor::new(1000, lines),
    }
}

fn shape(address: u8) -> UnitShape {
    UnitShape {
        version: 4,
        wide: false,
        address,
        order: Order::Little,
    }
}

/// A program of the 32-bit format: its version, the numbers of its header with the lengths of its opcodes, its
/// tables and its instructions.
fn program(
    alloc: Global,
    version: u8,
    numbers: &[u8],
    tables: &[u8],
    instructions: &[u8],
) -> Result<Vec<u8>, AllocError>
    requires numbers { length numbers.now < 1000 }
    requires tables { length tables.now < 1000 }
    requires instructions { length instructions.now < 1000 }
{
    let sizes: &[u8] = if version < 5 { &[] } else { &[8, 0] };
    let header = numbers.len() + tables.len();
    let contents = 6 + sizes.len() + header + instructions.len();
    let mut bytes = Vec::new(alloc);
    bytes.extend_from_slice(&(contents as u32).to_le_bytes())?;
    bytes.extend_from_slice(&[version, 0])?;
    bytes.extend_from_slice(sizes)?;
    bytes.extend_from_slice(&(header as u32).to_le_bytes())?;
    bytes.extend_from_slice(numbers)?;
    bytes.extend_from_slice(tables)?;
    bytes.extend_from_slice(instructions)?;
    Ok(bytes)
}

/// No directory, and the file 1 `a.c` of directory 0.
const A_C: &[u8] = b"\0a.c\0\0\0\0\0";

/// The numbers of the worked program of version 4: 4 bytes an instruction of 2 operations, lines from -3 on, 12 of
/// them, special opcodes from 13 on.
const WORKED: &[u8] = b"\x04\x02\x01\xfd\x0c\x0d\0\x01\x01\x01\x01\0\0\0\x01\0\0\x01";

/// A byte an operation, lines from -5 on, 14 of them, special opcodes from 14 on: opcode 13 has two numbers.
const PLAIN: &[u8] = b"\x01\x01\x01\xfb\x0e\x0e\0\x01\x01\x01\x01\0\0\0\x01\0\0\x01\x02";

/// The row that a program has next.
fn row(address: u64, file: u64, line: u32, end: bool) -> Option<Result<LineRow, BadFile>> {
    Some(Ok(LineRow {
        address,
        file,
        line,
        end,
    }))
}

/// A program: its version, the numbers of its header, how many bytes an address of its unit has, its instructions,
/// and its rows.
type Worked<'a> = (u8, &'a [u8], u8, &'a [u8], &'a [(u64, u64, u32, bool)]);

const PROGRAMS: [Worked<'static>; 10] = [
    // Two operations an instruction: set_address 0x1000, copy, const_add_pc, special 32 twice, advance_pc 2,
    // end_sequence; set_address 0, copy, advance_pc 8, end_sequence.
    (
        4,
        WORKED,
        8,
        b"\0\x09\x02\0\x10\0\0\0\0\0\0\x01\x08\x20\x20\x02\x02\0\x01\x01\0\x09\x02\0\0\0\0\0\0\0\0\x01\x02\x08\0\x01\x01",
        &[
            (0x1000, 1, 1, false),
            (0x1028, 1, 5, false),
            (0x102c, 1, 9, false),
            (0x1030, 1, 9, true),
            (0, 1, 1, false),
            (16, 1, 1, true),
        ],
    ),
    // set_address 0x2000, advance_line 2, copy, special 20, advance_pc 8, end_sequence
    (
        4,
        PLAIN,
        8,
        b"\0\x09\x02\0\x20\0\0\0\0\0\0\x03\x02\x01\x14\x02\x08\0\x01\x01",
        &[
            (0x2000, 1, 3, false),
            (0x2000, 1, 4, false),
            (0x2008, 1, 4, true),
        ],
    ),
    // Each standard opcode once, with opcode 13 and its two numbers, and extended ones that do nothing.
    (
        4,
        PLAIN,
        8,
        b"\x02\x81\x01\x03\x79\x04\x05\x05\x09\x06\x07\x08\x09\x10\x27\x0a\x0b\x0c\x03\x0d\x80\x01\x02\x01\0\x03\x80\xaa\xbb\0\x02\x04\x07\0\x06\x03x\0\0\0\0\0\x01\x01\x01",
        &[
            (10146, 5, 4294967290, false),
            (10146, 5, 4294967290, true),
            (0, 1, 1, false),
        ],
    ),
    // Opcodes with the standard's numbers, to each of which the header gives two operands: set_column, set_isa,
    // negate_stmt, set_basic_block, set_prologue_end and set_epilogue_begin, each with a copy after it.
    (
        4,
        b"\x01\x01\x01\xfb\x0e\x0d\x02\x02\x02\x02\x02\x02\x02\x02\x02\x02\x02\x02",
        8,
        b"\x05\x01\x01\x0c\x01\x01\x06\x01\x07\x01\x0a\x01\x0b\x01",
        &[(0, 1, 1, false); 6],
    ),
    // Special opcodes from 1 on, and a maximum of 0 operations, which counts as 1.
    (
        4,
        b"\x02\0\x01\xfb\x0e\x01",
        8,
        b"\x01\x14",
        &[(0, 1, 4294967292, false), (2, 1, 4294967292, false)],
    ),
    // Special opcodes from 10 on, in version 2.
    (
        2,
        b"\x01\x01\xfb\x0e\x0a\0\x01\x01\x01\x01\0\0\0\x01",
        8,
        b"\x0a\x2b",
        &[(0, 1, 4294967292, false), (2, 1, 4294967292, false)],
    ),
    // Four operations an instruction: fixed_advance_pc and set_address begin with the first of them.
    (
        4,
        b"\x10\x04\x01\xfb\x0e\x0a\0\x01\x01\x01\x01\0\0\0\x01",
        8,
        b"\x02\x05\x01\x02\x02\x01\x02\x01\x01\x02\x03\x09\x01\0\x02\x01\x01\x02\x02\0\x09\x02\0\x01\0\0\0\0\0\0\x02\x01\x01",
        &[
            (16, 1, 1, false),
            (16, 1, 1, false),
            (32, 1, 1, false),
            (33, 1, 1, false),
            (0x100, 1, 1, false),
        ],
    ),
    // Addresses of 2, 4 and 8 bytes begin anew after the last.
    (
        3,
        b"\x01\x01\xfb\x0e\x0a\0\x01\x01\x01\x01\0\0\0\x01",
        2,
        b"\0\x03\x02\xfe\xff\x02\x03\x01",
        &[(1, 1, 1, false)],
    ),
    (
        3,
        b"\x01\x01\xfb\x0e\x0a\0\x01\x01\x01\x01\0\0\0\x01",
        4,
        b"\0\x05\x02\xfc\xff\xff\xff\x02\x08\x01\0\x09\x02\x05\0\0\0\x01\0\0\0\x01",
        &[(4, 1, 1, false), (5, 1, 1, false)],
    ),
    (
        3,
        b"\x01\x01\xfb\x0e\x0a\0\x01\x01\x01\x01\0\0\0\x01",
        8,
        b"\0\x09\x02\xff\xff\xff\xff\xff\xff\xff\xff\x02\x02\x01",
        &[(1, 1, 1, false)],
    ),
];

/// The program has these rows and no other.
fn has_rows(rt: &impl Abort, program: &LineProgram<'_>, rows: &[(u64, u64, u32, bool)]) {
    let mut found = program.rows();
    for (address, file, line, end) in rows {
        assert_eq!(rt; found.next(), row(*address, *file, *line, *end));
    }
    assert_eq!(rt; found.next(), None);
}

#[test]
fn rows_of_programs(rt: HostRuntime) {
    for &(version, numbers, address, instructions, rows) in &PROGRAMS {
        assert!(rt; numbers.len() < 100 && instructions.len() < 100 && rows.len() < 100);
        let bytes = program(rt.alloc(), version, numbers, A_C, instructions).expect(&rt, "memory");
        assert!(rt; bytes.len() < 1000);
        let sections = sections(&bytes, &[], &[]);
        let program = LineProgram::at(&sections, 0, 7, &shape(address)).expect(&rt, "a header");
        has_rows(&rt, &program, rows);
    }
}

/// Instructions with a fault after a row: one byte for the two of fixed_advance_pc; an extended instruction without a
/// byte, one that passes the end, an address of 3 bytes; numbers without an end, one that is missing, and one that is
/// too large.
const FAULTY: [&[u8]; 7] = [
    b"\x01\x09\x01",
    b"\x01\0\0\x01",
    b"\x01\0\x03\x01\x01",
    b"\x01\0\x04\x02\x01\x02\x03",
    b"\x01\x02\x80",
    b"\x01\x0d\x01",
    b"\x01\x04\xff\xff\xff\xff\xff\xff\xff\xff\xff\x7f\x01",
];

/// The program has one row, and its next one is a fault.
fn has_fault_after_a_row(rt: &impl Abort, program: &LineProgram<'_>, instructions: &[u8]) {
    let mut found = program.rows();
    assert_eq!(rt; found.next(), row(0, 1, 1, false));
    let fault = BadFile {
        fault: Fault::BadLine,
        offset: 1039,
    };
    assert_eq!(rt; found.next(), Some(Err(fault)), "{instructions:?}");
    assert_eq!(rt; found.next(), None);
}

#[test]
fn fault_behind_a_row(rt: HostRuntime) {
    for &instructions in &FAULTY {
        assert!(rt; instructions.len() < 100);
        let bytes = program(rt.alloc(), 4, PLAIN, A_C, instructions).expect(&rt, "memory");
        assert!(rt; bytes.len() < 1000);
        let sections = sections(&bytes, &[], &[]);
        let program = LineProgram::at(&sections, 0, 7, &shape(8)).expect(&rt, "a header");
        has_fault_after_a_row(&rt, &program, instructions);
    }
}

/// The paths of files 0 to 6, a space after each.
fn paths_of(alloc: Global, program: &LineProgram<'_>) -> Result<Vec<u8>, NoMemory> {
    let mut out = Vec::new(alloc);
    for number in 0..7 {
        program.path(number, &mut out)?;
        out.push(b' ')?;
    }
    Ok(out)
}

/// A version, the tables of a program, the strings of lines, and the paths of the program's files.
const PATHS: [(u8, &[u8], &[u8], &[u8]); 5] = [
    // Directories `inc` and `/abs`; files of directories 0, 1, 1, 2 and 9.
    (
        4,
        b"inc\0/abs\0\0a.c\0\0\0\0b.h\0\x01\0\0/x.h\0\x01\0\0c.h\0\x02\x80\x01\x05d.h\0\x09\0\0\0",
        b"",
        b"[Unknown file] a.c inc/b.h /x.h /abs/c.h d.h [Unknown file] ",
    ),
    // Directories `/w` and `inc`; files of directories 0 and 1.
    (
        5,
        b"\x01\x01\x08\x02/w\0inc\0\x02\x01\x08\x02\x0f\x02a.c\0\0b.h\0\x01",
        b"",
        b"a.c inc/b.h [Unknown file] [Unknown file] [Unknown file] [Unknown file] [Unknown file] ",
    ),
    // The same, with the values in another order: a digest of 16 bytes, the directory, the path in another
    // section, another path, a block of 2 bytes and another directory.
    (
        5,
        b"\x01\x01\x1f\x02\x04\0\0\0\x07\0\0\0\x06\x05\x1e\x02\x0b\x01\x1f\x01\x08\x03\x0a\x02\x0b\x020123456789abcdef\0\0\0\0\0no\0\x02xx\x010123456789abcdef\x01\x0b\0\0\0no\0\x02yy\0",
        b"a.c\0/w\0inc\0b.h\0",
        b"a.c inc/b.h [Unknown file] [Unknown file] [Unknown file] [Unknown file] [Unknown file] ",
    ),
    // Two directories without a path, and a file without a directory.
    (
        5,
        b"\0\x02\x01\x01\x08\x01a.c\0",
        b"",
        b"a.c [Unknown file] [Unknown file] [Unknown file] [Unknown file] [Unknown file] [Unknown file] ",
    ),
    // No version that is read.
    (
        6,
        b"\0a.c\0\0\0\0\0",
        b"",
        b"[Unknown file] [Unknown file] [Unknown file] [Unknown file] [Unknown file] [Unknown file] [Unknown file] ",
    ),
];

/// The program and a copy of a copy of it have these paths of files.
fn has_paths(rt: &impl Abort, alloc: Global, program: &LineProgram<'_>, paths: &[u8]) {
    let kept = program.kept(alloc).expect(rt, "memory");
    assert_eq!(rt;
        paths_of(alloc, program).expect(rt, "memory").as_slice(),
        paths
    );
    assert_eq!(rt;
        paths_of(alloc, &kept).expect(rt, "memory").as_slice(),
        paths
    );
    let again = kept.kept(alloc).expect(rt, "memory");
    assert_eq!(rt;
        paths_of(alloc, &again).expect(rt, "memory").as_slice(),
        paths
    );
}

#[test]
fn paths_of_files(rt: HostRuntime) {
    for &(version, tables, line_strings, paths) in &PATHS {
        assert!(rt; tables.len() < 200 && line_strings.len() < 100);
        let bytes = program(rt.alloc(), version, PLAIN, tables, b"").expect(&rt, "memory");
        assert!(rt; bytes.len() < 1000);
        let sections = sections(&bytes, &[], line_strings);
        let program = LineProgram::at(&sections, 0, 7, &shape(8)).expect(&rt, "a header");
        assert_eq!(rt; program.rows().next(), None);
        has_paths(&rt, rt.alloc(), &program, paths);
    }
}

/// The fault of the program at an offset.
fn fault_of(bytes: &[u8], offset: u64) -> Option<BadFile>
    requires { length bytes.now < 1000 }
{
    let sections = sections(bytes, b"", b"no end");
    LineProgram::at(&sections, offset, 7, &shape(8)).err()
}

/// The version of a program whose header has a fault, the numbers of the header, and the program's tables.
const BAD_HEADERS: [(u8, &[u8], &[u8]); 9] = [
    // No line_range, no opcode_base, no lengths of opcodes, a file that is cut.
    (4, b"\x01\x01\x01\xfb\0\x01", b"\0\0"),
    (4, b"\x01\x01\x01\xfb\x0e\0", b"\0\0"),
    (4, b"\x01\x01\x01\xfb\x0e\x0d", b"\0\0"),
    (4, PLAIN, b"\0a.c\0\0\0"),
    // More directories than bytes; a constant for a path; a form that isn't known; an offset outside, and
    // a string without an end.
    (5, PLAIN, b"\0\x80\x80\x80\x80\x80\x20\0\0"),
    (5, PLAIN, b"\x01\x01\x21\0\0\0"),
    (5, PLAIN, b"\x01\x01\x7f\x01\0\0\0"),
    (5, PLAIN, b"\x01\x01\x1f\x01\x06\0\0\0\0\0"),
    (5, PLAIN, b"\x01\x01\x1f\x01\0\0\0\0\0\0"),
];

#[test]
fn faults_of_headers(rt: HostRuntime) {
    let bad_line = BadFile {
        fault: Fault::BadLine,
        offset: 1000,
    };
    for &(version, numbers, tables) in &BAD_HEADERS {
        assert!(rt; numbers.len() < 100 && tables.len() < 100);
        let bytes = program(rt.alloc(), version, numbers, tables, b"").expect(&rt, "memory");
        assert!(rt; bytes.len() < 1000);
        assert_eq!(rt; fault_of(&bytes, 0), Some(bad_line), "{tables:?}");
    }
}

/// A version, and the tables of a program.
const CUT: [(u8, &[u8]); 3] = [
    (2, b"inc\0\0a.c\0\x01\0\0\0"),
    (4, b"inc\0\0a.c\0\x01\0\0\0"),
    (
        5,
        b"\x01\x01\x08\x02/w\0inc\0\x02\x01\x08\x02\x0f\x01a.c\0\x01",
    ),
];

#[test]
fn programs_that_are_cut(rt: HostRuntime) {
    for &(version, tables) in &CUT {
        assert!(rt; tables.len() < 100);
        let mut bytes = program(rt.alloc(), version, PLAIN, tables, b"").expect(&rt, "memory");
        assert!(rt; 20 < bytes.len() && bytes.len() < 200);
        assert_eq!(rt; fault_of(&bytes, 0), None);
        // The instructions begin before the tables.
        bytes[if version < 5 { 6 } else { 8 }] = 0;
        for len in 12..bytes.len() as u8 {
            bytes[0] = len - 4;
            let fault = BadFile {
                fault: Fault::BadLine,
                offset: 1000,
            };
            assert_eq!(rt; fault_of(&bytes, 0), Some(fault), "{len}");
        }
    }
}

/// A program with offsets of 8 bytes, one without a whole version, and one that the section cuts.
const SECTION: &[u8] =
    b"\xff\xff\xff\xff\x1a\0\0\0\0\0\0\0\x04\0\x0f\0\0\0\0\0\0\0\x02\0\x01\xfb\x0e\x01\0a.c\0\0\0\0\0\x01\x01\0\0\0\x04\x03\0\0\0\x04\0";

/// The offset of a program, and its fault.
const IN_SECTION: [(u64, Option<(Fault, u64)>); 5] = [
    (0, None),
    (38, None),
    (43, Some((Fault::BadUnit, 1043))),
    (46, Some((Fault::Truncated, 1046))),
    (49, Some((Fault::OffsetOutside, 7))),
];

#[test]
fn programs_in_their_section(rt: HostRuntime) {
    for &(offset, want) in &IN_SECTION {
        let want = want.map(|(fault, offset)| BadFile { fault, offset });
        assert_eq!(rt; fault_of(SECTION, offset), want, "{offset}");
    }
    let sections = sections(SECTION, b"", b"");
    let program = LineProgram::at(&sections, 0, 7, &shape(8)).expect(&rt, "a header");
    assert_eq!(rt; program.rows().next(), row(0, 1, 4294967292, false));
}
