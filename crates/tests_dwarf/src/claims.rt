//! The claims of compile units and of source lines.

ghost use Rattle.std.specs.Prelude.{◌<◌, length};

use byte_cursor::{Cursor, Order};
use claim_sheet::{ClaimSheet, Stop};
use dwarf_claims::{add_lines, add_units};
use dwarf_units::Sections;
use size_core::{BadFile, Claim, Fault, LabelPool, Side, Span};
use std::alloc::Global;
use std::process::Abort;

/// A unit of DWARF 4, of 28 bytes: `a.c`, from 0x1000 on, 0x20 bytes, and the line program at 0.
const UNIT_4: &[u8] = b"\x18\0\0\0\x04\0\0\0\0\0\x04\x01a.c\0\0\x10\0\0\x20\0\0\0\0\0\0\0";

const DECLARED_4: &[u8] = b"\x01\x11\0\x03\x08\x11\x01\x12\x06\x10\x17\0\0\0";

/// The same of DWARF 5, of 16 bytes and without a line program, by indexes: of a string, an address and a list.
const UNIT_5: &[u8] = b"\x0c\0\0\0\x05\0\x01\x04\0\0\0\0\x01\0\0\0";

const DECLARED_5: &[u8] = b"\x01\x11\0\x03\x25\x11\x1b\x55\x23\0\0\0";

/// Two units of DWARF 4, of 12 bytes each: one without a name, and one whose code isn't declared.
const UNIT_OF_NO_NAME: &[u8] = b"\x08\0\0\0\x04\0\0\0\0\0\x04\0";

const UNIT_OF_NO_CODE: &[u8] = b"\x08\0\0\0\x04\0\0\0\0\0\x04\x09";

/// Two equal units of DWARF 4, of 22 bytes each, which have the string `x`, and 0x20 bytes from 0x1000 on.
const TWO_UNITS: &[u8] =
    b"\x12\0\0\0\x04\0\0\0\0\0\x04\x01x\0\0\x10\0\0\x20\0\0\0\x12\0\0\0\x04\0\0\0\0\0\x04\x01x\0\0\x10\0\0\x20\0\0\0";

/// Code 1 has a name that is a flag without bytes, and the string is its second name. Its next attribute is unknown and has
/// no bytes, too. It is declared again with no attributes. Both are 21 bytes with the end of the table.
const DECLARED_TWICE: &[u8] =
    b"\x01\x11\0\x03\x19\x03\x08\x7f\x19\x11\x01\x12\x06\0\0\x01\x11\0\0\0\0";

/// A set of the unit at 0, of 40 bytes: the addresses from 0x1000 on, 0x20 bytes, and those from 0 on, 5 bytes; and one
/// of a unit at 5, of 16 bytes.
const SETS: &[u8] =
    b"\x24\0\0\0\x02\0\0\0\0\0\x04\0pppp\0\x10\0\0\x20\0\0\0\0\0\0\0\x05\0\0\0\0\0\0\0\0\0\0\0\x0c\0\0\0\x02\0\x05\0\0\0\x04\0pppp";

/// A line program of a version that isn't read, of 6 bytes.
const NO_ROWS: &[u8] = b"\x02\0\0\0\x07\0";

/// A unit of DWARF 4 with 8 bytes an address, whose line program is at 0.
const UNIT_OF_LINES: &[u8] = b"\x0c\0\0\0\x04\0\0\0\0\0\x08\x01\0\0\0\0";

const DECLARED_OF_LINES: &[u8] = b"\x01\x11\0\x10\x17\0\0\0";

/// A line program of DWARF 4 with 4 bytes an instruction of 2 operations, lines from -3 on, 12 of them, and the file
/// `a.c`. Its instructions are set_address 0x1000, copy, const_add_pc, special 32 twice, advance_pc 2, end_sequence;
/// and set_address 0, copy, advance_pc 8, end_sequence.
const OPERATIONS: &[u8] =
    b"\x46\0\0\0\x04\0\x1b\0\0\0\x04\x02\x01\xfd\x0c\x0d\0\x01\x01\x01\x01\0\0\0\x01\0\0\x01\0a.c\0\0\0\0\0\0\x09\x02\0\x10\0\0\0\0\0\0\x01\x08\x20\x20\x02\x02\0\x01\x01\0\x09\x02\0\0\0\0\0\0\0\0\x01\x02\x08\0\x01\x01";

/// A plain one. Its instructions are set_address 0x2000, advance_line 2, copy, advance_line 1, copy, advance_pc 8,
/// end_sequence; and set_address 0x1000, set_file 9, advance_line 2, copy, advance_pc 4, end_sequence.
const TWO_FILES: &[u8] =
    b"\x4c\0\0\0\x04\0\x1b\0\0\0\x01\x01\x01\xfb\x0e\x0d\0\x01\x01\x01\x01\0\0\0\x01\0\0\x01\0a.c\0\0\0\0\0\0\x09\x02\0\x20\0\0\0\0\0\0\x03\x02\x01\x03\x01\x01\x02\x08\0\x01\x01\0\x09\x02\0\x10\0\0\0\0\0\0\x04\x09\x03\x02\x01\x02\x04\0\x01\x01";

/// Sections with these bytes at the file offsets 1,000, 2,000, 4,000 and 5,000. The other sections are fixed.
fn sections<'a>(info: &'a [u8], declared: &'a [u8], sets: &'a [u8], lines: &'a [u8]) -> Sections<'a>
    requires info { length info.now < 1000 }
    requires declared { length declared.now < 1000 }
    requires sets { length sets.now < 1000 }
    requires lines { length lines.now < 1000 }
{
    Sections {
        order: Order::Little,
        info: Cursor::new(1000, info),
        abbrev: Cursor::new(2000, declared),
        strings: Cursor::new(3000, b"a.c\0"),
        line_strings: Cursor::new(0, b""),
        str_offsets: Cursor::new(6000, b"hhhhhhhh\0\0\0\0"),
        addresses: Cursor::new(7000, b"hhhhhhhh\0\x10\0\0"),
        ranges: Cursor::new(0, b""),
        rnglists: Cursor::new(8000, b"hhhhhhhhhhhh\x04\0\0\0\x03\0\x20\0"),
        aranges: Cursor::new(4000, sets),
        lines: Cursor::new(5000, lines),
    }
}

/// The side of a claim, and where it begins and how long it is there.
fn told(claim: &Claim) -> (Side, u64, u64) {
    let Span { start, len, .. } = if claim.side == Side::File {
        claim.file
    } else {
        claim.vm
    };
    (claim.side, start, len)
}

/// Sections of units, of what they declare and of sets; the label of all claims on them, and the claims.
type Claimed<'a> = (
    &'a [u8],
    &'a [u8],
    &'a [u8],
    &'a [u8],
    &'a [(Side, u64, u64)],
);

const CLAIMED: [Claimed<'static>; 4] = [
    (
        UNIT_4,
        DECLARED_4,
        SETS,
        b"a.c",
        &[
            (Side::Vm, 0x1000, 0x20),
            (Side::File, 1000, 28),
            (Side::File, 2000, 14),
            (Side::File, 5000, 6),
            (Side::Vm, 0x1000, 0x20),
            (Side::File, 4000, 40),
        ],
    ),
    (
        UNIT_5,
        DECLARED_5,
        b"",
        b"a.c",
        &[
            (Side::Vm, 0x1000, 0x20),
            (Side::File, 1000, 16),
            (Side::File, 2000, 12),
        ],
    ),
    (
        UNIT_OF_NO_NAME,
        b"\0",
        b"",
        b"[Unnamed unit]",
        &[(Side::File, 1000, 12), (Side::File, 2000, 1)],
    ),
    (
        TWO_UNITS,
        DECLARED_TWICE,
        b"",
        b"[Unnamed unit]",
        &[
            (Side::Vm, 0x1000, 0x20),
            (Side::File, 1000, 22),
            (Side::File, 2000, 21),
            (Side::Vm, 0x1000, 0x20),
            (Side::File, 1022, 22),
            (Side::File, 2000, 21),
        ],
    ),
];

/// The claims are these, in this order.
fn are_told(rt: &impl Abort, claims: &[Claim], want: &[(Side, u64, u64)]) {
    assert_eq!(rt; claims.len(), want.len());
    for (claim, want) in claims.iter().zip(want) {
        assert_eq!(rt; told(claim), *want);
    }
}

/// The units and the sets of these sections make claims with one label.
fn units_and_sets_claim(
    rt: &impl Abort,
    alloc: Global,
    sections: &Sections<'_>,
    label: &[u8],
    want: &[(Side, u64, u64)],
) {
    let mut pool = LabelPool::new(alloc);
    let mut sheet = ClaimSheet::begin(alloc, &mut pool, 100);
    add_units(alloc, sections, &mut sheet).expect(rt, "units");
    let claims = sheet
        .finish(&mut pool)
        .expect(rt, "six claims are within the limit");
    assert!(rt; pool.len() == 1 && pool.get(0) == label);
    are_told(rt, &claims, want);
}

#[test]
fn claims_of_units_and_sets(rt: HostRuntime) {
    for &(info, declared, sets, label, want) in &CLAIMED {
        assert!(rt; info.len() < 100 && declared.len() < 100 && sets.len() < 100);
        let sections = sections(info, declared, sets, NO_ROWS);
        units_and_sets_claim(&rt, rt.alloc(), &sections, label, want);
    }
}

/// A unit, and the first fault with its offset.
const UNIT_FAULTS: [(&[u8], Fault, u64); 2] = [
    (UNIT_OF_NO_CODE, Fault::BadAbbrev, 1000),
    (UNIT_OF_NO_NAME, Fault::Truncated, 4000),
];

#[test]
fn a_fault_of_a_unit_is_told_before_that_of_a_set(rt: HostRuntime) {
    let alloc = rt.alloc();
    for &(info, fault, offset) in &UNIT_FAULTS {
        assert!(rt; info.len() < 100);
        let sections = sections(info, b"\0", b"\x0c\0", NO_ROWS);
        let mut pool = LabelPool::new(alloc);
        let mut sheet = ClaimSheet::begin(alloc, &mut pool, 0);
        let bad = BadFile { fault, offset };
        assert_eq!(rt;
            add_units(alloc, &sections, &mut sheet),
            Err(Stop::Bad(bad))
        );
    }
}

/// A line program, the labels of the claims on its rows, and the claims.
const LINES: [(&[u8], &[u8], &[(Side, u64, u64)]); 3] = [
    (
        OPERATIONS,
        b"a.c:1, a.c:5, a.c:9, ",
        &[
            (Side::Vm, 0x1000, 0x28),
            (Side::Vm, 0x1028, 4),
            (Side::Vm, 0x102c, 4),
        ],
    ),
    (
        TWO_FILES,
        b"a.c:4, [Unknown file]:3, ",
        &[(Side::Vm, 0x2000, 8), (Side::Vm, 0x1000, 4)],
    ),
    (NO_ROWS, b"", &[]),
];

/// The labels of the claims, with `, ` after each.
fn labels_of(rt: &impl Abort, alloc: Global, pool: &LabelPool, claims: &[Claim]) -> Vec<u8> {
    let mut text = Vec::new(alloc);
    for claim in claims {
        assert!(rt; claim.label < pool.len());
        text.extend_from_slice(pool.get(claim.label))
            .expect(rt, "memory");
        text.extend_from_slice(b", ").expect(rt, "memory");
    }
    text
}

/// The lines of these sections make claims with these labels.
fn lines_claim(
    rt: &impl Abort,
    alloc: Global,
    sections: &Sections<'_>,
    labels: &[u8],
    want: &[(Side, u64, u64)],
) {
    let mut pool = LabelPool::new(alloc);
    let mut sheet = ClaimSheet::begin(alloc, &mut pool, 100);
    add_lines(alloc, sections, &mut sheet).expect(rt, "lines");
    let claims = sheet
        .finish(&mut pool)
        .expect(rt, "three claims are within the limit");
    are_told(rt, &claims, want);
    let text = labels_of(rt, alloc, &pool, &claims);
    assert!(rt; text.as_slice() == labels);
}

#[test]
fn claims_of_lines(rt: HostRuntime) {
    for &(program, labels, want) in &LINES {
        assert!(rt; program.len() < 100);
        let sections = sections(UNIT_OF_LINES, DECLARED_OF_LINES, b"", program);
        lines_claim(&rt, rt.alloc(), &sections, labels, want);
    }
}
