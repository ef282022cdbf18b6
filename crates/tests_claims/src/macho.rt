//! The claims of Mach-O files: loads, sections, headers, link-edit parts, symbols and debug sections.

ghost use Rattle.std.specs.Prelude.{◌≡◌, ◌+◌, ◌^◌, ◌<◌, ◌≤◌, length};

use claim_sheet::{ClaimSheet, Stop, Wrap};
use macho_claims::{
    add_headers, add_lines, add_link_edit, add_loads, add_sections, add_symbols, add_units,
    debug_sections, load_at, load_slots, loads_of,
};
use macho_file::MachoFile;
use sample_files::{put, put_all};
use size_core::{BadFile, Fault, LabelPool, Side, Span};
use std::alloc::Global;
use std::process::Abort;

/// A claim: its side, its addresses, its bytes of the file, and its label.
type Row<'a> = (Side, (u64, u64), (u64, u64), &'a str);

const NONE: (u64, u64) = (0, 0);

fn is_span(span: Span, want: (u64, u64)) -> bool {
    span.space == 0 && (span.start, span.len) == want
}

/// The sheet's claims are these, in this order.
fn assert_made(rt: &impl Abort, mut pool: LabelPool, sheet: ClaimSheet, rows: &[Row<'_>]) {
    let Ok(claims) = sheet.finish(&mut pool) else {
        panic!(rt; "the claims are within the limit");
    };
    assert_eq!(rt; claims.len(), rows.len());
    for (claim, &(side, vm, file, label)) in claims.iter().zip(rows) {
        assert!(rt; claim.label < pool.len() && pool.get(claim.label) == label.as_bytes());
        assert_eq!(rt; claim.side, side);
        assert!(rt; is_span(claim.vm, vm) && is_span(claim.file, file));
    }
}

const PROGRAM_BYTES: [(usize, &[u8]); 18] = [
    (0, b"\xcf\xfa\xed\xfe"),
    (12, b"\x02\0\0\0\x04\0\0\0\x40\x01"),
    (32, b"\x19\0\0\0\x48\0\0\0__PAGEZERO"),
    (68, b"\x01"),
    (104, b"\x19\0\0\0\x98\0\0\0__TEXT"),
    (132, b"\x01\0\0\0\0\x10"),
    (153, b"\x10\0\0\0\0\0\0\x05\0\0\0\x05\0\0\0\x01"),
    (176, b"__text"),
    (192, b"__TEXT"),
    (209, b"\x08\0\0\x01\0\0\0\x10\0\0\0\0\0\0\0\0\x08"),
    (256, b"\x19\0\0\0\x48\0\0\0__LINKEDIT"),
    (
        281,
        b"\x10\0\0\x01\0\0\0\0\x10\0\0\0\0\0\0\0\x10\0\0\0\0\0\0\x38",
    ),
    (312, b"\x01\0\0\0\x01"),
    (
        328,
        b"\x02\0\0\0\x18\0\0\0\0\x10\0\0\x03\0\0\0\x30\x10\0\0\x08",
    ),
    (4096, b"\x04\0\0\0\x24\x01\0\0\x04\x08\0\0\x01"),
    (4112, b"\x01\0\0\0\x0f\x01\0\0\0\x08\0\0\x01"),
    (4128, b"\x04\0\0\0\x0f\x01\0\0\x0c\x08\0\0\x01"),
    (4144, b"\0_a\0_b"),
];

/// A file with a segment that is never mapped, one with a section, one after the file's tables, and three symbols.
/// The first symbol is for a debugger.
fn program() -> [u8; 4152] {
    let mut file = [0; 4152];
    put_all(&mut file, &PROGRAM_BYTES);
    file
}

#[test]
fn loads_of_a_program(rt: HostRuntime) {
    let file = program();
    let macho = MachoFile::parse(&file).expect(&rt, "a sound file");
    let loads = loads_of(rt.alloc(), &macho).expect(&rt, "memory");
    assert_eq!(rt; (load_slots(&macho), loads.len()), (3, 2));
    assert_eq!(rt; load_at(&macho, 1), Some(loads[0]));
}

const PROGRAM: [Row<'static>; 9] = [
    (Side::Vm, (0x1_0000_0800, 12), NONE, "_a"),
    (Side::Vm, (0x1_0000_080c, 4), NONE, "_b"),
    (
        Side::Both,
        (0x1_0000_0800, 16),
        (2048, 16),
        "[section __TEXT,__text]",
    ),
    (Side::File, NONE, (4096, 48), "[Symbol Table]"),
    (Side::File, NONE, (4144, 8), "[String Table]"),
    (Side::File, NONE, (0, 32), "[Mach-O Header]"),
    (Side::File, NONE, (32, 320), "[Mach-O Load Commands]"),
    (Side::Both, (0x1_0000_0000, 4096), (0, 4096), "[__TEXT]"),
    (
        Side::Both,
        (0x1_0000_1000, 4096),
        (4096, 56),
        "[__LINKEDIT]",
    ),
];

/// Adds the claims of a file's symbols, sections, parts and loads.
fn add_all(alloc: Global, macho: &MachoFile<'_>, sheet: &mut ClaimSheet) -> Result<(), Stop> {
    add_symbols(alloc, macho, sheet)?;
    add_sections(alloc, macho, Wrap::Section, sheet)?;
    add_link_edit(macho, sheet)?;
    add_headers(macho, sheet)?;
    add_loads(macho, Wrap::Brackets, sheet)?;
    Ok(())
}

#[test]
fn claims_of_a_program(rt: HostRuntime) {
    let alloc = rt.alloc();
    let file = program();
    let macho = MachoFile::parse(&file).expect(&rt, "a sound file");
    let mut pool = LabelPool::new(alloc);
    let mut sheet = ClaimSheet::begin(alloc, &mut pool, 100);
    add_all(alloc, &macho, &mut sheet).expect(&rt, "claims");
    assert_made(&rt, pool, sheet, &PROGRAM);
}

/// The first fault of a file or its symbols.
fn fault_of(alloc: Global, file: &[u8]) -> Option<BadFile>
    requires { length file.now < 2 ^ 32 }
{
    let macho = match MachoFile::parse(file) {
        Ok(macho) => macho,
        Err(bad) => return Some(bad),
    };
    let mut pool = LabelPool::new(alloc);
    let mut sheet = ClaimSheet::begin(alloc, &mut pool, 100);
    match add_symbols(alloc, &macho, &mut sheet) {
        Err(Stop::Bad(bad)) => Some(bad),
        _ => None,
    }
}

/// That of the program's first bytes.
fn fault_of_first(count: usize) -> BadFile {
    let (fault, offset) = match count {
        0..=3 => (Fault::UnknownFormat, 0),
        4..=31 => (Fault::Truncated, 0),
        32..=351 => (Fault::TablePastEnd, 32),
        352..=2063 => (Fault::SectionPastEnd, 176),
        _ => (Fault::TablePastEnd, 328),
    };
    BadFile { fault, offset }
}

#[test]
fn a_program_that_is_cut(rt: HostRuntime) {
    let alloc = rt.alloc();
    let file = program();
    for count in 0..file.len() {
        let fault = fault_of(alloc, &file[..count]);
        assert_eq!(rt; fault, Some(fault_of_first(count)), "{count}");
    }
    assert_eq!(rt; fault_of(alloc, &file), None);
}

const OBJECT_BYTES: [(usize, &[u8]); 10] = [
    (0, b"\xcf\xfa\xed\xfe"),
    (12, b"\x01\0\0\0\x01\0\0\0\xe8"),
    (32, b"\x19\0\0\0\xe8"),
    (
        64,
        b"\x18\0\0\0\0\0\0\0\x08\x01\0\0\0\0\0\0\x08\0\0\0\0\0\0\0\x07",
    ),
    (96, b"\x02"),
    (104, b"__text\0\0\0\0\0\0\0\0\0\0__TEXT"),
    (144, b"\x08\0\0\0\0\0\0\0\x08\x01"),
    (184, b"__bss\0\0\0\0\0\0\0\0\0\0\0__DATA"),
    (216, b"\x08\0\0\0\0\0\0\0\x10\0\0\0\0\0\0\0\x08\x01"),
    (248, b"\x01"),
];

/// An object: a segment without a name, a section with bytes in the file, and one that is filled with zeros.
fn object() -> [u8; 272] {
    let mut file = [0; 272];
    put_all(&mut file, &OBJECT_BYTES);
    file
}

const DEBUG_FILE_BYTES: [(usize, &[u8]); 11] = [
    (0, b"\xce\xfa\xed\xfe"),
    (12, b"\x0a\0\0\0\x02\0\0\0\xf8"),
    (28, b"\x01\0\0\0\x7c\0\0\0__TEXT"),
    (53, b"\x10\0\0\0\x10"),
    (68, b"\x05\0\0\0\x05\0\0\0\x01"),
    (84, b"__text\0\0\0\0\0\0\0\0\0\0__TEXT"),
    (117, b"\x10\0\0\x10\0\0\0\0\x10"),
    (152, b"\x01\0\0\0\x7c\0\0\0__DWARF"),
    (
        177,
        b"\x20\0\0\0\x10\0\0\x14\x01\0\0\x04\0\0\0\x07\0\0\0\x07\0\0\0\x01",
    ),
    (208, b"__debug_info\0\0\0\0__DWARF"),
    (241, b"\x20\0\0\x04\0\0\0\x14\x01"),
];

/// A file of 32 bits with debug information: the bytes of `__text` are in another file.
fn debug_file() -> [u8; 280] {
    let mut file = [0; 280];
    put_all(&mut file, &DEBUG_FILE_BYTES);
    file
}

/// Adds the claims of a file's loads and sections.
fn add_sections_of(rt: &impl Abort, alloc: Global, file: &[u8], sheet: &mut ClaimSheet)
    requires { length file.now < 2 ^ 32 }
{
    let macho = MachoFile::parse(file).expect(rt, "a sound file");
    add_loads(&macho, Wrap::Plain, sheet).expect(rt, "loads");
    add_sections(alloc, &macho, Wrap::Plain, sheet).expect(rt, "sections");
}

const SECTIONS: [Row<'static>; 7] = [
    (Side::Both, (0, 24), (264, 8), "[Unnamed segment]"),
    (Side::Both, (0, 8), (264, 8), "__TEXT,__text"),
    (Side::Vm, (8, 16), NONE, "__DATA,__bss"),
    (Side::Both, (0x1000, 0x1000), NONE, "__TEXT"),
    (Side::Both, (0x2000, 0x1000), (276, 4), "__DWARF"),
    (Side::Vm, (0x1000, 16), NONE, "__TEXT,__text"),
    (Side::Both, (0x2000, 4), (276, 4), "__DWARF,__debug_info"),
];

#[test]
fn sections_in_the_file_and_not(rt: HostRuntime) {
    let alloc = rt.alloc();
    let mut pool = LabelPool::new(alloc);
    let mut sheet = ClaimSheet::begin(alloc, &mut pool, 100);
    add_sections_of(&rt, alloc, &object(), &mut sheet);
    add_sections_of(&rt, alloc, &debug_file(), &mut sheet);
    assert_made(&rt, pool, sheet, &SECTIONS);
}

const LIBRARY_BYTES: [(usize, &[u8]); 7] = [
    (0, b"\xcf\xfa\xed\xfe"),
    (12, b"\x06\0\0\0\x03\0\0\0\x90"),
    (
        32,
        b"\x22\0\0\x80\x30\0\0\0\xb0\0\0\0\x08\0\0\0\xb8\0\0\0\x08",
    ),
    (64, b"\xc0\0\0\0\x08\0\0\0\xc8\0\0\0\x08"),
    (80, b"\x0b\0\0\0\x50"),
    (136, b"\xd0\0\0\0\x02"),
    (160, b"\x1d\0\0\0\x10\0\0\0\xf0\0\0\0\x40"),
];

/// A library with link-edit parts. The last part passes the file's end.
fn library() -> [u8; 256] {
    let mut file = [0; 256];
    put_all(&mut file, &LIBRARY_BYTES);
    file
}

const LIBRARY: [Row<'static>; 6] = [
    (Side::File, NONE, (176, 8), "[Rebase Info]"),
    (Side::File, NONE, (184, 8), "[Binding Info]"),
    (Side::File, NONE, (192, 8), "[Lazy Binding Info]"),
    (Side::File, NONE, (200, 8), "[Export Info]"),
    (Side::File, NONE, (208, 8), "[Indirect Symbols]"),
    (Side::File, NONE, (240, 16), "[Code Signature]"),
];

#[test]
fn parts_of_a_library(rt: HostRuntime) {
    let alloc = rt.alloc();
    let file = library();
    let macho = MachoFile::parse(&file).expect(&rt, "a sound file");
    let mut pool = LabelPool::new(alloc);
    let mut sheet = ClaimSheet::begin(alloc, &mut pool, 100);
    add_link_edit(&macho, &mut sheet).expect(&rt, "parts");
    add_symbols(alloc, &macho, &mut sheet).expect(&rt, "symbols");
    assert_made(&rt, pool, sheet, &LIBRARY);
}

const UNMAPPED_BYTES: [(usize, &[u8]); 4] = [
    (0, b"\xfe\xed\xfa\xce"),
    (15, b"\x02\0\0\0\x01\0\0\0\x38"),
    (31, b"\x01\0\0\0\x38__ZERO"),
    (58, b"\x10"),
];

/// A big-endian file of 32 bits, whose one segment is never mapped.
fn unmapped() -> [u8; 84] {
    let mut file = [0; 84];
    put_all(&mut file, &UNMAPPED_BYTES);
    file
}

const UNMAPPED: [Row<'static>; 2] = [
    (Side::File, NONE, (0, 28), "[Mach-O Header]"),
    (Side::File, NONE, (28, 56), "[Mach-O Load Commands]"),
];

#[test]
fn a_segment_that_is_never_mapped(rt: HostRuntime) {
    let alloc = rt.alloc();
    let file = unmapped();
    let macho = MachoFile::parse(&file).expect(&rt, "a sound file");
    assert_eq!(rt; load_slots(&macho), 1);
    assert_eq!(rt; load_at(&macho, 0), None);
    let mut pool = LabelPool::new(alloc);
    let mut sheet = ClaimSheet::begin(alloc, &mut pool, 100);
    add_loads(&macho, Wrap::Plain, &mut sheet).expect(&rt, "loads");
    add_headers(&macho, &mut sheet).expect(&rt, "headers");
    assert_made(&rt, pool, sheet, &UNMAPPED);
}

const UNIT_FILE_BYTES: [(usize, &[u8]); 9] = [
    (0, b"\xce\xfa\xed\xfe"),
    (12, b"\x0a\0\0\0\x01\0\0\0\xc0"),
    (28, b"\x01\0\0\0\xc0\0\0\0__DWARF"),
    (76, b"\x02"),
    (84, b"__debug_info\0\0\0\0__DWARF"),
    (120, b"\x0c\0\0\0\xdc"),
    (152, b"__debug_abbrev\0\0__DWARF"),
    (188, b"\x01\0\0\0\xe8"),
    (220, b"\x08\0\0\0\x04\0\0\0\0\0\x04"),
];

/// A file of debug information of 32 bits: `__debug_info` at 220, of one unit without a name, and `__debug_abbrev` at
/// 232.
fn unit_file() -> [u8; 233] {
    let mut file = [0; 233];
    put_all(&mut file, &UNIT_FILE_BYTES);
    file
}

#[test]
fn debug_sections_by_their_names(rt: HostRuntime) {
    let file = unit_file();
    let macho = MachoFile::parse(&file).expect(&rt, "a sound file");
    let sections = debug_sections(&macho).expect(&rt, "debug sections");
    assert_eq!(rt; (sections.info.place(), sections.info.left()), (220, 12));
    assert_eq!(rt; (sections.abbrev.place(), sections.abbrev.left()), (232, 1));
    assert_eq!(rt; (sections.lines.place(), sections.lines.left()), (0, 0));
}

const UNITS: [Row<'static>; 2] = [
    (Side::File, NONE, (220, 12), "[Unnamed unit]"),
    (Side::File, NONE, (232, 1), "[Unnamed unit]"),
];

#[test]
fn units_of_a_debug_file(rt: HostRuntime) {
    let alloc = rt.alloc();
    let file = unit_file();
    let macho = MachoFile::parse(&file).expect(&rt, "a sound file");
    let mut pool = LabelPool::new(alloc);
    let mut sheet = ClaimSheet::begin(alloc, &mut pool, 100);
    add_units(alloc, &macho, &mut sheet).expect(&rt, "units");
    add_lines(alloc, &macho, &mut sheet).expect(&rt, "lines");
    assert_made(&rt, pool, sheet, &UNITS);
}

#[test]
fn debug_sections_of_an_object_are_not_read(rt: HostRuntime) {
    let alloc = rt.alloc();
    let mut file = unit_file();
    put(&mut file, 12, b"\x01");
    let macho = MachoFile::parse(&file).expect(&rt, "a sound file");
    let mut pool = LabelPool::new(alloc);
    let mut sheet = ClaimSheet::begin(alloc, &mut pool, 100);
    let bad = BadFile {
        fault: Fault::SourceNotForFile,
        offset: 0,
    };
    assert_eq!(rt; add_units(alloc, &macho, &mut sheet), Err(Stop::Bad(bad)));
    assert_eq!(rt; add_lines(alloc, &macho, &mut sheet), Err(Stop::Bad(bad)));
}
