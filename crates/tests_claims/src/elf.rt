//! The claims of ELF files: loads, sections, headers, symbols and debug sections.

ghost use Rattle.std.specs.Prelude.{◌≡◌, ◌+◌, ◌≤◌, length};

use claim_sheet::{ClaimSheet, Stop, Wrap};
use elf_claims::{
    add_headers, add_lines, add_loads, add_sections, add_symbols, add_units, debug_sections,
    load_at, load_slots,
};
use elf_file::ElfFile;
use sample_files::{put, put_all};
use size_core::{BadFile, Claim, Fault, LabelPool, Load, Side, Span};
use std::alloc::Global;
use std::process::Abort;

const PLAIN_FILE_BYTES: [(usize, &[u8]); 15] = [
    (0, b"\x7fELF\x02\x01\x01"),
    (16, b"\x02\0\x3e\0"),
    (32, b"\x40\0\0\0\0\0\0\0\xb8"),
    (52, b"\x40\0\x38\0\x01\0\x40\0\x04\0\x03"),
    (64, b"\x01\0\0\0\x07"),
    (80, b"\0\0\x40"),
    (96, b"\x40\0\0\0\0\0\0\0\x50"),
    (144, b"\x01\0\0\0\x12\0\x01\0\x04\0\x40\0\0\0\0\0\x08"),
    (168, b"\0f\0.text"),
    (248, b"\x03\0\0\0\x01\0\0\0\x06"),
    (264, b"\0\0\x40\0\0\0\0\0\0\0\0\0\0\0\0\0\x10"),
    (316, b"\x02"),
    (336, b"\x78\0\0\0\0\0\0\0\x30\0\0\0\0\0\0\0\x03"),
    (380, b"\x03"),
    (400, b"\xa8\0\0\0\0\0\0\0\x09"),
];

/// One load, the section `.text`, and a symbol table whose second symbol, at 144, is the function `f`.
fn plain_file() -> [u8; 440] {
    let mut file = [0; 440];
    put_all(&mut file, &PLAIN_FILE_BYTES);
    file
}

#[test]
fn loads_of_a_plain_file(rt: HostRuntime) {
    let file = plain_file();
    let elf = ElfFile::parse(&file).expect(&rt, "a sound file");
    assert_eq!(rt; load_slots(&elf), 1);
    let load = Load {
        space: 0,
        vaddr: 0x400000,
        memsz: 80,
        offset: 0,
        filesz: 64,
    };
    assert_eq!(rt; load_at(&elf, 0), Some(load));
}

/// Adds the claims of a file's loads, sections, headers and symbols.
fn add_all(alloc: Global, elf: &ElfFile<'_>, sheet: &mut ClaimSheet) -> Result<(), Stop> {
    add_loads(alloc, elf, Wrap::Plain, sheet)?;
    add_sections(elf, Wrap::Section, sheet)?;
    add_headers(elf, sheet)?;
    add_symbols(alloc, elf, sheet)?;
    Ok(())
}

const LABELS: [&str; 7] = [
    "LOAD #0 [RWX]",
    "[section .text]",
    "[section [Unnamed section]]",
    "[ELF Header]",
    "[ELF Program Headers]",
    "[ELF Section Headers]",
    "f",
];

/// The pool's first labels are these.
fn assert_labels(rt: &impl Abort, pool: &LabelPool) {
    for (label, &want) in LABELS.iter().enumerate() {
        assert!(rt; label < pool.len() && pool.get(label) == want.as_bytes());
    }
}

const SYMBOL: Claim = Claim {
    side: Side::Vm,
    vm: Span {
        space: 0,
        start: 0x400004,
        len: 8,
    },
    file: Span {
        space: 0,
        start: 0,
        len: 0,
    },
    label: 6,
};

#[test]
fn groups_of_a_plain_file(rt: HostRuntime) {
    let alloc = rt.alloc();
    let file = plain_file();
    let elf = ElfFile::parse(&file).expect(&rt, "a sound file");
    let mut pool = LabelPool::new(alloc);
    let mut sheet = ClaimSheet::begin(alloc, &mut pool, 100);
    add_all(alloc, &elf, &mut sheet).expect(&rt, "claims");
    let claims = sheet
        .finish(&mut pool)
        .expect(&rt, "eight claims are within the limit");
    assert_labels(&rt, &pool);
    assert_eq!(rt; claims.len(), 8);
    assert_eq!(rt; claims[7], SYMBOL);
}

/// Whether the function's symbol claims bytes if these bytes are written over those of the plain file.
fn claims_symbol(rt: &impl Abort, alloc: Global, at: usize, bytes: &[u8]) -> bool {
    assert!(rt; at < 400 && bytes.len() < 4);
    let mut file = plain_file();
    put(&mut file, at, bytes);
    let elf = ElfFile::parse(&file).expect(rt, "a sound file");
    let mut pool = LabelPool::new(alloc);
    let mut sheet = ClaimSheet::begin(alloc, &mut pool, 100);
    add_symbols(alloc, &elf, &mut sheet).expect(rt, "symbols");
    let claims = sheet
        .finish(&mut pool)
        .expect(rt, "a claim is within the limit");
    !claims.is_empty()
}

/// What is written over which bytes, and whether the function's symbol still claims bytes.
const SYMBOLS: [(usize, &[u8], bool); 7] = [
    // Of types STT_NOTYPE, STT_OBJECT, STT_GNU_IFUNC and STT_SECTION.
    (148, b"\x10", true),
    (148, b"\x11", true),
    (148, b"\x1a", true),
    (148, b"\x13", false),
    // In a table of type SHT_DYNSYM.
    (316, b"\x0b", true),
    // In the last section that isn't reserved, and in the first that is.
    (150, b"\xff\xfe", true),
    (150, b"\0\xff", false),
];

#[test]
fn symbols_that_claim_bytes(rt: HostRuntime) {
    let alloc = rt.alloc();
    for &(at, bytes, is_claim) in &SYMBOLS {
        let claims = claims_symbol(&rt, alloc, at, bytes);
        assert_eq!(rt; claims, is_claim, "{bytes:?} at {at}");
    }
}

#[test]
fn a_fault_past_the_limit_is_found(rt: HostRuntime) {
    let alloc = rt.alloc();
    let mut file = plain_file();
    // The function's name has no end.
    put(&mut file, 144, b"\x09");
    let elf = ElfFile::parse(&file).expect(&rt, "a sound file");
    let mut pool = LabelPool::new(alloc);
    let mut sheet = ClaimSheet::begin(alloc, &mut pool, 0);
    add_headers(&elf, &mut sheet).expect(&rt, "headers");
    let bad = BadFile {
        fault: Fault::NameOutside,
        offset: 144,
    };
    assert_eq!(rt; add_symbols(alloc, &elf, &mut sheet), Err(Stop::Bad(bad)));
    assert!(rt; sheet.finish(&mut pool).is_err());
    assert_eq!(rt; pool.len(), 0);
}

const DEBUG_FILE_BYTES: [(usize, &[u8]); 12] = [
    (0, b"\x7fELF\x02\x01\x01"),
    (16, b"\x02\0\x3e"),
    (40, b"\xc0"),
    (58, b"\x40\0\x04\0\x03"),
    (64, b"\x08\0\0\0\x04\0\0\0\0\0\x04"),
    (80, b"\0.debug_info\0.debug_abbrev"),
    (256, b"\x01\0\0\0\x01"),
    (280, b"\x40\0\0\0\0\0\0\0\x0c"),
    (320, b"\x0d\0\0\0\x01"),
    (344, b"\x4c\0\0\0\0\0\0\0\x01"),
    (388, b"\x03"),
    (408, b"\x50\0\0\0\0\0\0\0\x1b"),
];

/// A file whose sections are `.debug_info` at 64, of one unit without a name, `.debug_abbrev` at 76, and names. The
/// headers of the first two are at 256 and 320.
fn debug_file() -> [u8; 448] {
    let mut file = [0; 448];
    put_all(&mut file, &DEBUG_FILE_BYTES);
    file
}

#[test]
fn debug_sections_by_their_names(rt: HostRuntime) {
    let file = debug_file();
    let elf = ElfFile::parse(&file).expect(&rt, "a sound file");
    let sections = debug_sections(&elf).expect(&rt, "debug sections");
    assert_eq!(rt; (sections.info.place(), sections.info.left()), (64, 12));
    assert_eq!(rt; (sections.abbrev.place(), sections.abbrev.left()), (76, 1));
    assert_eq!(rt; (sections.lines.place(), sections.lines.left()), (0, 0));
}

#[test]
fn units_of_a_debug_file(rt: HostRuntime) {
    let alloc = rt.alloc();
    let file = debug_file();
    let elf = ElfFile::parse(&file).expect(&rt, "a sound file");
    let mut pool = LabelPool::new(alloc);
    let mut sheet = ClaimSheet::begin(alloc, &mut pool, 100);
    add_units(alloc, &elf, &mut sheet).expect(&rt, "units");
    add_lines(alloc, &elf, &mut sheet).expect(&rt, "lines");
    let claims = sheet
        .finish(&mut pool)
        .expect(&rt, "two claims are within the limit");
    assert_eq!(rt; claims.len(), 2);
    assert!(rt; pool.len() == 1 && pool.get(0) == b"[Unnamed unit]".as_slice());
}

/// The debug sections aren't read, for this fault, if these bytes are written over those of the debug file.
fn assert_not_read(rt: &impl Abort, alloc: Global, at: usize, bytes: &[u8], bad: BadFile) {
    assert!(rt; at < 300 && bytes.len() < 20);
    let mut file = debug_file();
    put(&mut file, at, bytes);
    let elf = ElfFile::parse(&file).expect(rt, "a sound file");
    let mut pool = LabelPool::new(alloc);
    let mut sheet = ClaimSheet::begin(alloc, &mut pool, 0);
    assert_eq!(rt; add_units(alloc, &elf, &mut sheet), Err(Stop::Bad(bad)));
    assert_eq!(rt; add_lines(alloc, &elf, &mut sheet), Err(Stop::Bad(bad)));
}

/// What is written over which bytes, and the fault with its offset.
const UNREAD: [(usize, &[u8], Fault, u64); 3] = [
    // SHF_COMPRESSED, the older name for a compressed section, and a relocatable file.
    (264, b"\0\x08", Fault::CompressedDebugInfo, 256),
    (93, b".zdebug_line\0", Fault::CompressedDebugInfo, 320),
    (16, b"\x01", Fault::SourceNotForFile, 0),
];

#[test]
fn compressed_debug_sections_are_not_read(rt: HostRuntime) {
    let alloc = rt.alloc();
    for &(at, bytes, fault, offset) in &UNREAD {
        assert_not_read(&rt, alloc, at, bytes, BadFile { fault, offset });
    }
}
