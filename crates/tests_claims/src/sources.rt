//! The data sources over a file of each format, and over a debug file.

ghost use Rattle.std.specs.Prelude.{◌≡◌, ◌+◌, ◌≤◌, length};

use data_sources::{
    Binary, ClaimAnswer, claims, debug_claims, load_at, load_slots, loads_of, open_binary,
};
use sample_files::{put, put_all};
use size_core::{BadFile, Fault, LabelPool, Load, Side, Source, Span};
use std::alloc::Global;
use std::process::Abort;

const ONE_LOAD_BYTES: [(usize, &[u8]); 7] = [
    (0, b"\x7fELF\x02\x01\x01"),
    (16, b"\x02\0\x3e"),
    (32, b"\x40"),
    (54, b"\x38\0\x01"),
    (64, b"\x01\0\0\0\x04"),
    (80, b"\0\0\x40"),
    (96, b"\x78\0\0\0\0\0\0\0\x78"),
];

/// An ELF file of a header and one load of the whole of it, which can be read alone.
fn one_load() -> [u8; 120] {
    let mut file = [0; 120];
    put_all(&mut file, &ONE_LOAD_BYTES);
    file
}

// The first bytes of files, and the fault at offset 0.
const FORMATS: [(&[u8], Fault); 13] = [
    (b"", Fault::UnknownFormat),
    (b"\x7fEL", Fault::UnknownFormat),
    (b"!<arch>\nx", Fault::Archive),
    (b"!<thin>\n", Fault::Archive),
    (b"!<arch>", Fault::UnknownFormat),
    (b"\xca\xfe\xba\xbe", Fault::Universal),
    (b"\xca\xfe\xba\xbf\0", Fault::Universal),
    (b"\x7fELF", Fault::Truncated),
    (b"\xce\xfa\xed\xfe", Fault::Truncated),
    (b"\xcf\xfa\xed\xfe", Fault::Truncated),
    (b"\xfe\xed\xfa\xce", Fault::Truncated),
    (b"\xfe\xed\xfa\xcf", Fault::Truncated),
    (b"\xcf\xfa\xed", Fault::UnknownFormat),
];

#[test]
fn first_bytes_name_the_format(rt: HostRuntime) {
    for &(file, fault) in &FORMATS {
        assert!(rt; file.len() < 10);
        let bad = BadFile { fault, offset: 0 };
        assert_eq!(rt; open_binary(file).err(), Some(bad), "{file:?}");
    }
}

// A data source, how many claims it makes of a file, and its first label.
type Offered<'a> = (Source, usize, &'a [u8]);

/// A data source makes these claims, and no more are allowed. The labels of the claims.
fn has_claims(
    rt: &impl Abort,
    alloc: Global,
    binary: &Binary<'_>,
    name: &[u8],
    &(source, count, label): &Offered<'_>,
) -> LabelPool {
    let mut pool = LabelPool::new(alloc);
    let made = claims(alloc, binary, source, name, &mut pool, count as u64).expect(rt, "claims");
    assert_eq!(rt; made.len(), count);
    assert!(rt; pool.len() > 0 && pool.get(0) == label);
    pool
}

/// A data source makes more than one claim.
fn has_many(rt: &impl Abort, alloc: Global, binary: &Binary<'_>, source: Source) {
    let mut pool = LabelPool::new(alloc);
    let few = claims(alloc, binary, source, b"a.elf", &mut pool, 1);
    assert_eq!(rt; few.err(), Some(ClaimAnswer::TooManyClaims));
}

const LOAD: Load = Load {
    space: 0,
    vaddr: 0x400000,
    memsz: 120,
    offset: 0,
    filesz: 120,
};

const OF_ONE_LOAD: [Offered<'static>; 7] = [
    (Source::Segments, 3, b"LOAD #0 [R]"),
    (Source::Sections, 3, b"[ELF Header]"),
    (Source::Symbols, 3, b"[ELF Header]"),
    (Source::RawSymbols, 3, b"[ELF Header]"),
    (Source::CompileUnits, 3, b"[ELF Header]"),
    (Source::Inlines, 3, b"[ELF Header]"),
    (Source::InputFiles, 2, b"a.elf"),
];

#[test]
fn claims_of_each_data_source(rt: HostRuntime) {
    let alloc = rt.alloc();
    let file = one_load();
    let binary = open_binary(&file).expect(&rt, "a sound file");
    assert_eq!(rt; binary.bytes().len(), 120);
    assert_eq!(rt; load_slots(&binary), 1);
    assert_eq!(rt; load_at(&binary, 0), Some(LOAD));
    let loads = loads_of(alloc, &binary).expect(&rt, "memory");
    assert!(rt; loads.len() == 1 && loads[0] == LOAD);
    for offered in &OF_ONE_LOAD {
        has_claims(&rt, alloc, &binary, b"a.elf", offered);
        has_many(&rt, alloc, &binary, offered.0);
    }
}

const ONE_SEGMENT_BYTES: [(usize, &[u8]); 8] = [
    (0, b"\xcf\xfa\xed\xfe"),
    (12, b"\x06\0\0\0\x02\0\0\0\xa8"),
    (32, b"\x19\0\0\0\x98\0\0\0__A"),
    (57, b"\x10\0\0\0\0\0\0\xd8"),
    (80, b"\xd8\0\0\0\0\0\0\0\x05\0\0\0\x05\0\0\0\x01"),
    (104, b"__b\0\0\0\0\0\0\0\0\0\0\0\0\0__A"),
    (136, b"\xc8\x10\0\0\0\0\0\0\x08\0\0\0\0\0\0\0\xc8"),
    (184, b"\x26\0\0\0\x10\0\0\0\xd0\0\0\0\x08"),
];

/// A Mach-O file of one segment with one section, and a table of function starts.
fn one_segment() -> [u8; 216] {
    let mut file = [0; 216];
    put_all(&mut file, &ONE_SEGMENT_BYTES);
    file
}

const OF_ONE_SEGMENT: [Offered<'static>; 4] = [
    (Source::Segments, 3, b"__A"),
    (Source::Symbols, 5, b"[section __A,__b]"),
    (Source::InputFiles, 2, b"a.out"),
    (Source::Sections, 5, b"__A,__b"),
];

// The labels of sections after the first one.
const OF_SECTIONS: [&[u8]; 4] = [
    b"[Function Starts]",
    b"[Mach-O Header]",
    b"[Mach-O Load Commands]",
    b"[__A]",
];

#[test]
fn claims_of_a_macho_file(rt: HostRuntime) {
    let alloc = rt.alloc();
    let file = one_segment();
    let binary = open_binary(&file).expect(&rt, "a sound file");
    assert_eq!(rt; binary.bytes().len(), 216);
    assert_eq!(rt; load_slots(&binary), 1);
    assert!(rt; load_at(&binary, 0).is_some());
    for offered in &OF_ONE_SEGMENT {
        has_claims(&rt, alloc, &binary, b"a.out", offered);
    }
    let pool = has_claims(&rt, alloc, &binary, b"a.out", &OF_ONE_SEGMENT[3]);
    for (i, label) in OF_SECTIONS.iter().enumerate() {
        assert!(rt; i + 1 < pool.len() && pool.get(i + 1) == *label);
    }
}

const DEBUG_FILE_BYTES: [(usize, &[u8]); 17] = [
    (0, b"\x7fELF\x02\x01\x01"),
    (16, b"\x02\0\x3e"),
    (41, b"\x01"),
    (58, b"\x40\0\x05\0\x03"),
    (64, b"\x18\0\0\0\x04\0\0\0\0\0\x08\x01a.c"),
    (80, b"\0\x10\x40\0\0\0\0\0\x20"),
    (92, b"\x01\x11\0\x03\x08\x11\x01\x12\x06"),
    (128, b"\x01\0\0\0\x12\0\x01\0\x04\x10\x40\0\0\0\0\0\x08"),
    (152, b"\0f\0.debug_info\0.debug_abbrev"),
    (320, b"\x03\0\0\0\x01"),
    (344, b"\x40\0\0\0\0\0\0\0\x1c"),
    (384, b"\x0f\0\0\0\x01"),
    (408, b"\x5c\0\0\0\0\0\0\0\x0c"),
    (452, b"\x03"),
    (472, b"\x98\0\0\0\0\0\0\0\x1d"),
    (516, b"\x02"),
    (536, b"\x68\0\0\0\0\0\0\0\x30\0\0\0\0\0\0\0\x03"),
];

/// An ELF file with the unit `a.c` at 64, its abbreviations at 92, and a symbol table whose second symbol, at 128, is
/// the function `f`.
fn debug_file() -> [u8; 576] {
    let mut file = [0; 576];
    put_all(&mut file, &DEBUG_FILE_BYTES);
    file
}

// A data source, with the label, the first address and the size of the one claim that it makes of the debug file.
type Debugged<'a> = (Source, &'a [u8], u64, u64);

/// A data source makes this claim of a debug file, on addresses alone, and no claim passes a limit of none.
fn has_claim(
    rt: &impl Abort,
    alloc: Global,
    binary: &Binary<'_>,
    &(source, label, start, len): &Debugged<'_>,
) {
    let mut pool = LabelPool::new(alloc);
    let few = debug_claims(alloc, binary, source, &mut pool, 0);
    assert_eq!(rt; few.err(), Some(ClaimAnswer::TooManyClaims));
    let made = debug_claims(alloc, binary, source, &mut pool, 1).expect(rt, "claims");
    assert_eq!(rt; made.len(), 1);
    let vm = Span {
        space: 0,
        start,
        len,
    };
    assert_eq!(rt; (made[0].side, made[0].vm), (Side::Vm, vm));
    assert!(rt; pool.len() == 1 && pool.get(0) == label);
}

const OF_DEBUG_FILE: [Debugged<'static>; 3] = [
    (Source::Symbols, b"f", 0x401004, 8),
    (Source::RawSymbols, b"f", 0x401004, 8),
    (Source::CompileUnits, b"a.c", 0x401000, 0x20),
];

#[test]
fn claims_of_a_debug_file(rt: HostRuntime) {
    let file = debug_file();
    let binary = open_binary(&file).expect(&rt, "a sound file");
    for case in &OF_DEBUG_FILE {
        has_claim(&rt, rt.alloc(), &binary, case);
    }
}

// A symbol's name that has no end.
const NO_END: BadFile = BadFile {
    fault: Fault::NameOutside,
    offset: 128,
};

const DEBUG_FAULTS: [(Source, Option<BadFile>); 6] = [
    (Source::Symbols, Some(NO_END)),
    (Source::CompileUnits, None),
    (Source::Inlines, None),
    (Source::Segments, None),
    (Source::Sections, None),
    (Source::InputFiles, None),
];

/// A data source of a debug file has this fault, and only units have a label.
fn has_fault(
    rt: &impl Abort,
    alloc: Global,
    binary: &Binary<'_>,
    source: Source,
    fault: Option<BadFile>,
) {
    let mut pool = LabelPool::new(alloc);
    let made = debug_claims(alloc, binary, source, &mut pool, 1);
    assert_eq!(rt; made.err(), fault.map(|bad| ClaimAnswer::Bad(bad)));
    assert_eq!(rt; pool.len() > 0, source == Source::CompileUnits);
}

#[test]
fn faults_of_a_debug_file(rt: HostRuntime) {
    let mut file = debug_file();
    // The function's name has no end.
    put(&mut file, 128, b"\x1d");
    let binary = open_binary(&file).expect(&rt, "a sound file");
    for &(source, fault) in &DEBUG_FAULTS {
        has_fault(&rt, rt.alloc(), &binary, source, fault);
    }
}
