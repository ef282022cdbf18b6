//! A position-independent executable with symbols and debug sections.

use crate::dwarf::{
    DW_AT_HIGH_PC, DW_AT_LOW_PC, DW_AT_NAME, DW_AT_RANGES, DW_AT_STMT_LIST, Debug, Entry, Value,
    address_value, name_value, ranges_value,
};
use crate::image::{
    EXECUTABLE, FUNCTION, Head, LOAD, NAMES, NULL, Section, Segment, Symbol, file, part, symbols,
};
use crate::lines::{PLAIN, Program, Step};
use crate::numbers::{Class, Numbers, Order};
use std::alloc::{AllocError, Global};

// A section that is loaded: its name, its type, its flags, how far its address is above its offset, and its size.
type Loaded = (&'static [u8], u32, u64, u64, usize);

// The sections after the headers, which end at 792. Each of the four loads begins a page further up.
const LOADED: [Loaded; 22] = [
    (b".interp", 1, 2, 0, 28),
    (b".note.gnu.build-id", 7, 2, 0, 36),
    (b".note.ABI-tag", 7, 2, 0, 32),
    (b".gnu.hash", 0x6fff_fff6, 2, 0, 48),
    (b".dynsym", 11, 2, 0, 96),
    (b".dynstr", 3, 2, 0, 120),
    (b".gnu.version", 0x6fff_ffff, 2, 0, 16),
    (b".gnu.version_r", 0x6fff_fffe, 2, 0, 32),
    (b".rela.dyn", 4, 2, 0, 192),
    (b".rela.plt", 4, 2, 0, 144),
    (b".init", 1, 6, 0x1000, 32),
    (b".plt", 1, 6, 0x1000, 96),
    (b".text", 1, 6, 0x1000, 1024),
    (b".fini", 1, 6, 0x1000, 16),
    (b".rodata", 1, 2, 0x2000, 64),
    (b".eh_frame_hdr", 1, 2, 0x2000, 64),
    (b".eh_frame", 1, 2, 0x2000, 176),
    (b".init_array", 14, 3, 0x3000, 8),
    (b".fini_array", 15, 3, 0x3000, 8),
    (b".dynamic", 6, 3, 0x3000, 160),
    (b".got", 1, 3, 0x3000, 64),
    (b".data", 1, 3, 0x3000, 16),
];

// The number of `.text`, and its address.
const TEXT_NUMBER: u16 = 13;

const TEXT: u64 = 0x1680;

// How many functions of 16 bytes follow one another in `.text`, the first 25 of them of `main.c`.
const FUNCTIONS: u8 = 40;

// A program header: its type, its flags, its offset, how far its address is above that, and its size in the file and in
// memory.
type Header = (u32, u32, u64, u64, u64, u64);

const SEGMENTS: [Header; 13] = [
    // PT_PHDR and PT_INTERP
    (6, 4, 64, 0, 728, 728),
    (3, 4, 792, 0, 28, 28),
    (LOAD.kind, 4, 0, 0, 1536, 1536),
    (LOAD.kind, 5, 1536, 0x1000, 1168, 1168),
    (LOAD.kind, 4, 2704, 0x2000, 304, 304),
    (LOAD.kind, 6, 3008, 0x3000, 256, 320),
    // PT_DYNAMIC and twice PT_NOTE
    (2, 6, 3024, 0x3000, 160, 160),
    (4, 4, 820, 0, 36, 36),
    (4, 4, 856, 0, 32, 32),
    // PT_GNU_PROPERTY, PT_GNU_EH_FRAME, PT_GNU_STACK and PT_GNU_RELRO
    (0x6474_e553, 4, 820, 0, 36, 36),
    (0x6474_e550, 4, 2768, 0x2000, 64, 64),
    (0x6474_e551, 6, 0, 0, 0, 0),
    (0x6474_e552, 4, 3008, 0x3000, 240, 240),
];

fn segments(alloc: Global) -> Result<Vec<Segment>, AllocError> {
    let mut segments = Vec::new(alloc);
    for (kind, flags, offset, gap, filesz, memsz) in SEGMENTS {
        segments.push(Segment {
            kind,
            flags,
            offset,
            vaddr: offset.wrapping_add(gap),
            filesz,
            memsz,
        })?;
    }
    Ok(segments)
}

// The null section, the sections that are loaded, and zeros after them.
fn loaded(alloc: Global, zeros: &[u8]) -> Result<Vec<Section<'_>>, AllocError> {
    let mut sections = Vec::new(alloc);
    sections.push(NULL)?;
    let mut offset = 792u64;
    for (name, kind, flags, gap, size) in LOADED {
        sections.push(Section {
            name,
            kind,
            flags,
            addr: offset.wrapping_add(gap),
            bytes: zeros.get(..size).unwrap_or(b""),
            // The names of the dynamic symbols.
            link: 6,
            ..NULL
        })?;
        offset = offset.wrapping_add(size as u64);
    }
    sections.push(Section {
        name: b".bss",
        kind: 8,
        flags: 3,
        addr: offset.wrapping_add(0x3000),
        empty: 64,
        ..NULL
    })?;
    Ok(sections)
}

// The names of symbols: that of a source file at 1, and from 8 on `f00`, `f01` and so on.
fn symbol_names(alloc: Global) -> Result<Vec<u8>, AllocError> {
    let mut names = Numbers::new(alloc, Class::Bits64, Order::Little);
    names.text(b"\0main.c\0");
    for k in 0..FUNCTIONS {
        names.text(&[b'f', b'0' + k / 10, b'0' + k % 10, 0]);
    }
    names.finish()
}

// The symbols of a source file and of a section.
const FIRST_SYMBOLS: [Symbol; 2] = [
    Symbol {
        name: 1,
        kind: 4,
        section: 0xfff1,
        ..FUNCTION
    },
    Symbol {
        kind: 3,
        value: TEXT,
        section: TEXT_NUMBER,
        ..FUNCTION
    },
];

// The symbols of a source file, of a section and of the functions.
fn symbol_table(alloc: Global) -> Result<Vec<u8>, AllocError> {
    let mut table = Vec::new(alloc);
    table.extend_from_slice(&FIRST_SYMBOLS)?;
    for k in 0..FUNCTIONS {
        table.push(Symbol {
            name: 8 + 4 * k as u32,
            value: TEXT + 16 * k as u64,
            size: 16,
            section: TEXT_NUMBER,
            ..FUNCTION
        })?;
    }
    symbols(alloc, EXECUTABLE, &table)
}

// The ranges of `util.c`, in DWARF 5.
const RANGES: [Entry; 3] = [
    Entry::StartLength(TEXT + 400, 112),
    Entry::StartLength(TEXT + 528, 112),
    Entry::EndOfList,
];

// What the units name: strings and ranges, and from DWARF 5 on by indexes.
fn add_tables(debug: &mut Debug, version: u16) {
    debug.strings(&[b"main.c", b"util.c", b"dropped.c"]);
    if version < 5 {
        debug.pairs(&[(TEXT + 400, TEXT + 512), (TEXT + 528, TEXT + 640)]);
        return;
    }
    debug.string_offsets(&[0, 7, 14]);
    debug.addresses(&[TEXT, 0]);
    debug.list(&RANGES);
}

// The units `main.c`, of 25 functions and a line program; `util.c`, of two ranges of 7 functions; and `dropped.c`,
// whose code isn't there.
fn add_units(debug: &mut Debug, version: u16) {
    debug.unit(
        version,
        &[
            (DW_AT_NAME, name_value(version, 0, 0)),
            (DW_AT_LOW_PC, address_value(version, TEXT, 0)),
            (DW_AT_HIGH_PC, Value::Data4(400)),
            (DW_AT_STMT_LIST, Value::SecOffset(0)),
        ],
    );
    debug.unit(
        version,
        &[
            (DW_AT_NAME, name_value(version, 7, 1)),
            (DW_AT_RANGES, ranges_value(version)),
        ],
    );
    debug.unit(
        version,
        &[
            (DW_AT_NAME, name_value(version, 14, 2)),
            (DW_AT_LOW_PC, address_value(version, 0, 1)),
            (DW_AT_HIGH_PC, Value::Data4(16)),
        ],
    );
}

// The first row of `main.c`.
const FIRST_STEPS: [Step; 2] = [Step::SetAddress(TEXT), Step::Copy];

// A line for each function of `main.c`.
fn steps(alloc: Global) -> Result<Vec<Step>, AllocError> {
    let mut steps = Vec::new(alloc);
    steps.extend_from_slice(&FIRST_STEPS)?;
    for _ in 0..25 {
        // 16 bytes and a line further.
        steps.push(Step::Special(243))?;
    }
    steps.push(Step::EndSequence)?;
    Ok(steps)
}

const FILES: [(&[u8], u8); 2] = [(b"main.c", 0), (b"main.c", 0)];

fn debug_sections(alloc: Global, version: u16) -> Result<Debug, AllocError> {
    let mut debug = Debug::new(alloc, Class::Bits64);
    add_tables(&mut debug, version);
    add_units(&mut debug, version);
    debug.set(0, &[(TEXT, 400)]);
    debug.program(&Program {
        version,
        files: if version < 5 { &FILES[1..] } else { &FILES },
        steps: &steps(alloc)?,
        ..PLAIN
    });
    Ok(debug)
}

// What the sections hold.
#[derive(Drop)]
struct Contents {
    zeros: Vec<u8>,
    debug: Debug,
    table: Vec<u8>,
    names: Vec<u8>,
}

impl Contents {
    fn sections(&self, alloc: Global, version: u16) -> Result<Vec<Section<'_>>, AllocError> {
        let mut sections = loaded(alloc, &self.zeros)?;
        sections.push(part(b".comment", b"made with a small compiler ..   "))?;
        sections.extend_from_slice(&self.debug.sections()?)?;
        if version < 5 {
            sections.push(part(b".debug_loc", b"not read"))?;
            sections.push(part(b".debug_frame", b"not read"))?;
        }
        sections.push(Section {
            kind: 2,
            link: 34,
            ..part(b".symtab", &self.table)
        })?;
        sections.push(Section {
            kind: 3,
            ..part(b".strtab", &self.names)
        })?;
        sections.push(NAMES)?;
        Ok(sections)
    }
}

/// A position-independent executable of 13 program headers and 36 sections, with debug sections of DWARF 4 or 5.
pub fn executable(alloc: Global, version: u16) -> Result<Vec<u8>, AllocError> {
    let contents = Contents {
        zeros: vec![in alloc; 0u8; 1024]?,
        debug: debug_sections(alloc, version)?,
        table: symbol_table(alloc)?,
        names: symbol_names(alloc)?,
    };
    let head = Head {
        kind: 3,
        ..EXECUTABLE
    };
    let sections = contents.sections(alloc, version)?;
    file(alloc, head, &segments(alloc)?, &sections)
}
