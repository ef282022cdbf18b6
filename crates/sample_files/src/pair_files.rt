//! Files without symbols, and the debug files that belong to them.

use crate::image::{
    EXECUTABLE, FUNCTION, LOAD, NAMES, NULL, Section, Segment, Symbol, TEXT, file, symbols,
};
use crate::inputs::symbol_table;
use crate::macho::{
    Command, MachoHead, MachoSection, MachoSegment, MachoSymbol, macho_file, macho_symbols,
};
use crate::numbers::{Class, Order};
use std::alloc::{AllocError, Global};

// A note of 20 bytes: the name `GNU`, the type NT_GNU_BUILD_ID, and a build ID of four bytes, the last of which is
// `last`.
fn build_id(last: u8) -> [u8; 20] {
    let [a, b, c] = [0xaa, 0xbb, 0xcc];
    [
        4, 0, 0, 0, 4, 0, 0, 0, 3, 0, 0, 0, b'G', b'N', b'U', 0, a, b, c, last,
    ]
}

fn note<'a>(bytes: &'a [u8]) -> Section<'a> {
    Section {
        name: b".note.gnu.build-id",
        kind: 7,
        flags: 2,
        addr: 0x400088,
        bytes,
        ..NULL
    }
}

/// An executable of 448 bytes without symbols: a load of the first 156, `.text` of 16 and a build ID.
pub fn stripped(alloc: Global, memsz: u64) -> Result<Vec<u8>, AllocError> {
    let load = Segment {
        filesz: 156,
        memsz,
        ..LOAD
    };
    let id = build_id(0xdd);
    file(alloc, EXECUTABLE, &[load], &[NULL, TEXT, note(&id), NAMES])
}

// Where `.text` of the stripped file begins, without its bytes.
const EMPTY_TEXT: Section<'static> = Section {
    kind: 8,
    bytes: b"",
    empty: 16,
    ..TEXT
};

const STRINGS: Section<'static> = Section {
    name: b".strtab",
    kind: 3,
    bytes: b"\0f\0",
    ..NULL
};

// The sections of a debug file.
fn debug_sections<'a>(id: &'a [u8], symbols: &'a [u8], names: u32) -> [Section<'a>; 6] {
    let table = symbol_table(symbols, names);
    [NULL, EMPTY_TEXT, note(id), table, STRINGS, NAMES]
}

/// A debug file, whose build ID ends in the byte `last`, with a function `f` of 12 bytes where `.text` begins. The
/// bytes of `.text` are in another file. The names of the symbols are in section `names`. It is 4 in a sound file.
pub fn debug_file(alloc: Global, last: u8, names: u32) -> Result<Vec<u8>, AllocError> {
    let f = Symbol {
        name: 1,
        value: 0x400078,
        size: 12,
        ..FUNCTION
    };
    let symbols = symbols(alloc, EXECUTABLE, &[f])?;
    let id = build_id(last);
    let sections = debug_sections(&id, &symbols, names);
    file(alloc, EXECUTABLE, &[], &sections)
}

const MACHO: MachoHead = MachoHead {
    class: Class::Bits64,
    order: Order::Little,
    kind: 2,
};

const CODE: [MachoSection<'static>; 1] = [MachoSection {
    segment: b"__TEXT",
    name: b"__text",
    addr: 0x1_0200,
    size: 16,
    offset: 512,
    flags: 0,
}];

const CODE_SEGMENT: MachoSegment<'static> = MachoSegment {
    name: b"__TEXT",
    vaddr: 0x1_0000,
    memsz: 4096,
    offset: 0,
    filesz: 528,
    access: 5,
    sections: &CODE,
};

/// A Mach-O program of 528 bytes without symbols: 16 bytes of code at 512, and a UUID.
pub fn macho_stripped(alloc: Global) -> Result<Vec<u8>, AllocError> {
    let commands = [Command::Segment(CODE_SEGMENT), Command::Uuid(7)];
    macho_file(alloc, MACHO, &commands, 528, &[])
}

/// A Mach-O file of debug information for a program of this UUID, with the functions `_a` and `_b`.
pub fn macho_symbol_file(alloc: Global, uuid: u8) -> Result<Vec<u8>, AllocError> {
    let head = MachoHead { kind: 10, ..MACHO };
    let segment = MachoSegment {
        filesz: 0,
        ..CODE_SEGMENT
    };
    let commands = [
        Command::Uuid(uuid),
        Command::Segment(segment),
        Command::Symbols([528, 2, 560, 8]),
    ];
    let symbols: [MachoSymbol; 2] = [(1, 0x0f, 1, 0x1_0200), (4, 0x0e, 1, 0x1_020c)];
    let symbols = macho_symbols(alloc, head, &symbols)?;
    let parts: [(usize, &[u8]); 2] = [(528, &symbols), (560, b"\0_a\0_b")];
    macho_file(alloc, head, &commands, 568, &parts)
}
