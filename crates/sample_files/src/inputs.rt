//! The small input files of the tests of whole runs.

use crate::debug_files::{
    compressed_units, folders, macho_units, operations, two_rows, two_units, unnamed_units,
};
use crate::executable::executable;
use crate::image::{
    EXECUTABLE, FUNCTION, Head, LOAD, NAMES, NULL, Section, Segment, Symbol, TEXT, file,
    many_sections, part, plain_file, symbols, thread_local,
};
use crate::macho_files::{
    macho_debug_file, macho_library, macho_object, macho_of, macho_program, macho_without_access,
};
use crate::numbers::{Class, Order};
use crate::pair_files::{debug_file, macho_stripped, macho_symbol_file, stripped};
use std::alloc::{AllocError, Global};

/// A string table with the names of symbols: `a` at offset 1, `b` at offset 3.
pub const SYMBOL_NAMES: Section<'static> = Section {
    name: b".strtab",
    kind: 3,
    bytes: b"\0a\0b\0",
    ..NULL
};

/// A table of symbols, whose names are those of a section.
pub fn symbol_table<'a>(bytes: &'a [u8], names: u32) -> Section<'a> {
    Section {
        name: b".symtab",
        kind: 2,
        bytes,
        link: names,
        ..NULL
    }
}

/// A relocatable object, whose sections have no addresses yet.
pub const RELOCATABLE: Head = Head {
    kind: 1,
    ..EXECUTABLE
};

// Code of an object.
const TEXT_A: Section<'static> = Section {
    name: b".text.a",
    addr: 0,
    ..TEXT
};

const TEXT_B: Section<'static> = Section {
    name: b".text.b",
    addr: 0,
    bytes: b"8 bytes.",
    ..TEXT
};

// Addresses of data that has no bytes in the file.
fn zeroed<'a>(name: &'a [u8], addr: u64, size: u64) -> Section<'a> {
    Section {
        name,
        kind: 8,
        flags: 3,
        addr,
        empty: size,
        ..NULL
    }
}

/// The plain file with 2^40 addresses of zeros after its code: 416 bytes.
pub fn large_bss(alloc: Global) -> Result<Vec<u8>, AllocError> {
    let load = Segment {
        memsz: 136 + (1 << 40),
        ..LOAD
    };
    let bss = zeroed(b".bss", 0x400088, 1 << 40);
    file(alloc, EXECUTABLE, &[load], &[NULL, TEXT, NAMES, bss])
}

/// A file of 408 bytes. The first 192 are loaded at two addresses.
pub fn loaded_twice(alloc: Global) -> Result<Vec<u8>, AllocError> {
    let code = Segment {
        filesz: 192,
        memsz: 192,
        ..LOAD
    };
    let data = Segment {
        flags: 4,
        vaddr: 0x600000,
        ..code
    };
    let text = Section {
        addr: 0x4000b0,
        ..TEXT
    };
    file(alloc, EXECUTABLE, &[code, data], &[NULL, text, NAMES])
}

/// A file of 568 bytes with a function `a` of 8 bytes and then a function `b` of 12, both where `.text` begins.
pub fn two_functions(alloc: Global) -> Result<Vec<u8>, AllocError> {
    let a = Symbol {
        name: 1,
        value: 0x400078,
        size: 8,
        ..FUNCTION
    };
    let b = Symbol {
        name: 3,
        size: 12,
        ..a
    };
    let symbols = symbols(alloc, EXECUTABLE, &[a, b])?;
    let table = symbol_table(&symbols, 3);
    let sections = [NULL, TEXT, table, SYMBOL_NAMES, NAMES];
    file(alloc, EXECUTABLE, &[LOAD], &sections)
}

/// An executable of 392 bytes for PowerPC, of 32 bits and the greatest byte of a number first, with the functions `a`
/// and `b` of 8 bytes each.
pub fn big_endian(alloc: Global) -> Result<Vec<u8>, AllocError> {
    let head = Head {
        class: Class::Bits32,
        order: Order::Big,
        machine: 20,
        ..EXECUTABLE
    };
    let load = Segment {
        vaddr: 0x10000,
        filesz: 100,
        memsz: 100,
        ..LOAD
    };
    let text = Section {
        addr: 0x10054,
        ..TEXT
    };
    let a = Symbol {
        name: 1,
        value: 0x10054,
        size: 8,
        ..FUNCTION
    };
    let b = Symbol {
        name: 3,
        value: 0x1005c,
        ..a
    };
    let symbols = symbols(alloc, head, &[a, b])?;
    let table = symbol_table(&symbols, 3);
    let sections = [NULL, text, table, SYMBOL_NAMES, NAMES];
    file(alloc, head, &[load], &sections)
}

/// An object of 440 bytes: 16 bytes of code, 8 bytes of code, and 32 bytes of zeros.
pub fn object(alloc: Global) -> Result<Vec<u8>, AllocError> {
    let bss = zeroed(b".bss", 0, 32);
    file(alloc, RELOCATABLE, &[], &[NULL, TEXT_A, TEXT_B, bss, NAMES])
}

/// An object of 592 bytes whose two sections of code are one function each, `a` and `b`.
pub fn object_functions(alloc: Global) -> Result<Vec<u8>, AllocError> {
    let a = Symbol {
        name: 1,
        size: 16,
        ..FUNCTION
    };
    let b = Symbol {
        name: 3,
        size: 8,
        section: 2,
        ..a
    };
    let symbols = symbols(alloc, RELOCATABLE, &[a, b])?;
    let table = symbol_table(&symbols, 4);
    let sections = [NULL, TEXT_A, TEXT_B, table, SYMBOL_NAMES, NAMES];
    file(alloc, RELOCATABLE, &[], &sections)
}

// The plain file with another size in memory.
fn mapped(alloc: Global, memsz: u64) -> Result<Vec<u8>, AllocError> {
    let load = Segment { memsz, ..LOAD };
    file(alloc, EXECUTABLE, &[load], &[NULL, TEXT, NAMES])
}

// The plain file with `memsz` bytes in memory, from the address 2^64 - 4096 on.
fn at_the_top(alloc: Global, memsz: u64) -> Result<Vec<u8>, AllocError> {
    let load = Segment {
        vaddr: u64::MAX - 4095,
        memsz,
        ..LOAD
    };
    file(alloc, EXECUTABLE, &[load], &[NULL, TEXT, NAMES])
}

// The plain file with a symbol table whose link is its own number.
fn own_names(alloc: Global) -> Result<Vec<u8>, AllocError> {
    let table = symbol_table(&[0; 48], 2);
    file(alloc, EXECUTABLE, &[LOAD], &[NULL, TEXT, table, NAMES])
}

// Five sections of 9, 8, 4, 2 and 2 bytes, the first one named as a row of others is.
fn named_as_others(alloc: Global) -> Result<Vec<u8>, AllocError> {
    let sections = [
        NULL,
        part(b"[3 Others]", b"nine byte"),
        part(b"a", b"8 bytes."),
        part(b"b", b"four"),
        part(b"c", b"2b"),
        part(b"d", b"2b"),
        NAMES,
    ];
    file(alloc, EXECUTABLE, &[], &sections)
}

// Sections that are named as source files, one with two dots at the front.
fn source_names(alloc: Global) -> Result<Vec<u8>, AllocError> {
    let sections = [
        NULL,
        part(b"../third_party/abc/x.c", b"nine byte"),
        part(b"third_party/abc/y.c", b"four"),
        part(b"src/third_party/abc", b"8 bytes."),
        NAMES,
    ];
    file(alloc, EXECUTABLE, &[], &sections)
}

// Sections with a name of 60 bytes, one of 61, and one of two lines.
fn long_names(alloc: Global) -> Result<Vec<u8>, AllocError> {
    let sections = [
        NULL,
        part(&[b'a'; 61], b"8 bytes."),
        part(&[b'b'; 60], b"four"),
        part(b"a\nb", b"2b"),
        NAMES,
    ];
    file(alloc, EXECUTABLE, &[], &sections)
}

// Sections of zeros, with sizes just below and at 1024 and 1024^2 bytes, where the unit of a size changes.
fn about_units(alloc: Global) -> Result<Vec<u8>, AllocError> {
    let sections = [
        NULL,
        zeroed(b"a", 0, 1023),
        zeroed(b"b", 0, 1024),
        zeroed(b"c", 0, 1_048_575),
        zeroed(b"d", 0, 1_048_576),
        NAMES,
    ];
    file(alloc, RELOCATABLE, &[], &sections)
}

/// A file of a worked run.
#[derive(Clone, Copy)]
pub enum Input {
    /// The plain file: an executable with one load and the section `.text`.
    Plain,
    /// The plain file with this size in memory.
    Mapped(u64),
    /// The plain file with this size in memory, from the address 2^64 - 4096 on.
    AtTheTop(u64),
    /// The first bytes of the plain file, this many.
    Cut(usize),
    /// The plain file with 2^40 addresses of zeros after its code.
    LargeBss,
    /// A file whose thread-local `.tbss` has the addresses of `.init_array`.
    ThreadLocal,
    /// A file whose first bytes are loaded at two addresses.
    LoadedTwice,
    /// The plain file with 65,280 sections.
    ManySections,
    /// A file with the functions `a` and `b`, which begin at one address.
    TwoFunctions,
    /// A file of 32 bits with two functions, the most significant byte of a number first.
    BigEndian,
    /// The plain file with a symbol table whose link is its own number.
    OwnNames,
    /// A file with a section that is named as an Others row is.
    NamedAsOthers,
    /// A file whose sections are named as source files are.
    SourceNames,
    /// A file with section names of 60 and 61 bytes, and one of two lines.
    LongNames,
    /// A file whose sections have sizes about those at which the unit of a size changes.
    AboutUnits,
    /// An object with two sections of code and one of zeros.
    Object,
    /// An object whose two sections of code are one function each.
    ObjectFunctions,
    /// Two compile units, in this version of DWARF.
    Units(u16),
    /// Two compile units in a Mach-O file.
    MachoUnits,
    /// Two compile units whose `.debug_info` is marked as compressed: by its flag if true, or else by its name.
    Compressed(bool),
    /// Two compile units without a name.
    UnnamedUnits,
    /// A line program with two operations in each instruction, in this version of DWARF.
    Operations(u16),
    /// A line program with two rows at one address. If true, the operand of its last instruction is cut short.
    TwoRows(bool),
    /// A line program for files in folders, in this version of DWARF.
    Folders(u16),
    /// A position-independent executable, in this version of DWARF.
    Executable(u16),
    /// A Mach-O program with a segment without access, code and symbols.
    MachoProgram,
    /// A Mach-O file whose only segment has no access.
    MachoWithoutAccess,
    /// A Mach-O program of this class and byte order.
    MachoOf(Class, Order),
    /// A Mach-O object.
    MachoObject,
    /// A Mach-O library whose last link-edit part passes the end of the file.
    MachoLibrary,
    /// A Mach-O file of debug information.
    MachoDebugFile,
    /// A file without symbols, with this size in memory.
    Stripped(u64),
    /// A debug file. Its build ID ends in this byte, and the names of its symbols are in the section with this
    /// number. It is the debug file of `Stripped` if they are 0xdd and 4.
    DebugFile(u8, u32),
    /// A Mach-O program without symbols.
    MachoStripped,
    /// A Mach-O debug file, by the value of each byte of its UUID. It is that of `MachoStripped` if this is 7.
    MachoSymbols(u8),
    /// These bytes.
    Text(&'static [u8]),
}

/// The bytes of a file.
pub fn bytes_of(alloc: Global, input: Input) -> Result<Vec<u8>, AllocError> {
    match input {
        Input::Plain => plain_file(alloc),
        Input::Mapped(memsz) => mapped(alloc, memsz),
        Input::AtTheTop(memsz) => at_the_top(alloc, memsz),
        Input::Cut(n) => plain_file(alloc)?.get(..n).unwrap_or(b"").to_vec(alloc),
        Input::LargeBss => large_bss(alloc),
        Input::ThreadLocal => thread_local(alloc),
        Input::LoadedTwice => loaded_twice(alloc),
        Input::ManySections => many_sections(alloc),
        Input::TwoFunctions => two_functions(alloc),
        Input::BigEndian => big_endian(alloc),
        Input::OwnNames => own_names(alloc),
        Input::NamedAsOthers => named_as_others(alloc),
        Input::SourceNames => source_names(alloc),
        Input::LongNames => long_names(alloc),
        Input::AboutUnits => about_units(alloc),
        Input::Object => object(alloc),
        Input::ObjectFunctions => object_functions(alloc),
        Input::Units(version) => two_units(alloc, version),
        Input::MachoUnits => macho_units(alloc),
        Input::Compressed(marked) => compressed_units(alloc, marked),
        Input::UnnamedUnits => unnamed_units(alloc),
        Input::Operations(version) => operations(alloc, version),
        Input::TwoRows(cut) => two_rows(alloc, cut),
        Input::Folders(version) => folders(alloc, version),
        Input::Executable(version) => executable(alloc, version),
        Input::MachoProgram => macho_program(alloc),
        Input::MachoWithoutAccess => macho_without_access(alloc),
        Input::MachoOf(class, order) => macho_of(alloc, class, order),
        Input::MachoObject => macho_object(alloc),
        Input::MachoLibrary => macho_library(alloc),
        Input::MachoDebugFile => macho_debug_file(alloc),
        Input::Stripped(memsz) => stripped(alloc, memsz),
        Input::DebugFile(last, names) => debug_file(alloc, last, names),
        Input::MachoStripped => macho_stripped(alloc),
        Input::MachoSymbols(uuid) => macho_symbol_file(alloc, uuid),
        Input::Text(text) => text.to_vec(alloc),
    }
}
