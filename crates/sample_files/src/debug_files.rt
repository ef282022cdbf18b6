//! ELF files with debug sections.

use crate::dwarf::{
    DW_AT_HIGH_PC, DW_AT_LOW_PC, DW_AT_NAME, DW_AT_RANGES, DW_AT_STMT_LIST, Debug, Entry, Value,
    address_value, name_value, offset_value, ranges_value,
};
use crate::image::{EXECUTABLE, LOAD, NAMES, NULL, Section, Segment, TEXT, file};
use crate::lines::{PLAIN, Program, Step};
use crate::macho::{Command, MachoHead, MachoSection, MachoSegment, macho_file};
use crate::numbers::{Class, Order};
use std::alloc::{AllocError, Global};

// Where the code of all these files but those of lines begins.
const CODE: u64 = 0x401000;

// Folders or files of a line program. Before DWARF 5 the first one isn't in the list.
fn numbered<T>(version: u16, names: &[T]) -> &[T] {
    if version < 5 {
        names.get(1..).unwrap_or(&[])
    } else {
        names
    }
}

// A file with 48 bytes of code at an address, after the headers of two loads, and debug sections. The second load
// has no bytes, and its 16 addresses begin at 0.
fn with_code(alloc: Global, address: u64, debug: &[Section<'_>]) -> Result<Vec<u8>, AllocError> {
    let code = Section {
        addr: address,
        bytes: b"forty-eight bytes of code, which does nothing ..",
        ..TEXT
    };
    let load = Segment {
        offset: 176,
        vaddr: address,
        filesz: 48,
        memsz: 48,
        ..LOAD
    };
    let dropped = Segment {
        flags: 6,
        vaddr: 0,
        filesz: 0,
        memsz: 16,
        ..load
    };
    let mut sections = Vec::new(alloc);
    sections.push(NULL)?;
    sections.push(code)?;
    sections.extend_from_slice(debug)?;
    sections.push(NAMES)?;
    file(alloc, EXECUTABLE, &[load, dropped], &sections)
}

// The ranges of `a.c`, in DWARF 5.
const RANGES: [Entry; 5] = [
    Entry::BaseAddressx(0),
    Entry::OffsetPair(0, 0x10),
    Entry::StartxLength(2, 8),
    Entry::StartLength(0, 5),
    Entry::EndOfList,
];

// What the two units refer to: strings, ranges, and from DWARF 5 on the tables for indexes.
fn add_tables(debug: &mut Debug, version: u16) {
    debug.strings(&[b"a.c", b"b.c"]);
    if version < 5 {
        debug.pairs(&[(0, 0x10), (0x18, 0x20), (u64::MAX, 0), (0, 5)]);
        return;
    }
    debug.string_offsets(&[0, 4]);
    debug.addresses(&[CODE, CODE + 0x10, CODE + 0x18]);
    debug.list(&RANGES);
}

// Two units. It returns the offset of the second one.
fn add_units(debug: &mut Debug, version: u16) -> u32 {
    debug.unit(
        version,
        &[
            (DW_AT_NAME, name_value(version, 0, 0)),
            (DW_AT_LOW_PC, address_value(version, CODE, 0)),
            (DW_AT_RANGES, ranges_value(version)),
            (DW_AT_STMT_LIST, offset_value(version, 0)),
        ],
    );
    // The address after the code, and from DWARF 4 on its length.
    let high = if version < 4 {
        Value::Addr(CODE + 0x18)
    } else {
        Value::Data4(8)
    };
    debug.unit(
        version,
        &[
            (DW_AT_NAME, name_value(version, 4, 1)),
            (DW_AT_LOW_PC, address_value(version, CODE + 0x10, 1)),
            (DW_AT_HIGH_PC, high),
        ],
    )
}

// The files of a line program. Only DWARF 5 has the first one in the list.
const TWO_FILES: [(&[u8], u8); 2] = [(b"a.c", 0), (b"a.c", 0)];

// One row of `a.c`, of 16 bytes.
const STEPS: [Step; 5] = [
    Step::SetAddress(CODE),
    Step::AdvanceLine(2),
    Step::Copy,
    Step::AdvancePc(16),
    Step::EndSequence,
];

// Unit `a.c` has 24 bytes of code in two ranges, one more range at address 0, and a line program. Unit `b.c` has 8
// bytes of code. One set gives `b.c` the first 16 bytes of code and 8 bytes that no unit has. Another set is for an
// offset at which there is no unit, and has 8 more bytes.
fn two_units_of(alloc: Global, version: u16) -> Debug {
    let mut debug = Debug::new(alloc, Class::Bits64);
    add_tables(&mut debug, version);
    let second = add_units(&mut debug, version);
    debug.set(second, &[(CODE, 16), (CODE + 0x20, 8)]);
    debug.set(5, &[(CODE + 0x28, 8)]);
    debug.program(&Program {
        version,
        files: numbered(version, &TWO_FILES),
        steps: &STEPS,
        ..PLAIN
    });
    debug
}

/// Code of two units, 48 bytes at 0x401000, with debug information of a version of DWARF.
pub fn two_units(alloc: Global, version: u16) -> Result<Vec<u8>, AllocError> {
    let debug = two_units_of(alloc, version);
    with_code(alloc, CODE, &debug.sections()?)
}

// Where the debug sections of two units are in a Mach-O file.
const INFO: MachoSection<'static> = MachoSection {
    segment: b"__DWARF",
    name: b"__debug_info",
    addr: 0,
    size: 39,
    offset: 896,
    flags: 0,
};

const DEBUG: [MachoSection<'static>; 8] = [
    INFO,
    MachoSection {
        name: b"__debug_abbrev",
        size: 26,
        offset: 935,
        ..INFO
    },
    MachoSection {
        name: b"__debug_str",
        size: 8,
        offset: 961,
        ..INFO
    },
    MachoSection {
        name: b"__debug_str_offs",
        size: 16,
        offset: 969,
        ..INFO
    },
    MachoSection {
        name: b"__debug_addr",
        size: 32,
        offset: 985,
        ..INFO
    },
    MachoSection {
        name: b"__debug_rnglists",
        size: 35,
        offset: 1017,
        ..INFO
    },
    MachoSection {
        name: b"__debug_aranges",
        size: 112,
        offset: 1052,
        ..INFO
    },
    MachoSection {
        name: b"__debug_line",
        size: 69,
        offset: 1164,
        ..INFO
    },
];

// The code, whose bytes are in another file.
const MACHO_TEXT: [MachoSection<'static>; 1] = [MachoSection {
    segment: b"__TEXT",
    name: b"__text",
    addr: CODE,
    size: 48,
    offset: 0x1000,
    flags: 0,
}];

/// A Mach-O file of debug information, in DWARF 5, for the same code: 1,233 bytes, the last 337 of them debug
/// sections.
pub fn macho_units(alloc: Global) -> Result<Vec<u8>, AllocError> {
    let debug = two_units_of(alloc, 5);
    let mut bytes = Vec::new(alloc);
    for section in &debug.sections()? {
        bytes.extend_from_slice(section.bytes)?;
    }
    let text = MachoSegment {
        name: b"__TEXT",
        vaddr: CODE,
        memsz: 48,
        offset: 0,
        filesz: 0,
        access: 5,
        sections: &MACHO_TEXT,
    };
    let dwarf = MachoSegment {
        name: b"__DWARF",
        vaddr: CODE + 0x1000,
        memsz: 337,
        offset: 896,
        filesz: 337,
        access: 7,
        sections: &DEBUG,
    };
    let head = MachoHead {
        class: Class::Bits64,
        order: Order::Little,
        kind: 10,
    };
    let commands = [Command::Segment(text), Command::Segment(dwarf)];
    macho_file(alloc, head, &commands, 1233, &[(896, &bytes)])
}

/// Code of two units, whose `.debug_info` is marked as compressed, by its flag or by the older name.
pub fn compressed_units(alloc: Global, marked: bool) -> Result<Vec<u8>, AllocError> {
    let debug = two_units_of(alloc, 4);
    let mut sections = debug.sections()?;
    if let Some(info) = sections.first_mut() {
        if marked {
            info.flags = 0x800;
        } else {
            info.name = b".zdebug_info";
        }
    }
    with_code(alloc, CODE, &sections)
}

/// Two units without a name: one has no name, and one has an empty name.
pub fn unnamed_units(alloc: Global) -> Result<Vec<u8>, AllocError> {
    let mut debug = Debug::new(alloc, Class::Bits64);
    debug.unit(
        4,
        &[
            (DW_AT_LOW_PC, Value::Addr(CODE)),
            (DW_AT_HIGH_PC, Value::Data4(16)),
        ],
    );
    debug.unit(
        3,
        &[
            (DW_AT_NAME, Value::Text(b"")),
            (DW_AT_LOW_PC, Value::Addr(CODE + 0x20)),
            (DW_AT_HIGH_PC, Value::Addr(CODE + 0x30)),
        ],
    );
    with_code(alloc, CODE, &debug.sections()?)
}

// A unit that has a line program and nothing else, over code at an address.
fn with_program(alloc: Global, address: u64, program: &Program<'_>) -> Result<Vec<u8>, AllocError> {
    let mut debug = Debug::new(alloc, Class::Bits64);
    let offset = offset_value(program.version, 0);
    debug.unit(program.version, &[(DW_AT_STMT_LIST, offset)]);
    debug.program(program);
    with_code(alloc, address, &debug.sections()?)
}

// The sequences of `operations`.
const OPERATIONS: [Step; 11] = [
    Step::SetAddress(0x1000),
    Step::Copy,
    Step::ConstAddPc,
    Step::Special(32),
    Step::Special(32),
    Step::AdvancePc(2),
    Step::EndSequence,
    Step::SetAddress(0),
    Step::Copy,
    Step::AdvancePc(8),
    Step::EndSequence,
];

/// Instructions of two operations each, in a sequence from 0x1000 on and in one from 0 on.
pub fn operations(alloc: Global, version: u16) -> Result<Vec<u8>, AllocError> {
    let program = Program {
        version,
        min_inst: 4,
        max_ops: 2,
        line_base: 0xfd,
        line_range: 12,
        folders: numbered(version, &[b"/w"]),
        files: numbered(version, &TWO_FILES),
        steps: &OPERATIONS,
    };
    with_program(alloc, 0x1000, &program)
}

// Two rows at 0x2000 and an end eight bytes further; and a row whose file isn't there, of four bytes.
const ROWS: [Step; 13] = [
    Step::SetAddress(0x2000),
    Step::AdvanceLine(2),
    Step::Copy,
    Step::AdvanceLine(1),
    Step::Copy,
    Step::AdvancePc(8),
    Step::EndSequence,
    Step::SetAddress(0x2010),
    Step::SetFile(9),
    Step::AdvanceLine(2),
    Step::Copy,
    Step::AdvancePc(4),
    Step::EndSequence,
];

/// Lines from 0x2000 on: two rows at one address, the second of 8 bytes, and one of no file. The last
/// instruction may have no end.
pub fn two_rows(alloc: Global, cut: bool) -> Result<Vec<u8>, AllocError> {
    let mut steps = Vec::new(alloc);
    steps.extend_from_slice(&ROWS)?;
    if cut {
        steps.push(Step::CutAdvance)?;
    }
    let program = Program {
        steps: &steps,
        ..PLAIN
    };
    with_program(alloc, 0x2000, &program)
}

// The files of `folders`, and its one sequence.
const THREE_FILES: [(&[u8], u8); 3] = [(b"a.c", 0), (b"b.h", 1), (b"/usr/c.h", 1)];

const IN_FOLDERS: [Step; 7] = [
    Step::SetAddress(0x2000),
    Step::Copy,
    Step::AdvancePc(8),
    Step::SetFile(2),
    Step::Copy,
    Step::AdvancePc(4),
    Step::EndSequence,
];

/// Lines of files in folders: 8 bytes of the file 1, `b.h` of the folder 1, `inc`; and 4 bytes of the file 2, whose
/// name begins with a slash.
pub fn folders(alloc: Global, version: u16) -> Result<Vec<u8>, AllocError> {
    let program = Program {
        version,
        folders: numbered(version, &[b"/w", b"inc"]),
        files: numbered(version, &THREE_FILES),
        steps: &IN_FOLDERS,
        ..PLAIN
    };
    with_program(alloc, 0x2000, &program)
}
