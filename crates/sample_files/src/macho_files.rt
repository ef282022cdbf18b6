//! Mach-O files of the worked runs.

use crate::macho::{
    Command, MachoHead, MachoSection, MachoSegment, MachoSymbol, macho_file, macho_symbols,
};
use crate::numbers::{Class, Order};
use std::alloc::{AllocError, Global};

// A file for arm64, least byte first.
const ARM64: MachoHead = MachoHead {
    class: Class::Bits64,
    order: Order::Little,
    kind: 2,
};

// A segment that no access is allowed to.
const ZERO: MachoSegment<'static> = MachoSegment {
    name: b"__PAGEZERO",
    vaddr: 0,
    memsz: 0x1000,
    offset: 0,
    filesz: 0,
    access: 0,
    sections: &[],
};

/// A program of 64 bits, 4,152 bytes: a segment without access, one with 16 bytes of code at 2048, one for the link
/// editor, and three symbols at 4096. The first symbol is for a debugger.
pub fn macho_program(alloc: Global) -> Result<Vec<u8>, AllocError> {
    const TEXT: u64 = 0x1_0000_0000;
    const CODE: [MachoSection<'static>; 1] = [MachoSection {
        segment: b"__TEXT",
        name: b"__text",
        addr: TEXT + 0x800,
        size: 16,
        offset: 2048,
        flags: 0,
    }];
    let commands = [
        Command::Segment(MachoSegment {
            memsz: TEXT,
            ..ZERO
        }),
        Command::Segment(MachoSegment {
            name: b"__TEXT",
            vaddr: TEXT,
            memsz: 4096,
            offset: 0,
            filesz: 4096,
            access: 5,
            sections: &CODE,
        }),
        Command::Segment(MachoSegment {
            name: b"__LINKEDIT",
            vaddr: TEXT + 0x1000,
            memsz: 4096,
            offset: 4096,
            filesz: 56,
            access: 1,
            sections: &[],
        }),
        Command::Symbols([4096, 3, 4144, 8]),
    ];
    let symbols: [MachoSymbol; 3] = [
        (0, 0x24, 0, 0),
        (1, 0x0f, 1, TEXT + 0x800),
        (4, 0x0f, 1, TEXT + 0x80c),
    ];
    let symbols = macho_symbols(alloc, ARM64, &symbols)?;
    let parts: [(usize, &[u8]); 2] = [(4096, &symbols), (4144, b"\0_a\0_b")];
    macho_file(alloc, ARM64, &commands, 4152, &parts)
}

/// A file of 32 bits and 84 bytes, the greatest byte of a number first, with one segment without access.
pub fn macho_without_access(alloc: Global) -> Result<Vec<u8>, AllocError> {
    let head = MachoHead {
        class: Class::Bits32,
        order: Order::Big,
        kind: 2,
    };
    macho_file(alloc, head, &[Command::Segment(ZERO)], 84, &[])
}

/// A program of 568 bytes in each class and order: 16 bytes of code at 512 with the functions `_a` and `_b`, 256
/// addresses of zeros, and the symbols at 528.
pub fn macho_of(alloc: Global, class: Class, order: Order) -> Result<Vec<u8>, AllocError> {
    let head = MachoHead {
        class,
        order,
        kind: 2,
    };
    const CODE: [MachoSection<'static>; 1] = [MachoSection {
        segment: b"__TEXT",
        name: b"__text",
        addr: 0x1_0200,
        size: 16,
        offset: 512,
        flags: 0x8000_0400,
    }];
    const ZEROS: [MachoSection<'static>; 1] = [MachoSection {
        segment: b"__DATA",
        name: b"__bss",
        addr: 0x1_1000,
        size: 256,
        offset: 0,
        flags: 1,
    }];
    let commands = [
        Command::Segment(MachoSegment {
            name: b"__TEXT",
            vaddr: 0x1_0000,
            memsz: 4096,
            offset: 0,
            filesz: 528,
            access: 5,
            sections: &CODE,
        }),
        Command::Segment(MachoSegment {
            name: b"__DATA",
            vaddr: 0x1_1000,
            memsz: 4096,
            offset: 528,
            filesz: 0,
            access: 3,
            sections: &ZEROS,
        }),
        Command::Symbols([528, 2, 560, 8]),
    ];
    let symbols: [MachoSymbol; 2] = [(1, 0x0f, 1, 0x1_0200), (4, 0x0e, 1, 0x1_020c)];
    let symbols = macho_symbols(alloc, head, &symbols)?;
    let parts: [(usize, &[u8]); 2] = [(528, &symbols), (560, b"\0_a\0_b")];
    macho_file(alloc, head, &commands, 568, &parts)
}

/// An object of 272 bytes: a segment without a name, with 8 bytes of code at 264 and 16 addresses of zeros.
pub fn macho_object(alloc: Global) -> Result<Vec<u8>, AllocError> {
    // The offset of the second one is not read.
    const SECTIONS: [MachoSection<'static>; 2] = [
        MachoSection {
            segment: b"__TEXT",
            name: b"__text",
            addr: 0,
            size: 8,
            offset: 264,
            flags: 0,
        },
        MachoSection {
            segment: b"__DATA",
            name: b"__bss",
            addr: 8,
            size: 16,
            offset: 264,
            flags: 1,
        },
    ];
    let segment = MachoSegment {
        name: b"",
        vaddr: 0,
        memsz: 24,
        offset: 264,
        filesz: 8,
        access: 7,
        sections: &SECTIONS,
    };
    let head = MachoHead { kind: 1, ..ARM64 };
    macho_file(alloc, head, &[Command::Segment(segment)], 272, &[])
}

/// A library of 256 bytes with link-edit parts. The last part passes the file's end.
pub fn macho_library(alloc: Global) -> Result<Vec<u8>, AllocError> {
    let commands = [
        Command::DyldInfo([176, 8, 184, 8, 0, 0, 192, 8, 200, 8]),
        Command::Indirect([208, 2]),
        Command::Signature([240, 64]),
    ];
    let head = MachoHead { kind: 6, ..ARM64 };
    macho_file(alloc, head, &commands, 256, &[])
}

/// A file of 32 bits and 280 bytes with debug information, 4 bytes at 276; the bytes of `__text` are in another file.
pub fn macho_debug_file(alloc: Global) -> Result<Vec<u8>, AllocError> {
    const CODE: [MachoSection<'static>; 1] = [MachoSection {
        segment: b"__TEXT",
        name: b"__text",
        addr: 0x1000,
        size: 0x10,
        // That of the other file.
        offset: 0x1000,
        flags: 0,
    }];
    const INFO: [MachoSection<'static>; 1] = [MachoSection {
        segment: b"__DWARF",
        name: b"__debug_info",
        addr: 0x2000,
        size: 4,
        offset: 276,
        flags: 0,
    }];
    let commands = [
        Command::Segment(MachoSegment {
            name: b"__TEXT",
            vaddr: 0x1000,
            memsz: 0x1000,
            offset: 0,
            filesz: 0,
            access: 5,
            sections: &CODE,
        }),
        Command::Segment(MachoSegment {
            name: b"__DWARF",
            vaddr: 0x2000,
            memsz: 0x1000,
            offset: 276,
            filesz: 4,
            access: 7,
            sections: &INFO,
        }),
    ];
    let head = MachoHead {
        class: Class::Bits32,
        order: Order::Little,
        kind: 10,
    };
    macho_file(alloc, head, &commands, 280, &[])
}
