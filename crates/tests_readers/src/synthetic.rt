//! The synthetic file, opened as any other file.

use elf_file::{ElfFile, Section, Segment};
use elf_symbols::{SHT_SYMTAB, SymbolTable};
use elf_synth::synth;
use std::process::Abort;

// A section by its name, and by its type, flags, address, offset, size, link and info.
type SectionRow<'a> = (&'a [u8], &'a [u64]);

// The number, the name, the address and the size of a symbol.
type SymbolRow<'a> = (u32, &'a [u8], u64, u64);

// A synthetic file with this number of functions: its length, the offset of its section headers, the bytes of its
// load, its sections after the null section, how many symbols it has, and some of them.
struct MadeFile<'a> {
    functions: u32,
    len: usize,
    section_headers: u64,
    load: u64,
    sections: &'a [SectionRow<'a>],
    symbols: u32,
    rows: &'a [SymbolRow<'a>],
}

const MADE_FILES: [MadeFile<'static>; 3] = [
    MadeFile {
        functions: 0,
        len: 498,
        section_headers: 178,
        load: 120,
        sections: &[
            (b".text", &[1, 6, 0x400078, 120, 0, 0, 0]),
            (b".symtab", &[2, 0, 0, 120, 24, 3, 1]),
            (b".strtab", &[3, 0, 0, 144, 1, 0, 0]),
            (b".shstrtab", &[3, 0, 0, 145, 33, 0, 0]),
        ],
        symbols: 1,
        rows: &[],
    },
    MadeFile {
        functions: 1,
        len: 547,
        section_headers: 227,
        load: 136,
        sections: &[
            (b".text", &[1, 6, 0x400078, 120, 16, 0, 0]),
            (b".symtab", &[2, 0, 0, 136, 48, 3, 1]),
            (b".strtab", &[3, 0, 0, 184, 10, 0, 0]),
            (b".shstrtab", &[3, 0, 0, 194, 33, 0, 0]),
        ],
        symbols: 2,
        rows: &[(1, b"f0000001", 0x400078, 24)],
    },
    MadeFile {
        functions: 1000,
        len: 49498,
        section_headers: 49178,
        load: 16120,
        sections: &[
            (b".text", &[1, 6, 0x400078, 120, 16000, 0, 0]),
            (b".symtab", &[2, 0, 0, 16120, 24024, 3, 1]),
            (b".strtab", &[3, 0, 0, 40144, 9001, 0, 0]),
            (b".shstrtab", &[3, 0, 0, 49145, 33, 0, 0]),
        ],
        symbols: 1001,
        rows: &[
            (1, b"f0001000", 0x403ee8, 24),
            (2, b"f0000999", 0x403ed8, 16),
            (999, b"f0000002", 0x400088, 24),
            (1000, b"f0000001", 0x400078, 16),
        ],
    },
];

fn numbers(s: &Section<'_>) -> [u64; 7] {
    [
        u64::from(s.kind),
        s.flags,
        s.addr,
        s.offset,
        s.size,
        u64::from(s.link),
        u64::from(s.info),
    ]
}

// A file has the header, the one load from its beginning on, and the sections of a synthetic file.
fn assert_sections(rt: &impl Abort, file: &[u8], made: &MadeFile<'_>) {
    assert!(rt; file.len() < 1 << 32);
    let elf = ElfFile::parse(file).expect(rt, "a sound file");
    let header = elf.header();
    assert_eq!(rt; (header.kind, header.machine), (2, 62));
    assert_eq!(rt; (header.phoff, header.shoff), (64, made.section_headers));
    assert_eq!(rt; (header.segments, header.sections), (1, 5));
    for i in 1..header.sections {
        let section = elf.section(i);
        let Some((name, row)) = made.sections.get(i as usize - 1) else {
            panic!(rt; "a section after the last one");
        };
        assert!(rt; section.name == *name, "the name of section {i}");
        assert!(rt; numbers(&section).as_slice() == *row, "section {i}");
    }
    let want = Segment {
        place: 64,
        kind: 1,
        flags: 5,
        offset: 0,
        vaddr: 0x400000,
        filesz: made.load,
        memsz: made.load,
    };
    assert_eq!(rt; elf.segment(0), want);
}

// A file has as many symbols as a synthetic file, and among them those that are listed.
fn assert_symbols(rt: &impl Abort, file: &[u8], made: &MadeFile<'_>) {
    assert!(rt; file.len() < 1 << 32);
    let elf = ElfFile::parse(file).expect(rt, "a sound file");
    assert!(rt; elf.header().sections > 2 && elf.section(2).kind == SHT_SYMTAB);
    let table = SymbolTable::at(&elf, 2).expect(rt, "a table");
    assert_eq!(rt; table.len(), made.symbols);
    for k in 0..table.len() {
        table.symbol(k).expect(rt, "a symbol");
    }
    for (k, name, value, size) in made.rows {
        assert!(rt; *k < table.len());
        let symbol = table.symbol(*k).expect(rt, "a symbol");
        assert!(rt; symbol.name == *name, "the name of symbol {k}");
        assert_eq!(rt; (symbol.value, symbol.size), (*value, *size), "symbol {k}");
        assert_eq!(rt; (symbol.kind, symbol.section), (2, 1), "symbol {k}");
    }
}

#[test]
fn made_files(rt: HostRuntime) {
    for made in &MADE_FILES {
        assert!(rt; made.functions <= 1000);
        let file = synth(rt.alloc(), made.functions).expect(&rt, "memory");
        assert_eq!(rt; file.len(), made.len);
        assert_sections(&rt, &file, made);
        assert_symbols(&rt, &file, made);
    }
}
