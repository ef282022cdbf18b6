//! Symbol tables of ELF files, and the numbers of their sections.

ghost use Rattle.std.specs.Prelude.{◌≡◌, ◌+◌, ◌≤◌, ◌<◌, length};

use crate::checks::{holds, same};
use elf_file::ElfFile;
use elf_symbols::{NumbersIndex, SHT_DYNSYM, SHT_SYMTAB, SHT_SYMTAB_SHNDX, SymbolTable};
use sample_files::{put, put_all};
use size_core::{BadFile, Fault};

const PUT_SYMBOLS_BYTES: [(usize, &[u8]); 3] = [
    (64, b"\x01\0\0\0\x12\0\x03\0\x78\0\x40\0\0\0\0\0\x08"),
    (88, b"\x03\0\0\0\x11\0\xff\xff\x80\0\x40\0\0\0\0\0\x0c"),
    (112, b"\0a\0bc\0"),
];

/// Writes a file header for `sections` sections, whose headers begin at `headers`, two symbols at 64 and their names
/// at 112. The number of the second symbol's section is in a table of extended section numbers.
fn put_symbols(file: &mut [u8], headers: u8, sections: u8)
    requires { 120 ≤ length file.old }
    ensures { length file.new ≡ length file.old }
{
    put(file, 0, b"\x7fELF\x02\x01\x01");
    put(file, 40, &[headers]);
    put(file, 52, b"\x40\0\x38\0\0\0\x40\0");
    put(file, 60, &[sections]);
    put_all(file, &PUT_SYMBOLS_BYTES);
}

const FILE_WITH_SYMBOLS_BYTES: [(usize, &[u8]); 7] = [
    (124, b"\0\0\x01"),
    (196, b"\x02"),
    (216, b"\x40\0\0\0\0\0\0\0\x30\0\0\0\0\0\0\0\x02"),
    (260, b"\x03"),
    (280, b"\x70\0\0\0\0\0\0\0\x06"),
    (324, b"\x12"),
    (344, b"\x78\0\0\0\0\0\0\0\x08\0\0\0\0\0\0\0\x01"),
];

/// Two symbols at 64, their names at 112, numbers of sections for them at 120, and the headers of these three sections
/// at 128, after that of section 0.
fn file_with_symbols() -> [u8; 384] {
    let mut file = [0; 384];
    put_symbols(&mut file, 128, 4);
    put_all(&mut file, &FILE_WITH_SYMBOLS_BYTES);
    file
}

#[test]
fn symbols_of_a_table(rt: HostRuntime) {
    let file = file_with_symbols();
    let elf = ElfFile::parse(&file).expect(&rt, "the file is well formed");
    assert!(rt; elf.header().sections > 1 && elf.section(1).kind == SHT_SYMTAB);
    let table = SymbolTable::at(&elf, 1).expect(&rt, "section 1 names a section");
    assert_eq!(rt; table.len(), 2);
    let first = table.symbol(0).expect(&rt, "the first symbol has its name");
    holds(&rt, &"first", first.name == b"a".as_slice());
    let range = (first.place, first.value, first.size);
    same(&rt, &"first", &range, &(64, 0x400078, 8));
    let kind = (first.kind, first.shndx, first.section);
    same(&rt, &"first", &kind, &(2, 3, 3));
    let second = table
        .symbol(1)
        .expect(&rt, "the second symbol has its section");
    holds(&rt, &"second", second.name == b"bc".as_slice());
    let section = (second.shndx, second.section);
    same(&rt, &"second", &section, &(0xffff, 0x10000));
}

/// The fault of the table in section 1 or, if it has none, of its second symbol, once bytes are written over.
fn fault_of(at: usize, bytes: &[u8]) -> Option<BadFile>
    requires { at + length bytes.now ≤ 384 }
{
    let mut file = file_with_symbols();
    put(&mut file, at, bytes);
    let elf = ElfFile::parse(&file).ok()?;
    if elf.header().sections < 2 || elf.section(1).kind != SHT_SYMTAB {
        return None;
    }
    match SymbolTable::at(&elf, 1) {
        Ok(table) if table.len() > 1 => table.symbol(1).err(),
        Ok(_) => None,
        Err(bad) => Some(bad),
    }
}

// What is written over which bytes, and the fault with its offset.
const TABLE_FAULTS: [(usize, &[u8], Option<(Fault, u64)>); 6] = [
    (0, b"", None),
    (232, b"\x04", Some((Fault::BadIndex, 192))),
    (88, b"\x05", None),
    (88, b"\x06", Some((Fault::NameOutside, 88))),
    // No section has the numbers of sections, and none for this symbol.
    (324, b"\x01", Some((Fault::BadIndex, 88))),
    (352, b"\x07", Some((Fault::BadIndex, 88))),
];

#[test]
fn faults_of_a_table(rt: HostRuntime) {
    for &(at, bytes, want) in &TABLE_FAULTS {
        assert!(rt; at < 380 && bytes.len() < 4);
        let want = want.map(|(fault, offset)| BadFile { fault, offset });
        same(&rt, &(at, bytes), &fault_of(at, bytes), &want);
    }
}

/// Writes the header of section `i`. The headers begin at 144.
fn put_section(file: &mut [u8], i: usize, kind: u32, bytes: (u8, u8), link: u8)
    requires index { i < 9 }
    requires kind { kind < 256 }
    requires length { length file.old ≡ 720 }
    ensures { length file.new ≡ 720 }
{
    let at = 144 + 64 * i;
    file[at + 4] = kind as u8;
    file[at + 24] = bytes.0;
    file[at + 32] = bytes.1;
    file[at + 40] = link;
}

const FILE_WITH_TABLES_BYTES: [(usize, &[u8]); 3] = [
    (126, b"\x01"),
    (134, b"\x02"),
    (142, b"\x03"),
];

/// The symbols of `file_with_symbols` as the tables in the sections 1, 2 and 8. By the numbers of sections at 120, 128
/// and 136 the second symbol is in section 0x10000, 0x20000 or 0x30000. The table in section 1 has those in the
/// sections 5 and 6, that in section 2 those in the sections 4 and 7, and the third has none.
fn file_with_tables() -> [u8; 720] {
    let mut file = [0; 720];
    put_symbols(&mut file, 144, 9);
    put_all(&mut file, &FILE_WITH_TABLES_BYTES);
    put_section(&mut file, 1, SHT_SYMTAB, (64, 48), 3);
    put_section(&mut file, 2, SHT_DYNSYM, (64, 48), 3);
    put_section(&mut file, 3, 3, (112, 6), 0);
    put_section(&mut file, 4, SHT_SYMTAB_SHNDX, (136, 8), 2);
    put_section(&mut file, 5, SHT_SYMTAB_SHNDX, (120, 8), 1);
    put_section(&mut file, 6, SHT_SYMTAB_SHNDX, (128, 8), 1);
    put_section(&mut file, 7, SHT_SYMTAB_SHNDX, (120, 8), 2);
    put_section(&mut file, 8, SHT_SYMTAB, (64, 48), 3);
    file
}

/// The section of a table's second symbol, or the fault of one of them.
fn second_section(table: Result<SymbolTable<'_>, BadFile>) -> Result<u32, BadFile> {
    let table = table?;
    if table.len() < 2 {
        return Ok(0);
    }
    let symbol = table.symbol(1)?;
    Ok(symbol.section)
}

const NO_NUMBER: BadFile = BadFile {
    fault: Fault::BadIndex,
    offset: 88,
};

/// A table's section, the first section with its numbers, and the section of its second symbol.
const FIRST_NUMBERS: [(u32, Option<u32>, Result<u32, BadFile>); 3] = [
    (1, Some(5), Ok(0x10000)),
    (2, Some(4), Ok(0x30000)),
    (8, None, Err(NO_NUMBER)),
];

#[test]
fn first_numbers_of_each_table(rt: HostRuntime) {
    let file = file_with_tables();
    let elf = ElfFile::parse(&file).expect(&rt, "a sound file");
    let numbers = NumbersIndex::of(rt.alloc(), &elf).expect(&rt, "memory");
    for &(i, first, want) in &FIRST_NUMBERS {
        same(&rt, &i, &numbers.first(i), &first);
        assert!(rt; i > 0 && i < elf.header().sections);
        let kind = elf.section(i).kind;
        assert!(rt; kind == SHT_SYMTAB || kind == SHT_DYNSYM);
        let found = second_section(SymbolTable::at(&elf, i));
        same(&rt, &i, &found, &want);
        let found = second_section(SymbolTable::indexed(&elf, i, &numbers));
        same(&rt, &i, &found, &want);
    }
}
