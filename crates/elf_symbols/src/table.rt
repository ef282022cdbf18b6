//! Symbol tables.

ghost use Rattle.std.specs.Prelude.{◌≡◌, ◌+◌, ◌*◌, ◌<◌, ◌≤◌, ◌^◌, length, true, IfOk, IfSome, Ok, Some};
ghost use Rattle.size_core.specs.Checks.{Gives};
ghost use Rattle.byte_cursor.specs.Numbers.{text};
ghost use Rattle.elf_file.specs.Layout.{encoding_of};
ghost use Rattle.elf_file.specs.Tables.{section_at, section_count};
ghost use Rattle.elf_symbols.specs.Symbols.{IsSymbolTable, bytes_of, bytes_place, has_numbers_of, numbers_index, symbol_at, symbol_count, symbol_len, symbol_place, table_at};
ghost use Rattle.elf_symbols.specs.Names.{IsNameAt, name_offset, name_place, symbol_name};
ghost use Rattle.elf_symbols.specs.Shown.{shown};
ghost use Rattle.elf_symbols.specs.TableFacts.{HasSymbol};

use crate::constants::SHT_SYMTAB_SHNDX;
use crate::layout::{ST_INFO, ST_NAME, ST_SHNDX, ST_SIZE, ST_VALUE, SYMBOL_LEN};
use crate::numbers::NumbersIndex;
use crate::symbol::{NameOffset, Symbol, section_number_at};
use byte_cursor::{Encoding, text_at};
use elf_file::ElfFile;
use size_core::{BadFile, Fault};
use std::marker::Model;

/// An opened symbol table of an ELF file (ELF gABI, Symbol Table).
#[derive(Drop)]
pub struct SymbolTable<'a> {
    file: &'a [u8],
    index: u32,
    encoding: Encoding,
    offset: u64,
    count: u32,
    link: u32,
    // The file offset of the names, or 0 if there are none.
    base: u64,
    names: &'a [u8],
    numbers: &'a [u8],
}

impl<'a> Model for SymbolTable<'a> {
    ghost use Rattle.elf_symbols.specs.Symbols.{Table};
    ghost use Rattle.elf_symbols.specs.TableFacts.{IsTable};

    ghost Value = { Table };

    ghost view = { λ t. record { file = t.file.now; index = t.index } };

    ghost invariant = { λ t.
        IsTable t.file.now t.index t.encoding t.offset t.count t.link t.base t.names.now
        t.numbers.now };
}

/// Returns whether section `j` has the extended section indexes of the table in section `i`.
fn has_numbers_of(file: &ElfFile<'_>, i: u32, j: u32) -> bool
    requires { j < section_count file.now }
    ensures { result ≡ has_numbers_of file.now i j }
{
    let section = file.section(j);
    section.kind == SHT_SYMTAB_SHNDX && section.link == i
}

/// Returns the number of the first section with the extended section indexes of the table in section `i`.
#[tactic(auto, using(size_core::proofs::Gathered::first_next, size_core::proofs::Gathered::first_here, size_core::proofs::Gathered::first_end))]
fn numbers_index(file: &ElfFile<'_>, i: u32) -> Option<u32>
    ensures value { result ≡ numbers_index file.now i }
    ensures below { IfSome result (λ j. j < section_count file.now) }
{
    for j in 1..file.header().sections {
        if has_numbers_of(file, i, j) {
            return Some(j);
        }
    }
    None
}

/// Returns the bytes of a section, and none if there is no section.
fn numbers_in<'a>(file: &ElfFile<'a>, section: Option<u32>) -> &'a [u8]
    requires { IfSome section (λ j. j < section_count file.now) }
    ensures { result.now ≡ bytes_of file.now section }
{
    match section {
        Some(j) => file.section_bytes(j),
        None => &[],
    }
}

/// Returns the file offset of the bytes of section `j`, or 0 if it has none.
#[tactic(auto, unfolding(crate::specs::Symbols::bytes_place))]
fn bytes_place(file: &ElfFile<'_>, j: u32) -> u64
    requires { j < section_count file.now }
    ensures { result ≡ bytes_place file.now j }
{
    if file.section_bytes(j).is_empty() {
        0
    } else {
        file.section(j).offset
    }
}

impl<'a> SymbolTable<'a> {
    /// Opens the symbol table in section `i`. BadIndex at the section header if `sh_link` is no section's number.
    pub fn at(file: &ElfFile<'a>, i: u32) -> Result<SymbolTable<'a>, BadFile>
        requires { IsSymbolTable file.now i }
        ensures { result ≡ table_at file.now i }
    {
        SymbolTable::open_table(file, i, numbers_index(file, i))
    }

    /// Opens the symbol table in section `i`, as `at` does. An index finds its extended section indexes, so a file
    /// with many tables has its sections visited only once.
    pub fn indexed(
        file: &ElfFile<'a>,
        i: u32,
        numbers: &NumbersIndex<'_>,
    ) -> Result<SymbolTable<'a>, BadFile>
        requires table { IsSymbolTable file.now i }
        requires numbers { numbers.now ≡ file.now }
        ensures { result ≡ table_at file.now i }
    {
        SymbolTable::open_table(file, i, numbers.first(i))
    }

    /// Opens the symbol table in section `i`, whose extended section indexes are in section `numbers`, if
    /// it has any.
    #[tactic(auto, unfolding(crate::specs::Symbols::table_at, crate::specs::Symbols::symbol_count), using(crate::proofs::Within::table_within, crate::proofs::PlaceLemmas::place_small))]
    fn open_table(
        file: &ElfFile<'a>,
        i: u32,
        numbers: Option<u32>,
    ) -> Result<SymbolTable<'a>, BadFile>
        requires table { IsSymbolTable file.now i }
        requires numbers { numbers ≡ numbers_index file.now i }
        requires below { IfSome numbers (λ j. j < section_count file.now) }
        ensures { result ≡ table_at file.now i }
    {
        let section = file.section(i);
        if section.link >= file.header().sections {
            return Err(BadFile {
                fault: Fault::BadIndex,
                offset: section.place,
            });
        }
        let encoding = file.encoding();
        let bytes = file.bytes();
        Ok(SymbolTable {
            file: bytes,
            index: i,
            encoding,
            offset: section.offset,
            count: (section.size / encoding.pick(SYMBOL_LEN)) as u32,
            link: section.link,
            base: bytes_place(file, section.link),
            names: file.section_bytes(section.link),
            numbers: numbers_in(file, numbers),
        })
    }

    /// Returns how many symbols the table has.
    pub fn len(&self) -> u32
        ensures { result ≡ symbol_count self.now.file self.now.index }
    {
        self.count
    }

    /// Returns the file offset of symbol `k`.
    fn offset_of(&self, k: u32) -> u64
        requires { k < symbol_count self.now.file self.now.index }
        ensures value { result ≡ symbol_place self.now.file self.now.index k }
        ensures within { HasSymbol self.now.file result }
    {
        self.offset + k as u64 * self.encoding.pick(SYMBOL_LEN)
    }

    /// Returns where the name of symbol `k` is.
    pub fn name_offset(&self, k: u32) -> NameOffset
        requires { k < symbol_count self.now.file self.now.index }
        ensures { result ≡ name_offset self.now.file self.now.index k }
    {
        NameOffset {
            section: self.link,
            offset: self.encoding.four(self.file, self.offset_of(k), ST_NAME),
        }
    }

    /// Returns the file offset of the name of symbol `k`, if the name isn't empty.
    pub fn name_place(&self, k: u32) -> u64
        requires { k < symbol_count self.now.file self.now.index }
        ensures { result ≡ name_place self.now.file self.now.index k }
    {
        self.base + self.encoding.four(self.file, self.offset_of(k), ST_NAME) as u64
    }

    /// Returns whether symbol `k` has a name, and a name as long as `name` would end among the table's names. If so,
    /// and if `name` is the text at `name_place(k)`, then `name` is the symbol's name. For a symbol with this name it
    /// returns true, unless the name is empty.
    #[tactic(auto, using(crate::proofs::PlaceLemmas::is_name, crate::proofs::PlaceLemmas::name_fits))]
    pub fn is_name(&self, k: u32, name: &[u8]) -> bool
        requires { k < symbol_count self.now.file self.now.index }
        ensures known { result ≡ true
            → text self.now.file (name_place self.now.file self.now.index k) ≡ Some name.now
            → IsNameAt self.now.file (name_offset self.now.file self.now.index k) name.now }
        ensures every { 0 < length name.now
            → symbol_name self.now.file self.now.index k ≡ Ok name.now → result ≡ true }
    {
        let offset = self.encoding.four(self.file, self.offset_of(k), ST_NAME);
        0 < offset && (offset as usize) < self.names.len().saturating_sub(name.len())
    }

    /// Returns the name of symbol `k`. NameOutside at the symbol if it has no terminating zero byte in the table's
    /// names.
    #[tactic(auto, using(crate::proofs::NameLemmas::name_any, crate::proofs::PlaceLemmas::name_placed), unfolding(crate::specs::Symbols::name_at))]
    pub fn name(&self, k: u32) -> Result<&'a [u8], BadFile>
        requires { k < symbol_count self.now.file self.now.index }
        ensures name { Gives (λ name. name.now) result
            (symbol_name self.now.file self.now.index k) }
        ensures same { IfOk result
            (λ name. IsNameAt self.now.file (name_offset self.now.file self.now.index k) name.now) }
        ensures place { IfOk result (λ name. 0 < length name.now
            → text self.now.file (name_place self.now.file self.now.index k) ≡ Some name.now) }
    {
        let place = self.offset_of(k);
        let offset = self.encoding.four(self.file, place, ST_NAME);
        if offset == 0 {
            return Ok(&[]);
        }
        match text_at(self.names, offset as usize) {
            Some(name) => Ok(name),
            None => Err(BadFile {
                fault: Fault::NameOutside,
                offset: place,
            }),
        }
    }

    /// Returns symbol `k`, whose name is known and isn't read again. BadIndex at the symbol if it needs an
    /// extended section index and has none.
    #[tactic(auto, unfolding(crate::specs::Symbols::symbol_at))]
    pub fn symbol_named(&self, k: u32, name: &'a [u8]) -> Result<Symbol<'a>, BadFile>
        requires index { k < symbol_count self.now.file self.now.index }
        requires name { IsNameAt self.now.file
            (name_offset self.now.file self.now.index k) name.now }
        ensures symbol { Gives shown result (symbol_at self.now.file self.now.index k) }
        ensures name { IfOk result (λ s. s.name.now ≡ name.now) }
    {
        let encoding = self.encoding;
        let place = self.offset_of(k);
        let section = section_number_at(self.file, encoding, self.numbers, place, k)?;
        let info = encoding.byte(self.file, place, ST_INFO);
        Ok(Symbol {
            place,
            name,
            value: encoding.word(self.file, place, ST_VALUE),
            size: encoding.word(self.file, place, ST_SIZE),
            kind: info % 16,
            shndx: encoding.half(self.file, place, ST_SHNDX),
            section,
        })
    }

    /// Returns symbol `k`. NameOutside if its name has no terminating zero byte in the table's names,
    /// and BadIndex if it needs an extended section index and has none. Both are at the symbol.
    #[tactic(auto, unfolding(crate::specs::Symbols::symbol_at))]
    pub fn symbol(&self, k: u32) -> Result<Symbol<'a>, BadFile>
        requires { k < symbol_count self.now.file self.now.index }
        ensures { Gives shown result (symbol_at self.now.file self.now.index k) }
    {
        let name = self.name(k)?;
        self.symbol_named(k, name)
    }
}
