//! A symbol table in its file.

ghost use Rattle.std.specs.Prelude.{◌≡◌, ◌+◌, ◌≤◌, ◌<◌, IfOk, length};
ghost use Rattle.size_core.specs.Checks.{Gives};
ghost use Rattle.macho_records.specs.Header.{HasHeader};
ghost use Rattle.macho_records.specs.Layout.{symbol_len};
ghost use Rattle.macho_symbols.specs.Names.{IsNamed};
ghost use Rattle.macho_symbols.specs.Shown.{placed_shown};
ghost use Rattle.macho_symbols.specs.Symbols.{HasTable, place_of_name, strings, symbol_name, symbol_named, symbol_of};
ghost use Rattle.macho_symbols.specs.Taken.{Reads};

use crate::answer::SpanAnswer;
use crate::names::Names;
use crate::symbol::PlacedSymbol;
use crate::symbol_table::SymbolTable;
use byte_cursor::{Encoding, text_at};
use macho_records::{NLIST_LEN, NLIST_SECT, NLIST_STRX, NLIST_TYPE, NLIST_VALUE};
use size_core::{BadFile, Fault};

/// A symbol table, and the file that it lies in.
#[derive(Clone, Copy)]
pub struct FileTable<'a> {
    /// The bytes of the whole file.
    pub file: &'a [u8],
    /// The class and the byte order of the file.
    pub encoding: Encoding,
    /// The file ranges of the symbols and of their string table.
    pub fields: SymbolTable,
    ghost header: { HasHeader file.now encoding },
    ghost known: { HasTable file.now fields },
}

impl<'a> FileTable<'a> {
    /// Returns the bytes of the string table.
    pub fn strings(self) -> &'a [u8]
        ensures { result.now ≡ strings self.entry.file.now self.entry.fields }
    {
        let first = self.fields.stroff as usize;
        &self.file[first..first + self.fields.strsize as usize]
    }

    /// Returns the name of the symbol at file offset `place`.
    #[tactic(auto, unfolding(crate::specs::Symbols::symbol_name))]
    fn name(self, place: u64) -> Result<&'a [u8], BadFile>
        requires { place + 4 ≤ length self.file.now }
        ensures { Gives (λ name. name.now) result
            (symbol_name self.entry.file.now self.entry.fields place) }
    {
        let strx = self.encoding.four(self.file, place, NLIST_STRX);
        if strx == 0 {
            return Ok(&[]);
        }
        match text_at(self.strings(), strx as usize) {
            Some(name) => Ok(name),
            None => Err(BadFile {
                fault: Fault::NameOutside,
                offset: place,
            }),
        }
    }

    /// Returns the name of the symbol at file offset `place`. A long name that was read before isn't read again.
    #[tactic(auto, unfolding(crate::specs::Symbols::symbol_name))]
    fn next_name(self, place: u64, names: &mut Names<'a>) -> Result<&'a [u8], SpanAnswer>
        requires names { names.old ≡ strings self.file.now self.fields }
        requires within { place + 4 ≤ length self.file.now }
        ensures name { Reads (λ name. name.now) result
            (symbol_name self.entry.file.now self.entry.fields place) }
        ensures names { names.new ≡ names.old }
    {
        let strx = self.encoding.four(self.file, place, NLIST_STRX);
        if strx == 0 {
            return Ok(&[]);
        }
        match names.read(strx)? {
            Some(name) => Ok(name),
            None => Err(SpanAnswer::Bad(BadFile {
                fault: Fault::NameOutside,
                offset: place,
            })),
        }
    }

    /// Returns the symbol at file offset `place`, with this name and the file offset of the name.
    fn symbol_named(self, place: u64, name: &'a [u8]) -> PlacedSymbol<'a>
        requires { place + symbol_len self.file.now ≤ length self.file.now }
        ensures symbol { placed_shown result ≡ symbol_named self.entry.file.now name.now place }
        ensures name { result.name ≡ name.entry }
        ensures place { result.name_place
            ≡ place_of_name self.entry.file.now self.entry.fields place }
    {
        let strx = self.encoding.four(self.file, place, NLIST_STRX);
        PlacedSymbol {
            place,
            name,
            name_place: self.fields.stroff as u64 + strx as u64,
            kind: self.encoding.byte(self.file, place, NLIST_TYPE),
            sect: self.encoding.byte(self.file, place, NLIST_SECT),
            value: self.encoding.word(self.file, place, NLIST_VALUE),
        }
    }

    /// Returns symbol `k` of a table, with the file offset of its name. NameOutside at the symbol if its name has no
    /// terminating zero byte in the string table.
    #[tactic(auto, unfolding(crate::specs::Symbols::symbol_of), using(crate::proofs::SymbolLemmas::symbol_within))]
    pub fn symbol(self, k: u32) -> Result<PlacedSymbol<'a>, BadFile>
        requires { k < self.fields.nsyms }
        ensures symbol { let t = self.entry in
            Gives placed_shown result (symbol_of t.file.now t.fields k) }
        ensures name { let t = self.entry in
            IfOk result (λ s. s.name_place ≡ place_of_name t.file.now t.fields s.place) }
    {
        let place = self.fields.symoff as u64 + k as u64 * self.encoding.pick(NLIST_LEN);
        let name = self.name(place)?;
        Ok(self.symbol_named(place, name))
    }

    /// Returns symbol `k` of a table, with the file offset of its name. A long name that was read before isn't read
    /// again. Bad is the fault of `symbol`.
    #[tactic(auto, unfolding(crate::specs::Symbols::symbol_of), using(crate::proofs::SymbolLemmas::symbol_within, crate::proofs::SymbolLemmas::name_placed, crate::proofs::SymbolLemmas::symbol_bad))]
    pub fn next_symbol(self, k: u32, names: &mut Names<'a>) -> Result<PlacedSymbol<'a>, SpanAnswer>
        requires number { k < self.fields.nsyms }
        requires names { names.old ≡ strings self.file.now self.fields }
        ensures symbol { Reads placed_shown result
            (symbol_of self.entry.file.now self.entry.fields k) }
        ensures name { IfOk result (λ s. IsNamed self.entry.file.now s) }
        ensures names { names.new ≡ names.old }
    {
        let place = self.fields.symoff as u64 + k as u64 * self.encoding.pick(NLIST_LEN);
        let name = self.next_name(place, names)?;
        Ok(self.symbol_named(place, name))
    }
}
