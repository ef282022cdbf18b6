//! The claims of symbols (ELF gABI, Symbol Table).

ghost use Rattle.std.specs.Prelude.{◌≡◌, ◌<◌, OnOk};
ghost use Rattle.elf_file.specs.Tables.{section_at, section_count};
ghost use Rattle.elf_symbols.specs.Symbols.{SymbolRecord, symbol_count};
ghost use Rattle.elf_symbols.specs.Shown.{shown};
ghost use Rattle.claim_sheet.specs.Adds.{Adds, AddsRead};
ghost use Rattle.claim_sheet.specs.Known.{IsKnown};
ghost use Rattle.claim_sheet.specs.Reaches.{claim_on_some};
ghost use Rattle.elf_claims.specs.KnownSymbols.{AreKnown, AreNamed};
ghost use Rattle.elf_claims.specs.SymbolClaims.{IsTableType, claims_of_type, has_space, is_in_section, names_bytes, symbol_address, symbol_claim, symbol_list, symbol_reach, symbol_space, symbols_claims, tables_claims};

use crate::known_symbols::KnownSymbols;
use crate::loads::{has_addresses, is_relocatable};
use crate::symbol_names::SymbolNames;
use claim_sheet::{ClaimSheet, KnownLabel, Reach, Stop, span};
use elf_file::{EM_ARM, ElfFile, SHN_LORESERVE, SHN_XINDEX};
use elf_symbols::{
    SHT_DYNSYM, SHT_SYMTAB, STT_FUNC, STT_GNU_IFUNC, STT_NOTYPE, STT_OBJECT, Symbol, SymbolTable,
};
use size_core::NoMemory;
use std::alloc::Global;

fn is_in_section(symbol: &Symbol<'_>) -> bool
    ensures { result ≡ is_in_section (shown symbol.now) }
{
    let is_reserved = symbol.shndx >= SHN_LORESERVE && symbol.shndx < SHN_XINDEX;
    symbol.section != 0 && !is_reserved
}

#[tactic(auto, unfolding(crate::specs::SymbolClaims::names_bytes))]
fn names_bytes(symbol: &Symbol<'_>) -> bool
    ensures { result ≡ names_bytes (shown symbol.now) }
{
    let kind = symbol.kind;
    let is_data_or_code = kind == STT_NOTYPE
        || kind == STT_OBJECT
        || kind == STT_FUNC
        || kind == STT_GNU_IFUNC;
    is_data_or_code && symbol.size > 0 && !symbol.name.is_empty() && is_in_section(symbol)
}

// Returns the address of a symbol. Bit 0 of an Arm function's value is the instruction set and not part of the address.
fn symbol_address(file: &ElfFile<'_>, symbol: &Symbol<'_>) -> u64
    ensures { result ≡ symbol_address file.now (shown symbol.now) }
{
    if file.header().machine == EM_ARM && symbol.kind == STT_FUNC {
        symbol.value - symbol.value % 2
    } else {
        symbol.value
    }
}

fn has_space(file: &ElfFile<'_>, symbol: &Symbol<'_>) -> bool
    ensures { result ≡ has_space file.now (shown symbol.now) }
{
    if !is_relocatable(file) {
        return true;
    }
    symbol.section < file.header().sections && has_addresses(file, symbol.section)
}

fn symbol_space(file: &ElfFile<'_>, symbol: &Symbol<'_>) -> u32
    ensures { result ≡ symbol_space file.now (shown symbol.now) }
{
    if is_relocatable(file) {
        symbol.section
    } else {
        0
    }
}

// Returns what the claim of a symbol covers.
#[tactic(auto, unfolding(crate::specs::SymbolClaims::symbol_reach))]
fn symbol_reach(file: &ElfFile<'_>, symbol: &Symbol<'_>) -> Option<Reach>
    ensures { result ≡ symbol_reach file.now (shown symbol.now) }
{
    if names_bytes(symbol) && has_space(file, symbol) {
        let space = symbol_space(file, symbol);
        let address = symbol_address(file, symbol);
        Some(Reach::in_memory(span(space, address, symbol.size)))
    } else {
        None
    }
}

// Adds the claim of a symbol under a label that may be known, if there is something to cover.
#[tactic(auto, using(claim_sheet::proofs::SheetLemmas::adding_none))]
fn add_reach(
    reach: Option<Reach>,
    label: &mut KnownLabel<'_>,
    sheet: &mut ClaimSheet,
) -> Result<(), NoMemory>
    requires { IsKnown sheet.old.made label.old }
    ensures adds { Adds result sheet.old sheet.new (claim_on_some reach label.old.text.now) }
    ensures known { OnOk result (IsKnown sheet.new.made label.new) }
    ensures text { label.new.text.now ≡ label.old.text.now }
{
    match reach {
        Some(reach) => sheet.add_known(reach, label),
        None => Ok(()),
    }
}

#[tactic(auto, using(crate::proofs::SymbolLemmas::symbol_bad), unfolding(crate::specs::SymbolClaims::symbol_claim))]
fn add_symbol<'a>(
    file: &ElfFile<'_>,
    table: &SymbolTable<'a>,
    k: u32,
    names: &mut SymbolNames<'a>,
    sheet: &mut ClaimSheet,
) -> Result<(), Stop>
    requires file { table.now.file ≡ file.now }
    requires index { k < symbol_count table.now.file table.now.index }
    requires names { AreNamed file.now sheet.old.made names.old }
    ensures adds { AddsRead result sheet.old sheet.new
        (symbol_claim file.now table.now.index k) }
    ensures names { OnOk result (AreNamed file.now sheet.new.made names.new) }
{
    names.read(table, k)?;
    let symbol = table.symbol_named(k, names.label.text)?;
    add_reach(symbol_reach(file, &symbol), &mut names.label, sheet)?;
    Ok(())
}

// Adds the claims of the symbols of a table, in order.
#[tactic(auto, using(claim_sheet::proofs::LoopLemmas::read_goes, claim_sheet::proofs::LoopLemmas::read_ends), unfolding(crate::specs::SymbolClaims::symbol_list))]
fn add_table_symbols<'a>(
    file: &ElfFile<'_>,
    table: &SymbolTable<'a>,
    names: &mut SymbolNames<'a>,
    sheet: &mut ClaimSheet,
) -> Result<(), Stop>
    requires file { table.now.file ≡ file.now }
    requires names { AreNamed file.now sheet.old.made names.old }
    ensures adds { AddsRead result sheet.old sheet.new (symbol_list file.now table.now.index) }
    ensures names { OnOk result (AreNamed file.now sheet.new.made names.new) }
{
    for k in 0..table.len() {
        add_symbol(file, table, k, names, sheet)?;
    }
    Ok(())
}

// Adds the claims of section i if it is a symbol table of this type.
#[tactic(auto, using(claim_sheet::proofs::SheetLemmas::adding_none), unfolding(crate::specs::SymbolClaims::claims_of_type, crate::specs::SymbolClaims::table_claims))]
fn add_table<'a>(
    file: &ElfFile<'a>,
    kind: u32,
    i: u32,
    known: &mut KnownSymbols<'a>,
    sheet: &mut ClaimSheet,
) -> Result<(), Stop>
    requires kind { IsTableType kind }
    requires above { 0 < i }
    requires index { i < section_count file.now }
    requires known { AreKnown file.now sheet.old.made known.old }
    ensures adds { AddsRead result sheet.old sheet.new (claims_of_type kind file.now i) }
    ensures known { OnOk result (AreKnown file.now sheet.new.made known.new) }
{
    if file.section(i).kind != kind {
        return Ok(());
    }
    let table = SymbolTable::indexed(file, i, &known.numbers)?;
    add_table_symbols(file, &table, &mut known.names, sheet)
}

// Adds the claims of the symbol tables of this type, in order.
#[tactic(auto, using(claim_sheet::proofs::LoopLemmas::read_goes, claim_sheet::proofs::LoopLemmas::read_ends), unfolding(crate::specs::SymbolClaims::tables_claims))]
fn add_tables<'a>(
    file: &ElfFile<'a>,
    kind: u32,
    known: &mut KnownSymbols<'a>,
    sheet: &mut ClaimSheet,
) -> Result<(), Stop>
    requires kind { IsTableType kind }
    requires known { AreKnown file.now sheet.old.made known.old }
    ensures adds { AddsRead result sheet.old sheet.new (tables_claims kind file.now) }
    ensures known { OnOk result (AreKnown file.now sheet.new.made known.new) }
{
    for i in 1..file.header().sections {
        add_table(file, kind, i, known, sheet)?;
    }
    Ok(())
}

/// Adds the claims of all symbols: first those of the tables of type SHT_SYMTAB, in order, and then those of type
/// SHT_DYNSYM. Bad is the first fault of a table or a symbol.
#[tactic(auto, using(claim_sheet::proofs::LoopLemmas::read_joined, claim_sheet::proofs::LoopLemmas::joined_front, claim_sheet::proofs::LoopLemmas::joined_later), unfolding(crate::specs::SymbolClaims::symbols_claims))]
pub fn add_symbols(alloc: Global, file: &ElfFile<'_>, sheet: &mut ClaimSheet) -> Result<(), Stop>
    ensures { AddsRead result sheet.old sheet.new (symbols_claims file.now) }
{
    let mut known = KnownSymbols::of(alloc, file)?;
    add_tables(file, SHT_SYMTAB, &mut known, sheet)?;
    add_tables(file, SHT_DYNSYM, &mut known, sheet)
}
