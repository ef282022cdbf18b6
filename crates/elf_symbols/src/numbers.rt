//! The sections with extended section indexes (SHT_SYMTAB_SHNDX), sorted by their symbol tables.

ghost use Rattle.std.specs.Prelude.{◌≡◌, ◌++◌, ◌<◌, ◌≤◌, IfOk, IfSome, OnOk, length};
ghost use Rattle.elf_file.specs.Tables.{section_count};
ghost use Rattle.elf_symbols.specs.Symbols.{numbers_index};
ghost use Rattle.elf_symbols.specs.Numbers.{IsNumbersIndex, RiseByTable, all_numbers, first_for, numbers_at};

use crate::constants::SHT_SYMTAB_SHNDX;
use elf_file::ElfFile;
use size_core::NoMemory;
use std::alloc::Global;
use std::marker::Model;

/// A section with extended section indexes.
#[derive(Clone, Copy, Debug)]
pub struct TableNumbers {
    /// The section number of its symbol table.
    pub table: u32,
    /// The section number of the extended section indexes.
    pub section: u32,
}

/// The sections of a file with extended section indexes, sorted by their symbol tables. Without such
/// sections, no memory is allocated.
#[derive(Drop)]
pub struct NumbersIndex<'a> {
    file: &'a [u8],
    known: Vec<TableNumbers>,
}

impl<'a> Model for NumbersIndex<'a> {
    ghost use Rattle.std.specs.Prelude.{ℕ, List};
    ghost use Rattle.elf_symbols.specs.Numbers.{IsNumbersIndex};

    ghost Value = { List ℕ };

    ghost view = { λ n. n.file.now };

    ghost invariant = { λ n. IsNumbersIndex n.file.now n.known.items };
}

/// Adds section `j`, if it has extended section indexes.
#[tactic(auto, unfolding(crate::specs::Numbers::numbers_at))]
fn push_numbers(file: &ElfFile<'_>, j: u32, known: &mut Vec<TableNumbers>) -> Result<(), NoMemory>
    requires { j < section_count file.now }
    ensures { OnOk result (known.new.items ≡ known.old.items ++ numbers_at file.now j) }
{
    let section = file.section(j);
    if section.kind != SHT_SYMTAB_SHNDX {
        return Ok(());
    }
    known.push(TableNumbers {
        table: section.link,
        section: j,
    })?;
    Ok(())
}

/// Returns the sections with extended section indexes, in file order.
#[tactic(auto, using(size_core::proofs::Gathered::gather_next, size_core::proofs::Gathered::gather_end), unfolding(crate::specs::Numbers::all_numbers))]
fn all_numbers(alloc: Global, file: &ElfFile<'_>) -> Result<Vec<TableNumbers>, NoMemory>
    ensures { IfOk result (λ v. v.items ≡ all_numbers file.now) }
{
    let mut known = Vec::new(alloc);
    for j in 1..file.header().sections {
        push_numbers(file, j, &mut known)?;
    }
    Ok(known)
}

/// Returns the sections with extended section indexes, sorted by their symbol tables, and those of one
/// table in file order.
fn numbers_by_table(alloc: Global, file: &ElfFile<'_>) -> Result<Vec<TableNumbers>, NoMemory>
    ensures { IfOk result (λ v. IsNumbersIndex file.now v.items) }
{
    let mut known = all_numbers(alloc, file)?;
    known.sort_by_key(|numbers| numbers.table)?;
    Ok(known)
}

/// Returns the number of the first section that belongs to the table in section `i`. `None` if there is none.
fn first_for(known: &[TableNumbers], i: u32) -> Option<u32>
    requires { RiseByTable known.now }
    ensures { result ≡ first_for i known.now }
{
    let at = known.partition_point(|numbers| numbers.table < i);
    if at >= known.len() {
        return None;
    }
    let numbers = known[at];
    if numbers.table != i {
        return None;
    }
    Some(numbers.section)
}

impl<'a> NumbersIndex<'a> {
    /// Returns the index of a file.
    pub fn of(alloc: Global, file: &ElfFile<'a>) -> Result<NumbersIndex<'a>, NoMemory>
        ensures { IfOk result (λ n. n ≡ file.now) }
    {
        let known = numbers_by_table(alloc, file)?;
        Ok(NumbersIndex {
            file: file.bytes(),
            known,
        })
    }

    /// Returns the number of the first section with the extended section indexes of the table in section
    /// `i`. `None` if no section has them.
    #[tactic(auto, using(crate::proofs::NumbersLemmas::numbers_within))]
    pub fn first(&self, i: u32) -> Option<u32>
        ensures value { result ≡ numbers_index self.now i }
        ensures below { IfSome result (λ j. j < section_count self.now) }
    {
        first_for(self.known.as_slice(), i)
    }
}
