//! What is known of the symbols of a file while they are read.

ghost use Rattle.std.specs.Prelude.{IfOk, List};
ghost use Rattle.size_model.specs.declared.view.LabelledClaim.{LabelledClaim};
ghost use Rattle.elf_claims.specs.KnownSymbols.{AreKnown};

use crate::symbol_names::SymbolNames;
use elf_file::ElfFile;
use elf_symbols::NumbersIndex;
use size_core::NoMemory;
use std::alloc::Global;

/// What is known of the symbols of a file while they are read.
#[derive(Drop)]
pub struct KnownSymbols<'a> {
    /// The sections with extended section indexes.
    pub numbers: NumbersIndex<'a>,
    /// The labels of the symbols that were read.
    pub names: SymbolNames<'a>,
}

impl<'a> KnownSymbols<'a> {
    /// Returns what is known before the first symbol is read.
    pub fn of(alloc: Global, file: &ElfFile<'a>) -> Result<KnownSymbols<'a>, NoMemory>
        ensures { IfOk result (λ k. (made : List LabelledClaim) → AreKnown file.now made k) }
    {
        let numbers = NumbersIndex::of(alloc, file)?;
        let names = SymbolNames::of(alloc, file);
        Ok(KnownSymbols { numbers, names })
    }
}
