//! The labels of the symbols that were read. Symbols may share a name, which may be long.

ghost use Rattle.std.specs.Prelude.{◌≡◌, ◌<◌, true, List, Some, Err, IfOk, IfSome, OnOk, IsErrOf};
ghost use Rattle.size_core.specs.declared.fault.BadFile.{BadFile as BadFileSpec};
ghost use Rattle.size_model.specs.declared.view.LabelledClaim.{LabelledClaim};
ghost use Rattle.claim_sheet.specs.Known.{IsKnown};
ghost use Rattle.elf_symbols.specs.Names.{name_offset, symbol_name};
ghost use Rattle.elf_symbols.specs.Symbols.{symbol_count};
ghost use Rattle.claim_sheet.specs.LongNames.{AreKnownNames, AreNames};
ghost use Rattle.elf_claims.specs.KnownSymbols.{AreLabelsOn, AreNamed, AreNamesOf, IsLabelOf};

use claim_sheet::{KnownLabel, LongNames, Stop};
use elf_file::ElfFile;
use elf_symbols::{NameOffset, SymbolTable};
use size_core::BadFile;
use std::alloc::Global;

/// The label of the symbol that was read last, and the labels of the long names that were read before.
#[derive(Drop)]
pub struct SymbolNames<'a> {
    /// The section and the offset of the name of the last symbol. `None` before the first one.
    pub name: Option<NameOffset>,
    /// The file offset of the name.
    pub place: u64,
    /// The label of the last symbol.
    pub label: KnownLabel<'a>,
    /// The labels of the long names that were read before.
    pub long: LongNames<'a>,
}

// Returns whether there is a last name and it is where this one is.
fn is_last(last: Option<NameOffset>, name: NameOffset) -> bool
    ensures { result ≡ true → last ≡ Some name }
{
    match last {
        Some(last) => last == name,
        None => false,
    }
}

// Returns the label of symbol `k`. A name that is kept isn't read again. The fault is that of the name.
#[tactic(auto, using(claim_sheet::proofs::LongNameLemmas::found_known))]
fn label_of<'a>(
    long: &LongNames<'a>,
    table: &SymbolTable<'a>,
    k: u32,
) -> Result<KnownLabel<'a>, BadFile>
    requires index { k < symbol_count table.now.file table.now.index }
    requires long { AreNames long.now }
    requires file { long.now.file.now ≡ table.now.file }
    ensures label { IfOk result (λ l. IsLabelOf table.now.file table.now.index k l) }
    ensures bad { (bad : BadFileSpec) → IsErrOf result bad
        → symbol_name table.now.file table.now.index k ≡ Err bad }
    ensures known { (made : List LabelledClaim) → AreKnownNames made long.now
        → IfOk result (λ l. IsKnown made l) }
{
    if let Some(label) = long.label_at(table.name_place(k)) {
        if table.is_name(k, label.text) {
            return Ok(label);
        }
    }
    let text = table.name(k)?;
    Ok(KnownLabel { text, claim: None })
}

impl<'a> SymbolNames<'a> {
    /// Returns what is known before the first symbol is read.
    pub fn of(alloc: Global, file: &ElfFile<'a>) -> SymbolNames<'a>
        ensures { (made : List LabelledClaim) → AreNamed file.now made result }
    {
        SymbolNames {
            name: None,
            place: 0,
            label: KnownLabel {
                text: b"",
                claim: None,
            },
            long: LongNames::new(alloc, file.bytes()),
        }
    }

    /// Sets the label to the name of symbol `k`. The name isn't read again if the symbol before had it, or if it is
    /// long and an earlier symbol had it. Bad is the fault of the name.
    pub fn read(&mut self, table: &SymbolTable<'a>, k: u32) -> Result<(), Stop>
        requires index { k < symbol_count table.now.file table.now.index }
        requires names { AreNamesOf table.now.file self.old }
        ensures name { OnOk result
            (self.new.name ≡ Some (name_offset table.now.file table.now.index k)) }
        ensures names { OnOk result (AreNamesOf table.now.file self.new) }
        ensures bad { (bad : BadFileSpec) → IsErrOf result (Stop.Bad bad)
            → symbol_name table.now.file table.now.index k ≡ Err bad }
        ensures known { (made : List LabelledClaim) → AreLabelsOn made self.old
            → OnOk result (AreLabelsOn made self.new) }
    {
        let name = table.name_offset(k);
        if is_last(self.name, name) {
            return Ok(());
        }
        self.long.keep(self.place, self.label)?;
        let label = label_of(&self.long, table, k)?;
        self.name = Some(name);
        self.place = table.name_place(k);
        self.label = label;
        Ok(())
    }
}
