//! The groups of claims of a file of any format. Only this module, `loads` and `binary` distinguish the kinds of
//! file.

ghost use Rattle.std.specs.Prelude.{Ok, Err};
ghost use Rattle.claim_sheet.specs.Adds.{Adds, AddsRead};
ghost use Rattle.data_sources.specs.Groups.{groups_of};

use crate::binary::Binary;
use claim_sheet::{ClaimSheet, Stop, Wrap};
use size_core::{BadFile, Fault, NoMemory};
use std::alloc::Global;

// The fault of a data source that this kind of file doesn't have.
const NOT_OFFERED: Stop = Stop::Bad(BadFile {
    fault: Fault::SourceNotForFile,
    offset: 0,
});

/// A file, and the allocator for the labels of its claims. The methods add claims of the file to a sheet.
#[derive(Clone, Copy)]
pub struct FileClaims<'a, 'b> {
    /// The allocator.
    pub alloc: Global,
    /// The file.
    pub file: &'b Binary<'a>,
}

impl FileClaims<'_, '_> {
    /// Adds the claims of the loads. A WebAssembly module has none.
    #[tactic(auto, using(claim_sheet::proofs::SheetLemmas::adding_none))]
    pub fn add_loads(&self, wrap: Wrap, sheet: &mut ClaimSheet) -> Result<(), NoMemory>
        ensures { Adds result sheet.old sheet.new ((groups_of self.now.file.now).loads wrap) }
    {
        match self.file {
            Binary::Elf(file) => elf_claims::add_loads(self.alloc, file, wrap, sheet),
            Binary::Macho(file) => macho_claims::add_loads(file, wrap, sheet),
            Binary::Wasm(_) => Ok(()),
        }
    }

    /// Adds the claims of the sections.
    pub fn add_sections(&self, wrap: Wrap, sheet: &mut ClaimSheet) -> Result<(), NoMemory>
        ensures { Adds result sheet.old sheet.new ((groups_of self.now.file.now).sections wrap) }
    {
        match self.file {
            Binary::Elf(file) => elf_claims::add_sections(file, wrap, sheet),
            Binary::Macho(file) => macho_claims::add_sections(self.alloc, file, wrap, sheet),
            Binary::Wasm(file) => wasm_claims::add_sections(self.alloc, file, wrap, sheet),
        }
    }

    /// Adds the claims of the link-edit parts. Only a Mach-O file has some.
    #[tactic(auto, using(claim_sheet::proofs::SheetLemmas::adding_none))]
    pub fn add_link_edit(&self, sheet: &mut ClaimSheet) -> Result<(), NoMemory>
        ensures { Adds result sheet.old sheet.new ((groups_of self.now.file.now).link_edit) }
    {
        match self.file {
            Binary::Elf(_) | Binary::Wasm(_) => Ok(()),
            Binary::Macho(file) => macho_claims::add_link_edit(file, sheet),
        }
    }

    /// Adds the claims of the headers.
    pub fn add_headers(&self, sheet: &mut ClaimSheet) -> Result<(), NoMemory>
        ensures { Adds result sheet.old sheet.new ((groups_of self.now.file.now).headers) }
    {
        match self.file {
            Binary::Elf(file) => elf_claims::add_headers(file, sheet),
            Binary::Macho(file) => macho_claims::add_headers(file, sheet),
            Binary::Wasm(file) => wasm_claims::add_headers(file, sheet),
        }
    }

    /// Adds the claims of the group that `segments` shows: the loads, or the sections of a format without loads.
    pub fn add_segments(&self, sheet: &mut ClaimSheet) -> Result<(), NoMemory>
        ensures { Adds result sheet.old sheet.new ((groups_of self.now.file.now).segments) }
    {
        match self.file {
            Binary::Elf(_) | Binary::Macho(_) => self.add_loads(Wrap::Plain, sheet),
            Binary::Wasm(_) => self.add_sections(Wrap::Plain, sheet),
        }
    }

    /// Adds the claims of the symbols. Bad is their first fault.
    pub fn add_symbols(&self, sheet: &mut ClaimSheet) -> Result<(), Stop>
        ensures { AddsRead result sheet.old sheet.new (groups_of self.now.file.now).symbols }
    {
        match self.file {
            Binary::Elf(file) => elf_claims::add_symbols(self.alloc, file, sheet),
            Binary::Macho(file) => macho_claims::add_symbols(self.alloc, file, sheet),
            Binary::Wasm(file) => wasm_claims::add_symbols(self.alloc, file, sheet),
        }
    }

    /// Adds the claims of the compile units. Bad is their first fault. SourceNotForFile at 0 for a WebAssembly module.
    pub fn add_units(&self, sheet: &mut ClaimSheet) -> Result<(), Stop>
        ensures { AddsRead result sheet.old sheet.new (groups_of self.now.file.now).units }
    {
        match self.file {
            Binary::Elf(file) => elf_claims::add_units(self.alloc, file, sheet),
            Binary::Macho(file) => macho_claims::add_units(self.alloc, file, sheet),
            Binary::Wasm(_) => Err(NOT_OFFERED),
        }
    }

    /// Adds the claims of the source lines. Bad is their first fault. SourceNotForFile at 0 for a WebAssembly module.
    pub fn add_lines(&self, sheet: &mut ClaimSheet) -> Result<(), Stop>
        ensures { AddsRead result sheet.old sheet.new (groups_of self.now.file.now).lines }
    {
        match self.file {
            Binary::Elf(file) => elf_claims::add_lines(self.alloc, file, sheet),
            Binary::Macho(file) => macho_claims::add_lines(self.alloc, file, sheet),
            Binary::Wasm(_) => Err(NOT_OFFERED),
        }
    }
}
