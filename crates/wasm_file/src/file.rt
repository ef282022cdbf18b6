//! An opened module.

ghost use Rattle.std.specs.Prelude.{◌≡◌, ◌≤◌, ◌<◌, ◌^◌, length, MatchResult, OnOk};
ghost use Rattle.std.specs.Option.{option_copied};
ghost use Rattle.size_core.specs.Checks.{AllHold, IsFirstFault, first_of};
ghost use Rattle.wasm_file.specs.Functions.{function_checks, functions_of, name_of};
ghost use Rattle.wasm_file.specs.Module.{IsOpened, module_checks, opened, sections_of, version_checks};
ghost use Rattle.wasm_file.specs.Shown.{Answers, IsFirstFaultOf};

use crate::answer::WasmAnswer;
use crate::body::Body;
use crate::code::{first_with, numbered_bodies};
use crate::constants::{CODE, IMPORT, VERSION};
use crate::imports::function_imports;
use crate::names::{function_names, name_in};
use crate::sections::{WasmSections, check_sections};
use byte_cursor::{Cursor, Order, u32_at};
use size_core::{BadFile, Fault};
use std::alloc::Global;
use std::marker::Model;

/// A module that passed all checks.
#[derive(Drop)]
pub struct WasmFile<'a> {
    file: &'a [u8],
}

impl<'a> Model for WasmFile<'a> {
    ghost use Rattle.std.specs.Prelude.{ℕ, List};
    ghost use Rattle.wasm_file.specs.Module.{IsOpened};

    ghost Value = { List ℕ };

    ghost view = { λ w. w.file.now };

    ghost invariant = { λ w. IsOpened w.file.now };
}

/// Checks the version. Truncated or BadHeader at 4.
#[tactic(auto, unfolding(crate::specs::Module::version_checks))]
fn check_version(file: &[u8]) -> Result<(), BadFile>
    ensures value { result ≡ first_of (version_checks file.now) }
    ensures headed { OnOk result (8 ≤ length file.now) }
{
    let fault = if file.len() < 8 {
        Fault::Truncated
    } else if u32_at(file, 4, Order::Little) != VERSION {
        Fault::BadHeader
    } else {
        return Ok(());
    };
    Err(BadFile { fault, offset: 4 })
}

impl<'a> WasmFile<'a> {
    /// Opens a module of fewer than 2^32 bytes. The checks come in this order, and the first fault is
    /// returned: the version at offset 4 (Truncated, BadHeader), and for each section, with the file offset
    /// of its id, that its size field has an end (Truncated) and is a number below 2^32 in at most five
    /// bytes (BadLeb), and that its contents lie in the file (SectionPastEnd). The caller has checked the
    /// magic number at offset 0.
    #[tactic(auto, using(crate::proofs::ModuleLemmas::opened_is, crate::proofs::ModuleLemmas::means_opened))]
    pub fn parse(file: &'a [u8]) -> Result<WasmFile<'a>, BadFile>
        requires { length file.now < 2 ^ 32 }
        ensures file { result ≡ opened file.now }
        ensures first { MatchResult result
            (λ _. AllHold (module_checks file.now))
            (IsFirstFault (module_checks file.now)) }
    {
        check_version(file)?;
        let mut cursor = Cursor::new(0, file);
        cursor.skip(8)?;
        check_sections(cursor)?;
        Ok(WasmFile { file })
    }

    /// Returns the bytes of the whole file.
    pub fn bytes(&self) -> &'a [u8]
        ensures value { result.now ≡ self.now }
        ensures small { length self.now < 2 ^ 32 }
    {
        self.file
    }

    /// Returns all sections in file order, including repeated ones and those with unknown ids. The iterator
    /// borrows only the bytes of the file.
    #[tactic(auto, unfolding(crate::specs::Sections::to_come))]
    pub fn sections(&self) -> WasmSections<'a>
        ensures value { result ≡ sections_of self.now }
        ensures known { IsOpened self.now }
    {
        let mut cursor = Cursor::new(0, self.file);
        let _ = cursor.skip(8);
        WasmSections { cursor }
    }

    /// Returns the name of a function: that of the first pair with its index, in the function names of the
    /// first custom section `name` (WebAssembly core 2.0, 7.4.1 Name Section). `None` if there is no
    /// such pair, if the name is empty, or if one of the function names can't be read.
    #[tactic(auto, unfolding(crate::specs::Functions::name_of))]
    pub fn name_of(&self, index: u32) -> Option<&'a [u8]>
        ensures { option_copied result ≡ name_of self.now index }
    {
        name_in(function_names(self.sections()), index)
    }

    /// Returns the functions with bodies, in the order of the first Code section. Imported functions have
    /// the first indices. BadWasm if the count or an import of the first Import section can't be read,
    /// and then if the count or a body of the first Code section can't be read. The fault has the file
    /// offset of the section's contents for a count, and that of the import or body otherwise.
    #[tactic(auto, using(crate::proofs::FunctionLemmas::bad_imports, crate::proofs::FunctionLemmas::good_imports))]
    pub fn functions(&self, alloc: Global) -> Result<Vec<Body<'a>>, WasmAnswer>
        ensures value { Answers result (functions_of self.now) }
        ensures first { MatchResult result
            (λ _. AllHold (function_checks self.now))
            (IsFirstFaultOf (function_checks self.now)) }
    {
        let first = function_imports(first_with(self.sections(), IMPORT))?;
        let bodies = first_with(self.sections(), CODE);
        numbered_bodies(alloc, bodies, first, function_names(self.sections()))
    }
}
