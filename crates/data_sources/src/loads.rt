//! The loads of a file: the parts that are mapped at virtual addresses.

ghost use Rattle.std.specs.Prelude.{◌≡◌, ◌<◌, All, IfOk, IfSome};
ghost use Rattle.size_model.specs.Loads.{IsLoad};
ghost use Rattle.data_sources.specs.Groups.{groups_of};
ghost use Rattle.data_sources.specs.Loads.{load_in, loads_of, slots_of};

use crate::binary::Binary;
use size_core::{Load, NoMemory};
use std::alloc::Global;

/// Returns the number of slots. Each slot may be a load. The slots are the program headers of an ELF file (the sections
/// of a relocatable one) and the segments of a Mach-O file. A WebAssembly module has none.
pub fn load_slots(binary: &Binary<'_>) -> u32
    ensures { result ≡ slots_of binary.now }
{
    match binary {
        Binary::Elf(file) => elf_claims::load_slots(file),
        Binary::Macho(file) => macho_claims::load_slots(file),
        Binary::Wasm(_) => 0,
    }
}

/// Returns the load of a slot, or None if the slot is no load.
pub fn load_at(binary: &Binary<'_>, i: u32) -> Option<Load>
    requires { i < slots_of binary.now }
    ensures load { result ≡ load_in binary.now i }
    ensures fits { IfSome result IsLoad }
{
    match binary {
        Binary::Elf(file) => elf_claims::load_at(file, i),
        Binary::Macho(file) => macho_claims::load_at(file, i),
        Binary::Wasm(_) => None,
    }
}

/// Returns all loads, in the order of the slots. It walks the file's tables once.
#[tactic(auto, unfolding(crate::specs::Loads::loads_of, elf_claims::specs::Loads::loads_of, macho_claims::specs::Loads::loads_of, size_core::specs::Gather::gather))]
pub fn loads_of(alloc: Global, binary: &Binary<'_>) -> Result<Vec<Load>, NoMemory>
    ensures are { IfOk result (λ v. v.items ≡ loads_of binary.now) }
    ensures fit { IfOk result (λ v. All IsLoad v.items) }
{
    match binary {
        Binary::Elf(file) => elf_claims::loads_of(alloc, file),
        Binary::Macho(file) => macho_claims::loads_of(alloc, file),
        Binary::Wasm(_) => Ok(Vec::new(alloc)),
    }
}
