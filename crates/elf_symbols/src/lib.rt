//! The symbols of ELF files (ELF gABI, Symbol Table). The file is borrowed, and only an index allocates
//! memory.
#![tactic(auto)]

mod constants;
mod layout;
mod numbers;
mod symbol;
mod table;

pub use constants::{
    SHT_DYNSYM, SHT_SYMTAB, SHT_SYMTAB_SHNDX, STT_FUNC, STT_GNU_IFUNC, STT_NOTYPE, STT_OBJECT,
    standard_numbers,
};
pub use layout::standard_layout;
pub use numbers::NumbersIndex;
pub use symbol::{NameOffset, Symbol};
pub use table::SymbolTable;
