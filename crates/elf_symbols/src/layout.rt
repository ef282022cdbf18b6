//! The size of a symbol and the offsets of its fields, in bytes (ELF gABI, Symbol Table).

ghost use Rattle.std.specs.Prelude.{◌≡◌};
ghost use Rattle.byte_cursor.specs.Encoding.{by_class};

use byte_cursor::ByClass;

/// The size of a symbol (`Elf32_Sym`, `Elf64_Sym`).
pub const SYMBOL_LEN: ByClass = ByClass(16, 24);

/// The offset of the symbol's name in the names of its table, or 0 if it has none.
pub const ST_NAME: ByClass = ByClass(0, 0);

/// The value, in most files a virtual address.
pub const ST_VALUE: ByClass = ByClass(4, 8);

/// The size in bytes.
pub const ST_SIZE: ByClass = ByClass(8, 16);

/// The type, in the low four bits, and the binding.
pub const ST_INFO: ByClass = ByClass(12, 4);

/// The number of the symbol's section, or an escape.
pub const ST_SHNDX: ByClass = ByClass(14, 6);

/// A law: the size and the offsets in digits (ELF gABI, Symbol Table). The first number is for the 32-bit class,
/// and the second for the 64-bit class.
pub fn standard_layout()
    ensures symbol { (SYMBOL_LEN ≡ by_class 16 24) × (ST_NAME ≡ by_class 0 0)
        × (ST_VALUE ≡ by_class 4 8) × (ST_SIZE ≡ by_class 8 16) × (ST_INFO ≡ by_class 12 4)
        × (ST_SHNDX ≡ by_class 14 6) }
{}
