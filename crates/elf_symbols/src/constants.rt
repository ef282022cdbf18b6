//! The constants of the standard that are used here (ELF gABI, Sections and Symbol Table), and a law that
//! states them in digits.

ghost use Rattle.std.specs.Prelude.{◌≡◌};

/// A symbol table (`sh_type`).
pub const SHT_SYMTAB: u32 = 2;

/// A symbol table for dynamic linking (`sh_type`).
pub const SHT_DYNSYM: u32 = 11;

/// The extended section indexes of a symbol table: the section numbers that don't fit `st_shndx`
/// (`sh_type`).
pub const SHT_SYMTAB_SHNDX: u32 = 18;

/// A symbol of no type (`st_info`).
pub const STT_NOTYPE: u8 = 0;

/// A symbol of data (`st_info`).
pub const STT_OBJECT: u8 = 1;

/// A symbol of a function (`st_info`).
pub const STT_FUNC: u8 = 2;

/// An indirect function: its code returns the address of the function to call (`st_info`, GNU).
pub const STT_GNU_IFUNC: u8 = 10;

/// A law: the constants in digits (ELF gABI, Sections: Section Types; Symbol Table: Symbol Types).
/// STT_GNU_IFUNC is the first number of the range that the gABI leaves to the operating system, STT_LOOS.
pub fn standard_numbers()
    ensures symtab { SHT_SYMTAB ≡ 2 }
    ensures dynsym { SHT_DYNSYM ≡ 11 }
    ensures shndx { SHT_SYMTAB_SHNDX ≡ 18 }
    ensures notype { STT_NOTYPE ≡ 0 }
    ensures object { STT_OBJECT ≡ 1 }
    ensures func { STT_FUNC ≡ 2 }
    ensures ifunc { STT_GNU_IFUNC ≡ 10 }
{}
