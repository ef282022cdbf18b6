//! The sizes of records and the offsets of their fields, in bytes (ELF gABI, ELF Header, Section Header, Program
//! Header).

ghost use Rattle.std.specs.Prelude.{◌≡◌};
ghost use Rattle.byte_cursor.specs.Encoding.{by_class};

use byte_cursor::ByClass;

/// The size of the file header (`Elf32_Ehdr`, `Elf64_Ehdr`).
pub const HEADER_LEN: ByClass = ByClass(52, 64);

/// The object file type.
pub const E_TYPE: ByClass = ByClass(16, 16);

/// The machine.
pub const E_MACHINE: ByClass = ByClass(18, 18);

/// The file offset of the program header table.
pub const E_PHOFF: ByClass = ByClass(28, 32);

/// The file offset of the section header table, or 0 if there is none.
pub const E_SHOFF: ByClass = ByClass(32, 40);

/// The size of a program header.
pub const E_PHENTSIZE: ByClass = ByClass(42, 54);

/// The number of program headers.
pub const E_PHNUM: ByClass = ByClass(44, 56);

/// The size of a section header.
pub const E_SHENTSIZE: ByClass = ByClass(46, 58);

/// The number of section headers.
pub const E_SHNUM: ByClass = ByClass(48, 60);

/// The number of the section name table.
pub const E_SHSTRNDX: ByClass = ByClass(50, 62);

/// The size of a section header (`Elf32_Shdr`, `Elf64_Shdr`).
pub const SECTION_LEN: ByClass = ByClass(40, 64);

/// The offset of the section's name in the section name table.
pub const SH_NAME: ByClass = ByClass(0, 0);

/// The section type.
pub const SH_TYPE: ByClass = ByClass(4, 4);

/// The section attribute flags.
pub const SH_FLAGS: ByClass = ByClass(8, 8);

/// The virtual address.
pub const SH_ADDR: ByClass = ByClass(12, 16);

/// The file offset of the section's bytes.
pub const SH_OFFSET: ByClass = ByClass(16, 24);

/// The size of the section in bytes.
pub const SH_SIZE: ByClass = ByClass(20, 32);

/// The number of another section.
pub const SH_LINK: ByClass = ByClass(24, 40);

/// More information, by the section type.
pub const SH_INFO: ByClass = ByClass(28, 44);

/// The size of a program header (`Elf32_Phdr`, `Elf64_Phdr`).
pub const SEGMENT_LEN: ByClass = ByClass(32, 56);

/// The segment type.
pub const P_TYPE: ByClass = ByClass(0, 0);

/// The segment flags.
pub const P_FLAGS: ByClass = ByClass(24, 4);

/// The file offset of the segment's bytes.
pub const P_OFFSET: ByClass = ByClass(4, 8);

/// The virtual address.
pub const P_VADDR: ByClass = ByClass(8, 16);

/// The number of bytes in the file.
pub const P_FILESZ: ByClass = ByClass(16, 32);

/// The number of bytes in memory.
pub const P_MEMSZ: ByClass = ByClass(20, 40);

/// A law: the sizes and offsets in digits (ELF gABI, ELF Header, Section Header, Program Header). The first number
/// is for the 32-bit class, and the second for the 64-bit class.
pub fn standard_layout()
    ensures file_header { (HEADER_LEN ≡ by_class 52 64) × (E_TYPE ≡ by_class 16 16)
        × (E_MACHINE ≡ by_class 18 18) × (E_PHOFF ≡ by_class 28 32) × (E_SHOFF ≡ by_class 32 40)
        × (E_PHENTSIZE ≡ by_class 42 54) × (E_PHNUM ≡ by_class 44 56)
        × (E_SHENTSIZE ≡ by_class 46 58) × (E_SHNUM ≡ by_class 48 60)
        × (E_SHSTRNDX ≡ by_class 50 62) }
    ensures section_header { (SECTION_LEN ≡ by_class 40 64) × (SH_NAME ≡ by_class 0 0)
        × (SH_TYPE ≡ by_class 4 4) × (SH_FLAGS ≡ by_class 8 8) × (SH_ADDR ≡ by_class 12 16)
        × (SH_OFFSET ≡ by_class 16 24) × (SH_SIZE ≡ by_class 20 32) × (SH_LINK ≡ by_class 24 40)
        × (SH_INFO ≡ by_class 28 44) }
    ensures program_header { (SEGMENT_LEN ≡ by_class 32 56) × (P_TYPE ≡ by_class 0 0)
        × (P_FLAGS ≡ by_class 24 4) × (P_OFFSET ≡ by_class 4 8) × (P_VADDR ≡ by_class 8 16)
        × (P_FILESZ ≡ by_class 16 32) × (P_MEMSZ ≡ by_class 20 40) }
{}
