//! The file header.

use byte_cursor::Order;

/// The file header (ELF gABI, ELF Header), with the numbers of sections and segments.
#[derive(Clone, Copy, Debug, PartialEq, Eq, Hash)]
pub struct ElfHeader {
    /// Whether addresses have 64 bits, and not 32.
    pub wide: bool,
    /// The byte order of numbers.
    pub order: Order,
    /// `e_type`.
    pub kind: u16,
    /// `e_machine`.
    pub machine: u16,
    /// The file offset of the program header table (`e_phoff`).
    pub phoff: u64,
    /// The file offset of the section header table (`e_shoff`), or 0 if there is none.
    pub shoff: u64,
    /// The number of program headers.
    pub segments: u32,
    /// The number of section headers.
    pub sections: u32,
}
