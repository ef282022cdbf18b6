//! The records of a 64-bit ELF file (ELF gABI, chapters 4 and 5).

ghost use Rattle.std.specs.Prelude.{◌≡◌, ◌++◌, OnOk};
ghost use Rattle.elf_synth.specs.Records.{identification, file_header, program_header, symbol_bytes, section_header};

use crate::numbers::{push_u16, push_u32, push_u64};
use size_core::NoMemory;

/// The size of the file header in bytes.
pub const FILE_HEADER_LEN: u8 = 64;

/// The size of a program header in bytes.
pub const PROGRAM_HEADER_LEN: u8 = 56;

/// The size of a section header in bytes.
pub const SECTION_HEADER_LEN: u8 = 64;

/// The size of a symbol in bytes.
pub const SYMBOL_LEN: u8 = 24;

/// A global function symbol (Elf64_Sym).
#[derive(Clone, Copy)]
pub struct Symbol {
    /// `st_name`, the offset of its name in the string table.
    pub name: u32,
    /// `st_shndx`, the number of its section.
    pub section: u16,
    /// `st_value`, its virtual address.
    pub value: u64,
    /// `st_size`, in bytes.
    pub size: u64,
}

/// A section header with an alignment of 1 (Elf64_Shdr).
#[derive(Clone, Copy)]
pub struct SectionHeader {
    /// `sh_name`, the offset of its name in the section name table.
    pub name: u32,
    /// `sh_type`.
    pub kind: u32,
    /// `sh_flags`.
    pub flags: u64,
    /// `sh_addr`, its virtual address, or 0.
    pub addr: u64,
    /// `sh_offset`, the file offset of its bytes.
    pub offset: u64,
    /// `sh_size`, in bytes.
    pub size: u64,
    /// `sh_link`, the number of another section, or 0.
    pub link: u32,
    /// `sh_info`.
    pub info: u32,
    /// `sh_entsize`, the size of an entry in bytes if the section is a table, and else 0.
    pub entry_size: u64,
}

// Adds `e_ident` of a little-endian file of 64 bits (ELF gABI, ELF Identification).
#[tactic(auto, unfolding(crate::specs::Records::identification, crate::specs::Records::zeros))]
fn push_identification(out: &mut Vec<u8>) -> Result<(), NoMemory>
    ensures { OnOk result (out.new.items ≡ out.old.items ++ identification) }
{
    out.extend_from_slice(b"\x7fELF\x02\x01\x01\0\0\0\0\0\0\0\0\0")?;
    Ok(())
}

/// Adds the file header (Elf64_Ehdr) of an x86-64 program. One program header follows it. There are five
/// section headers, and the last one is that of the section names. `entry` is the virtual address of the
/// entry point, and `section_headers` is the file offset of the section headers.
#[tactic(auto, unfolding(crate::specs::Records::file_header))]
pub fn push_file_header(out: &mut Vec<u8>, entry: u64, section_headers: u64) -> Result<(), NoMemory>
    ensures { OnOk result (out.new.items ≡ out.old.items ++ file_header entry section_headers) }
{
    const ET_EXEC: u16 = 2;
    const EM_X86_64: u16 = 62;
    const EV_CURRENT: u32 = 1;
    push_identification(out)?;
    push_u16(out, ET_EXEC)?;
    push_u16(out, EM_X86_64)?;
    push_u32(out, EV_CURRENT)?;
    push_u64(out, entry)?;
    push_u64(out, u64::from(FILE_HEADER_LEN))?;
    push_u64(out, section_headers)?;
    push_u32(out, 0)?;
    push_u16(out, u16::from(FILE_HEADER_LEN))?;
    push_u16(out, u16::from(PROGRAM_HEADER_LEN))?;
    push_u16(out, 1)?;
    push_u16(out, u16::from(SECTION_HEADER_LEN))?;
    push_u16(out, 5)?;
    push_u16(out, 4)
}

/// Adds the program header (Elf64_Phdr) of a load that can be read and executed: the first `size` bytes of
/// the file, at virtual address `address`.
#[tactic(auto, unfolding(crate::specs::Records::program_header))]
pub fn push_program_header(out: &mut Vec<u8>, address: u64, size: u64) -> Result<(), NoMemory>
    ensures { OnOk result (out.new.items ≡ out.old.items ++ program_header address size) }
{
    const PT_LOAD: u32 = 1;
    const PF_X: u32 = 1;
    const PF_R: u32 = 4;
    push_u32(out, PT_LOAD)?;
    push_u32(out, PF_R + PF_X)?;
    push_u64(out, 0)?;
    push_u64(out, address)?;
    push_u64(out, address)?;
    push_u64(out, size)?;
    push_u64(out, size)?;
    push_u64(out, 0x1000)
}

/// Adds a symbol.
#[tactic(auto, unfolding(crate::specs::Records::symbol_bytes))]
pub fn push_symbol(out: &mut Vec<u8>, symbol: Symbol) -> Result<(), NoMemory>
    ensures { OnOk result (out.new.items ≡ out.old.items ++ symbol_bytes symbol) }
{
    const STB_GLOBAL: u8 = 1;
    const STT_FUNC: u8 = 2;
    push_u32(out, symbol.name)?;
    out.extend_from_slice(&[(STB_GLOBAL << 4) + STT_FUNC, 0])?;
    push_u16(out, symbol.section)?;
    push_u64(out, symbol.value)?;
    push_u64(out, symbol.size)
}

/// Adds a section header.
#[tactic(auto, unfolding(crate::specs::Records::section_header))]
pub fn push_section_header(out: &mut Vec<u8>, section: SectionHeader) -> Result<(), NoMemory>
    ensures { OnOk result (out.new.items ≡ out.old.items ++ section_header section) }
{
    push_u32(out, section.name)?;
    push_u32(out, section.kind)?;
    push_u64(out, section.flags)?;
    push_u64(out, section.addr)?;
    push_u64(out, section.offset)?;
    push_u64(out, section.size)?;
    push_u32(out, section.link)?;
    push_u32(out, section.info)?;
    push_u64(out, 1)?;
    push_u64(out, section.entry_size)
}
