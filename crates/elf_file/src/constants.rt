//! The constants of the standard that are used here (ELF gABI, chapters 4 and 5), and a law that states them
//! in digits.

ghost use Rattle.std.specs.Prelude.{◌≡◌};

/// A relocatable file (`e_type`).
pub const ET_REL: u16 = 1;

/// Arm, 32 bits (`e_machine`).
pub const EM_ARM: u16 = 40;

/// A section header that describes no section (`sh_type`).
pub const SHT_NULL: u32 = 0;

/// A section of notes (`sh_type`).
pub const SHT_NOTE: u32 = 7;

/// A section that has no bytes in the file (`sh_type`).
pub const SHT_NOBITS: u32 = 8;

/// A section whose bytes can be written (`sh_flags`).
pub const SHF_WRITE: u64 = 0x1;

/// A section that has virtual addresses (`sh_flags`).
pub const SHF_ALLOC: u64 = 0x2;

/// A section with instructions (`sh_flags`).
pub const SHF_EXECINSTR: u64 = 0x4;

/// A section of thread-local storage (`sh_flags`).
pub const SHF_TLS: u64 = 0x400;

/// A section whose bytes are compressed (`sh_flags`).
pub const SHF_COMPRESSED: u64 = 0x800;

/// The first reserved section number (`st_shndx`).
pub const SHN_LORESERVE: u16 = 0xff00;

/// An escape: the section number doesn't fit the field (`e_shstrndx`, `st_shndx`).
pub const SHN_XINDEX: u16 = 0xffff;

/// A segment that is loaded into memory (`p_type`).
pub const PT_LOAD: u32 = 1;

/// A segment of notes (`p_type`).
pub const PT_NOTE: u32 = 4;

/// A segment that can be executed (`p_flags`).
pub const PF_X: u32 = 1;

/// A segment that can be written (`p_flags`).
pub const PF_W: u32 = 2;

/// A segment that can be read (`p_flags`).
pub const PF_R: u32 = 4;

/// An escape: the number of program headers doesn't fit `e_phnum`.
pub const PN_XNUM: u16 = 0xffff;

/// A law: the constants in digits (ELF gABI, ELF Header: `e_type`, `e_machine`, `e_phnum`; Sections: Special
/// Section Indexes, Section Types, Section Attribute Flags; Program Header: Segment Types, Segment Flag Bits).
pub fn standard_numbers()
    ensures rel { ET_REL ≡ 1 }
    ensures arm { EM_ARM ≡ 40 }
    ensures null { SHT_NULL ≡ 0 }
    ensures note_section { SHT_NOTE ≡ 7 }
    ensures nobits { SHT_NOBITS ≡ 8 }
    ensures write { SHF_WRITE ≡ 0x1 }
    ensures alloc { SHF_ALLOC ≡ 0x2 }
    ensures execinstr { SHF_EXECINSTR ≡ 0x4 }
    ensures tls { SHF_TLS ≡ 0x400 }
    ensures compressed { SHF_COMPRESSED ≡ 0x800 }
    ensures loreserve { SHN_LORESERVE ≡ 0xff00 }
    ensures xindex { SHN_XINDEX ≡ 0xffff }
    ensures load { PT_LOAD ≡ 1 }
    ensures note_segment { PT_NOTE ≡ 4 }
    ensures x { PF_X ≡ 1 }
    ensures w { PF_W ≡ 2 }
    ensures r { PF_R ≡ 4 }
    ensures xnum { PN_XNUM ≡ 0xffff }
{}
