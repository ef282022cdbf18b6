//! The constants of the standard that are used here (`mach-o/loader.h`, `mach-o/nlist.h`).

/// The first four bytes of a 32-bit file, as a number in the byte order of the file (`magic`).
pub const MH_MAGIC: u32 = 0xfeed_face;

/// The first four bytes of a 64-bit file, as a number in the byte order of the file (`magic`).
pub const MH_MAGIC_64: u32 = 0xfeed_facf;

/// A relocatable object file (`filetype`).
pub const MH_OBJECT: u32 = 0x1;

/// A companion file with only debug information (`filetype`).
pub const MH_DSYM: u32 = 0xa;

/// A 32-bit segment (`cmd`).
pub const LC_SEGMENT: u32 = 0x1;

/// The symbol table and its string table (`cmd`).
pub const LC_SYMTAB: u32 = 0x2;

/// The tables for dynamic linking, with the indirect symbol table (`cmd`).
pub const LC_DYSYMTAB: u32 = 0xb;

/// A 64-bit segment (`cmd`).
pub const LC_SEGMENT_64: u32 = 0x19;

/// The UUID of the file (`cmd`).
pub const LC_UUID: u32 = 0x1b;

/// The code signature (`cmd`).
pub const LC_CODE_SIGNATURE: u32 = 0x1d;

/// The split segment information (`cmd`).
pub const LC_SEGMENT_SPLIT_INFO: u32 = 0x1e;

/// The information for dyld: rebasing, binding and exports (`cmd`).
pub const LC_DYLD_INFO: u32 = 0x22;

/// The same information, required for dyld (`cmd`).
pub const LC_DYLD_INFO_ONLY: u32 = 0x8000_0022;

/// The start addresses of functions (`cmd`).
pub const LC_FUNCTION_STARTS: u32 = 0x26;

/// The ranges of data in code (`cmd`).
pub const LC_DATA_IN_CODE: u32 = 0x29;

/// The code signing requirements of linked libraries (`cmd`).
pub const LC_DYLIB_CODE_SIGN_DRS: u32 = 0x2b;

/// The linker optimization hints (`cmd`).
pub const LC_LINKER_OPTIMIZATION_HINT: u32 = 0x2e;

/// The export trie (`cmd`).
pub const LC_DYLD_EXPORTS_TRIE: u32 = 0x8000_0033;

/// The chained fixups: rebasing and binding (`cmd`).
pub const LC_DYLD_CHAINED_FIXUPS: u32 = 0x8000_0034;

/// The bits of a section's `flags` that hold its type.
pub const SECTION_TYPE: u32 = 0xff;

/// A section that is filled with zeros and has no bytes in the file (section type).
pub const S_ZEROFILL: u32 = 0x1;

/// A zero-filled section that can be larger than 4 GiB (section type).
pub const S_GB_ZEROFILL: u32 = 0xc;

/// A zero-filled section of thread-local variables (section type).
pub const S_THREAD_LOCAL_ZEROFILL: u32 = 0x12;

/// The bits that mark a symbol for a debugger (`n_type`).
pub const N_STAB: u8 = 0xe0;

/// The bits that hold a symbol's type (`n_type`).
pub const N_TYPE: u8 = 0x0e;

/// A symbol that is defined in a section (symbol type).
pub const N_SECT: u8 = 0x0e;
