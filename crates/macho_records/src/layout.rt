//! The sizes of records in bytes, and the offsets of their fields (`mach-o/loader.h`, `mach-o/nlist.h`).

ghost use Rattle.std.specs.Prelude.{◌≡◌};
ghost use Rattle.byte_cursor.specs.Encoding.{by_class};

use byte_cursor::ByClass;

/// The size of the header (`mach_header`, `mach_header_64`).
pub const MACH_HEADER_LEN: ByClass = ByClass(28, 32);

/// `filetype`, the type of the file.
pub const HEADER_FILETYPE: ByClass = ByClass(12, 12);

/// `ncmds`, the number of load commands.
pub const HEADER_NCMDS: ByClass = ByClass(16, 16);

/// `sizeofcmds`, the size of all load commands together.
pub const HEADER_SIZEOFCMDS: ByClass = ByClass(20, 20);

/// The size of what all load commands begin with (`load_command`).
pub const LOAD_COMMAND_LEN: u64 = 8;

/// `cmd`, the kind of the command.
pub const COMMAND_CMD: ByClass = ByClass(0, 0);

/// `cmdsize`, the size of the command.
pub const COMMAND_CMDSIZE: ByClass = ByClass(4, 4);

/// The size of a segment command without its sections, which follow it (`segment_command`,
/// `segment_command_64`).
pub const SEGMENT_COMMAND_LEN: ByClass = ByClass(56, 72);

/// `segname`, the name, in 16 bytes.
pub const SEGMENT_SEGNAME: ByClass = ByClass(8, 8);

/// `vmaddr`, the virtual address.
pub const SEGMENT_VMADDR: ByClass = ByClass(24, 24);

/// `vmsize`, the size in memory.
pub const SEGMENT_VMSIZE: ByClass = ByClass(28, 32);

/// `fileoff`, the file offset of the bytes.
pub const SEGMENT_FILEOFF: ByClass = ByClass(32, 40);

/// `filesize`, the size in the file.
pub const SEGMENT_FILESIZE: ByClass = ByClass(36, 48);

/// `maxprot`, the maximum protection of the memory.
pub const SEGMENT_MAXPROT: ByClass = ByClass(40, 56);

/// `nsects`, the number of sections.
pub const SEGMENT_NSECTS: ByClass = ByClass(48, 64);

/// The size of a section header (`section`, `section_64`).
pub const SECTION_LEN: ByClass = ByClass(68, 80);

/// `sectname`, the name, in 16 bytes.
pub const SECTION_SECTNAME: ByClass = ByClass(0, 0);

/// `segname`, the name of the segment, in 16 bytes.
pub const SECTION_SEGNAME: ByClass = ByClass(16, 16);

/// `addr`, the virtual address.
pub const SECTION_ADDR: ByClass = ByClass(32, 32);

/// `size`, in bytes.
pub const SECTION_SIZE: ByClass = ByClass(36, 40);

/// `offset`, the file offset of the bytes.
pub const SECTION_OFFSET: ByClass = ByClass(40, 48);

/// `flags`, the section type and attributes.
pub const SECTION_FLAGS: ByClass = ByClass(56, 64);

/// The size of the command for the symbol table (`symtab_command`).
pub const SYMTAB_COMMAND_LEN: u64 = 24;

/// `symoff`, the file offset of the symbols.
pub const SYMTAB_SYMOFF: ByClass = ByClass(8, 8);

/// `nsyms`, the number of symbols.
pub const SYMTAB_NSYMS: ByClass = ByClass(12, 12);

/// `stroff`, the file offset of the string table.
pub const SYMTAB_STROFF: ByClass = ByClass(16, 16);

/// `strsize`, the size of the string table.
pub const SYMTAB_STRSIZE: ByClass = ByClass(20, 20);

/// The size of the command for the tables for dynamic linking (`dysymtab_command`).
pub const DYSYMTAB_COMMAND_LEN: u64 = 80;

/// `indirectsymoff`, the file offset of the indirect symbol table. `nindirectsyms` follows it.
pub const DYSYMTAB_INDIRECTSYMOFF: ByClass = ByClass(56, 56);

/// The size of the command for the UUID (`uuid_command`).
pub const UUID_COMMAND_LEN: u64 = 24;

/// The size of the command for the information for dyld (`dyld_info_command`).
pub const DYLD_INFO_COMMAND_LEN: u64 = 48;

/// `rebase_off`, the file offset of the rebase information. `rebase_size` follows it.
pub const DYLD_INFO_REBASE_OFF: ByClass = ByClass(8, 8);

/// `bind_off`, the file offset of the binding information. `bind_size` follows it.
pub const DYLD_INFO_BIND_OFF: ByClass = ByClass(16, 16);

/// `weak_bind_off`, the file offset of the weak binding information. `weak_bind_size` follows it.
pub const DYLD_INFO_WEAK_BIND_OFF: ByClass = ByClass(24, 24);

/// `lazy_bind_off`, the file offset of the lazy binding information. `lazy_bind_size` follows it.
pub const DYLD_INFO_LAZY_BIND_OFF: ByClass = ByClass(32, 32);

/// `export_off`, the file offset of the export information. `export_size` follows it.
pub const DYLD_INFO_EXPORT_OFF: ByClass = ByClass(40, 40);

/// The size of a command for a range of the link-edit data (`linkedit_data_command`).
pub const LINKEDIT_DATA_COMMAND_LEN: u64 = 16;

/// `dataoff`, the file offset of the range. `datasize` follows it.
pub const LINKEDIT_DATAOFF: ByClass = ByClass(8, 8);

/// The size of a symbol (`nlist`, `nlist_64`).
pub const NLIST_LEN: ByClass = ByClass(12, 16);

/// `n_strx`, the offset of the name in the string table, or 0 for no name.
pub const NLIST_STRX: ByClass = ByClass(0, 0);

/// `n_type`, the type.
pub const NLIST_TYPE: ByClass = ByClass(4, 4);

/// `n_sect`, the number of the section, or 0 if there is none.
pub const NLIST_SECT: ByClass = ByClass(5, 5);

/// `n_value`, the value.
pub const NLIST_VALUE: ByClass = ByClass(8, 8);

/// A law: the sizes and offsets in digits, from `mach-o/loader.h` and `mach-o/nlist.h`. Of two numbers, the first
/// is for the 32-bit class, and the second for the 64-bit class.
pub fn standard_layout()
    ensures header { (MACH_HEADER_LEN ≡ by_class 28 32) × (HEADER_FILETYPE ≡ by_class 12 12)
        × (HEADER_NCMDS ≡ by_class 16 16) × (HEADER_SIZEOFCMDS ≡ by_class 20 20) }
    ensures load_command { (LOAD_COMMAND_LEN ≡ 8) × (COMMAND_CMD ≡ by_class 0 0)
        × (COMMAND_CMDSIZE ≡ by_class 4 4) }
    ensures segment { (SEGMENT_COMMAND_LEN ≡ by_class 56 72) × (SEGMENT_SEGNAME ≡ by_class 8 8)
        × (SEGMENT_VMADDR ≡ by_class 24 24) × (SEGMENT_VMSIZE ≡ by_class 28 32)
        × (SEGMENT_FILEOFF ≡ by_class 32 40) × (SEGMENT_FILESIZE ≡ by_class 36 48)
        × (SEGMENT_MAXPROT ≡ by_class 40 56) × (SEGMENT_NSECTS ≡ by_class 48 64) }
    ensures section { (SECTION_LEN ≡ by_class 68 80) × (SECTION_SECTNAME ≡ by_class 0 0)
        × (SECTION_SEGNAME ≡ by_class 16 16) × (SECTION_ADDR ≡ by_class 32 32)
        × (SECTION_SIZE ≡ by_class 36 40) × (SECTION_OFFSET ≡ by_class 40 48)
        × (SECTION_FLAGS ≡ by_class 56 64) }
    ensures symtab { (SYMTAB_COMMAND_LEN ≡ 24) × (SYMTAB_SYMOFF ≡ by_class 8 8)
        × (SYMTAB_NSYMS ≡ by_class 12 12) × (SYMTAB_STROFF ≡ by_class 16 16)
        × (SYMTAB_STRSIZE ≡ by_class 20 20) }
    ensures dysymtab { (DYSYMTAB_COMMAND_LEN ≡ 80) × (DYSYMTAB_INDIRECTSYMOFF ≡ by_class 56 56) }
    ensures uuid { UUID_COMMAND_LEN ≡ 24 }
    ensures dyld_info { (DYLD_INFO_COMMAND_LEN ≡ 48) × (DYLD_INFO_REBASE_OFF ≡ by_class 8 8)
        × (DYLD_INFO_BIND_OFF ≡ by_class 16 16) × (DYLD_INFO_WEAK_BIND_OFF ≡ by_class 24 24)
        × (DYLD_INFO_LAZY_BIND_OFF ≡ by_class 32 32) × (DYLD_INFO_EXPORT_OFF ≡ by_class 40 40) }
    ensures linkedit_data { (LINKEDIT_DATA_COMMAND_LEN ≡ 16) × (LINKEDIT_DATAOFF ≡ by_class 8 8) }
    ensures symbol { (NLIST_LEN ≡ by_class 12 16) × (NLIST_STRX ≡ by_class 0 0)
        × (NLIST_TYPE ≡ by_class 4 4) × (NLIST_SECT ≡ by_class 5 5)
        × (NLIST_VALUE ≡ by_class 8 8) }
{}
