//! The records of Mach-O files, as `mach-o/loader.h` and `mach-o/nlist.h` define them: constants, sizes, field offsets,
//! the header, and what each kind of load command contains. It knows no file as a whole, and allocates no memory.
#![tactic(auto)]

mod constants;
mod header;
mod kinds;
mod laws;
mod layout;
mod link_edit;
mod names;
mod parts;

pub use constants::{
    LC_SEGMENT, LC_SEGMENT_64, LC_SYMTAB, LC_UUID, MH_DSYM, MH_OBJECT, N_SECT, N_STAB, N_TYPE,
};
pub use header::encoding;
pub use kinds::{is_zero_filled, least_by_kind};
pub use laws::standard_numbers;
pub use layout::{
    COMMAND_CMD, COMMAND_CMDSIZE, HEADER_FILETYPE, HEADER_NCMDS, HEADER_SIZEOFCMDS,
    LOAD_COMMAND_LEN, MACH_HEADER_LEN, NLIST_LEN, NLIST_SECT, NLIST_STRX, NLIST_TYPE, NLIST_VALUE,
    SECTION_ADDR, SECTION_FLAGS, SECTION_LEN, SECTION_OFFSET, SECTION_SECTNAME, SECTION_SEGNAME,
    SECTION_SIZE, SEGMENT_COMMAND_LEN, SEGMENT_FILEOFF, SEGMENT_FILESIZE, SEGMENT_MAXPROT,
    SEGMENT_NSECTS, SEGMENT_SEGNAME, SEGMENT_VMADDR, SEGMENT_VMSIZE, SYMTAB_COMMAND_LEN,
    SYMTAB_NSYMS, SYMTAB_STROFF, SYMTAB_STRSIZE, SYMTAB_SYMOFF, standard_layout,
};
pub use link_edit::{LinkEdit, LinkEditPart};
pub use names::name_16;
pub use parts::part_of;
