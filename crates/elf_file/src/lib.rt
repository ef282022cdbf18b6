//! The tables of ELF files: file header, sections, segments and section names, for both classes and both
//! byte orders. The file is borrowed, and nothing here allocates memory.
#![tactic(auto)]

mod constants;
mod file;
mod header;
mod layout;
mod names;
mod section;
mod sections;
mod segment;
mod segments;

pub use constants::{
    EM_ARM, ET_REL, PF_R, PF_W, PF_X, PN_XNUM, PT_LOAD, PT_NOTE, SHF_ALLOC, SHF_COMPRESSED,
    SHF_EXECINSTR, SHF_TLS, SHF_WRITE, SHN_LORESERVE, SHN_XINDEX, SHT_NOBITS, SHT_NOTE, SHT_NULL,
    standard_numbers,
};
pub use file::ElfFile;
pub use header::ElfHeader;
pub use layout::{HEADER_LEN, SECTION_LEN, SEGMENT_LEN, standard_layout};
pub use section::Section;
pub use segment::Segment;
