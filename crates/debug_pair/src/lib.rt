//! The identifiers that a stripped file and its debug file share: the build ID in the notes of an ELF file,
//! and the UUID of a Mach-O file. Nothing here allocates memory.
#![tactic(auto)]

mod area;
mod constants;
mod elf;
mod laws;
mod macho;
mod note;
mod searched;
mod sequence;

pub use area::notes;
pub use constants::{NT_GNU_BUILD_ID, standard_numbers};
pub use elf::elf_identity;
pub use laws::notes_follow_one_another;
pub use macho::macho_identity;
pub use note::Note;
pub use sequence::Notes;
