//! The headers of line programs of DWARF 2 to 5: the parameters of their instructions, and their tables of directories
//! and files. Everything borrows the file. Only the cached tables of `LineHeader::kept` allocate.
#![tactic(auto)]

mod constants;
mod encoding;
mod entry;
mod fields;
mod formatted_table;
mod header;
mod laws;
mod names;
mod plain_table;
mod table;
mod unit_programs;

pub use encoding::{AddressSize, LineEncoding};
pub use entry::FileEntry;
pub use header::LineHeader;
pub use laws::{entries_one_after_another, standard_numbers};
pub use unit_programs::{program_bytes, unit_program};
