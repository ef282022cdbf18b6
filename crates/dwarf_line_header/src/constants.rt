//! The content types of the entries of a table that this crate distinguishes (DWARF 5, section 7.22, table 7.27).

/// The path of a directory or a file (`DW_LNCT_path`).
pub const DW_LNCT_PATH: u64 = 1;

/// The number of a file's directory (`DW_LNCT_directory_index`).
pub const DW_LNCT_DIRECTORY_INDEX: u64 = 2;
