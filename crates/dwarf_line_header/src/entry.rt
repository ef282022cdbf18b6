//! Entries of the directory table and the file table of a line program.

/// A directory or a file of a line program (DWARF 5, section 6.2.4).
#[derive(Clone, Copy, Debug)]
pub struct FileEntry<'a> {
    /// The name, as the line program gives it.
    pub name: &'a [u8],
    /// The number of the file's directory. It has no meaning for a directory.
    pub directory: u64,
}

/// One of the two tables of a line program.
#[derive(Clone, Copy, Debug, PartialEq, Eq)]
pub enum TableKind {
    /// The directories.
    Directories,
    /// The files.
    Files,
}
