//! The registers of the state machine, and the rows that it emits.

/// The registers of the state machine that rows depend on (DWARF 5, section 6.2.2).
#[derive(Clone, Copy, Debug, PartialEq, Eq)]
pub struct Registers {
    /// A virtual address.
    pub address: u64,
    /// The index of an operation in the instruction at the address.
    pub op_index: u8,
    /// A file number, as [`crate::LineProgram::path`] takes it.
    pub file: u64,
    /// A line number, counted from 1.
    pub line: u32,
}

/// A row of a line program. It gives the line of the instructions from its address up to the address of the
/// next row in its sequence (DWARF 5, section 6.2.1).
#[derive(Clone, Copy, Debug, PartialEq, Eq)]
pub struct LineRow {
    /// A virtual address.
    pub address: u64,
    /// A file number, as [`crate::LineProgram::path`] takes it.
    pub file: u64,
    /// A line number, counted from 1. It is 0 if a program gives no line.
    pub line: u32,
    /// Whether the row ends its sequence. Its address is then the first one after the sequence.
    pub end: bool,
}
