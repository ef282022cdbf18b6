//! Segments.

/// A segment (ELF gABI, Program Header).
#[derive(Clone, Copy, Debug, PartialEq, Eq, Hash)]
pub struct Segment {
    /// The file offset of its program header.
    pub place: u64,
    /// `p_type`.
    pub kind: u32,
    /// `p_flags`.
    pub flags: u32,
    /// `p_offset`, the file offset of its bytes.
    pub offset: u64,
    /// `p_vaddr`, its virtual address.
    pub vaddr: u64,
    /// `p_filesz`, how many bytes it has in the file.
    pub filesz: u64,
    /// `p_memsz`, how many bytes it has in memory.
    pub memsz: u64,
}
