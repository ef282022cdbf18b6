//! What data sources claim, and how a file is loaded: spans, claims and loads.

/// Which addresses a claim names: file offsets, virtual addresses, or both.
#[derive(Clone, Copy, Debug, PartialEq, Eq, Hash)]
pub enum Side {
    /// File offsets. The virtual addresses that are loaded from them are claimed too.
    File,
    /// Virtual addresses. The file offsets that are loaded there are claimed too.
    Vm,
    /// File offsets and virtual addresses. Neither is translated.
    Both,
}

/// A range of addresses or of file offsets.
#[derive(Clone, Copy, Debug, PartialEq, Eq, Hash)]
pub struct Span {
    /// The address space of a virtual address. It is 0 for a file offset.
    pub space: u32,
    /// The first virtual address, or the first file offset.
    pub start: u64,
    /// The length in bytes.
    pub len: u64,
}

/// A claim: the label that a data source gives a range of bytes. The span that the side doesn't use isn't read.
#[derive(Clone, Copy, Debug, PartialEq, Eq, Hash)]
pub struct Claim {
    /// Which of the two spans the claim names.
    pub side: Side,
    /// The virtual addresses.
    pub vm: Span,
    /// The file offsets.
    pub file: Span,
    /// The label's number in a `LabelPool`.
    pub label: usize,
}

/// A part of the file that is loaded: `memsz` bytes at the virtual address `vaddr`. The first `filesz` of them
/// come from the file, from the offset `offset`.
#[derive(Clone, Copy, Debug, PartialEq, Eq, Hash)]
pub struct Load {
    /// The address space of `vaddr`.
    pub space: u32,
    /// The first virtual address.
    pub vaddr: u64,
    /// The size in memory, in bytes.
    pub memsz: u64,
    /// The file offset of the first byte.
    pub offset: u64,
    /// The size in the file, in bytes.
    pub filesz: u64,
}
