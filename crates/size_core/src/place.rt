//! The byte that `--debug-fileoff` or `--debug-vmaddr` explains.

/// The location of a byte whose labels a run explains: a file offset or a virtual address.
#[derive(Clone, Copy, Debug, PartialEq, Eq, Hash)]
pub enum Place {
    /// A file offset, in bytes.
    Offset(u64),
    /// An address space and a virtual address in it.
    Address(u32, u64),
}
