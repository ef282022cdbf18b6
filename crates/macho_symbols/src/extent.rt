//! The address ranges of sections.

/// The address range of a section: a virtual address and a size in bytes.
#[derive(Clone, Copy, Debug)]
pub struct Extent {
    /// `addr`, its virtual address.
    pub addr: u64,
    /// `size`, in bytes.
    pub size: u64,
}
