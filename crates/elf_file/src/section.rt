//! Sections.

/// A section (ELF gABI, Section Header).
#[derive(Clone, Copy, Debug)]
pub struct Section<'a> {
    /// The file offset of its section header.
    pub place: u64,
    /// Its name. Empty for section 0, for type SHT_NULL, and if the file has no section name table.
    pub name: &'a [u8],
    /// `sh_type`.
    pub kind: u32,
    /// `sh_flags`.
    pub flags: u64,
    /// `sh_addr`, its virtual address.
    pub addr: u64,
    /// `sh_offset`, the file offset of its bytes.
    pub offset: u64,
    /// `sh_size`, in bytes.
    pub size: u64,
    /// `sh_link`, the number of another section.
    pub link: u32,
    /// `sh_info`.
    pub info: u32,
}

/// The fields of a section header without the name. They are those of [`Section`].
#[derive(Clone, Copy, Debug, PartialEq, Eq)]
pub struct SectionHeader {
    /// The file offset of the section header.
    pub place: u64,
    /// `sh_type`.
    pub kind: u32,
    /// `sh_flags`.
    pub flags: u64,
    /// `sh_addr`, the virtual address.
    pub addr: u64,
    /// `sh_offset`, the file offset of the bytes.
    pub offset: u64,
    /// `sh_size`, in bytes.
    pub size: u64,
    /// `sh_link`, the number of another section.
    pub link: u32,
    /// `sh_info`.
    pub info: u32,
}
