//! Symbols.

/// A symbol (`nlist`, `nlist_64`), with the file offset of its name.
#[derive(Clone, Copy, Debug)]
pub struct PlacedSymbol<'a> {
    /// Its file offset.
    pub place: u64,
    /// Its name. Empty if `n_strx` is 0.
    pub name: &'a [u8],
    /// The file offset of its name, if the name isn't empty.
    pub name_place: u64,
    /// `n_type`.
    pub kind: u8,
    /// `n_sect`, the number of its section from 1 on, or 0 if it has none.
    pub sect: u8,
    /// `n_value`, in most files a virtual address.
    pub value: u64,
}
