//! Labelled ranges of positions.

/// A range of positions with a label. A position is a file offset, or `space * 2^64 + address` for a virtual address
/// of an address space.
#[derive(Clone, Copy, Debug, PartialEq, Eq, Hash)]
pub struct Piece {
    /// The first position.
    pub start: u128,
    /// The number of positions.
    pub len: u128,
    /// The number of the label.
    pub label: usize,
}
