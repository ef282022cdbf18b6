//! The byte order of a number.

/// Which byte of a number comes first.
#[derive(Clone, Copy, Debug, PartialEq, Eq, Hash)]
pub enum Order {
    /// The lowest byte.
    Little,
    /// The highest byte.
    Big,
}
