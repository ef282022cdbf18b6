//! Sizes that depend on the format of DWARF: 32 bits or 64 (DWARF 5, section 7.4).

ghost use Rattle.std.specs.Prelude.{◌≡◌, if◌then◌else◌};

/// A size in bytes in the 32-bit format, and the size in the 64-bit format.
#[derive(Clone, Copy, Debug, PartialEq, Eq, Hash)]
pub struct ByFormat(pub u64, pub u64);

impl ByFormat {
    /// Returns the size in the 64-bit format if `wide` is true, and otherwise the size in the 32-bit format.
    pub fn pick(self, wide: bool) -> u64
        ensures { result ≡ (if wide then self.1 else self.0) }
    {
        if wide { self.1 } else { self.0 }
    }
}

/// The size of an initial length.
pub const LENGTH_LEN: ByFormat = ByFormat(4, 12);

/// The size of an offset.
pub const OFFSET_LEN: ByFormat = ByFormat(4, 8);
