//! Reads the fields of records whose layout depends on the class of the file: 32 bits or 64.

ghost use Rattle.std.specs.Prelude.{◌≡◌, ◌+◌, ◌≤◌, ◌<◌, length};
ghost use Rattle.byte_cursor.specs.Encoding.{byte, four, half, pick, word, word_len};

use crate::numbers::{u16_at, u32_at, u64_at};
use crate::order::Order;

/// The class of a record, and the byte order of its numbers.
#[derive(Clone, Copy, Debug, PartialEq, Eq, Hash)]
pub struct Encoding {
    /// Whether the class is 64 bits, and not 32.
    pub wide: bool,
    /// The byte order of numbers.
    pub order: Order,
}

/// A number for the 32-bit class, and one for the 64-bit class: the size of a record in bytes, or the offset of
/// a field in its record in bytes.
#[derive(Clone, Copy, Debug, PartialEq, Eq, Hash)]
pub struct ByClass(pub u64, pub u64);

impl Encoding {
    /// Returns the number for this class.
    pub fn pick(self, number: ByClass) -> u64
        ensures { result ≡ pick self number }
    {
        if self.wide { number.1 } else { number.0 }
    }

    /// Returns this one-byte field of the record at offset `place`.
    #[tactic(auto, unfolding(crate::specs::Encoding::byte))]
    pub fn byte(self, bytes: &[u8], place: u64, field: ByClass) -> u8
        requires { place + pick self field < length bytes.now }
        ensures { result ≡ byte self bytes.now place field }
    {
        bytes[(place + self.pick(field)) as usize]
    }

    /// Returns this two-byte field of the record at offset `place`.
    #[tactic(auto, unfolding(crate::specs::Encoding::half))]
    pub fn half(self, bytes: &[u8], place: u64, field: ByClass) -> u16
        requires { place + pick self field + 2 ≤ length bytes.now }
        ensures { result ≡ half self bytes.now place field }
    {
        u16_at(bytes, (place + self.pick(field)) as usize, self.order)
    }

    /// Returns this four-byte field of the record at offset `place`.
    #[tactic(auto, unfolding(crate::specs::Encoding::four))]
    pub fn four(self, bytes: &[u8], place: u64, field: ByClass) -> u32
        requires { place + pick self field + 4 ≤ length bytes.now }
        ensures { result ≡ four self bytes.now place field }
    {
        u32_at(bytes, (place + self.pick(field)) as usize, self.order)
    }

    /// Returns this field of the record at offset `place`. It has four bytes in the 32-bit class and eight in
    /// the 64-bit class.
    #[tactic(auto, unfolding(crate::specs::Encoding::word))]
    pub fn word(self, bytes: &[u8], place: u64, field: ByClass) -> u64
        requires { place + pick self field + word_len self ≤ length bytes.now }
        ensures { result ≡ word self bytes.now place field }
    {
        let at = (place + self.pick(field)) as usize;
        if self.wide {
            u64_at(bytes, at, self.order)
        } else {
            u32_at(bytes, at, self.order) as u64
        }
    }
}
