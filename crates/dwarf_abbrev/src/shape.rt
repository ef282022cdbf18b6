//! The properties of a unit that decide how its values are encoded.

use byte_cursor::Order;

/// The format of a unit's values, from the unit's header (DWARF 5, section 7.5.1).
#[derive(Clone, Copy, Debug, PartialEq, Eq, Hash)]
pub struct UnitShape {
    /// The version of DWARF. It is 2 to 5 in each unit that is read.
    pub version: u16,
    /// Whether offsets have 8 bytes (the 64-bit format) or 4 (section 7.4).
    pub wide: bool,
    /// The size of an address in bytes. A size other than 2 and 4 is read as 8.
    pub address: u8,
    /// The byte order.
    pub order: Order,
}
