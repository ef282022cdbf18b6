//! The parameters in a line program's header.

use byte_cursor::Order;

/// The size of an address.
#[derive(Clone, Copy, Debug, PartialEq, Eq)]
pub enum AddressSize {
    /// 2 bytes.
    Two,
    /// 4 bytes.
    Four,
    /// 8 bytes.
    Eight,
}

/// The parameters in a line program's header that its instructions depend on (DWARF 5, section 6.2.4).
#[derive(Clone, Copy, Debug, PartialEq, Eq)]
pub struct LineEncoding {
    /// The byte order.
    pub order: Order,
    /// The size of the unit's addresses.
    pub address_size: AddressSize,
    /// `minimum_instruction_length`, in bytes.
    pub min_inst: u8,
    /// `maximum_operations_per_instruction`, at least 1.
    pub max_ops: u8,
    /// `line_base`: the least line increment of a special opcode.
    pub line_base: i8,
    /// `line_range`: the number of different line increments of special opcodes. Not 0.
    pub line_range: u8,
    /// `opcode_base`: the number of the first special opcode. Not 0.
    pub opcode_base: u8,
}
