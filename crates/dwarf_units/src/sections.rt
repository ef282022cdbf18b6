//! The debug sections of a file.

use byte_cursor::{Cursor, Order};

/// The debug sections of a file (DWARF 5, section 7, and `.debug_ranges` of DWARF 4). Each section is what its
/// cursor has left. The cursor is empty if the section is absent or has no bytes.
#[derive(Drop)]
pub struct Sections<'a> {
    /// The byte order.
    pub order: Order,
    /// `.debug_info`
    pub info: Cursor<'a>,
    /// `.debug_abbrev`
    pub abbrev: Cursor<'a>,
    /// `.debug_str`
    pub strings: Cursor<'a>,
    /// `.debug_line_str`
    pub line_strings: Cursor<'a>,
    /// `.debug_str_offsets`
    pub str_offsets: Cursor<'a>,
    /// `.debug_addr`
    pub addresses: Cursor<'a>,
    /// `.debug_ranges`
    pub ranges: Cursor<'a>,
    /// `.debug_rnglists`
    pub rnglists: Cursor<'a>,
    /// `.debug_aranges`
    pub aranges: Cursor<'a>,
    /// `.debug_line`
    pub lines: Cursor<'a>,
}
