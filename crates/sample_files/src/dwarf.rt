//! Debug sections (DWARF 2 to 5), whose offsets have 4 bytes.

use crate::image::{Section, part};
use crate::lines::Program;
use crate::numbers::{Class, Numbers, Order};
use std::alloc::{AllocError, Global};

/// The attribute DW_AT_name of a unit's root (DWARF 5, section 7.5.4).
pub const DW_AT_NAME: u8 = 0x03;

/// The attribute DW_AT_stmt_list of a unit's root.
pub const DW_AT_STMT_LIST: u8 = 0x10;

/// The attribute DW_AT_low_pc of a unit's root.
pub const DW_AT_LOW_PC: u8 = 0x11;

/// The attribute DW_AT_high_pc of a unit's root.
pub const DW_AT_HIGH_PC: u8 = 0x12;

/// The attribute DW_AT_ranges of a unit's root.
pub const DW_AT_RANGES: u8 = 0x55;

/// The value of an attribute. The variant is its form (DWARF 5, section 7.5.5).
#[derive(Clone, Copy)]
pub enum Value<'a> {
    /// DW_FORM_addr: an address.
    Addr(u64),
    /// DW_FORM_data4: a number of 4 bytes.
    Data4(u32),
    /// DW_FORM_string: a string in the entry itself.
    Text(&'a [u8]),
    /// DW_FORM_strp: an offset in `.debug_str`.
    Strp(u32),
    /// DW_FORM_sec_offset: an offset in another section.
    SecOffset(u32),
    /// DW_FORM_addrx: the index of an address. It is below 128.
    Addrx(u8),
    /// DW_FORM_rnglistx: the index of a range list. It is below 128.
    Rnglistx(u8),
    /// DW_FORM_strx1: the index of a string.
    Strx1(u8),
}

impl Value<'_> {
    // DW_FORM_addr, DW_FORM_data4, DW_FORM_string, and so on.
    fn form(&self) -> u8 {
        match self {
            Value::Addr(_) => 0x01,
            Value::Data4(_) => 0x06,
            Value::Text(_) => 0x08,
            Value::Strp(_) => 0x0e,
            Value::SecOffset(_) => 0x17,
            Value::Addrx(_) => 0x1b,
            Value::Rnglistx(_) => 0x23,
            Value::Strx1(_) => 0x25,
        }
    }

    fn put(&self, numbers: &mut Numbers) {
        match self {
            Value::Addr(x) => numbers.address(*x),
            Value::Data4(x) | Value::Strp(x) | Value::SecOffset(x) => numbers.word(*x),
            Value::Text(text) => numbers.name(text),
            Value::Addrx(x) | Value::Rnglistx(x) | Value::Strx1(x) => numbers.text(&[*x]),
        }
    }
}

/// A value that is an offset into another section: before DWARF 4 there is no form for it alone.
pub fn offset_value(version: u16, offset: u32) -> Value<'static> {
    if version < 4 {
        Value::Data4(offset)
    } else {
        Value::SecOffset(offset)
    }
}

/// The name of a unit: the offset of a string, and from DWARF 5 on its index.
pub fn name_value(version: u16, offset: u32, index: u8) -> Value<'static> {
    if version < 5 {
        Value::Strp(offset)
    } else {
        Value::Strx1(index)
    }
}

/// An address, and from DWARF 5 on its index.
pub fn address_value(version: u16, address: u64, index: u8) -> Value<'static> {
    if version < 5 {
        Value::Addr(address)
    } else {
        Value::Addrx(index)
    }
}

/// The first range list of a file, and from DWARF 5 on its index.
pub fn ranges_value(version: u16) -> Value<'static> {
    if version < 5 {
        offset_value(version, 0)
    } else {
        Value::Rnglistx(0)
    }
}

/// An entry of a range list (DWARF 5, section 7.25), whose indexes, offsets and lengths are below 128.
#[derive(Clone, Copy)]
pub enum Entry {
    /// DW_RLE_base_addressx: the index of the base address.
    BaseAddressx(u8),
    /// DW_RLE_startx_length: the index of the first address, and the length.
    StartxLength(u8, u8),
    /// DW_RLE_offset_pair: the first offset from the base address, and the offset after the last one.
    OffsetPair(u8, u8),
    /// DW_RLE_start_length: the first address, and the length.
    StartLength(u64, u8),
    /// DW_RLE_end_of_list.
    EndOfList,
}

/// The debug sections of a file whose least byte comes first, as they grow.
#[derive(Drop)]
pub struct Debug {
    alloc: Global,
    class: Class,
    info: Numbers,
    abbrev: Numbers,
    strings: Numbers,
    str_offsets: Numbers,
    addresses: Numbers,
    ranges: Numbers,
    rnglists: Numbers,
    sets: Numbers,
    lines: Numbers,
}

fn empty(alloc: Global, class: Class) -> Numbers {
    Numbers::new(alloc, class, Order::Little)
}

// A declaration of code 1, a compile unit without children, which ends its table.
fn put_declaration(abbrev: &mut Numbers, root: &[(u8, Value<'_>)]) {
    abbrev.text(&[1, 0x11, 0]);
    for (attribute, value) in root {
        abbrev.text(&[*attribute, value.form()]);
    }
    abbrev.text(&[0, 0, 0]);
}

// An entry of a range list.
fn put_entry(list: &mut Numbers, entry: Entry) {
    match entry {
        Entry::EndOfList => list.text(&[0]),
        Entry::BaseAddressx(index) => list.text(&[1, index]),
        Entry::StartxLength(index, len) => list.text(&[3, index, len]),
        Entry::OffsetPair(begin, end) => list.text(&[4, begin, end]),
        Entry::StartLength(start, len) => {
            list.text(&[7]);
            list.address(start);
            list.text(&[len]);
        }
    }
}

impl Debug {
    /// Debug sections without a byte.
    pub fn new(alloc: Global, class: Class) -> Debug {
        Debug {
            alloc,
            class,
            info: empty(alloc, class),
            abbrev: empty(alloc, class),
            strings: empty(alloc, class),
            str_offsets: empty(alloc, class),
            addresses: empty(alloc, class),
            ranges: empty(alloc, class),
            rnglists: empty(alloc, class),
            sets: empty(alloc, class),
            lines: empty(alloc, class),
        }
    }

    // A table that begins with a version.
    fn table(&self, version: u16) -> Numbers {
        let mut table = empty(self.alloc, self.class);
        table.half(version);
        table
    }

    /// Adds a unit with these values at its root, whose table of abbreviations is its own. Returns the unit's offset.
    pub fn unit(&mut self, version: u16, root: &[(u8, Value<'_>)]) -> u32 {
        let offset = self.info.len();
        let mut unit = self.table(version);
        let size = self.class.address_size();
        if version < 5 {
            unit.word(self.abbrev.len());
            unit.text(&[size, 1]);
        } else {
            unit.text(&[1, size]);
            unit.word(self.abbrev.len());
            unit.text(&[1]);
        }
        for (_, value) in root {
            value.put(&mut unit);
        }
        put_declaration(&mut self.abbrev, root);
        self.info.counted(&unit);
        offset
    }

    /// Adds a set to `.debug_aranges`: addresses, each with a length, of the unit at an offset.
    pub fn set(&mut self, unit: u32, tuples: &[(u64, u64)]) {
        let mut set = self.table(2);
        set.word(unit);
        set.text(&[self.class.address_size(), 0, 0, 0, 0, 0]);
        set.pairs(tuples);
        set.addresses(&[0, 0]);
        self.sets.counted(&set);
    }

    /// Adds strings, one after the other.
    pub fn strings(&mut self, strings: &[&[u8]]) {
        for string in strings {
            self.strings.name(string);
        }
    }

    /// Adds a table of the offsets of strings.
    pub fn string_offsets(&mut self, offsets: &[u32]) {
        let mut table = self.table(5);
        table.half(0);
        table.words(offsets);
        self.str_offsets.counted(&table);
    }

    /// Adds a table of addresses.
    pub fn addresses(&mut self, addresses: &[u64]) {
        let mut table = self.table(5);
        table.text(&[self.class.address_size(), 0]);
        table.addresses(addresses);
        self.addresses.counted(&table);
    }

    /// Adds a range list before DWARF 5: pairs of addresses, which (0, 0) ends.
    pub fn pairs(&mut self, pairs: &[(u64, u64)]) {
        self.ranges.pairs(pairs);
        self.ranges.addresses(&[0, 0]);
    }

    /// Adds a range list of DWARF 5, after a table whose only offset is that of the list.
    pub fn list(&mut self, entries: &[Entry]) {
        let mut list = self.table(5);
        list.text(&[self.class.address_size(), 0]);
        list.words(&[1, 4]);
        for entry in entries {
            put_entry(&mut list, *entry);
        }
        self.rnglists.counted(&list);
    }

    /// Adds a line program.
    pub fn program(&mut self, program: &Program<'_>) {
        self.lines.counted(&program.numbers(self.alloc, self.class));
    }

    /// The sections that have bytes, for an ELF file. The first one is `.debug_info`.
    pub fn sections(&self) -> Result<Vec<Section<'_>>, AllocError> {
        let mut sections = Vec::new(self.alloc);
        for (name, numbers) in [
            (b".debug_info".as_slice(), &self.info),
            (b".debug_abbrev", &self.abbrev),
            (b".debug_str", &self.strings),
            (b".debug_str_offsets", &self.str_offsets),
            (b".debug_addr", &self.addresses),
            (b".debug_ranges", &self.ranges),
            (b".debug_rnglists", &self.rnglists),
            (b".debug_aranges", &self.sets),
            (b".debug_line", &self.lines),
        ] {
            if !numbers.is_empty() {
                sections.push(part(name, numbers.bytes()?))?;
            }
        }
        Ok(sections)
    }
}
