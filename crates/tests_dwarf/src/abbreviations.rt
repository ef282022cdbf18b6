//! Initial lengths, declarations of abbreviations, and values by their forms.

ghost use Rattle.std.specs.Prelude.{◌<◌, ◌≤◌, length};

use crate::checks::{holds, same};
use byte_cursor::{Cursor, Order};
use dwarf_abbrev::{Abbrevs, Content, Spec, UnitShape, initial_length, read_form};
use size_core::Fault;
use std::process::Abort;

/// How many bytes a form's value has.
#[derive(Clone, Copy)]
enum Width {
    Fixed(u8),
    Address,
    Offset,
    Reference,
}

fn width_in(width: Width, shape: &UnitShape) -> usize
    ensures { result ≤ 16 }
{
    let offset = if shape.wide { 8 } else { 4 };
    match width {
        Width::Fixed(n) => (n % 17) as usize,
        Width::Address => (shape.address % 9) as usize,
        Width::Offset => offset,
        Width::Reference if shape.version == 2 => (shape.address % 9) as usize,
        Width::Reference => offset,
    }
}

/// The forms of a fixed number of bytes, with the kind of their values: an address (a), the index of an address (x),
/// a constant (c), the offset of a string in `.debug_str` (s) or in `.debug_line_str` (l), the index of a string (i),
/// a section offset (f), or a value that is skipped (-).
const FIXED: [(u64, Width, char); 30] = [
    (0x01, Width::Address, 'a'),
    (0x05, Width::Fixed(2), 'c'),
    (0x06, Width::Fixed(4), 'c'),
    (0x07, Width::Fixed(8), 'c'),
    (0x0b, Width::Fixed(1), 'c'),
    (0x0c, Width::Fixed(1), '-'),
    (0x0e, Width::Offset, 's'),
    (0x10, Width::Reference, '-'),
    (0x11, Width::Fixed(1), '-'),
    (0x12, Width::Fixed(2), '-'),
    (0x13, Width::Fixed(4), '-'),
    (0x14, Width::Fixed(8), '-'),
    (0x17, Width::Offset, 'f'),
    (0x19, Width::Fixed(0), '-'),
    (0x1c, Width::Fixed(4), '-'),
    (0x1d, Width::Offset, '-'),
    (0x1e, Width::Fixed(16), '-'),
    (0x1f, Width::Offset, 'l'),
    (0x20, Width::Fixed(8), '-'),
    (0x24, Width::Fixed(8), '-'),
    (0x25, Width::Fixed(1), 'i'),
    (0x26, Width::Fixed(2), 'i'),
    (0x27, Width::Fixed(3), 'i'),
    (0x28, Width::Fixed(4), 'i'),
    (0x29, Width::Fixed(1), 'x'),
    (0x2a, Width::Fixed(2), 'x'),
    (0x2b, Width::Fixed(3), 'x'),
    (0x2c, Width::Fixed(4), 'x'),
    (0x1f20, Width::Offset, '-'),
    (0x1f21, Width::Offset, '-'),
];

/// The kind of a value, as in the table, and its number.
fn told(content: &Content) -> (char, u64) {
    match content {
        Content::Address(n) => ('a', *n),
        Content::AddrIndex(n) => ('x', *n),
        Content::Constant(n) => ('c', *n),
        Content::StrOffset(n) => ('s', *n),
        Content::LineStrOffset(n) => ('l', *n),
        Content::StrIndex(n) => ('i', *n),
        Content::SecOffset(n) => ('f', *n),
        Content::ListIndex(n) => ('r', *n),
        Content::Other => ('-', 0),
        Content::Signed(_) | Content::Text(_) => ('?', 0),
    }
}

/// What a reading returned, by the kind of the value.
fn kind_of((value, place): (Result<Content<'_>, Fault>, u64)) -> (Result<(char, u64), Fault>, u64) {
    match value {
        Ok(content) => (Ok(told(&content)), place),
        Err(fault) => (Err(fault), place),
    }
}

/// The number of the bytes 1, 2, 3 .., at most 8 of them.
fn counted(width: usize, order: Order) -> u64 {
    if width == 0 || width > 8 {
        return 0;
    }
    let unused = 64 - 8 * width as u32;
    match order {
        Order::Little => (0x0807_0605_0403_0201 << unused) >> unused,
        Order::Big => 0x0102_0304_0506_0708 >> unused,
    }
}

/// Reads a value from the offset 1,000 on. It returns the value and the cursor's new offset.
fn read<'a>(
    bytes: &'a [u8],
    form: u64,
    constant: i64,
    shape: &UnitShape,
) -> (Result<Content<'a>, Fault>, u64)
    requires { length bytes.now < 100 }
{
    let spec = Spec {
        attribute: 3,
        form,
        constant,
    };
    let mut cursor = Cursor::new(1000, bytes);
    match read_form(&mut cursor, &spec, shape) {
        Ok(value) if value.place == 1000 => (Ok(value.content), cursor.place()),
        Ok(_) => (Err(Fault::BadHeader), 0),
        Err(bad) if bad.offset == 1000 => (Err(bad.fault), cursor.place()),
        Err(_) => (Err(Fault::BadHeader), 0),
    }
}

const SHAPES: [UnitShape; 6] = [
    UnitShape {
        version: 2,
        wide: false,
        address: 4,
        order: Order::Little,
    },
    UnitShape {
        version: 5,
        wide: true,
        address: 8,
        order: Order::Big,
    },
    UnitShape {
        version: 2,
        wide: true,
        address: 2,
        order: Order::Big,
    },
    UnitShape {
        version: 5,
        wide: false,
        address: 2,
        order: Order::Little,
    },
    UnitShape {
        version: 3,
        wide: true,
        address: 4,
        order: Order::Little,
    },
    UnitShape {
        version: 2,
        wide: false,
        address: 8,
        order: Order::Big,
    },
];

/// The bytes 1 to 17.
const COUNTED: &[u8; 17] = b"\x01\x02\x03\x04\x05\x06\x07\x08\x09\x0a\x0b\x0c\x0d\x0e\x0f\x10\x11";

/// A value of this many bytes is read, and with a byte less it isn't.
fn has_width(rt: &impl Abort, shape: &UnitShape, form: u64, width: usize, says: char)
    requires { width ≤ 16 }
{
    let number = if says == '-' {
        0
    } else {
        counted(width, shape.order)
    };
    let whole = kind_of(read(&COUNTED[..width + 1], form, 0, shape));
    same(
        rt,
        &form,
        &whole,
        &(Ok((says, number)), 1000 + width as u64),
    );
    if width > 0 {
        let cut = kind_of(read(&COUNTED[..width - 1], form, 0, shape));
        same(rt, &form, &cut, &(Err(Fault::Truncated), 1000));
    }
}

#[test]
fn forms_of_a_fixed_size(rt: HostRuntime) {
    for &shape in &SHAPES {
        for &(form, width, says) in &FIXED {
            has_width(&rt, &shape, form, width_in(width, &shape), says);
        }
    }
}

/// Forms, the bytes of a value, and the value that is read.
const READ_FORMS: [(u64, &[u8], Content<'static>); 18] = [
    (0x0f, b"\x81\x01", Content::Constant(129)),
    (0x0d, b"\x7e", Content::Signed(-2)),
    (0x21, b"", Content::Signed(-5)),
    (0x08, b"ab\0", Content::Text(b"ab")),
    (0x1a, b"\x81\x01", Content::StrIndex(129)),
    (0x1b, b"\x81\x01", Content::AddrIndex(129)),
    (0x23, b"\x81\x01", Content::ListIndex(129)),
    (0x15, b"\x81\x01", Content::Other),
    (0x22, b"\x81\x01", Content::Other),
    (0x1f01, b"\x81\x01", Content::Other),
    (0x1f02, b"\x81\x01", Content::Other),
    (0x0a, b"\x02ab", Content::Other),
    (0x03, b"\x02\0ab", Content::Other),
    (0x04, b"\x02\0\0\0ab", Content::Other),
    (0x09, b"\x82\0ab", Content::Other),
    (0x18, b"\x82\0ab", Content::Other),
    (0x16, b"\x0b\x07", Content::Constant(7)),
    (0x16, b"\x88\0ab\0", Content::Text(b"ab")),
];

const NARROW: UnitShape = UnitShape {
    version: 4,
    wide: false,
    address: 4,
    order: Order::Little,
};

/// This value is read from the bytes, and without the last of them none is.
fn is_read(rt: &impl Abort, form: u64, bytes: &[u8], want: Content<'_>)
    requires { length bytes.now < 50 }
{
    let place = 1000 + bytes.len() as u64;
    holds(
        rt,
        &form,
        read(bytes, form, -5, &NARROW) == (Ok(want), place),
    );
    if bytes.len() > 0 {
        let cut = &bytes[..bytes.len() - 1];
        let none = (Err(Fault::Truncated), 1000);
        holds(rt, &form, read(cut, form, -5, &NARROW) == none);
    }
}

#[test]
fn forms_of_a_size_that_is_read(rt: HostRuntime) {
    for &(form, bytes, want) in &READ_FORMS {
        assert!(rt; bytes.len() < 50);
        is_read(&rt, form, bytes, want);
    }
}

/// Forms, the bytes of a value, and its fault.
const UNREAD_FORMS: [(u64, &[u8], Fault); 9] = [
    (0x00, b"\x01", Fault::UnknownForm),
    (0x02, b"\x01", Fault::UnknownForm),
    (0x2d, b"\x01", Fault::UnknownForm),
    (0x1f03, b"\x01", Fault::UnknownForm),
    (0x16, b"\x16\x0b\x07", Fault::UnknownForm),
    (0x16, b"\x21\x07", Fault::UnknownForm),
    (0x16, b"\x02\x07", Fault::UnknownForm),
    (
        0x0f,
        b"\x80\x80\x80\x80\x80\x80\x80\x80\x80\x02",
        Fault::BadLeb,
    ),
    (
        0x09,
        b"\x80\x80\x80\x80\x80\x80\x80\x80\x80\x02",
        Fault::BadLeb,
    ),
];

const WIDE: UnitShape = UnitShape {
    version: 5,
    wide: true,
    address: 8,
    order: Order::Big,
};

#[test]
fn forms_that_are_not_read(rt: HostRuntime) {
    for &(form, bytes, want) in &UNREAD_FORMS {
        assert!(rt; bytes.len() < 50);
        holds(&rt, &form, read(bytes, form, 0, &WIDE) == (Err(want), 1000));
    }
}

/// Bytes, the length with whether it is wide, and the offset after it.
const LENGTHS: [(&[u8], Result<(u64, bool), Fault>, u64); 7] = [
    (b"\x02\0\0\0ab", Ok((2, false)), 1004),
    (b"\xff\xff\xff\xff\x01\0\0\0\0\0\0\0ab", Ok((1, true)), 1012),
    (b"\x03\0\0\0ab", Err(Fault::BadUnit), 1000),
    (b"\xf0\xff\xff\xff", Err(Fault::BadUnit), 1000),
    (b"\xfe\xff\xff\xff", Err(Fault::BadUnit), 1000),
    (b"\x00\0\0", Err(Fault::Truncated), 1000),
    (
        b"\xff\xff\xff\xff\x01\0\0\0\0\0\0",
        Err(Fault::Truncated),
        1000,
    ),
];

/// The length and whether it is wide, or the fault at the offset 1,000, and the cursor's new offset.
fn length_of(bytes: &[u8]) -> (Result<(u64, bool), Fault>, u64)
    requires { length bytes.now < 50 }
{
    let mut cursor = Cursor::new(1000, bytes);
    match initial_length(&mut cursor, Order::Little) {
        Ok(found) => (Ok((found.len, found.wide)), cursor.place()),
        Err(bad) if bad.offset == 1000 => (Err(bad.fault), cursor.place()),
        Err(_) => (Err(Fault::BadHeader), 0),
    }
}

#[test]
fn initial_lengths(rt: HostRuntime) {
    for &(bytes, want, place) in &LENGTHS {
        assert!(rt; bytes.len() < 50);
        same(&rt, &bytes, &length_of(bytes), &(want, place));
    }
}

/// A byte, a table of a declaration with a code of 5 and two attributes and another with the same code, and a
/// code of 0.
const TABLE: &[u8] = b"\xff\x05\x11\x01\x03\x08\x3a\x21\x7e\x00\x00\x05\x2e\x00\x00\x00\x00\x09";

/// What the declaration yields: its attributes, and then nothing.
const YIELDED: [Option<Spec>; 4] = [
    Some(Spec {
        attribute: 3,
        form: 8,
        constant: 0,
    }),
    Some(Spec {
        attribute: 0x3a,
        form: 0x21,
        constant: -2,
    }),
    None,
    None,
];

#[test]
fn declarations_of_a_table(rt: HostRuntime) {
    let section = Cursor::new(1000, TABLE);
    let table = Abbrevs::at(&section, 1, 7).expect(&rt, "the table has no fault");
    assert_eq!(rt; (table.table_place(), table.table_len()), (1001, 16));
    assert!(rt; table.entry(6).is_none());
    let mut entry = table.entry(5).expect(&rt, "the code is declared");
    assert_eq!(rt; entry.tag(), 0x11);
    for &spec in &YIELDED {
        same(&rt, &spec, &entry.next(), &spec);
    }
}

/// How many bytes of the table there are, if it is read, and its offset and length.
const ENDS: [(usize, u64, Result<(u64, u64), (Fault, u64)>); 10] = [
    (17, 1, Ok((1001, 16))),
    // The section ends where a code would begin, or within a declaration.
    (16, 1, Ok((1001, 15))),
    (15, 1, Err((Fault::Truncated, 1015))),
    (11, 1, Ok((1001, 10))),
    (9, 1, Err((Fault::Truncated, 1009))),
    (8, 1, Err((Fault::Truncated, 1008))),
    (3, 1, Err((Fault::Truncated, 1003))),
    (1, 1, Err((Fault::OffsetOutside, 7))),
    (18, 18, Err((Fault::OffsetOutside, 7))),
    (18, 16, Ok((1016, 1))),
];

#[test]
fn tables_that_end_early(rt: HostRuntime) {
    for &(len, offset, want) in &ENDS {
        assert!(rt; len <= TABLE.len());
        let section = Cursor::new(1000, &TABLE[..len]);
        let found = match Abbrevs::at(&section, offset, 7) {
            Ok(table) => Ok((table.table_place(), table.table_len())),
            Err(bad) => Err((bad.fault, bad.offset)),
        };
        same(&rt, &len, &found, &want);
    }
}
