//! Headers of units, their roots, and the names and addresses of these.

ghost use Rattle.std.specs.Prelude.{◌<◌, length};

use crate::checks::{holds, same};
use byte_cursor::{Cursor, Order};
use dwarf_abbrev::{Abbrevs, Content, UnitShape, Value};
use dwarf_units::{DwarfUnit, Root, Sections, Units};
use size_core::{BadFile, Fault};

/// Sections with these bytes at the file offsets 1,000 and 2,000. The strings and the tables for indexes are fixed,
/// and the other sections are empty.
fn sections<'a>(info: &'a [u8], declared: &'a [u8]) -> Sections<'a>
    requires info { length info.now < 1000 }
    requires declared { length declared.now < 1000 }
{
    Sections {
        order: Order::Little,
        info: Cursor::new(1000, info),
        abbrev: Cursor::new(2000, declared),
        strings: Cursor::new(3000, b"x\0ab\0cd"),
        line_strings: Cursor::new(4000, b"q\0lm\0"),
        str_offsets: Cursor::new(5000, b"hhhhhhhh\x02\0\0\0\x05\0\0\0\x02\0\0"),
        addresses: Cursor::new(6000, b"hhhhhhhh\x11\x22\x33\x44\x55\x66\x77\x88\x99\xaa"),
        ranges: Cursor::new(0, b""),
        rnglists: Cursor::new(0, b""),
        aranges: Cursor::new(0, b""),
        lines: Cursor::new(0, b""),
    }
}

/// The tested values of a unit: offset and length; version and unit type; address size, and whether it is 64-bit
/// DWARF; offset of its abbreviations, and the bytes of its body.
type Told = ((u64, u64), (u16, u8), (u8, bool), (u64, u64));

fn told(unit: Option<Result<DwarfUnit<'_>, BadFile>>) -> Option<Result<Told, (Fault, u64)>> {
    match unit? {
        Ok(unit) => {
            let shape = unit.shape;
            Some(Ok((
                (unit.offset, unit.len),
                (shape.version, unit.kind),
                (shape.address, shape.wide),
                (unit.abbrev_offset, unit.body.left()),
            )))
        }
        Err(bad) => Some(Err((bad.fault, bad.offset))),
    }
}

/// Bytes, and what their first unit has.
const HEADERS: [(&[u8], Option<Result<Told, (Fault, u64)>>); 20] = [
    (
        b"\x08\0\0\0\x02\0\x10\0\0\0\x04b",
        Some(Ok(((0, 12), (2, 1), (4, false), (16, 1)))),
    ),
    (
        b"\xff\xff\xff\xff\x0b\0\0\0\0\0\0\0\x03\0\x10\0\0\0\0\0\0\0\x02",
        Some(Ok(((0, 23), (3, 1), (2, true), (16, 0)))),
    ),
    (
        b"\x09\0\0\0\x05\0\x01\x08\x10\0\0\0b",
        Some(Ok(((0, 13), (5, 1), (8, false), (16, 1)))),
    ),
    (
        b"\x09\0\0\0\x05\0\x03\x08\x10\0\0\0b",
        Some(Ok(((0, 13), (5, 3), (8, false), (16, 1)))),
    ),
    (
        b"\x11\0\0\0\x05\0\x04\x08\x10\0\0\0iiiiiiiib",
        Some(Ok(((0, 21), (5, 4), (8, false), (16, 1)))),
    ),
    (
        b"\x11\0\0\0\x05\0\x05\x08\x10\0\0\0iiiiiiiib",
        Some(Ok(((0, 21), (5, 5), (8, false), (16, 1)))),
    ),
    (
        b"\x15\0\0\0\x05\0\x02\x04\x10\0\0\0ssssssssoooob",
        Some(Ok(((0, 25), (5, 2), (4, false), (16, 1)))),
    ),
    (
        b"\xff\xff\xff\xff\x1d\0\0\0\0\0\0\0\x05\0\x06\x04\x10\0\0\0\0\0\0\0ssssssssoooooooob",
        Some(Ok(((0, 41), (5, 6), (4, true), (16, 1)))),
    ),
    // Skipped: without a version, of versions 1 and 6, of a type 7, and before another unit.
    (b"\0\0\0\0", None),
    (b"\x01\0\0\0\x05", None),
    (b"\x08\0\0\0\x01\0\x10\0\0\0\x04b", None),
    (b"\x08\0\0\0\x06\0\x10\0\0\0\x04b", None),
    (b"\x03\0\0\0\x05\0\x07", None),
    (
        b"\x01\0\0\0\x05\x07\0\0\0\x04\0\x10\0\0\0\x08",
        Some(Ok(((5, 11), (4, 1), (8, false), (16, 0)))),
    ),
    // Headers that don't fit, or have another size of an address.
    (b"\x02\0\0\0\x05\0", Some(Err((Fault::BadUnit, 1000)))),
    (
        b"\x06\0\0\0\x04\0\x10\0\0\0",
        Some(Err((Fault::BadUnit, 1000))),
    ),
    (
        b"\x07\0\0\0\x04\0\x10\0\0\0\x03",
        Some(Err((Fault::BadUnit, 1000))),
    ),
    (
        b"\x13\0\0\0\x05\0\x02\x04\x10\0\0\0ssssssssooo",
        Some(Err((Fault::BadUnit, 1000))),
    ),
    // Lengths that pass the section's end, and that aren't whole.
    (
        b"\x08\0\0\0\x02\0\x10\0\0\0\x04",
        Some(Err((Fault::BadUnit, 1000))),
    ),
    (b"\0\0\0\0\x08\0\0", Some(Err((Fault::Truncated, 1004)))),
];

#[test]
fn headers_of_units(rt: HostRuntime) {
    for &(info, want) in &HEADERS {
        assert!(rt; info.len() < 100);
        let sections = sections(info, b"");
        let mut units = Units::new(&sections);
        same(&rt, &info, &told(units.next()), &want);
        same(&rt, &info, &told(units.next()), &None);
    }
}

/// A unit of DWARF 4 with 4 bytes an address and this body, at the file offset 1,000.
fn unit<'a>(body: &'a [u8], abbrev_offset: u64) -> DwarfUnit<'a>
    requires { length body.now < 100 }
{
    DwarfUnit {
        place: 1000,
        len: 11 + body.len() as u64,
        offset: 0,
        shape: UnitShape {
            version: 4,
            wide: false,
            address: 4,
            order: Order::Little,
        },
        kind: 1,
        abbrev_offset,
        body: Cursor::new(1011, body),
    }
}

/// The body of a unit by code 1 of the table below.
const NAMED_BODY: &[u8] = b"\x01ab\0cd\0\x01\x02\x03\x04\x05\x06\0\0\0\x07\0\0\0\x08\0\0\0";

/// Code 1 has a name in the unit twice, a low address, a high one of a byte, and three bases; code 2 an indirect value.
const ABBREV: &[u8] =
    b"\x01\x11\0\x03\x08\x03\x08\x11\x01\x12\x0b\x72\x17\x73\x17\x74\x17\0\0\x02\x11\0\x03\x16\0\0\0";

/// The file offset of a value, and the address that it is.
fn address_of(
    root: &Root<'_>,
    value: Option<Value<'_>>,
    sections: &Sections<'_>,
) -> Option<(u64, Result<Option<u64>, BadFile>)> {
    let value = value?;
    Some((value.place, root.address(&value, sections)))
}

/// The offset that a value is.
fn offset_of(value: Option<Value<'_>>) -> Option<u64> {
    match value?.content {
        Content::SecOffset(offset) => Some(offset),
        _ => None,
    }
}

#[test]
fn values_of_a_root(rt: HostRuntime) {
    let sections = sections(b"", ABBREV);
    let unit = unit(NAMED_BODY, 0);
    let table = Abbrevs::at(&sections.abbrev, 0, 1000).expect(&rt, "the table has no fault");
    let root = unit.root_in(&table).expect(&rt, "the values have no fault");
    let tables = (root.place, root.table_place, root.table_len);
    same(&rt, &"the tables", &tables, &(1000, 2000, 27));
    let name = root.name_text(&sections);
    holds(&rt, &"the name", name == Ok(Some(b"ab".as_slice())));
    let low = address_of(&root, root.low, &sections);
    same(
        &rt,
        &"the low address",
        &low,
        &Some((1018, Ok(Some(0x4030201)))),
    );
    let high = address_of(&root, root.high, &sections);
    same(&rt, &"the high address", &high, &Some((1022, Ok(None))));
    for (base, offset) in [(root.str_base, 6), (root.addr_base, 7), (root.list_base, 8)] {
        same(&rt, &"a base", &offset_of(base), &Some(offset));
    }
    holds(
        &rt,
        &"no more",
        root.ranges.is_none() && root.lines.is_none(),
    );
}

/// The bodies of units by one table, and whether the root has a low address.
const BY_ONE_TABLE: [(&[u8], bool); 4] = [
    (NAMED_BODY, true),
    (b"\x02\x0b\x07", false),
    (NAMED_BODY, true),
    (NAMED_BODY, true),
];

#[test]
fn roots_by_one_table(rt: HostRuntime) {
    let sections = sections(b"", ABBREV);
    let table = Abbrevs::at(&sections.abbrev, 0, 1000).expect(&rt, "the table has no fault");
    for &(body, has_low) in &BY_ONE_TABLE {
        assert!(rt; body.len() < 100);
        let root = unit(body, 0)
            .root_in(&table)
            .expect(&rt, "the values have no fault");
        same(&rt, &body, &root.low.is_some(), &has_low);
    }
}

/// The body of a unit, the offset of its abbreviations, and the fault.
const ROOTS: [(&[u8], u64, Option<(Fault, u64)>); 10] = [
    (b"", 0, None),
    (b"\0", 0, None),
    (b"\x02\x0b\x07", 0, None),
    (b"\0", 27, Some((Fault::OffsetOutside, 1000))),
    (b"\0", 23, Some((Fault::Truncated, 2027))),
    (b"\x80", 0, Some((Fault::Truncated, 1011))),
    (b"\x03", 0, Some((Fault::BadAbbrev, 1000))),
    (b"\x02", 0, Some((Fault::Truncated, 1012))),
    (b"\x02\x16\x0b\x07", 0, Some((Fault::UnknownForm, 1012))),
    (
        b"\x01ab\0cd\0\x01\x02\x03\x04\x05\x06\0\0",
        0,
        Some((Fault::Truncated, 1023)),
    ),
];

#[test]
fn roots_with_a_fault(rt: HostRuntime) {
    for &(body, abbrev_offset, want) in &ROOTS {
        assert!(rt; body.len() < 100);
        let sections = sections(b"", ABBREV);
        let found = match unit(body, abbrev_offset).root(&sections) {
            Ok(_) => None,
            Err(bad) => Some((bad.fault, bad.offset)),
        };
        same(&rt, &body, &found, &want);
    }
}

/// The root of a unit of DWARF 5 with this name and this base of both tables.
fn root<'a>(name: Content<'a>, base: Content<'a>) -> Root<'a> {
    let base = Some(Value {
        place: 8,
        content: base,
    });
    Root {
        place: 1000,
        shape: UnitShape {
            version: 5,
            wide: false,
            address: 8,
            order: Order::Little,
        },
        table_place: 2000,
        table_len: 1,
        name: Some(Value {
            place: 7,
            content: name,
        }),
        low: None,
        high: None,
        ranges: None,
        lines: None,
        str_base: base,
        addr_base: base,
        list_base: None,
    }
}

// A value that is no base.
const ABSENT: Content<'static> = Content::Other;

/// A value and a base, the name that the value has, and the address.
type Named<'a> = (
    Content<'a>,
    Content<'a>,
    Result<Option<&'a [u8]>, BadFile>,
    Result<Option<u64>, BadFile>,
);

const BAD_STRING: BadFile = BadFile {
    fault: Fault::BadString,
    offset: 7,
};

const OUTSIDE: BadFile = BadFile {
    fault: Fault::OffsetOutside,
    offset: 7,
};

const NAMED: [Named<'static>; 16] = [
    (Content::Text(b"zz"), ABSENT, Ok(Some(b"zz")), Ok(None)),
    (Content::StrOffset(2), ABSENT, Ok(Some(b"ab")), Ok(None)),
    (Content::LineStrOffset(2), ABSENT, Ok(Some(b"lm")), Ok(None)),
    (Content::StrIndex(0), ABSENT, Ok(Some(b"ab")), Ok(None)),
    (Content::StrIndex(1), ABSENT, Err(BAD_STRING), Ok(None)),
    (Content::StrIndex(2), ABSENT, Err(OUTSIDE), Ok(None)),
    (Content::StrIndex(u64::MAX), ABSENT, Err(OUTSIDE), Ok(None)),
    (
        Content::StrIndex(0),
        Content::SecOffset(12),
        Err(BAD_STRING),
        Ok(None),
    ),
    (
        Content::StrIndex(0),
        Content::Constant(12),
        Ok(Some(b"ab")),
        Ok(None),
    ),
    (Content::StrOffset(7), ABSENT, Err(OUTSIDE), Ok(None)),
    (Content::LineStrOffset(5), ABSENT, Err(OUTSIDE), Ok(None)),
    (Content::Constant(2), ABSENT, Ok(None), Ok(None)),
    (Content::Address(9), ABSENT, Ok(None), Ok(Some(9))),
    (
        Content::AddrIndex(0),
        ABSENT,
        Ok(None),
        Ok(Some(0x8877_6655_4433_2211)),
    ),
    (Content::AddrIndex(1), ABSENT, Ok(None), Err(OUTSIDE)),
    (
        Content::AddrIndex(1),
        Content::SecOffset(1),
        Ok(None),
        Ok(Some(0x9988_7766_5544_3322)),
    ),
];

#[test]
fn names_and_addresses(rt: HostRuntime) {
    let sections = sections(b"", b"");
    for &(content, base, name, address) in &NAMED {
        let root = root(content, base);
        holds(&rt, &content, root.name_text(&sections) == name);
        let value = Value { place: 7, content };
        same(&rt, &content, &root.address(&value, &sections), &address);
    }
}

/// The name of the first unit. It outlives the sections that are made of the file's bytes, and not these bytes.
fn first_name<'a>(info: &'a [u8], declared: &'a [u8]) -> Option<&'a [u8]>
    requires info { length info.now < 1000 }
    requires declared { length declared.now < 1000 }
{
    let sections = sections(info, declared);
    let unit = Units::new(&sections).next()?.ok()?;
    let root = unit.root(&sections).ok()?;
    root.name_text(&sections).ok()?
}

#[test]
fn names_borrow_the_file(rt: HostRuntime) {
    let info = b"\x0b\0\0\0\x04\0\0\0\0\0\x08\x01ab\0";
    let name = first_name(info, b"\x01\x11\0\x03\x08\0\0\0");
    assert!(rt; name == Some(b"ab".as_slice()));
}
