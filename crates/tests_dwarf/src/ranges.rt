//! Range lists of units, and sets of address ranges.

ghost use Rattle.std.specs.Prelude.{◌≡◌, ◌<◌, length};

use crate::checks::{holds, same};
use byte_cursor::{Cursor, Order};
use dwarf_abbrev::{Content, UnitShape, Value};
use dwarf_ranges::{AddressSet, RangeAnswer, arange_sets, claims_nothing, unit_ranges};
use dwarf_units::{Root, Sections};
use size_core::{BadFile, Fault};
use std::alloc::Global;
use std::process::Abort;

/// The addresses 0x401000, 0x401010 and 0x402000 of 8 bytes after a header.
fn addresses(order: Order) -> &'static [u8]
    ensures { length result.now ≡ 32 }
{
    match order {
        Order::Little => {
            b"hhhhhhhh\0\x10\x40\0\0\0\0\0\x10\x10\x40\0\0\0\0\0\0\x20\x40\0\0\0\0\0"
        }
        Order::Big => { b"hhhhhhhh\0\0\0\0\0\x40\x10\0\0\0\0\0\0\x40\x10\x10\0\0\0\0\0\x40\x20\0" }
    }
}

/// Sections of this order, with these range lists at the file offset 1,000, these sets at 2,000, and addresses.
fn sections<'a>(order: Order, version: u16, lists: &'a [u8], sets: &'a [u8]) -> Sections<'a>
    requires lists { length lists.now < 1000 }
    requires sets { length sets.now < 1000 }
{
    Sections {
        order,
        info: Cursor::new(0, b""),
        abbrev: Cursor::new(0, b""),
        strings: Cursor::new(0, b""),
        line_strings: Cursor::new(0, b""),
        str_offsets: Cursor::new(0, b""),
        addresses: Cursor::new(3000, addresses(order)),
        ranges: Cursor::new(1000, if version == 5 { b"" } else { lists }),
        rnglists: Cursor::new(1000, if version == 5 { lists } else { b"" }),
        aranges: Cursor::new(2000, sets),
        lines: Cursor::new(0, b""),
    }
}

fn value<'a>(place: u64, content: Option<Content<'a>>) -> Option<Value<'a>> {
    match content {
        Some(content) => Some(Value { place, content }),
        None => None,
    }
}

/// A root with `DW_AT_low_pc` at the file offset 11, `DW_AT_high_pc` at 12, and `DW_AT_ranges` at 13.
fn root<'a>(
    version: u16,
    address: u8,
    low: Option<Content<'a>>,
    high: Option<Content<'a>>,
    ranges: Option<Content<'a>>,
) -> Root<'a> {
    Root {
        place: 0,
        shape: UnitShape {
            version,
            wide: false,
            address,
            order: Order::Little,
        },
        table_place: 0,
        table_len: 0,
        name: None,
        low: value(11, low),
        high: value(12, high),
        ranges: value(13, ranges),
        lines: None,
        str_base: None,
        addr_base: None,
        list_base: None,
    }
}

const NO_RANGES: &[(u64, u64)] = &[];

/// Whether the ranges of a root, with these range lists in the sections, are added after one that was there, or the fault
/// is returned and nothing is added.
fn expect(
    rt: &impl Abort,
    alloc: Global,
    root: &Root,
    lists: &[u8],
    want: Result<&[(u64, u64)], (Fault, u64)>,
)
    requires { length lists.now < 1000 }
{
    let sections = sections(root.shape.order, root.shape.version, lists, b"");
    let mut out = Vec::new(alloc);
    out.push((1, 1)).expect(rt, "memory");
    let answer = unit_ranges(alloc, root, &sections, &mut out);
    let (wanted, ranges) = match want {
        Ok(ranges) => (Ok(()), ranges),
        Err((fault, offset)) => (Err(RangeAnswer::Bad(BadFile { fault, offset })), NO_RANGES),
    };
    same(rt, &ranges, &answer, &wanted);
    let all = out.as_slice().split_first();
    holds(rt, &all, all == Some((&(1, 1), ranges)));
}

/// The pairs (greatest, 0x401000), (0x10, 0x20), (0x20, 0x20), (0, 0).
const PAIRS: &[u8] =
    b"\xff\xff\xff\xff\xff\xff\xff\xff\0\x10\x40\0\0\0\0\0\x10\0\0\0\0\0\0\0\x20\0\0\0\0\0\0\0\x20\0\0\0\0\0\0\0\x20\0\0\0\0\0\0\0\0\0\0\0\0\0\0\0\0\0\0\0\0\0\0\0";

/// A version, the size of an address, the low address and the ranges of a root, the lists, and the ranges in them.
type PairList<'a> = (
    u16,
    u8,
    Option<Content<'a>>,
    Content<'a>,
    &'a [u8],
    Result<&'a [(u64, u64)], (Fault, u64)>,
);

const PAIR_LISTS: [PairList<'static>; 9] = [
    (
        4,
        8,
        Some(Content::Address(0x7000)),
        Content::SecOffset(0),
        PAIRS,
        Ok(&[(0x401010, 16)]),
    ),
    // Over the unit's first address, and over none.
    (
        3,
        8,
        Some(Content::Address(0x7000)),
        Content::Constant(16),
        PAIRS,
        Ok(&[(0x7010, 16)]),
    ),
    (2, 8, None, Content::Constant(16), PAIRS, Ok(&[(0x10, 16)])),
    // Other sizes of an address: a base, an end before its start, and sums past the greatest address.
    (
        4,
        4,
        None,
        Content::SecOffset(0),
        b"\xff\xff\xff\xff\0\0\0\xf0\x30\0\0\0\x20\0\0\0\0\x01\0\x10\0\x02\0\x10\0\0\0\0\0\0\0\0",
        Ok(&[(0x100, 0x100)]),
    ),
    (
        4,
        2,
        None,
        Content::SecOffset(0),
        b"\xff\xff\0\xf0\x01\x10\x03\x10\0\0\0\0",
        Ok(&[(1, 2)]),
    ),
    // Starts at 0 and at the two greatest addresses, the third greatest, and the one after 0.
    (
        4,
        2,
        None,
        Content::SecOffset(0),
        b"\0\0\x09\0\xfe\xff\x01\0\xfd\xff\xfe\xff\x01\0\x02\0\0\0\0\0",
        Ok(&[(0xfffd, 1), (1, 1)]),
    ),
    (
        4,
        2,
        Some(Content::Address(0xffff)),
        Content::SecOffset(0),
        b"\0\0\x01\0\x01\0\x02\0\0\0\0\0",
        Ok(&[]),
    ),
    // A list may begin at the section's end, if its first pair isn't whole, and not after it.
    (
        4,
        8,
        None,
        Content::SecOffset(64),
        PAIRS,
        Err((Fault::BadRangeList, 1064)),
    ),
    (
        4,
        8,
        None,
        Content::SecOffset(65),
        PAIRS,
        Err((Fault::OffsetOutside, 13)),
    ),
];

#[test]
fn lists_of_pairs(rt: HostRuntime) {
    for &(version, address, low, ranges, lists, want) in &PAIR_LISTS {
        assert!(rt; lists.len() < 100);
        let root = root(version, address, low, None, Some(ranges));
        expect(&rt, rt.alloc(), &root, lists, want);
    }
}

#[test]
fn cut_lists_of_pairs(rt: HostRuntime) {
    let root = root(4, 8, None, None, Some(Content::SecOffset(0)));
    for len in 1..64 {
        assert!(rt; len <= PAIRS.len());
        let lists = &PAIRS[..len];
        let place = 1000 + len as u64 / 16 * 16;
        expect(
            &rt,
            rt.alloc(),
            &root,
            lists,
            Err((Fault::BadRangeList, place)),
        );
    }
}

/// The ranges of a root, the lists, and the ranges in them.
type EntryList<'a> = (
    Content<'a>,
    &'a [u8],
    Result<&'a [(u64, u64)], (Fault, u64)>,
);

const ENTRY_LISTS: [EntryList<'static>; 11] = [
    // A base, offsets from it, a start with a length, and the end.
    (
        Content::SecOffset(12),
        b"hhhhhhhhhhhh\x05\0\x10\x40\0\0\0\0\0\x04\x10\x20\x07\0\x20\x40\0\0\0\0\0\x08\0",
        Ok(&[(0x401010, 16), (0x402000, 8)]),
    ),
    // The same after the table of offsets.
    (
        Content::ListIndex(0),
        b"hhhhhhhhhhhh\x04\0\0\0\x05\0\x10\x40\0\0\0\0\0\x04\x10\x20\x07\0\x20\x40\0\0\0\0\0\x08\0",
        Ok(&[(0x401010, 16), (0x402000, 8)]),
    ),
    // An unknown kind.
    (
        Content::SecOffset(12),
        b"hhhhhhhhhhhh\x05\0\x10\x40\0\0\0\0\0\x04\x10\x20\x08\0\x20\x40\0\0\0\0\0\x08\0",
        Err((Fault::BadRangeList, 1024)),
    ),
    // By index: a base with offsets from it, a start and an end, a start with a length; and a start and an end.
    (
        Content::SecOffset(0),
        b"\x01\x02\x04\x04\x08\x02\x00\x01\x03\x01\x05\x06\x02\0\0\0\0\0\0\0\x09\0\0\0\0\0\0\0\0",
        Ok(&[(0x402004, 4), (0x401000, 16), (0x401010, 5), (2, 7)]),
    ),
    // Offsets from the unit's first address.
    (Content::SecOffset(0), b"\x04\x01\x03\0", Ok(&[(0x7001, 2)])),
    // An index outside, an operand that isn't whole, no end, and no list.
    (
        Content::SecOffset(1),
        b"h\x04\x01\x01\x03\x03\x05\0",
        Err((Fault::OffsetOutside, 1004)),
    ),
    (
        Content::SecOffset(1),
        b"h\x04\x01\x01\x07\x01\0\0\0\0\0\0",
        Err((Fault::BadRangeList, 1004)),
    ),
    (
        Content::SecOffset(1),
        b"h\x04\x01\x01",
        Err((Fault::BadRangeList, 1004)),
    ),
    (
        Content::SecOffset(2),
        b"h\0",
        Err((Fault::OffsetOutside, 13)),
    ),
    (
        Content::ListIndex(1),
        b"hhhhhhhhhhhh\x04\0\0\0\0\0\0",
        Err((Fault::OffsetOutside, 13)),
    ),
    (
        Content::ListIndex(0),
        b"hhhhhhhhhhhh\x04\0\0\0",
        Err((Fault::OffsetOutside, 13)),
    ),
];

#[test]
fn lists_of_entries(rt: HostRuntime) {
    for &(ranges, lists, want) in &ENTRY_LISTS {
        assert!(rt; lists.len() < 100);
        let root = root(5, 8, Some(Content::Address(0x7000)), None, Some(ranges));
        expect(&rt, rt.alloc(), &root, lists, want);
    }
}

/// An order, whether a unit is wide, its version and the size of an address, the ranges of its root, the lists, and the
/// ranges in them.
type WideList<'a> = (
    Order,
    bool,
    u16,
    u8,
    Content<'a>,
    &'a [u8],
    Result<&'a [(u64, u64)], (Fault, u64)>,
);

const WIDE_LISTS: [WideList<'static>; 11] = [
    // By the index of an offset of 8 bytes, after a header of 20 bytes: a start and an end, and in the other
    // order a start and a length.
    (
        Order::Little,
        true,
        5,
        8,
        Content::ListIndex(0),
        b"hhhhhhhhhhhhhhhhhhhh\x08\0\0\0\0\0\0\0\
\x06\0\x10\x40\0\0\0\0\0\x10\x10\x40\0\0\0\0\0\0",
        Ok(&[(0x401000, 16)]),
    ),
    (
        Order::Big,
        true,
        5,
        8,
        Content::ListIndex(1),
        b"hhhhhhhhhhhhhhhhhhhhoooooooo\0\0\0\0\0\0\0\x10\
\x07\0\0\0\0\0\x40\x20\0\x88\x01\0",
        Ok(&[(0x402000, 136)]),
    ),
    // An offset that isn't whole, and one past the section.
    (
        Order::Big,
        true,
        5,
        8,
        Content::ListIndex(0),
        b"hhhhhhhhhhhhhhhhhhhh\0\0\0\0\0\0\0",
        Err((Fault::OffsetOutside, 13)),
    ),
    (
        Order::Little,
        true,
        5,
        8,
        Content::ListIndex(0),
        b"hhhhhhhhhhhhhhhhhhhh\xec\xff\xff\xff\xff\xff\xff\xff\0",
        Err((Fault::OffsetOutside, 13)),
    ),
    // Addresses by their indexes in a table of two, after a header of 16 bytes.
    (
        Order::Little,
        true,
        5,
        8,
        Content::SecOffset(1),
        b"h\x03\0\x05\x01\x01\x04\x01\x03\0",
        Ok(&[(0x401010, 5), (0x402001, 2)]),
    ),
    (
        Order::Little,
        true,
        5,
        8,
        Content::SecOffset(1),
        b"h\x03\0\x05\x03\x02\x05\0",
        Err((Fault::OffsetOutside, 1004)),
    ),
    (
        Order::Big,
        false,
        5,
        8,
        Content::SecOffset(0),
        b"\x02\0\x01\0",
        Ok(&[(0x401000, 16)]),
    ),
    // Greatest bytes first: an offset of 4 bytes, and addresses of 4 bytes.
    (
        Order::Big,
        false,
        5,
        4,
        Content::ListIndex(0),
        b"hhhhhhhhhhhh\0\0\0\x04\x05\0\x40\x10\0\x04\x10\x20\x06\0\x40\x20\0\0\x40\x20\x08\0",
        Ok(&[(0x401010, 16), (0x402000, 8)]),
    ),
    // Pairs, which are the same in wide units.
    (
        Order::Little,
        true,
        4,
        8,
        Content::SecOffset(0),
        PAIRS,
        Ok(&[(0x401010, 16)]),
    ),
    (
        Order::Big,
        true,
        4,
        4,
        Content::SecOffset(0),
        b"\xff\xff\xff\xff\0\x40\x10\0\0\0\0\x10\0\0\0\x20\0\0\0\0\0\0\0\0",
        Ok(&[(0x401010, 16)]),
    ),
    (
        Order::Big,
        false,
        3,
        2,
        Content::Constant(4),
        b"hhhh\x10\0\x10\x20\xff\xff\x20\0\0\x01\0\x03\0\0\0\0",
        Ok(&[(0x1000, 32), (0x2001, 2)]),
    ),
];

#[test]
fn lists_of_wide_units_and_of_each_order(rt: HostRuntime) {
    for &(order, wide, version, address, ranges, lists, want) in &WIDE_LISTS {
        assert!(rt; lists.len() < 100);
        let mut root = root(version, address, None, None, Some(ranges));
        root.shape = UnitShape {
            version,
            wide,
            address,
            order,
        };
        expect(&rt, rt.alloc(), &root, lists, want);
    }
}

/// A version, the low and the high address and the ranges of a root, and its ranges.
type NoList<'a> = (
    u16,
    Option<Content<'a>>,
    Option<Content<'a>>,
    Option<Content<'a>>,
    Result<&'a [(u64, u64)], (Fault, u64)>,
);

const NO_LISTS: [NoList<'static>; 10] = [
    (
        4,
        Some(Content::Address(0x10)),
        Some(Content::Address(0x18)),
        None,
        Ok(&[(0x10, 8)]),
    ),
    (
        4,
        Some(Content::Address(0x10)),
        Some(Content::Constant(0x18)),
        // No list in DWARF 4.
        Some(Content::Constant(0)),
        Ok(&[(0x10, 0x18)]),
    ),
    (
        5,
        Some(Content::AddrIndex(0)),
        Some(Content::AddrIndex(2)),
        None,
        Ok(&[(0x401000, 0x1000)]),
    ),
    (
        5,
        Some(Content::Address(0x10)),
        Some(Content::Signed(5)),
        None,
        Ok(&[(0x10, 5)]),
    ),
    (
        5,
        Some(Content::Address(0x10)),
        Some(Content::Signed(-5)),
        None,
        Ok(&[]),
    ),
    (
        4,
        Some(Content::Address(0x10)),
        Some(Content::Address(0x10)),
        None,
        Ok(&[]),
    ),
    (
        4,
        None,
        Some(Content::Address(0x18)),
        // No list before DWARF 5.
        Some(Content::ListIndex(0)),
        Ok(&[]),
    ),
    (
        5,
        Some(Content::AddrIndex(3)),
        Some(Content::AddrIndex(3)),
        None,
        Err((Fault::OffsetOutside, 11)),
    ),
    (
        5,
        None,
        Some(Content::AddrIndex(3)),
        None,
        Err((Fault::OffsetOutside, 12)),
    ),
    // The end isn't read if there is a list.
    (
        5,
        None,
        Some(Content::AddrIndex(3)),
        Some(Content::SecOffset(0)),
        Ok(&[]),
    ),
];

#[test]
fn units_without_a_list(rt: HostRuntime) {
    for &(version, low, high, ranges, want) in &NO_LISTS {
        let root = root(version, 8, low, high, ranges);
        expect(&rt, rt.alloc(), &root, b"\0", want);
    }
}

/// The size of an address, a start and a length, and whether they claim nothing.
const NOTHING: [(u8, u64, u64, bool); 9] = [
    (8, 1, 0, true),
    (8, 0, 1, true),
    (8, u64::MAX, 1, true),
    (8, u64::MAX - 1, 1, true),
    (8, u64::MAX - 2, 1, false),
    (4, 0xffff_fffe, 1, true),
    (4, 0xffff_fffd, 9, false),
    (2, 0xffff, 1, true),
    (2, 0x1_0000, 1, false),
];

#[test]
fn ranges_that_claim_nothing(rt: HostRuntime) {
    for &(size, start, len, want) in &NOTHING {
        let found = claims_nothing(size, start, len);
        same(&rt, &(size, start, len), &found, &want);
    }
}

/// What a set has: its offset, its length, the offset of its unit, the size of an address, its first tuple
/// and how many there are.
type Told = ((u64, u64), (u64, u8), (Option<(u64, u64)>, usize));

fn told_set(mut set: AddressSet<'_>) -> Told {
    let first = set.tuples.next();
    let mut count = 0_usize;
    for _ in set.tuples {
        count = count.saturating_add(1);
    }
    (
        (set.place, set.len),
        (set.info_offset, set.address),
        (first, count),
    )
}

fn told(set: Option<Result<AddressSet<'_>, BadFile>>) -> Option<Result<Told, (Fault, u64)>> {
    match set? {
        Ok(set) => Some(Ok(told_set(set))),
        Err(bad) => Some(Err((bad.fault, bad.offset))),
    }
}

/// Bytes, and what their first set has.
const SETS: [(&[u8], Option<Result<Told, (Fault, u64)>>); 13] = [
    // Tuples at the next multiple of a tuple's size: 12, 16 and 16 bytes after the set's start, and 24 or 32
    // in a wide one.
    (
        b"\x10\0\0\0\x02\0\x30\0\0\0\x02\0\x11\0\x22\0\x33\0\x44\0",
        Some(Ok(((2000, 20), (48, 2), (Some((0x11, 0x22)), 1)))),
    ),
    (
        b"\x1c\0\0\0\x02\0\x30\0\0\0\x04\0pppp\x11\0\0\0\x22\0\0\0\0\0\0\0\0\0\0\0",
        Some(Ok(((2000, 32), (48, 4), (Some((0x11, 0x22)), 0)))),
    ),
    (
        b"\x1c\0\0\0\x02\0\x30\0\0\0\x08\0pppp\x11\0\0\0\0\0\0\0\x22\0\0\0\0\0\0\0",
        Some(Ok(((2000, 32), (48, 8), (Some((0x11, 0x22)), 0)))),
    ),
    (
        b"\xff\xff\xff\xff\x25\0\0\0\0\0\0\0\x02\0\x30\0\0\0\0\0\0\0\x08\0pppppppp\x11\0\0\0\0\0\0\0\x22\0\0\0\0\0\0\0",
        Some(Err((Fault::BadUnit, 2000))),
    ),
    (
        b"\xff\xff\xff\xff\x24\0\0\0\0\0\0\0\x02\0\x30\0\0\0\0\0\0\0\x08\0pppppppp\x11\0\0\0\0\0\0\0\x22\0\0\0\0\0\0\0",
        Some(Ok(((2000, 48), (48, 8), (Some((0x11, 0x22)), 0)))),
    ),
    // Tuples end before a rest, and there may be none, or no space for one. A start of 0 is a tuple.
    (
        b"\x13\0\0\0\x02\0\x30\0\0\0\x02\0\0\0\x22\0\x33\0\0\0\x44\0\x55",
        Some(Ok(((2000, 23), (48, 2), (Some((0, 0x22)), 1)))),
    ),
    (
        b"\x08\0\0\0\x02\0\x30\0\0\0\x04\0",
        Some(Ok(((2000, 12), (48, 4), (None, 0)))),
    ),
    // Skipped: too short, another version, another size of an address, and segments.
    (b"\x07\0\0\0\x02\0\x30\0\0\0\x04", None),
    (b"\x08\0\0\0\x03\0\x30\0\0\0\x04\0", None),
    (b"\x08\0\0\0\x02\0\x30\0\0\0\x03\0", None),
    (b"\x08\0\0\0\x02\0\x30\0\0\0\x04\x01", None),
    // A fault after a set that is skipped.
    (b"\0\0\0\0\x04\0", Some(Err((Fault::Truncated, 2004)))),
    (
        b"\xf0\xff\xff\xff\0\0\0\0",
        Some(Err((Fault::BadUnit, 2000))),
    ),
];

#[test]
fn sets_of_addresses(rt: HostRuntime) {
    for &(bytes, want) in &SETS {
        assert!(rt; bytes.len() < 100);
        let sections = sections(Order::Little, 4, b"", bytes);
        let mut sets = arange_sets(&sections);
        same(&rt, &bytes, &told(sets.next()), &want);
        same(&rt, &bytes, &told(sets.next()), &None);
    }
}
