//! Explanations of offsets and addresses that were made by hand.

use crate::trees::{joined, letters};
use place_explain::{NamedClaim, NamedClaims, PlaceSource};
use report_text::place_text;
use size_core::{Bytes, Place, Side, Text};
use std::alloc::Global;
use std::process::Abort;

// An explanation by a data source: its name and the label; of each claim the number, the side and the label; and how
// many more claims there are.
#[derive(Clone, Copy)]
struct Said<'a> {
    name: &'a str,
    label: &'a [u8],
    claims: &'a [(u64, Side, &'a [u8])],
    more: u64,
}

fn named(rt: &impl Abort, alloc: Global, claims: &[(u64, Side, &[u8])]) -> NamedClaims {
    let mut named = NamedClaims::new(alloc);
    for &(number, side, label) in claims {
        let claim = NamedClaim {
            number,
            side,
            label: Bytes::of(alloc, label).expect(rt, "memory"),
        };
        named.push(claim).expect(rt, "memory");
    }
    named
}

fn source(rt: &impl Abort, alloc: Global, said: &Said<'_>) -> PlaceSource {
    PlaceSource {
        name: Text::of(alloc, said.name).expect(rt, "memory"),
        label: Bytes::of(alloc, said.label).expect(rt, "memory"),
        claims: named(rt, alloc, said.claims),
        more: said.more,
    }
}

// The lines of an explanation by one or two data sources, after a line that was there.
fn shown(
    rt: &impl Abort,
    alloc: Global,
    place: Place,
    sources: &[Said<'_>],
    wide: bool,
) -> Vec<u8> {
    let mut said = Vec::new(alloc);
    for it in sources {
        said.push(source(rt, alloc, it)).expect(rt, "memory");
    }
    let mut out = Vec::from_slice(alloc, b"kept\n").expect(rt, "memory");
    place_text(alloc, &place, &said, wide, &mut out).expect(rt, "memory");
    out
}

const OFFSET_LINES: &[u8] = b"kept
file offset 120
source sections
  label .text
  first #1 both .text
  beaten #6 both [LOAD #0 [RX]]
";

const OF_OFFSET: [Said<'static>; 1] = [Said {
    name: "sections",
    label: b".text",
    claims: &[
        (1, Side::Both, b".text"),
        (6, Side::Both, b"[LOAD #0 [RX]]"),
    ],
    more: 0,
}];

#[test]
fn a_place_of_the_file(rt: HostRuntime) {
    let out = shown(&rt, rt.alloc(), Place::Offset(120), &OF_OFFSET, false);
    assert!(rt; out.as_slice() == OFFSET_LINES);
}

const ADDRESS_LINES: &[u8] = b"kept
address 4194304
source segments
  label LOAD #0 [RX]
  first #1 both LOAD #0 [RX]
  beaten #2 file [ELF Header]
source sections
  label [ELF Header]
  first #3 file [ELF Header]
  beaten #6 both [LOAD #0 [RX]]
";

const OF_ADDRESS: [Said<'static>; 2] = [
    Said {
        name: "segments",
        label: b"LOAD #0 [RX]",
        claims: &[
            (1, Side::Both, b"LOAD #0 [RX]"),
            (2, Side::File, b"[ELF Header]"),
        ],
        more: 0,
    },
    Said {
        name: "sections",
        label: b"[ELF Header]",
        claims: &[
            (3, Side::File, b"[ELF Header]"),
            (6, Side::Both, b"[LOAD #0 [RX]]"),
        ],
        more: 0,
    },
];

#[test]
fn a_place_in_memory(rt: HostRuntime) {
    let place = Place::Address(0, 0x40_0000);
    let out = shown(&rt, rt.alloc(), place, &OF_ADDRESS, false);
    assert!(rt; out.as_slice() == ADDRESS_LINES);
}

const SPACE_LINES: &[u8] = b"kept
address 4294967295:18446744073709551615
source mine
  label new
  first #9 vm old
  more 18446744073709551615
";

const BARE_LINES: &[u8] = b"kept
address 0
source mine
  label [Unmapped]
  first none
";

const OF_SPACE: [Said<'static>; 1] = [Said {
    name: "mine",
    label: b"new",
    claims: &[(9, Side::Vm, b"old")],
    more: u64::MAX,
}];

const BARE: [Said<'static>; 1] = [Said {
    name: "mine",
    label: b"[Unmapped]",
    claims: &[],
    more: 0,
}];

#[test]
fn a_space_and_a_limit(rt: HostRuntime) {
    let place = Place::Address(u32::MAX, u64::MAX);
    let out = shown(&rt, rt.alloc(), place, &OF_SPACE, false);
    assert!(rt; out.as_slice() == SPACE_LINES);
    let out = shown(&rt, rt.alloc(), Place::Address(0, 0), &BARE, false);
    assert!(rt; out.as_slice() == BARE_LINES);
}

// The label and a claim's label are shown in this form.
fn has_label(rt: &impl Abort, alloc: Global, label: &[u8], wide: bool, want: &[u8]) {
    let said = Said {
        name: "a\tb",
        label,
        claims: &[(1, Side::File, label)],
        more: 0,
    };
    let out = shown(rt, alloc, Place::Offset(0), &[said], wide);
    let head = b"kept\nfile offset 0\nsource a\\x09b\n  label ".as_slice();
    let parts = [head, want, b"\n  first #1 file ", want, b"\n"];
    assert!(rt; out == joined(rt, alloc, &parts));
}

#[test]
fn names_in_places(rt: HostRuntime) {
    let alloc = rt.alloc();
    let long = letters(&rt, alloc, 0, b"", 61);
    let cut = letters(&rt, alloc, 28, b"[...]", 60);
    has_label(&rt, alloc, &long, false, &cut);
    has_label(&rt, alloc, &long, true, &long);
}
