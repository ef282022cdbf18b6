//! Claims that loads carry: what is built, beside worked pieces and beside a plain program that asks the loads and the
//! claims byte by byte.

ghost use Rattle.std.specs.Prelude.{◌≡◌, ◌<◌};

use crate::claim_rows::{ClaimRow, LoadRow, NOWHERE, claims_of, loads_of};
use dual_map::{Base, DualMap};
use range_map::RangeMap;
use size_core::{Claim, Load, Side, Span, Steps};
use std::alloc::Global;
use std::marker::Brand;
use std::process::Abort;
use std::sync::ledger::{Blank, Ledger};

// The label of a byte that no claim covers.
const UNMAPPED: usize = 9;

// A file with the claims of a data source, and its pieces: the start, the length and the label of each.
#[derive(Clone, Copy)]
struct Example<'a> {
    len: u64,
    loads: &'a [LoadRow],
    claims: &'a [ClaimRow],
    mapped: u128,
    pieces: usize,
    file: &'a [(u128, u128, usize)],
    vm: &'a [(u128, u128, usize)],
    // Each label with its bytes in the file and in memory.
    sizes: &'a [(usize, u128, u128)],
}

fn agrees<L: Ledger>(rt: &impl Abort, map: &RangeMap, pieces: &[(u128, u128, usize)], blank: Blank)
    requires name { blank.name ≡ L.name }
    requires parts { blank.parts ≡ L.parts }
    requires some { 0 < blank.parts }
{
    let mut steps = Steps::<L>::begin(blank);
    assert_eq!(rt; map.len(), pieces.len());
    for (i, &(start, len, label)) in pieces.iter().enumerate() {
        assert!(rt; i < map.len());
        let piece = map.piece(i, &mut steps);
        assert_eq!(rt; (piece.start, piece.len, piece.label), (start, len, label));
    }
}

fn label_at<L: Ledger>(map: &RangeMap, x: u128, blank: Blank) -> Option<usize>
    requires name { blank.name ≡ L.name }
    requires parts { blank.parts ≡ L.parts }
    requires some { 0 < blank.parts }
{
    let mut steps = Steps::<L>::begin(blank);
    map.label_at(x, &mut steps)
}

// How many positions have a label.
fn size_of<L: Ledger>(map: &RangeMap, label: usize, blank: Blank) -> u128
    requires name { blank.name ≡ L.name }
    requires parts { blank.parts ≡ L.parts }
    requires some { 0 < blank.parts }
{
    let mut steps = Steps::<L>::begin(blank);
    let mut size = 0u128;
    for i in 0..map.len() {
        let piece = map.piece(i, &mut steps);
        if piece.label == label {
            size = size.wrapping_add(piece.len);
        }
    }
    size
}

// The plain program: from an offset to its address, from an address to its offset, and the first claim.
#[derive(Clone, Copy)]
struct Plain<'a> {
    len: u64,
    loads: &'a [Load],
    claims: &'a [Claim],
}

fn address_of(plain: &Plain<'_>, offset: u64) -> Option<(u32, u64)> {
    for load in plain.loads {
        let past = offset.wrapping_sub(load.offset);
        if offset >= load.offset && past < load.filesz.min(load.memsz) && offset < plain.len {
            return Some((load.space, load.vaddr.wrapping_add(past)));
        }
    }
    None
}

fn has_address(load: &Load, space: u32, address: u64) -> bool {
    load.space == space && address >= load.vaddr && address.wrapping_sub(load.vaddr) < load.memsz
}

fn offset_of(plain: &Plain<'_>, space: u32, address: u64) -> Option<u64> {
    for load in plain.loads {
        if has_address(load, space, address) {
            let past = address.wrapping_sub(load.vaddr);
            let offset = load.offset.wrapping_add(past);
            let there = past < load.filesz.min(load.memsz) && offset < plain.len;
            return there.then_some(offset);
        }
    }
    None
}

fn is_in(span: &Span, space: u32, x: u64) -> bool {
    span.space == space && x >= span.start && x.wrapping_sub(span.start) < span.len
}

fn label_of_offset(plain: &Plain<'_>, offset: u64) -> Option<usize> {
    if offset >= plain.len {
        return None;
    }
    for claim in plain.claims {
        let covers = match (claim.side, address_of(plain, offset)) {
            (Side::Vm, Some((space, address))) => is_in(&claim.vm, space, address),
            (Side::Vm, None) => false,
            _ => is_in(&claim.file, 0, offset),
        };
        if covers {
            return Some(claim.label);
        }
    }
    Some(UNMAPPED)
}

fn label_of_address(plain: &Plain<'_>, space: u32, address: u64) -> Option<usize> {
    if !plain
        .loads
        .iter()
        .any(|load| has_address(load, space, address))
    {
        return None;
    }
    for claim in plain.claims {
        let covers = match (claim.side, offset_of(plain, space, address)) {
            (Side::File, Some(offset)) => is_in(&claim.file, 0, offset),
            (Side::File, None) => false,
            _ => is_in(&claim.vm, space, address),
        };
        if covers {
            return Some(claim.label);
        }
    }
    Some(UNMAPPED)
}

// The pieces are those of the example, and each label has its sizes.
fn has_pieces(rt: &impl Abort, maps: &DualMap, example: &Example<'_>) {
    agrees::<Brand>(rt, maps.file_map(), example.file, Blank::new(1));
    agrees::<Brand>(rt, maps.vm_map(), example.vm, Blank::new(1));
    for &(label, file, vm) in example.sizes {
        let in_file = size_of::<Brand>(maps.file_map(), label, Blank::new(1));
        let in_memory = size_of::<Brand>(maps.vm_map(), label, Blank::new(1));
        assert_eq!(rt; (in_file, in_memory), (file, vm), "{label}");
    }
}

// An offset has the address and the label that the plain program finds.
fn offset_follows(rt: &impl Abort, base: &Base, maps: &DualMap, plain: &Plain<'_>, offset: u64) {
    let address = address_of(plain, offset);
    assert_eq!(rt; base.to_vm(offset), address, "at {offset}");
    let label = label_at::<Brand>(maps.file_map(), u128::from(offset), Blank::new(1));
    assert_eq!(rt; label, label_of_offset(plain, offset), "at {offset}");
}

// An address has the offset and the label that the plain program finds.
fn address_follows(
    rt: &impl Abort,
    base: &Base,
    maps: &DualMap,
    plain: &Plain<'_>,
    (space, address): (u32, u64),
) {
    let position = u128::from(space) * (1 << 64) + u128::from(address);
    let label = label_at::<Brand>(maps.vm_map(), position, Blank::new(1));
    let want = label_of_address(plain, space, address);
    assert_eq!(rt; label, want, "at {space}, {address}");
    assert_eq!(rt; base.is_mapped(space, address), want.is_some());
    assert_eq!(rt;
        base.to_file(space, address),
        offset_of(plain, space, address)
    );
}

// All offsets of a file and two more, and 200 addresses from some on in three spaces.
fn bytes_follow(rt: &impl Abort, base: &Base, maps: &DualMap, plain: &Plain<'_>) {
    for offset in 0..plain.len.saturating_add(2) {
        offset_follows(rt, base, maps, plain, offset);
    }
    for space in 0..3 {
        for start in [0, 990, 0x40_0000, 0x60_0000, u64::MAX - 199] {
            for i in 0..200 {
                address_follows(rt, base, maps, plain, (space, start.wrapping_add(i)));
            }
        }
    }
}

// Compares what is built with the pieces of the example and with the plain program.
fn follows(rt: &impl Abort, alloc: Global, example: &Example<'_>) {
    assert!(rt; example.len < 1 << 63);
    let loads = loads_of(rt, alloc, example.loads);
    let claims = claims_of(rt, alloc, example.claims);
    let base = Base::from_loads(alloc, example.len, loads.as_slice()).expect(rt, "memory");
    assert_eq!(rt;
        (base.mapped_size(), base.pieces()),
        (example.mapped, example.pieces)
    );
    let maps = DualMap::build(alloc, &base, example.len, claims.as_slice(), UNMAPPED);
    let maps = maps.expect(rt, "memory");
    has_pieces(rt, &maps, example);
    let plain = Plain {
        len: example.len,
        loads: loads.as_slice(),
        claims: claims.as_slice(),
    };
    bytes_follow(rt, &base, &maps, &plain);
}

const SPACE: u128 = 1 << 64;

const HEADER: usize = 2;

const SEGMENTS: usize = 3;

const SECTIONS: usize = 4;

const EXECUTABLE: Example<'static> = Example {
    len: 352,
    loads: &[(0, 0x40_0000, 136, 0, 136)],
    claims: &[
        (Side::File, NOWHERE, (0, 64), 0),
        (Side::File, NOWHERE, (64, 56), 1),
        (Side::Both, (0, 0x40_0078, 16), (120, 16), 2),
        (Side::File, NOWHERE, (136, 17), 3),
        (Side::File, NOWHERE, (160, 192), 4),
    ],
    mapped: 136,
    pieces: 1,
    file: &[
        (0, 64, 0),
        (64, 56, 1),
        (120, 16, 2),
        (136, 17, 3),
        (153, 7, 9),
        (160, 192, 4),
    ],
    vm: &[(0x40_0000, 64, 0), (0x40_0040, 56, 1), (0x40_0078, 16, 2)],
    sizes: &[
        (0, 64, 64),
        (1, 56, 56),
        (2, 16, 16),
        (3, 17, 0),
        (4, 192, 0),
        (9, 7, 0),
    ],
};

#[test]
fn an_executable_is_labelled(rt: HostRuntime) {
    follows(&rt, rt.alloc(), &EXECUTABLE);
}

// Sections, the header, its tables, then the load. The last section, 5, has addresses and no file bytes.
const LARGE_BSS: Example<'static> = Example {
    len: 416,
    loads: &[(0, 0x40_0000, 136 + (1 << 40), 0, 136)],
    claims: &[
        (Side::Both, (0, 0x40_0078, 16), (120, 16), 0),
        (Side::File, NOWHERE, (136, 22), 1),
        (Side::Vm, (0, 0x40_0088, 1 << 40), (0, 0), 5),
        (Side::File, NOWHERE, (0, 64), HEADER),
        (Side::File, NOWHERE, (64, 56), SEGMENTS),
        (Side::File, NOWHERE, (160, 256), SECTIONS),
        (Side::Both, (0, 0x40_0000, 136 + (1 << 40)), (0, 136), 6),
    ],
    mapped: 136 + (1 << 40),
    pieces: 1,
    file: &[
        (0, 64, HEADER),
        (64, 56, SEGMENTS),
        (120, 16, 0),
        (136, 22, 1),
        (158, 2, UNMAPPED),
        (160, 256, SECTIONS),
    ],
    vm: &[
        (0x40_0000, 64, HEADER),
        (0x40_0040, 56, SEGMENTS),
        (0x40_0078, 16, 0),
        (0x40_0088, 1 << 40, 5),
    ],
    sizes: &[
        (0, 16, 16),
        (1, 22, 0),
        (HEADER, 64, 64),
        (SEGMENTS, 56, 56),
        (SECTIONS, 256, 0),
        (5, 0, 1 << 40),
        (6, 0, 0),
        (UNMAPPED, 2, 0),
    ],
};

#[test]
fn a_large_section_without_file_bytes(rt: HostRuntime) {
    follows(&rt, rt.alloc(), &LARGE_BSS);
}

// The thread-local section before it claims nothing of the addresses of section 0.
const THREAD_LOCAL: Example<'static> = Example {
    len: 416,
    loads: &[(0, 0x40_0000, 128, 0, 128)],
    claims: &[
        (Side::Both, (0, 0x40_0078, 8), (120, 8), 0),
        (Side::File, NOWHERE, (128, 29), 1),
        (Side::File, NOWHERE, (0, 64), HEADER),
        (Side::File, NOWHERE, (64, 56), SEGMENTS),
        (Side::File, NOWHERE, (160, 256), SECTIONS),
        (Side::Both, (0, 0x40_0000, 128), (0, 128), 5),
    ],
    mapped: 128,
    pieces: 1,
    file: &[
        (0, 64, HEADER),
        (64, 56, SEGMENTS),
        (120, 8, 0),
        (128, 29, 1),
        (157, 3, UNMAPPED),
        (160, 256, SECTIONS),
    ],
    vm: &[
        (0x40_0000, 64, HEADER),
        (0x40_0040, 56, SEGMENTS),
        (0x40_0078, 8, 0),
    ],
    sizes: &[
        (0, 8, 8),
        (1, 29, 0),
        (HEADER, 64, 64),
        (SEGMENTS, 56, 56),
        (SECTIONS, 256, 0),
        (5, 0, 0),
        (UNMAPPED, 3, 0),
    ],
};

#[test]
fn addresses_of_a_thread_local_section(rt: HostRuntime) {
    follows(&rt, rt.alloc(), &THREAD_LOCAL);
}

// Two symbols begin at one address, and the section ends after both.
const TWO_SYMBOLS: Example<'static> = Example {
    len: 140,
    loads: &[(0, 0x40_0000, 136, 0, 136)],
    claims: &[
        (Side::Vm, (0, 0x40_0078, 8), (0, 0), 0),
        (Side::Vm, (0, 0x40_0078, 12), (0, 0), 1),
        (Side::Both, (0, 0x40_0078, 16), (120, 16), 5),
        (Side::File, NOWHERE, (0, 64), HEADER),
        (Side::File, NOWHERE, (64, 56), SEGMENTS),
    ],
    mapped: 136,
    pieces: 1,
    file: &[
        (0, 64, HEADER),
        (64, 56, SEGMENTS),
        (120, 8, 0),
        (128, 4, 1),
        (132, 4, 5),
        (136, 4, UNMAPPED),
    ],
    vm: &[
        (0x40_0000, 64, HEADER),
        (0x40_0040, 56, SEGMENTS),
        (0x40_0078, 8, 0),
        (0x40_0080, 4, 1),
        (0x40_0084, 4, 5),
    ],
    sizes: &[(0, 8, 8), (1, 4, 4), (5, 4, 4), (UNMAPPED, 4, 0)],
};

#[test]
fn symbols_at_one_address(rt: HostRuntime) {
    follows(&rt, rt.alloc(), &TWO_SYMBOLS);
}

// Two loads share addresses and offsets, one has more file bytes than addresses, one ends a space and is cut by
// the file's end, and one is empty.
const CARRIED: Example<'static> = Example {
    len: 100,
    loads: &[
        (0, 1000, 40, 0, 50),
        (0, 1020, 60, 30, 60),
        (1, u64::MAX - 7, 8, 96, 8),
        (1, 0, 0, 0, 0),
    ],
    claims: &[
        (Side::Vm, (0, 1030, 20), (0, 0), 0),
        (Side::File, NOWHERE, (50, 48), 1),
        (Side::Vm, (1, u64::MAX - 3, 100), (0, 0), 2),
        (Side::Both, (0, 1000, 10), (0, 5), 3),
        (Side::Vm, NOWHERE, (0, 0), 4),
    ],
    mapped: 88,
    pieces: 3,
    file: &[(0, 5, 3), (5, 25, 9), (30, 30, 0), (60, 38, 1), (98, 2, 9)],
    vm: &[
        (1000, 10, 3),
        (1010, 20, 9),
        (1030, 20, 0),
        (1050, 30, 1),
        (2 * SPACE - 8, 2, 1),
        (2 * SPACE - 6, 2, 9),
        (2 * SPACE - 4, 4, 2),
    ],
    sizes: &[
        (0, 30, 20),
        (1, 38, 32),
        (2, 0, 4),
        (3, 5, 10),
        (4, 0, 0),
        (9, 27, 22),
    ],
};

const EMPTY: Example<'static> = Example {
    len: 0,
    loads: &[],
    claims: &[],
    mapped: 0,
    pieces: 0,
    file: &[],
    vm: &[],
    sizes: &[(9, 0, 0)],
};

#[test]
fn claims_are_carried(rt: HostRuntime) {
    follows(&rt, rt.alloc(), &CARRIED);
    follows(&rt, rt.alloc(), &EMPTY);
}

// Two loads have the same bytes: by loads, and by sections.
const TWICE_BY_LOADS: Example<'static> = Example {
    len: 408,
    loads: &[(0, 0x40_0000, 192, 0, 192), (0, 0x60_0000, 192, 0, 192)],
    claims: &[
        (Side::Both, (0, 0x40_0000, 192), (0, 192), 0),
        (Side::Both, (0, 0x60_0000, 192), (0, 192), 1),
        (Side::File, NOWHERE, (0, 64), HEADER),
        (Side::File, NOWHERE, (64, 112), SEGMENTS),
        (Side::File, NOWHERE, (216, 192), SECTIONS),
    ],
    mapped: 384,
    pieces: 2,
    file: &[(0, 192, 0), (192, 24, UNMAPPED), (216, 192, SECTIONS)],
    vm: &[(0x40_0000, 192, 0), (0x60_0000, 192, 1)],
    sizes: &[
        (0, 192, 192),
        (1, 0, 192),
        (SECTIONS, 192, 0),
        (UNMAPPED, 24, 0),
    ],
};

const TWICE_BY_SECTIONS: Example<'static> = Example {
    claims: &[
        (Side::Both, (0, 0x40_00b0, 16), (176, 16), 0),
        (Side::File, NOWHERE, (192, 17), 1),
        (Side::File, NOWHERE, (0, 64), HEADER),
        (Side::File, NOWHERE, (64, 112), SEGMENTS),
        (Side::File, NOWHERE, (216, 192), SECTIONS),
        (Side::Both, (0, 0x40_0000, 192), (0, 192), 5),
        (Side::Both, (0, 0x60_0000, 192), (0, 192), 6),
    ],
    file: &[
        (0, 64, HEADER),
        (64, 112, SEGMENTS),
        (176, 16, 0),
        (192, 17, 1),
        (209, 7, UNMAPPED),
        (216, 192, SECTIONS),
    ],
    vm: &[
        (0x40_0000, 64, HEADER),
        (0x40_0040, 112, SEGMENTS),
        (0x40_00b0, 16, 0),
        (0x60_0000, 64, HEADER),
        (0x60_0040, 112, SEGMENTS),
        (0x60_00b0, 16, 6),
    ],
    sizes: &[
        (0, 16, 16),
        (HEADER, 64, 128),
        (SEGMENTS, 112, 224),
        (6, 0, 16),
    ],
    ..TWICE_BY_LOADS
};

#[test]
fn bytes_that_are_loaded_twice(rt: HostRuntime) {
    follows(&rt, rt.alloc(), &TWICE_BY_LOADS);
    follows(&rt, rt.alloc(), &TWICE_BY_SECTIONS);
}
