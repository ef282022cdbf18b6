//! The claims that cover an offset or an address of a file.

ghost use Rattle.std.specs.Prelude.{◌≡◌, ◌<◌, All, IfOk, IsTrue, length};
ghost use Rattle.size_core.specs.declared.claim.Claim.{Claim as ClaimSpec};

use crate::claim_rows::{ClaimRow, LoadRow, NOWHERE, claims_of, loads_of};
use dual_map::Base;
use place_explain::{
    Explained, NumberedClaims, Numbers, covers, explain, explain_source, is_inside,
};
use size_core::{Claim, LabelPool, Place, Side};
use std::alloc::Global;
use std::process::Abort;

// A file with its claims.
#[derive(Clone, Copy)]
struct Example<'a> {
    len: u64,
    loads: &'a [LoadRow],
    claims: &'a [ClaimRow],
}

// The base of an example, whose loads end in their spaces.
fn base_of(rt: &impl Abort, alloc: Global, example: &Example<'_>) -> Base
    ensures { result.len ≡ example.now.len }
{
    let loads = loads_of(rt, alloc, example.loads);
    assert!(rt; example.len < 1 << 63);
    Base::from_loads(alloc, example.len, loads.as_slice()).expect(rt, "memory")
}

// How many claims cover an offset or an address.
fn count_covering(base: &Base, len: u64, claims: &[Claim], place: &Place) -> usize
    requires { base.now.len ≡ len }
{
    let mut count = 0usize;
    for claim in claims {
        if covers(base, len, claim, place) {
            count = count.saturating_add(1);
        }
    }
    count
}

// An offset or an address, and the numbers of the claims that cover it.
type Covered<'a> = (Place, &'a [u64]);

fn are(rt: &impl Abort, numbers: &Numbers, want: &[u64]) {
    assert_eq!(rt; numbers.len(), want.len());
    for (k, number) in want.iter().enumerate() {
        assert!(rt; k < numbers.len());
        assert_eq!(rt; *numbers.get(k), *number);
    }
}

// The claims that cover an offset or an address have these numbers.
fn is_covered(rt: &impl Abort, alloc: Global, example: &Example<'_>, &(place, want): &Covered<'_>) {
    let base = base_of(rt, alloc, example);
    let claims = claims_of(rt, alloc, example.claims);
    assert!(rt; is_inside(&base, example.len, &place));
    let numbers = explain(alloc, &base, example.len, claims.as_slice(), &place);
    are(rt, &numbers.expect(rt, "memory"), want);
    let count = count_covering(&base, example.len, claims.as_slice(), &place);
    assert_eq!(rt; count, want.len());
}

const SECTIONS: Example<'static> = Example {
    len: 352,
    loads: &[(0, 0x40_0000, 136, 0, 136)],
    claims: &[
        (Side::Both, (0, 0x40_0078, 16), (120, 16), 0),
        (Side::File, NOWHERE, (136, 17), 1),
        (Side::File, NOWHERE, (0, 64), 2),
        (Side::File, NOWHERE, (64, 56), 3),
        (Side::File, NOWHERE, (160, 192), 4),
        (Side::Both, (0, 0x40_0000, 136), (0, 136), 5),
    ],
};

const IN_SECTIONS: [Covered<'static>; 5] = [
    (Place::Offset(120), &[1, 6]),
    (Place::Offset(155), &[]),
    (Place::Offset(351), &[5]),
    (Place::Address(0, 0x40_0000), &[3, 6]),
    (Place::Address(0, 0x40_0087), &[1, 6]),
];

const OUTSIDE: [Place; 3] = [
    Place::Offset(352),
    Place::Address(0, 0x40_0088),
    Place::Address(1, 0x40_0000),
];

#[test]
fn claims_of_sections_cover(rt: HostRuntime) {
    for case in &IN_SECTIONS {
        is_covered(&rt, rt.alloc(), &SECTIONS, case);
    }
    let base = base_of(&rt, rt.alloc(), &SECTIONS);
    for place in &OUTSIDE {
        assert!(rt; !is_inside(&base, 352, place));
    }
}

// Two loads share addresses and offsets, one has more file bytes than addresses, and one is cut by the file's end.
const LOADED: Example<'static> = Example {
    len: 100,
    loads: &[
        (0, 1000, 40, 0, 50),
        (0, 1020, 60, 30, 60),
        (1, u64::MAX - 7, 8, 96, 8),
    ],
    claims: &[
        (Side::Vm, (0, 1030, 20), (0, 0), 0),
        (Side::File, NOWHERE, (50, 48), 1),
        (Side::Vm, (1, u64::MAX - 3, 100), (0, 0), 2),
        (Side::Both, (0, 1000, 10), (0, 5), 3),
    ],
};

const IN_LOADED: [Covered<'static>; 12] = [
    (Place::Offset(35), &[1]),
    (Place::Offset(45), &[1]),
    (Place::Offset(55), &[1, 2]),
    (Place::Offset(2), &[4]),
    (Place::Offset(7), &[]),
    (Place::Offset(98), &[]),
    (Place::Address(0, 1007), &[4]),
    (Place::Address(0, 1035), &[1]),
    (Place::Address(0, 1045), &[1, 2]),
    (Place::Address(0, 1060), &[2]),
    (Place::Address(1, u64::MAX - 6), &[2]),
    (Place::Address(1, u64::MAX - 3), &[3]),
];

#[test]
fn claims_cover_what_is_loaded(rt: HostRuntime) {
    for case in &IN_LOADED {
        is_covered(&rt, rt.alloc(), &LOADED, case);
    }
}

fn pool_of(rt: &impl Abort, alloc: Global, labels: &[&[u8]]) -> LabelPool {
    let mut pool = LabelPool::new(alloc);
    for label in labels {
        pool.intern(label).expect(rt, "memory");
    }
    pool
}

// True only if the labels of claims are numbers below another one.
fn are_below(claims: &[Claim], count: usize) -> bool
    ensures { IsTrue result → All (λ (c : ClaimSpec). c.label < count) claims.now }
{
    claims.iter().all(|claim| claim.label < count)
}

// A file whose claims have these labels by number. The last label is for what no claim covers.
#[derive(Clone, Copy)]
struct Labelled<'a> {
    file: Example<'a>,
    labels: &'a [&'a [u8]],
}

// The explanation of an offset or an address of an example.
fn said(
    rt: &impl Abort,
    alloc: Global,
    example: &Labelled<'_>,
    place: Place,
    limit: u32,
) -> Explained {
    let pool = pool_of(rt, alloc, example.labels);
    let base = base_of(rt, alloc, &example.file);
    let claims = claims_of(rt, alloc, example.file.claims);
    let claims = claims.as_slice();
    assert!(rt; is_inside(&base, base.len(), &place));
    assert!(rt; are_below(claims, pool.len()));
    assert!(rt; pool.len() > 0);
    let source = NumberedClaims {
        claims,
        pool: &pool,
        unmapped: pool.len() - 1,
    };
    explain_source(alloc, &base, source, &place, limit).expect(rt, "memory")
}

const LABELS: [&[u8]; 4] = [b"a", b"b", b"c", b"none"];

const MANY: Labelled<'static> = Labelled {
    file: Example {
        len: 9,
        loads: &[],
        claims: &[
            (Side::File, NOWHERE, (6, 3), 0),
            (Side::Both, NOWHERE, (0, 9), 1),
            (Side::Vm, (0, 0, 9), (0, 0), 0),
            (Side::File, NOWHERE, (2, 4), 2),
            (Side::File, NOWHERE, (0, 6), 0),
        ],
    },
    labels: &LABELS,
};

// An offset and a limit, the label, the claims with their numbers and labels, and how many more there are.
type Limited<'a> = (u64, u32, &'a [u8], &'a [(u64, &'a [u8])], u64);

const LIMITED: [Limited<'static>; 5] = [
    (3, 0, b"b", &[(2, b"b"), (4, b"c"), (5, b"a")], 0),
    (3, 1, b"b", &[(2, b"b"), (4, b"c")], 1),
    (3, 2, b"b", &[(2, b"b"), (4, b"c"), (5, b"a")], 0),
    (3, 3, b"b", &[(2, b"b"), (4, b"c"), (5, b"a")], 0),
    (7, 1, b"a", &[(1, b"a"), (2, b"b")], 0),
];

// The first claims that cover an offset, up to a limit.
fn is_limited(rt: &impl Abort, alloc: Global, case: &Limited<'_>) {
    let &(offset, limit, label, want, more) = case;
    let said = said(rt, alloc, &MANY, Place::Offset(offset), limit);
    assert!(rt; said.label.as_slice() == label);
    assert_eq!(rt; said.more, more);
    assert_eq!(rt; said.claims.len(), want.len());
    for (k, &(number, label)) in want.iter().enumerate() {
        assert!(rt; k < said.claims.len());
        let claim = said.claims.get(k);
        assert_eq!(rt; claim.number, number);
        assert!(rt; claim.label.as_slice() == label);
    }
}

#[test]
fn a_limit_gives_the_first_and_so_many_more(rt: HostRuntime) {
    for case in &LIMITED {
        is_limited(&rt, rt.alloc(), case);
    }
}

const FEW_LABELS: [&[u8]; 2] = [b"a", b"none"];

const FEW: Labelled<'static> = Labelled {
    file: Example {
        len: 9,
        loads: &[],
        claims: &[(Side::File, NOWHERE, (6, 3), 0)],
    },
    labels: &FEW_LABELS,
};

#[test]
fn nothing_covers(rt: HostRuntime) {
    let said = said(&rt, rt.alloc(), &FEW, Place::Offset(5), 1);
    assert!(rt; said.label.as_slice() == b"none".as_slice());
    assert_eq!(rt; (said.claims.len(), said.more), (0, 0));
}
