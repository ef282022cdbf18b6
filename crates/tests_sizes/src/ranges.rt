//! Ranges that label positions: the first one that has a position labels it.

ghost use Rattle.std.specs.Prelude.{◌≡◌, ◌<◌, All};
ghost use Rattle.range_map.specs.Ranges.{IsRange};

use range_map::{Piece, RangeMap};
use size_core::Steps;
use std::alloc::Global;
use std::marker::Brand;
use std::process::Abort;
use std::sync::ledger::{Blank, Ledger};

// A map has these pieces, and these labels at some positions.
fn reads<L: Ledger>(
    rt: &impl Abort,
    map: &RangeMap,
    pieces: &[(u128, u128, usize)],
    labels: &[(u128, Option<usize>)],
    blank: Blank,
)
    requires name { blank.name ≡ L.name }
    requires parts { blank.parts ≡ L.parts }
    requires some { 0 < blank.parts }
{
    let mut steps = Steps::<L>::begin(blank);
    assert_eq!(rt; map.len(), pieces.len());
    for (i, &(start, len, label)) in pieces.iter().enumerate() {
        assert!(rt; i < map.len());
        assert_eq!(rt; map.piece(i, &mut steps), Piece { start, len, label });
    }
    for &(x, label) in labels {
        assert_eq!(rt; map.label_at(x, &mut steps), label, "at {x}");
    }
}

// The ranges added one after another, and built at once.
fn lays(rt: &impl Abort, alloc: Global, &(ranges, pieces, labels): &Laid<'_>) {
    let mut added = RangeMap::new(alloc);
    let mut claims = Vec::new(alloc);
    for &(start, len, label) in ranges {
        assert!(rt; start < 1 << 96);
        added.add(start, len, label).expect(rt, "memory");
        let claim = Piece {
            start,
            len: u128::from(len),
            label,
        };
        claims.push(claim).expect(rt, "memory");
    }
    let built = RangeMap::build(alloc, claims.as_slice()).expect(rt, "memory");
    reads::<Brand>(rt, &added, pieces, labels, Blank::new(1));
    reads::<Brand>(rt, &built, pieces, labels, Blank::new(1));
}

// Ranges, the pieces of their map, and the label of some positions.
type Laid<'a> = (
    &'a [(u128, u64, usize)],
    &'a [(u128, u128, usize)],
    &'a [(u128, Option<usize>)],
);

const LAID: [Laid<'static>; 4] = [
    (
        &[(10, 10, 0), (15, 10, 1), (0, 30, 2)],
        &[(0, 10, 2), (10, 10, 0), (20, 5, 1), (25, 5, 2)],
        &[
            (0, Some(2)),
            (19, Some(0)),
            (24, Some(1)),
            (29, Some(2)),
            (30, None),
        ],
    ),
    (&[(0, 5, 0), (5, 5, 0)], &[(0, 10, 0)], &[(5, Some(0))]),
    (&[(7, 0, 0)], &[], &[(7, None)]),
    (
        &[((1 << 64) - 4, 4, 0), (1 << 64, 4, 1)],
        &[((1 << 64) - 4, 4, 0), (1 << 64, 4, 1)],
        &[
            ((1 << 64) - 5, None),
            ((1 << 64) - 1, Some(0)),
            (1 << 64, Some(1)),
        ],
    ),
];

#[test]
fn the_first_range_labels(rt: HostRuntime) {
    for laid in &LAID {
        lays(&rt, rt.alloc(), laid);
    }
}

// Ranges of ten positions whose starts fall by ten.
fn falling(rt: &impl Abort, alloc: Global, count: u32) -> Vec<Piece>
    ensures { All IsRange result.items }
{
    let mut ranges = Vec::new(alloc);
    for i in 0..count {
        let range = Piece {
            start: u128::from(count - i) * 10,
            len: 10,
            label: (i % 1000) as usize,
        };
        ranges.push(range).expect(rt, "memory");
    }
    ranges
}

// Adding a million ranges from the last to the first would move some 10^13 bytes.
#[test]
fn a_million_ranges_fall(rt: HostRuntime) {
    let ranges = falling(&rt, rt.alloc(), 1_000_000);
    let map = RangeMap::build(rt.alloc(), ranges.as_slice()).expect(&rt, "memory");
    assert_eq!(rt; map.len(), 1_000_000);
}
