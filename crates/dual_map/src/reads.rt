//! Look-ups in a range map whose steps no caller counts.

ghost use Rattle.std.specs.Prelude.{◌≡◌, ◌<◌, ◌≤◌, ◌^◌, length, slice_get, Some};
ghost use Rattle.size_model.specs.Cut.{end_of, label_in};

use range_map::{Piece, RangeMap};
use size_core::Steps;
use std::marker::Brand;
use std::sync::ledger::{Blank, Ledger};

fn look_up<L: Ledger>(map: &RangeMap, x: u128, blank: Blank) -> Option<usize>
    requires name { blank.name ≡ L.name }
    requires parts { blank.parts ≡ L.parts }
    requires some { 0 < blank.parts }
    ensures { result ≡ label_in map.now x }
{
    let mut steps = Steps::<L>::begin(blank);
    map.label_at(x, &mut steps)
}

/// The label of a position.
pub fn label_of(map: &RangeMap, x: u128) -> Option<usize>
    ensures { result ≡ label_in map.now x }
{
    look_up::<Brand>(map, x, Blank::new(1))
}

fn read<L: Ledger>(map: &RangeMap, i: usize, blank: Blank) -> Piece
    requires name { blank.name ≡ L.name }
    requires parts { blank.parts ≡ L.parts }
    requires some { 0 < blank.parts }
    requires within { i < length map.now }
    ensures value { slice_get map.now i ≡ Some result }
    ensures ends { end_of result ≤ 2 ^ 97 }
{
    let mut steps = Steps::<L>::begin(blank);
    map.piece(i, &mut steps)
}

/// The piece at an index.
pub fn piece_of(map: &RangeMap, i: usize) -> Piece
    requires { i < length map.now }
    ensures value { slice_get map.now i ≡ Some result }
    ensures ends { end_of result ≤ 2 ^ 97 }
{
    read::<Brand>(map, i, Blank::new(1))
}
