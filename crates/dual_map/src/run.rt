//! Runs of positions that have the same number in a map.

ghost use Rattle.std.specs.Prelude.{◌≡◌, ◌+◌};
ghost use Rattle.dual_map.specs.Runs.{number_in, IsAt, IsPast, IsSteady, least};

use crate::reads::piece_of;
use range_map::RangeMap;

/// Consecutive positions that have the same number in a map.
#[derive(Clone, Copy, Debug)]
pub struct Run {
    /// The number that they have.
    pub number: usize,
    /// How many positions there are.
    pub len: u128,
}

/// The index of the first piece that ends after a position, by a binary search.
pub fn find(map: &RangeMap, x: u128) -> usize
    ensures { IsAt map.now result x }
{
    let mut low = 0;
    let mut high = map.len();
    while low < high {
        let middle = low + (high - low) / 2;
        let piece = piece_of(map, middle);
        if x < piece.start + piece.len {
            high = middle;
        } else {
            low = middle + 1;
        }
    }
    low
}

/// The index of the first piece that ends after a position, from the index `from` on.
pub fn seek(map: &RangeMap, from: usize, x: u128) -> usize
    requires { IsPast map.now from x }
    ensures { IsAt map.now result x }
{
    let mut at = from;
    while at < map.len() {
        let piece = piece_of(map, at);
        if x < piece.start + piece.len {
            return at;
        }
        at += 1;
    }
    at
}

/// The run of a map from a position on. `at` is the index of the first piece that ends after it, and `none` is
/// the number of the positions without a piece.
pub fn run_of(map: &RangeMap, at: usize, x: u128, none: usize) -> Run
    requires at { IsAt map.now at x }
    ensures { IsSteady (λ k. number_in none map.now (x + k)) result }
{
    if at == map.len() {
        return Run {
            number: none,
            len: u128::MAX,
        };
    }
    let piece = piece_of(map, at);
    if x < piece.start {
        return Run {
            number: none,
            len: piece.start - x,
        };
    }
    Run {
        number: piece.label,
        len: piece.start + piece.len - x,
    }
}

/// The least number of two runs, as far as both of them last.
pub fn least(a: Run, b: Run) -> Run
    ensures { result ≡ least a b }
{
    Run {
        number: a.number.min(b.number),
        len: a.len.min(b.len),
    }
}
