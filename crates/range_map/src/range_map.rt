//! A map from positions to labels, stored as a sorted vector of disjoint pieces.

ghost use Rattle.std.specs.Prelude.{◌≡◌, ◌+◌, ◌*◌, ◌^◌, ◌<◌, ◌≤◌, ℕ, [], ◌∷◌, ◌++◌, length, slice_get, Some, OnOk, OnErr, IfOk, All};
ghost use Rattle.size_model.specs.Cut.{end_of, label_in, place_count, IsLaid, IsTidy};
ghost use Rattle.range_map.specs.Ranges.{EndsBy, IsMap, IsRange, KeepsPlaces};

use crate::appending::{emit, fill};
use crate::starts::Starts;
use crate::sweep::pieces_of;
use size_core::{NoMemory, Steps};
use size_model::Piece;
use std::alloc::Global;
use std::marker::Model;
use std::sync::ledger::Ledger;

/// A map from positions to label numbers. Contracts see it as its pieces: sorted, disjoint, and not empty.
/// Adjacent pieces have different labels, and all of them end at or before 2^97.
#[derive(Debug, Drop)]
pub struct RangeMap {
    alloc: Global,
    pieces: Vec<Piece>,
}

impl Model for RangeMap {
    ghost use Rattle.std.specs.Prelude.{List};
    ghost use Rattle.size_model.specs.declared.piece.Piece.{Piece};
    ghost use Rattle.range_map.specs.Ranges.{IsMap};

    ghost Value = { List Piece };

    ghost view = { λ m. m.pieces.items };

    ghost invariant = { λ m. IsMap m.pieces.items };
}

// The label of a position, by a binary search.
fn label_of(pieces: &[Piece], x: u128) -> Option<usize>
    requires tidy { IsTidy pieces.now }
    requires fits { EndsBy (2 ^ 97) pieces.now }
    ensures { result ≡ label_in pieces.now x }
{
    let after = pieces.partition_point(|piece| piece.start <= x);
    if after == 0 {
        return None;
    }
    let piece = pieces[after - 1];
    (x < piece.start + piece.len).then_some(piece.label)
}

impl RangeMap {
    /// An empty map.
    pub fn new(alloc: Global) -> Self
        ensures { result ≡ [] }
    {
        RangeMap {
            alloc,
            pieces: Vec::new(alloc),
        }
    }

    /// Labels those of the `len` positions from `start` on that have no label yet. On an error the map is
    /// unchanged.
    pub fn add(&mut self, start: u128, len: u64, label: usize) -> Result<(), NoMemory>
        requires { start < 2 ^ 96 }
        ensures ok { OnOk result (IsLaid
            (self.old ++ record { start = start; len = len; label = label } ∷ []) self.new) }
        ensures places { OnOk result (KeepsPlaces
            (self.old ++ record { start = start; len = len; label = label } ∷ []) self.new) }
        ensures place_count { OnOk result ((n : ℕ)
            → place_count self.new n ≤ place_count self.old n + 2) }
        ensures err { OnErr result (self.new ≡ self.old) }
    {
        let range = Piece {
            start,
            len: u128::from(len),
            label,
        };
        let mut out = Vec::new(self.alloc);
        let mut from = 0;
        for piece in &self.pieces {
            fill(&mut out, &range, from, piece.start)?;
            emit(&mut out, *piece)?;
            from = piece.start + piece.len;
        }
        let to = from.max(range.start + range.len);
        fill(&mut out, &range, from, to)?;
        self.pieces = out;
        Ok(())
    }

    /// The map of these ranges, where the first range that contains a position gives its label. It is the map
    /// that adding the ranges in order makes. For n ranges in any order it takes n log n steps.
    pub fn build(alloc: Global, claims: &[Piece]) -> Result<RangeMap, NoMemory>
        requires { All IsRange claims.now }
        ensures laid { IfOk result (IsLaid claims.now) }
        ensures few { IfOk result (λ map. length map ≤ 2 * length claims.now) }
    {
        let starts = Starts::of(alloc, claims)?;
        let pieces = pieces_of(alloc, claims, &starts)?;
        Ok(RangeMap { alloc, pieces })
    }

    /// The map of pieces that are those of a map already.
    pub fn of_pieces(alloc: Global, pieces: Vec<Piece>) -> RangeMap
        requires { IsMap pieces.items }
        ensures { result ≡ pieces.items }
    {
        RangeMap { alloc, pieces }
    }

    /// The number of pieces.
    pub fn len(&self) -> usize
        ensures count { result ≡ length self.now }
        ensures tidy { IsTidy self.now }
    {
        self.pieces.len()
    }

    /// The piece at index `i`, in ascending order of positions. Counts one step.
    pub fn piece<L: Ledger>(&self, i: usize, steps: &mut Steps<L>) -> Piece
        requires { i < length self.now }
        ensures value { slice_get self.now i ≡ Some result }
        ensures ends { end_of result ≤ 2 ^ 97 }
        ensures cost { steps.new ≡ steps.old + 1 }
    {
        steps.tick();
        self.pieces[i]
    }

    /// The label of a position, or `None` if no piece contains it. Counts one step.
    pub fn label_at<L: Ledger>(&self, x: u128, steps: &mut Steps<L>) -> Option<usize>
        ensures value { result ≡ label_in self.now x }
        ensures cost { steps.new ≡ steps.old + 1 }
    {
        steps.tick();
        label_of(self.pieces.as_slice(), x)
    }
}
