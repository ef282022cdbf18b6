//! A sweep over ranges from one start to the next. A heap holds the numbers of the open ranges. A range that has
//! ended stays in the heap until it is at the top.

ghost use Rattle.std.specs.Prelude.{◌≡◌, ◌↔◌, ◌^◌, ◌<◌, ◌≤◌, ◌∷◌, length, IsTrue, IfOk, OnOk};
ghost use Rattle.std.specs.List.Sorted.{IsNonDecreasingBy, IsPermutation};
ghost use Rattle.std.specs.BinaryHeap.{heap_items, IsHeap};
ghost use Rattle.size_model.specs.Cut.{IsLaid};
ghost use Rattle.range_map.specs.Ranges.{EndsBy};
ghost use Rattle.range_map.specs.Starts.{pairs_of};
ghost use Rattle.range_map.specs.Sweep.{Holds, IsFirst, IsLaidTo, IsOpen, Keeps, at, lowest_first, numbered, starts_from};

use crate::appending::{emit, fill};
use crate::starts::{END, Starts};
use size_model::Piece;
use std::alloc::{AllocError, Global};
use std::cmp::Reverse;
use std::collections::BinaryHeap;

// Whether a range comes before each open one.
fn comes_first(heap: &BinaryHeap<Reverse<usize>>, number: usize) -> bool
    requires { IsHeap lowest_first (heap_items heap.now) }
    ensures { IsTrue result ↔ IsFirst number (heap_items heap.now) }
{
    match heap.peek() {
        Some(top) => number < top.0,
        None => true,
    }
}

// The pieces that were appended so far, and the numbers of the open ranges.
#[derive(Drop)]
struct Sweep {
    out: Vec<Piece>,
    heap: BinaryHeap<Reverse<usize>>,
}

impl Sweep {
    // Appends the pieces of the open ranges up to a position. A range that has ended there leaves the heap once it is
    // at the top.
    fn lay_open(&mut self, claims: &[Piece], from: u128, to: u128) -> Result<(), AllocError>
        requires fits { EndsBy (2 ^ 97) claims.now }
        requires opened { IsOpen claims.now from (heap_items self.old.heap) }
        requires held { Holds claims.now from to (heap_items self.old.heap) }
        requires laid { IsLaidTo claims.now from self.old.out.items }
        requires order { from ≤ to }
        requires to_fits { to ≤ 2 ^ 97 }
        ensures laid { OnOk result (IsLaidTo claims.now to self.new.out.items) }
        ensures opened { OnOk result (IsOpen claims.now to (heap_items self.new.heap)) }
        ensures kept { OnOk result
            (Keeps claims.now to (heap_items self.old.heap) (heap_items self.new.heap)) }
    {
        let mut at = from;
        while let Some(top) = self.heap.peek() {
            let claim = claims[top.0];
            let end = claim.start + claim.len;
            let reached = at.max(end.min(to));
            fill(&mut self.out, &claim, at, reached)?;
            if to < end {
                return Ok(());
            }
            at = reached;
            self.heap.pop();
        }
        Ok(())
    }

    // Begins a range. If it comes before all open ranges and no other starts in it, its piece is appended at once
    // and the heap stays as it is. Otherwise the range is opened. Returns the position up to which the pieces are
    // complete.
    fn begin(&mut self, claims: &[Piece], number: usize, next: u128) -> Result<u128, AllocError>
        requires fits { EndsBy (2 ^ 97) claims.now }
        requires within { number < length claims.now }
        requires opened { IsOpen claims.now (at claims.now number).start
            (heap_items self.old.heap) }
        requires held { Holds claims.now (at claims.now number).start next
            (numbered number ∷ heap_items self.old.heap) }
        requires laid { IsLaidTo claims.now (at claims.now number).start self.old.out.items }
        requires order { (at claims.now number).start ≤ next }
        ensures laid { IfOk result (λ to. IsLaidTo claims.now to self.new.out.items) }
        ensures opened { IfOk result (λ to. IsOpen claims.now to (heap_items self.new.heap)) }
        ensures kept { IfOk result (λ to. Keeps claims.now to
            (numbered number ∷ heap_items self.old.heap) (heap_items self.new.heap)) }
        ensures after { IfOk result (λ to. (at claims.now number).start ≤ to) }
        ensures before { IfOk result (λ to. to ≤ next) }
    {
        let claim = claims[number];
        let end = claim.start + claim.len;
        if claim.len > 0 && end <= next && comes_first(&self.heap, number) {
            emit(&mut self.out, claim)?;
            return Ok(end);
        }
        self.heap.push(Reverse(number))?;
        Ok(claim.start)
    }
}

/// The pieces of these ranges, where the first range that contains a position gives its label.
pub fn pieces_of(alloc: Global, claims: &[Piece], starts: &Starts) -> Result<Vec<Piece>, AllocError>
    requires fits { EndsBy (2 ^ 97) claims.now }
    requires same { IsPermutation (starts_from 0 claims.now) (pairs_of starts.now) }
    requires sorted { IsNonDecreasingBy (λ p. p.0) (pairs_of starts.now) }
    ensures { IfOk result (λ v. IsLaid claims.now v.items) }
{
    let mut sweep = Sweep {
        out: Vec::with_capacity(alloc, claims.len())?,
        heap: BinaryHeap::new(alloc),
    };
    let mut from = 0;
    for i in 0..starts.len() {
        let number = starts.number(i);
        let start = starts.start(i);
        sweep.lay_open(claims, from, start)?;
        let next = starts.start(i + 1);
        from = sweep.begin(claims, number, next)?;
    }
    sweep.lay_open(claims, from, END)?;
    Ok(sweep.out)
}
