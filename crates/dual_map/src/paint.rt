//! A walk along a stretch, over the claims at its targets and the claims that are carried from its sources.

ghost use Rattle.std.specs.Prelude.{◌≡◌, ◌+◌, ◌^◌, ◌≤◌, Some, OnOk};
ghost use Rattle.range_map.specs.Ranges.{EndsBy, IsMap};
ghost use Rattle.dual_map.specs.Paint.{label_of, number_of, IsCursor, Paints, HasNumbers};
ghost use Rattle.dual_map.specs.Runs.{IsSteady};
ghost use Rattle.dual_map.specs.Way.{IsSmall};

use crate::layers::Layer;
use crate::run::{Run, find, least, run_of, seek};
use crate::stretch::Stretch;
use range_map::{Piece, RangeMap, emit};
use std::alloc::AllocError;

// A target and its source, with the index of the first piece of each map that ends after it.
#[derive(Clone, Copy, Debug)]
struct Cursor {
    target: u128,
    source: u128,
    alone: usize,
    both: usize,
    carried: usize,
}

impl Cursor {
    // The cursor at the start of a stretch.
    fn begin(layer: &Layer, carried: &RangeMap, stretch: &Stretch) -> Cursor
        ensures at { IsCursor layer.now carried.now result }
        ensures target { result.target ≡ stretch.now.target }
        ensures source { result.source ≡ stretch.now.source }
    {
        Cursor {
            target: stretch.target,
            source: stretch.source,
            alone: find(&layer.alone, stretch.target),
            both: find(&layer.both, stretch.target),
            carried: find(carried, stretch.source),
        }
    }

    // The least number at the cursor, and how far it lasts.
    fn run(&self, layer: &Layer, carried: &RangeMap, none: usize) -> Run
        requires at { IsCursor layer.now carried.now self.now }
        ensures { IsSteady
            (λ k. number_of none layer.now carried.now (Some (self.now.source + k))
            (self.now.target + k)) result }
    {
        let alone = run_of(&layer.alone, self.alone, self.target, none);
        let both = run_of(&layer.both, self.both, self.target, none);
        let carried = run_of(carried, self.carried, self.source, none);
        least(least(alone, both), carried)
    }

    // The cursor `len` numbers further on.
    fn advance(&self, layer: &Layer, carried: &RangeMap, len: u128) -> Cursor
        requires at { IsCursor layer.now carried.now self.now }
        requires target_fits { self.now.target + len ≤ 2 ^ 96 }
        requires source_fits { self.now.source + len ≤ 2 ^ 96 }
        ensures at { IsCursor layer.now carried.now result }
        ensures target { result.target ≡ self.now.target + len }
        ensures source { result.source ≡ self.now.source + len }
    {
        let target = self.target + len;
        let source = self.source + len;
        Cursor {
            target,
            source,
            alone: seek(&layer.alone, self.alone, target),
            both: seek(&layer.both, self.both, target),
            carried: seek(carried, self.carried, source),
        }
    }
}

/// Appends the targets of a stretch, labelled by the first claim that names each target or its source. The last
/// of the labels is that of targets without a claim.
pub fn paint(
    out: &mut Vec<Piece>,
    layer: &Layer,
    carried: &RangeMap,
    labels: &[usize],
    stretch: &Stretch,
) -> Result<(), AllocError>
    requires small { IsSmall stretch.now }
    requires ends { EndsBy stretch.now.target out.old.items }
    requires pieces { IsMap out.old.items }
    requires numbers { HasNumbers labels.now layer.now }
    ensures { OnOk result
        (Paints stretch.now (λ x y. label_of labels.now layer.now carried.now (Some y) x)
        out.old.items out.new.items) }
{
    if stretch.len == 0 {
        return Ok(());
    }
    let end = stretch.target + stretch.len;
    let mut cursor = Cursor::begin(layer, carried, stretch);
    while cursor.target < end {
        let run = cursor.run(layer, carried, labels.len() - 1);
        let len = run.len.min(end - cursor.target);
        let piece = Piece {
            start: cursor.target,
            len,
            label: labels[run.number],
        };
        emit(out, piece)?;
        cursor = cursor.advance(layer, carried, len);
    }
    Ok(())
}
