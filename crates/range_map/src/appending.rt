//! Appending pieces to a tidy list of pieces.

ghost use Rattle.std.specs.Prelude.{◌≡◌, ◌+◌, ◌-◌, ◌^◌, ◌<◌, ◌≤◌, [], ◌∷◌, ◌++◌, OnOk};
ghost use Rattle.size_model.specs.Cut.{IsLaid, IsTidy, end_of};
ghost use Rattle.range_map.specs.Emit.{Fills, joins_last, lengthened};
ghost use Rattle.range_map.specs.Ranges.{EndsBy};

use size_model::Piece;
use std::alloc::AllocError;

// Whether the last piece is adjacent to the new one and has its label.
fn joins(out: &[Piece], piece: &Piece) -> bool
    requires { EndsBy piece.now.start out.now }
    ensures { result ≡ joins_last out.now piece.now }
{
    match out.last() {
        Some(last) => last.start + last.len == piece.start && last.label == piece.label,
        None => false,
    }
}

// Extends the last piece.
fn lengthen(out: &mut Vec<Piece>, by: u128)
    requires { EndsBy (2 ^ 128 - 1 - by) out.old.items }
    ensures { out.new.items ≡ lengthened out.old.items by }
{
    if let Some(last) = out.last_mut() {
        last.len += by;
    }
}

/// Appends a piece. It is merged into the last one if they are adjacent and have the same label.
pub fn emit(out: &mut Vec<Piece>, piece: Piece) -> Result<(), AllocError>
    requires tidy { IsTidy out.old.items }
    requires not_empty { 0 < piece.len }
    requires ends { EndsBy piece.start out.old.items }
    requires fits { end_of piece ≤ 2 ^ 97 }
    ensures laid { OnOk result (IsLaid (out.old.items ++ piece ∷ []) out.new.items) }
    ensures ends { OnOk result (EndsBy (end_of piece) out.new.items) }
{
    if joins(out.as_slice(), &piece) {
        lengthen(out, piece.len);
        return Ok(());
    }
    out.push(piece)?;
    Ok(())
}

/// Appends the part of a range between two positions.
pub fn fill(out: &mut Vec<Piece>, range: &Piece, from: u128, to: u128) -> Result<(), AllocError>
    requires tidy { IsTidy out.old.items }
    requires ends { EndsBy from out.old.items }
    requires order { from ≤ to }
    requires fits { to ≤ 2 ^ 97 }
    requires range_fits { end_of range.now ≤ 2 ^ 97 }
    ensures { OnOk result (Fills range.now from to out.old.items out.new.items) }
{
    let start = from.max(range.start);
    let end = to.min(range.start + range.len);
    if start < end {
        emit(
            out,
            Piece {
                start,
                len: end - start,
                label: range.label,
            },
        )?;
    }
    Ok(())
}
