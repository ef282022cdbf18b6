//! Laws about the pieces of range maps. They hold of lists of pieces, so no map is needed.

ghost use Rattle.std.specs.Prelude.{◌≡◌, List, []};
ghost use Rattle.size_model.specs.declared.piece.Piece.{Piece};
ghost use Rattle.size_model.specs.Cut.{IsLaid};
ghost use Rattle.range_map.specs.Ranges.{IsAddedTo};

/// The pieces that `RangeMap::build` makes of ranges are those that adding the ranges in order leaves.
pub fn adding_in_order_builds()
    ensures { (ranges added built : List Piece)
        → IsAddedTo [] ranges added → IsLaid ranges built → added ≡ built }
{}
