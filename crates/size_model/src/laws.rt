//! Laws of pieces, paths and sizes. Each law is the contract of a function with an empty body.

ghost use Rattle.size_model.specs.Laws.{CutIsUnique, CutHasLabels, RangeAddsTwoPlaces, EachByteCountsOnce, SizesAddUp, TotalsAreWhole, TwiceCoveredCountsOnce, RewritingIsByLabel};

/// A labelling has at most one cut: sorted and disjoint pieces that give each position its label, where touching
/// pieces differ in label.
pub fn cut_is_unique()
    ensures { CutIsUnique }
{}

/// In a cut, each position of a piece has the label of the piece, and each position with a label lies in a
/// piece with that label.
pub fn cut_has_labels()
    ensures { CutHasLabels }
{}

/// Adding a range to the pieces of a cut adds at most two positions at which a piece begins or ends.
pub fn range_adds_two_places()
    ensures { RangeAddsTwoPlaces }
{}

/// A byte counts for at most one path of each length. So two rows of the same level never count the same byte.
pub fn each_byte_counts_once()
    ensures { EachByteCountsOnce }
{}

/// The sizes of the children of a path add up to the size of the path, in the file and in memory.
pub fn sizes_add_up()
    ensures { SizesAddUp }
{}

/// Without a filter, the file size of the empty path is the sum of the lengths of the files, and its VM
/// size is the sum of their numbers of mapped addresses.
pub fn totals_are_whole()
    ensures { TotalsAreWhole }
{}

/// An address that two loads cover counts once: a load that covers only mapped addresses changes no VM
/// size.
pub fn twice_covered_counts_once()
    ensures { TwiceCoveredCountsOnce }
{}

/// When the labels of a data source are rewritten, the label of each byte is the rewritten label.
pub fn rewriting_is_by_label()
    ensures { RewritingIsByLabel }
{}
