//! Laws of paths and of their rows. Each is the contract of a function with an empty body.

ghost use Rattle.size_growth.specs.GrowthTrees.{GrowthTurns, NoGrowthHasNoRows, OneGrowthFits, RowsShowGrowth};
ghost use Rattle.size_growth.specs.Laws.{GrowsInAllTrees, LabelsAppearOnce};

/// If paths are sorted, the labels that they begin with are sorted too, each once. The sizes under a label
/// are those of the paths that begin with it, and the rest of these paths is sorted too.
pub fn labels_appear_once()
    ensures { LabelsAppearOnce }
{}

/// In the report of every growth, for each shown size, the growths of the first level's rows add up to the
/// growth of the total, and the growths of a row's children add up to the row's growth. This holds for all
/// options.
pub fn growths_add_up()
    ensures { GrowsInAllTrees }
{}

/// The rows of a report of growth show the growths of its paths, in the report's order. The row of a label has the
/// sizes of its path in the new files and in the base files. Within a level the larger key comes first, and for equal
/// keys the lesser label. No label that is left out precedes one that stays. At most as many labels stay as the limit.
/// One Others row has the count of the labels left out and their sums; its own key gives its position, before an equal
/// label.
pub fn rows_show_growth()
    ensures { RowsShowGrowth }
{}

/// One tree alone fits the sizes of paths: its rows are in the order of a report, and its totals are the sizes of all
/// paths.
pub fn one_growth_fits()
    ensures { OneGrowthFits }
{}

/// If each path has the same sizes in the new files and in the base files, a report of growth has no rows.
pub fn no_growth_has_no_rows()
    ensures { NoGrowthHasNoRows }
{}

/// The report of growth the other way, from the new files to the base files, has the same rows in the same order, with
/// the new sizes and the base sizes exchanged.
pub fn growth_turns()
    ensures { GrowthTurns }
{}
