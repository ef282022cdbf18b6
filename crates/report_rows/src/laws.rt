//! Laws of tables. Each is the contract of a function with an empty body.

ghost use Rattle.report_rows.specs.Laws.{AddsUpInAllTrees, SizesByPrefix};
ghost use Rattle.report_rows.specs.Paths.{RowsShowPaths};
ghost use Rattle.report_rows.specs.SizeTrees.{FirstLevelStays, OneTreeFits, RowsAreInOrder};

/// The sizes of the table under a path are the sums over the rows whose paths begin with it.
pub fn sizes_by_prefix()
    ensures { SizesByPrefix }
{}

/// The rows of a report show the paths of its table. The row of a label has the sizes of its path, which
/// follows from the rows above it. An Others row has the sums of exactly the labels that are left out. Each
/// label with a shown size has a row or is one of those left out.
pub fn rows_show_paths()
    ensures { RowsShowPaths }
{}

/// In every report, for each shown size, the sizes of the first level's rows add up to the total, and the sizes
/// of a row's children add up to the row's size. This holds for all options.
pub fn shown_sizes_add_up()
    ensures { AddsUpInAllTrees }
{}

/// The rows of a report are in its order. Within a level the larger key comes first, and for equal keys the lesser
/// label. No label that is left out precedes one that stays. At most as many labels stay as the limit. One Others row
/// has the count of the labels left out and their sums; its own key gives its position, before an equal label.
pub fn rows_are_in_order()
    ensures { RowsAreInOrder }
{}

/// One tree alone fits the sizes of paths: its rows are in the order of a report, and its totals are the sizes of all
/// paths.
pub fn one_tree_fits()
    ensures { OneTreeFits }
{}

/// More levels leave the first level as it is: its rows are those of a report with one level and the same sizes of each
/// label.
pub fn first_level_stays()
    ensures { FirstLevelStays }
{}
