//! Laws of a report's rows, of sizes and of growth, and of its totals. Each is the contract of an empty function.

ghost use Rattle.file_reports.specs.GrowthReport.{GrowthsAddUp, GrowthsCountPaths};
ghost use Rattle.file_reports.specs.ReportLaws.{EachGrowthIsReadBack, EachPathIsReadBack, FilesInAnyOrder, FirstLevelIsKept, GrowthTheOtherWay, NoGrowthFromItself, OneReportOfGrowth, OneReportOfSizes};
ghost use Rattle.file_reports.specs.SizeReport.{RowsCountPaths, RowsShowFiles, SizesAddUp, TotalsAreWhole};

/// The sizes of the row of a path are the numbers of bytes and of mapped addresses whose paths begin with it.
#[tactic(auto, using(crate::proofs::ReportLemmas::rows_count))]
pub fn rows_count_paths()
    ensures { RowsCountPaths }
{}

/// The rows of a report show its files. The row of a label has the sizes of its path. The path is read off the rows
/// above it. An Others row has the sums of exactly the labels that are left out. Each label with a shown size has its
/// row or is one of those.
#[tactic(auto, using(crate::proofs::ReportLemmas::rows_show))]
pub fn rows_show_files()
    ensures { RowsShowFiles }
{}

/// In a report of sizes, the sizes of the first level's rows add up to the total, and those of a row's children to the
/// row's, for each size that is shown.
#[tactic(auto, using(crate::proofs::LawLemmas::sizes_add_up))]
pub fn sizes_add_up()
    ensures { SizesAddUp }
{}

/// Without a filter, the totals of a report are the lengths of the files and the numbers of addresses that they map.
#[tactic(auto, using(crate::proofs::ReportLemmas::totals_whole))]
pub fn totals_are_whole()
    ensures { TotalsAreWhole }
{}

/// In a report of growth, the sizes of a path are the numbers of bytes and of mapped addresses whose paths begin with
/// it, over the files and over the base files. Its growth is their difference.
pub fn growths_count_paths()
    ensures { GrowthsCountPaths }
{}

/// In a report of growth, the growths of the first level's rows add up to the total growth, and those of a row's
/// children to the row's, for each size that is shown.
#[tactic(auto, using(crate::proofs::LawLemmas::growths_add_up))]
pub fn growths_add_up()
    ensures { GrowthsAddUp }
{}

/// One text alone is the report of the sizes of files, since one tree alone is in the report's order.
#[tactic(auto, using(crate::proofs::LawLemmas::one_of_sizes))]
pub fn one_report_of_sizes()
    ensures { OneReportOfSizes }
{}

/// One text alone is the report of the growth of files from base files.
#[tactic(auto, using(crate::proofs::LawLemmas::one_of_growth))]
pub fn one_report_of_growth()
    ensures { OneReportOfGrowth }
{}

/// The order of the files doesn't matter: a report of the sizes of files is that of the same files in any order.
#[tactic(auto, using(crate::proofs::LawLemmas::any_order))]
pub fn files_in_any_order()
    ensures { FilesInAnyOrder }
{}

/// The report of the growth of files from themselves has no rows.
#[tactic(auto, using(crate::proofs::LawLemmas::from_itself))]
pub fn no_growth_from_itself()
    ensures { NoGrowthFromItself }
{}

/// The growth of base files from files is the negative of that of files from base files: the report has the same rows in
/// the same order, with the sizes of the two sides exchanged.
#[tactic(auto, using(crate::proofs::LawLemmas::other_way))]
pub fn growth_the_other_way()
    ensures { GrowthTheOtherWay }
{}

/// More data sources keep the first level: without a filter, the rows of `-d a` are those of the first level of `-d a,b`.
#[tactic(auto, using(crate::proofs::LawLemmas::kept))]
pub fn more_sources_keep_the_first_level()
    ensures { FirstLevelIsKept }
{}

/// Reading the CSV or the TSV of a report without a limit, as RFC 4180 defines it, gives the names of the columns and then
/// one record for each full path with a shown size, and no other record. Its sizes are the numbers of bytes and of mapped
/// addresses of the path. Labels may have any bytes.
#[tactic(auto, using(crate::proofs::ReadBackLemmas::read_back))]
pub fn each_path_is_read_back()
    ensures { EachPathIsReadBack }
{}

/// The same for a report of growth: there is one record for each full path that has changed and whose prefixes have
/// all changed, and it has the growths of the path. A path has changed if a shown size of it has.
#[tactic(auto, using(crate::proofs::ReadBackLemmas::growth_read_back))]
pub fn each_growth_is_read_back()
    ensures { EachGrowthIsReadBack }
{}
