//! Laws of reports as text. Each is the contract of a function with an empty body.

ghost use Rattle.report_text.specs.PathRecords.{EachGrowthHasARecord, EachPathHasARecord};
ghost use Rattle.report_text.specs.ReadBack.{GrowthReadsBack, RecordsReadBack};
ghost use Rattle.report_text.specs.WorkedReading.{WorkedReadings};

/// What reading separated values gives for the examples of RFC 4180 and for some texts that aren't separated values.
pub fn reads_the_examples()
    ensures { WorkedReadings }
{}

/// Reading the CSV or the TSV of a tree of sizes, as RFC 4180 defines it, gives the tree's records: the names of the
/// columns, and for each row without children the labels of its path and its shown sizes. Labels may have any bytes.
pub fn records_read_back()
    ensures { RecordsReadBack }
{}

/// The same for a tree of growth.
pub fn growth_reads_back()
    ensures { GrowthReadsBack }
{}

/// Without a limit, reading the CSV or the TSV of a report of sizes gives the names of the columns and then one record
/// for each full path with a shown size, with its sizes, and no other record.
pub fn each_path_has_a_record()
    ensures { EachPathHasARecord }
{}

/// Without a limit, reading the CSV or the TSV of a report of growth gives the names of the columns and then one
/// record for each full path that has changed and whose prefixes have all changed, and no other record. The record
/// has the shown growths. A path has changed if a shown size of it has.
pub fn each_growth_has_a_record()
    ensures { EachGrowthHasARecord }
{}
