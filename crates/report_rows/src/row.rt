//! Rows and options of a report.

use size_core::{Bytes, Domain, List, Sort};

/// Which rows a report has, and how they are sorted.
#[derive(Clone, Copy, Debug, PartialEq, Eq, Hash)]
pub struct RowOptions {
    /// The number of labels under one path that are kept. 0 means no limit.
    pub limit: u32,
    /// The size that rows are sorted by.
    pub sort: Sort,
    /// The sizes that are shown. A size that isn't shown counts as 0 when rows are selected and sorted.
    pub domain: Domain,
}

/// The kind of a row.
#[derive(Debug, Drop)]
pub enum RowKind {
    /// A row for everything with this label below the path of the parent row.
    Label(Bytes),
    /// One row for this many labels that the limit leaves out.
    Others(u64),
}

/// A row with both of its sizes in bytes, whether they are shown or not.
#[derive(Debug, Drop)]
pub struct Row {
    /// The row's level. The first level is 0.
    pub level: u32,
    /// The row's label, or the number of labels whose sums an Others row has.
    pub kind: RowKind,
    /// The VM size: the number of mapped addresses.
    pub vm: u64,
    /// The file size: the number of file bytes.
    pub file: u64,
}

/// The rows of all levels in the order of a report. The children of a row follow it, one level deeper.
pub type Rows = List<Row>;

/// A report's rows, and its totals in bytes.
#[derive(Debug, Drop)]
pub struct RowTree {
    /// The number of levels: one for each data source.
    pub depth: u32,
    /// The total VM size.
    pub vm: u64,
    /// The total file size.
    pub file: u64,
    /// The rows of all levels.
    pub rows: Rows,
}
