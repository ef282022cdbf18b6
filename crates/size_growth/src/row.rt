//! Rows of a report of growth.

use crate::growth::GrowthSizes;
use size_core::{Bytes, List};

/// The kind of a row.
#[derive(Debug, Drop)]
pub enum GrowthKind {
    /// A row for everything with this label below the path of the parent row.
    Label(Bytes),
    /// One row for this many labels that the limit leaves out.
    Others(u64),
}

/// A row with all of its sizes in bytes, whether they are shown or not.
#[derive(Debug, Drop)]
pub struct GrowthRow {
    /// The row's level. The first level is 0.
    pub level: u32,
    /// The row's label, or the number of labels whose sums an Others row has.
    pub kind: GrowthKind,
    /// The row's sizes in the new files and in the base files.
    pub sizes: GrowthSizes,
}

/// The rows of all levels in the order of a report. The children of a row follow it, one level deeper.
pub type GrowthRows = List<GrowthRow>;

/// A report's rows, and its totals.
#[derive(Debug, Drop)]
pub struct GrowthTree {
    /// The number of levels: one for each data source.
    pub depth: u32,
    /// The total sizes of the new files and of the base files, in bytes.
    pub sizes: GrowthSizes,
    /// The rows of all levels.
    pub rows: GrowthRows,
}
