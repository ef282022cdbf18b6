//! A path of labels with its sizes.

use size_core::Path;

/// A path of labels with its sizes.
#[derive(Debug, Drop)]
pub struct RollupRow {
    /// A label for each data source.
    pub path: Path,
    /// How many mapped addresses have this path.
    pub vm: u64,
    /// How many bytes of the files have this path.
    pub file: u64,
}
