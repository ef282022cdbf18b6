//! The choices that the command line offers: how to sort, which sizes to show, and the format of the report.

/// Which size a report sorts its rows by.
#[derive(Clone, Copy, Debug, PartialEq, Eq, Hash)]
pub enum Sort {
    /// The VM size.
    Vm,
    /// The file size.
    File,
    /// The larger of the two.
    Both,
}

/// Which sizes a report shows.
#[derive(Clone, Copy, Debug, PartialEq, Eq, Hash)]
pub enum Domain {
    /// The VM size only.
    Vm,
    /// The file size only.
    File,
    /// Both sizes.
    Both,
}

/// The format of a report.
#[derive(Clone, Copy, Debug, PartialEq, Eq, Hash)]
pub enum Format {
    /// Columns for a terminal.
    Text,
    /// Comma-separated fields.
    Csv,
    /// Tab-separated fields.
    Tsv,
}
