//! A file as its sizes are counted: its length, its loads, and the claims of each requested data source.

use size_core::{Bytes, List, Load, Side, Span};

/// A claim with the bytes of its label instead of the label's number.
#[derive(Debug, Drop)]
pub struct LabelledClaim {
    /// Which of the two spans the claim names.
    pub side: Side,
    /// The virtual addresses.
    pub vm: Span,
    /// The file offsets.
    pub file: Span,
    /// The bytes of the label.
    pub label: Bytes,
}

/// One data source on a file.
#[derive(Debug, Drop)]
pub struct SourceView {
    /// Its claims, in order.
    pub claims: List<LabelledClaim>,
    /// The label of a byte that no claim covers.
    pub unmapped: Bytes,
}

/// A file, as its sizes are counted.
#[derive(Debug, Drop)]
pub struct FileView {
    /// The length of the file in bytes.
    pub len: u64,
    /// Its loads, in order.
    pub loads: List<Load>,
    /// The requested data sources, in order.
    pub sources: List<SourceView>,
}
