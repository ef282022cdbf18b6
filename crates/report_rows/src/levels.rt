//! What the levels of a report have in common.

use crate::row::RowOptions;
use std::alloc::Global;

/// The number of levels of a report, its options, and the allocator for its rows.
#[derive(Clone, Copy)]
pub struct Levels {
    /// The allocator.
    pub alloc: Global,
    /// The number of levels.
    pub depth: u32,
    /// The options.
    pub options: RowOptions,
}
