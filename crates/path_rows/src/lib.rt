//! Rows of sizes, sorted by their paths of labels, each path once.
#![tactic(auto)]

mod merge;
mod order;
mod ordered;
mod prefix;
mod row;
mod tree;

pub use order::compare_paths;
pub use ordered::OrderedRows;
pub use prefix::word_of_label;
pub use row::RollupRow;
