//! The rows of a report: the labels of each level with their sizes, in order. A limit collects the labels
//! beyond it into one row.
#![tactic(auto)]

mod groups;
mod keys;
mod laws;
mod leading;
mod levels;
mod limits;
mod listing;
mod paths;
mod row;

pub use groups::Kind;
pub use keys::{is_shown, key};
pub use laws::{
    first_level_stays, one_tree_fits, rows_are_in_order, rows_show_paths, shown_sizes_add_up,
    sizes_by_prefix,
};
pub use levels::Levels;
pub use limits::{Grouped, limit};
pub use listing::rows;
pub use paths::{HasPath, run_len};
pub use row::{Row, RowKind, RowOptions, RowTree, Rows};
