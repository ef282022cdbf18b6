//! Sizes per path of labels, added up file by file.
#![tactic(auto)]

mod answer;
mod cursor;
mod file;
mod fresh;
mod hints;
mod order;
mod sizes;
mod table;
mod walk;

pub use answer::RollupAnswer;
pub use file::FileSizes;
pub use path_rows::{RollupRow, compare_paths};
pub use table::Rollup;
