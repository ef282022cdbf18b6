//! Growth: the sizes of new files compared with those of base files, path by path, and the rows of a report
//! over them.
#![tactic(auto)]

mod between;
mod groups;
mod growth;
mod laws;
mod listing;
mod row;

pub use growth::{Growth, GrowthPath, GrowthSizes};
pub use laws::{
    growth_turns, growths_add_up, labels_appear_once, no_growth_has_no_rows, one_growth_fits,
    rows_show_growth,
};
pub use listing::growth_rows;
pub use row::{GrowthKind, GrowthRow, GrowthRows, GrowthTree};
