//! The claims of the debug sections of a file (DWARF 2 to 5): those of the units of `.debug_info` and the address sets
//! of `.debug_aranges`, and those of the source lines of `.debug_line`. It knows debug sections and no file format.
#![tactic(auto)]

mod index;
mod known;
mod known_codes;
mod known_rows;
mod label;
mod last_label;
mod last_program;
mod last_ranges;
mod lines;
mod row;
mod row_label;
mod row_labels;
mod sets;
mod table;
mod unit;
mod units;

pub use lines::add_lines;
pub use units::add_units;
