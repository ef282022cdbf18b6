//! The units of DWARF 2 to 5, with their roots, names and addresses. Everything borrows the file, and nothing
//! allocates.
#![tactic(auto)]

mod constants;
mod header;
mod laws;
mod root;
mod roots;
mod sections;
mod strings;
mod unit;
mod units;

pub use laws::{standard_numbers, units_are_known, units_are_read_one_after_another};
pub use root::{Root, is_read};
pub use sections::Sections;
pub use strings::{OffsetTable, StringAt, TABLE_HEADER_LEN, address_at, base_or, text_of};
pub use unit::DwarfUnit;
pub use units::Units;
