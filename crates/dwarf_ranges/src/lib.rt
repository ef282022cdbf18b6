//! The addresses of units, DWARF 2 to 5: `DW_AT_low_pc` and `DW_AT_high_pc`, range lists, and the address sets
//! of `.debug_aranges`. Everything borrows the file, and only `unit_ranges` allocates.
#![tactic(auto)]

mod answer;
mod claims;
mod constants;
mod entry;
mod header;
mod hollow;
mod item;
mod laws;
mod list;
mod list_location;
mod operands;
mod ranges;
mod set;
mod sets;
mod tuples;

pub use answer::RangeAnswer;
pub use claims::claims_nothing;
pub use laws::{
    each_range_claims_something, lists_are_read_one_entry_after_another,
    sets_are_read_one_after_another, standard_numbers,
};
pub use ranges::{RangeKey, range_key, unit_ranges};
pub use set::AddressSet;
pub use sets::{AddressSets, arange_sets};
pub use tuples::Tuples;
