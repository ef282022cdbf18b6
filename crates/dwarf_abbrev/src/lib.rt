//! Abbreviations and forms of DWARF 2 to 5: initial lengths, abbreviation declarations, and attribute values. A
//! declaration describes the debugging information entries that use it. Everything borrows the file, and nothing
//! allocates.
#![tactic(auto)]

mod constants;
mod declaration;
mod entries;
mod entry;
mod form;
mod format;
mod laws;
mod length;
mod reads;
mod shape;
mod spec;
mod table;
mod value;

pub use constants::DW_FORM_IMPLICIT_CONST;
pub use entries::Entries;
pub use entry::Entry;
pub use format::{ByFormat, LENGTH_LEN, OFFSET_LEN};
pub use laws::{one_after_another, standard_numbers};
pub use length::{InitialLength, initial_length};
pub use reads::{address_from, inside, offset_from};
pub use shape::UnitShape;
pub use spec::Spec;
pub use table::Abbrevs;
pub use value::{Content, Value, read_form};
