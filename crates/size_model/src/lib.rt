//! Defines what the sizes of a report mean: the bytes that a claim covers, the label of a byte, its path
//! over the requested data sources, and the sizes of a path.
#![tactic(auto)]

mod counting;
mod laws;
mod piece;
mod plain;
mod view;

pub use counting::{
    LabelTest, address_path, counts_for, file_size_in, offset_path, passes, vm_size_in,
};
pub use laws::{
    cut_has_labels, cut_is_unique, each_byte_counts_once, range_adds_two_places,
    rewriting_is_by_label, sizes_add_up, totals_are_whole, twice_covered_counts_once,
};
pub use piece::Piece;
pub use plain::{
    NumberedSource, addr, address_label, label_of_address, label_of_offset, mapped, offset_label,
    place,
};
pub use view::{FileView, LabelledClaim, SourceView};
