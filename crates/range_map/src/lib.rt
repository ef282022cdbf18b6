//! Labelled ranges of positions. If several ranges contain a position, the first of them gives its label.
#![tactic(auto)]

mod appending;
mod laws;
mod range_map;
mod starts;
mod sweep;

pub use appending::emit;
pub use laws::adding_in_order_builds;
pub use range_map::RangeMap;
pub use size_model::Piece;
