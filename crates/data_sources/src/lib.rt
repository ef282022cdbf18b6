//! The data sources: the kind of a file, its loads, and the claims of each data source on it. The claims crates of the
//! formats make the claims, in groups such as loads, sections and symbols. This crate has the kinds of file, and the
//! table of the groups that each data source consists of.
#![tactic(auto)]

mod answer;
mod binary;
mod debug_listing;
mod groups;
mod listing;
mod loads;
mod whole;

pub use answer::ClaimAnswer;
pub use binary::{Binary, open_binary};
pub use debug_listing::debug_claims;
pub use listing::claims;
pub use loads::{load_at, load_slots, loads_of};
