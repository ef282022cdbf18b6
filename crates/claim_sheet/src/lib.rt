//! A sheet collects the claims of one data source on one file, in order and up to a limit. The labels of the claims
//! are numbered in a pool that all files share. The claims crates of the formats write on a sheet; the sheet knows no
//! format.
#![tactic(auto)]

mod known;
mod labels;
mod loads;
mod long_names;
mod push;
mod reach;
mod sheet;
mod stop;

pub use known::KnownLabel;
pub use labels::{Wrap, append, or_if_empty};
pub use loads::push_load;
pub use long_names::{LONG_NAME, LongNames};
pub use reach::{Reach, span};
pub use sheet::{ClaimSheet, TooMany};
pub use stop::Stop;
