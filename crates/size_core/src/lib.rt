//! The types that all crates of the profiler share: faults, claims, loads, numbered labels, lists, and a
//! counter of steps.
#![tactic(auto)]

mod choices;
mod claim;
mod fault;
mod label_hasher;
mod labels;
mod limits;
mod list;
mod memory;
mod place;
mod source;
mod steps;
mod text;

pub use choices::{Domain, Format, Sort};
pub use claim::{Claim, Load, Side, Span};
pub use fault::{BadFile, Fault};
pub use labels::LabelPool;
pub use limits::{FULL, Limits, full_in_digits};
pub use list::{List, Names, Path};
pub use memory::NoMemory;
pub use place::Place;
pub use source::Source;
pub use steps::Steps;
pub use text::{Bytes, Text};
