//! The two maps of a data source for a file: one over the file's offsets, one over its mapped virtual
//! addresses.
//!
//! A virtual address in an address space is one position: `space * 2^64 + address`.
#![tactic(auto)]

mod base;
mod layers;
mod maps;
mod paint;
mod position;
mod reads;
mod run;
mod stretch;

pub use base::Base;
pub use maps::DualMap;
