//! A synthetic ELF file with any number of functions, for measurements and tests.
#![tactic(auto)]

mod contents;
mod file;
mod layout;
mod numbers;
mod records;
mod sections;

pub use file::synth;
