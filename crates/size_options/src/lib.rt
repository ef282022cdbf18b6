//! Parsing the command line into options, by one `clap` command.
#![tactic(auto)]

mod command;
mod errors;
mod given;
mod matches;
mod parse;
mod run_options;
mod values;

pub use errors::{OptionAnswer, UsageKind};
pub use parse::options;
pub use run_options::Options;
