//! How a run ends: its outcome, the exit status, and the line that reports it.
#![tactic(auto)]

mod line;
mod outcome;

pub use line::{tell, tell_no_memory, tell_usage};
pub use outcome::Outcome;
