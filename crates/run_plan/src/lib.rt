//! What a run plans with: the data sources that the names in `-d` mean, and the compiled patterns.
#![tactic(auto)]

mod choices;
mod patterns;

pub use choices::choices_of;
pub use patterns::{filter_of, rewrites_of};
