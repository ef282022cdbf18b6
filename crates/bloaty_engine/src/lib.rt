//! The whole run, from the command line to the report. `bloaty` is the entry point; its contract is in run.rt.
#![tactic(auto)]

mod files;
mod laws;
mod pair;
mod place;
mod planning;
mod profile;
mod report;
mod request;
mod run;

pub use file_profile::{PairAnswer, Plan, PlanAnswer, ProfileAnswer, profile_pair};
pub use laws::done_runs_report_what_they_read;
pub use planning::plan;
pub use profile::profile_file;
pub use run::bloaty;
pub use run_outcome::Outcome;
pub use size_options::UsageKind;
