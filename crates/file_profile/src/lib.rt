//! One opened file under a plan: its sizes, alone or with its debug file, or the explanation of one location.
#![tactic(auto)]

mod answer;
mod claims;
mod explain;
mod laws;
mod maps;
mod pair;
mod plan;
mod profile;
mod subject;

pub use answer::{OpenedAnswer, PairAnswer, PairFile, PlaceAnswer, ProfileAnswer};
pub use explain::explain_place;
pub use laws::debug_file_adds_no_size;
pub use pair::profile_pair;
pub use plan::{Choice, Plan, PlanAnswer};
pub use profile::profile_opened;
pub use subject::Subject;
