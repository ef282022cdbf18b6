//! The claims of a Mach-O file (`mach-o/loader.h`, `mach-o/nlist.h`): those of its loads, its sections, its link-edit
//! parts, its headers, its symbols and its debug sections.
#![tactic(auto)]

mod debug_claims;
mod dwarf_sections;
mod headers;
mod link_edit;
mod load_claims;
mod loads;
mod sections;
mod symbols;

pub use debug_claims::{add_lines, add_units};
pub use dwarf_sections::debug_sections;
pub use headers::add_headers;
pub use link_edit::add_link_edit;
pub use load_claims::add_loads;
pub use loads::{load_at, load_slots, loads_of};
pub use sections::add_sections;
pub use symbols::add_symbols;
