//! The claims of an ELF file (ELF gABI, chapters 4 and 5): those of its loads, its sections, its headers, its symbols
//! and its debug sections.
#![tactic(auto)]

mod debug_claims;
mod dwarf_sections;
mod headers;
mod known_symbols;
mod load_claims;
mod loads;
mod sections;
mod symbol_names;
mod symbols;

pub use debug_claims::{add_lines, add_units};
pub use dwarf_sections::debug_sections;
pub use headers::add_headers;
pub use load_claims::add_loads;
pub use loads::{load_at, load_slots, loads_of};
pub use sections::add_sections;
pub use symbols::add_symbols;
