//! The claims of a WebAssembly module (WebAssembly core 2.0, 5.5): those of its sections, its header and its functions.
//! A module has no virtual addresses.
#![tactic(auto)]

mod headers;
mod label;
mod sections;
mod symbols;

pub use headers::add_headers;
pub use sections::add_sections;
pub use symbols::add_symbols;
