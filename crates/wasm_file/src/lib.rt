//! WebAssembly modules: their sections, and the functions with bodies and their names (WebAssembly core
//! 2.0, chapter 5 and 7.4.1 Name Section). The file is borrowed, and only the list of functions allocates
//! memory.
#![tactic(auto)]

mod answer;
mod body;
mod code;
mod constants;
mod file;
mod function_names;
mod imports;
mod laws;
mod names;
mod reads;
mod section;
mod sections;

pub use answer::WasmAnswer;
pub use body::Body;
pub use constants::{
    CODE, CUSTOM, DATA, DATA_COUNT, ELEMENT, EXPORT, FUNCTION, FUNCTION_IMPORT, FUNCTION_NAMES,
    GLOBAL, GLOBAL_IMPORT, IMPORT, MEMORY, MEMORY_IMPORT, START, TABLE, TABLE_IMPORT, TYPE,
    VERSION,
};
pub use file::WasmFile;
pub use laws::{bodies_follow_the_imports, sections_follow_one_another, standard_numbers};
pub use section::WasmSection;
pub use sections::WasmSections;
