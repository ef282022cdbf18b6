//! The small files of the tests, one builder for each format. Only `put` and `put_all` have contracts: the tests say
//! what the files are.
#![tactic(auto)]

mod debug_files;
mod dwarf;
mod executable;
mod image;
mod inputs;
mod lines;
mod macho;
mod macho_files;
mod numbers;
mod pair_files;

pub use image::{
    EXECUTABLE, FUNCTION, Head, LOAD, NAMES, NULL, Section, Segment, Symbol, TEXT, file, patched,
    plain_file, put, put_all, symbols, thread_local,
};
pub use inputs::{
    Input, SYMBOL_NAMES, bytes_of, large_bss, loaded_twice, object, object_functions, symbol_table,
    two_functions,
};
pub use numbers::{Class, Order};
