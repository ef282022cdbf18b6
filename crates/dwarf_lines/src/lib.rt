//! Line programs of DWARF 2 to 5: their rows, and the paths of their files. Everything borrows the file. Only paths and
//! the cached tables of `LineProgram::kept` allocate.
#![tactic(auto)]

mod constants;
mod instruction;
mod instructions;
mod laws;
mod machine;
mod program;
mod registers;
mod rows;

pub use instruction::Instruction;
pub use laws::{one_after_another, standard_numbers};
pub use program::LineProgram;
pub use registers::{LineRow, Registers};
pub use rows::LineRows;
