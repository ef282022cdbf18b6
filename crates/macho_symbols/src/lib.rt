//! The symbol table of Mach-O files, and the spans of symbols: the address ranges that they name in their sections. The
//! file is borrowed, and only the spans allocate memory.
#![tactic(auto)]

mod answer;
mod extent;
mod file_table;
mod index;
mod names;
mod span_symbols;
mod spans;
mod symbol;
mod symbol_table;

pub use answer::SpanAnswer;
pub use extent::Extent;
pub use file_table::FileTable;
pub use spans::{NamedSpan, spans_of_table};
pub use symbol::PlacedSymbol;
pub use symbol_table::{SymbolTable, table_at};
