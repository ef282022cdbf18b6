//! Bounded reading of bytes: a window of a file with a position in it, numbers and texts at given offsets of a
//! table, and the fields of records of either class. Nothing here allocates memory.
#![tactic(auto)]

mod cursor;
mod encoding;
mod leb;
mod numbers;
mod order;

pub use cursor::Cursor;
pub use encoding::{ByClass, Encoding};
pub use numbers::{text_at, u16_at, u32_at, u64_at};
pub use order::Order;
