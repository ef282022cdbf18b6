//! Mach-O files: the load commands, and the segments, sections and symbols of thin files, for both classes and both
//! byte orders. The file is borrowed, and only the spans of symbols allocate memory.
#![tactic(auto)]

mod checks;
mod command;
mod commands;
mod extents;
mod file;
mod link_edit_parts;
mod lookup;
mod section;
mod sections;
mod segment;
mod segments;
mod sizes;
mod spans;
mod survey;
mod symbol;
mod walk;

pub use command::Command;
pub use commands::Commands;
pub use file::MachoFile;
pub use link_edit_parts::LinkEditParts;
pub use macho_records::{LinkEdit, LinkEditPart};
pub use macho_symbols::{NamedSpan, SpanAnswer};
pub use section::MachoSection;
pub use sections::Sections;
pub use segment::MachoSegment;
pub use segments::Segments;
pub use spans::SymbolSpan;
pub use symbol::MachoSymbol;
