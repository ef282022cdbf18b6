//! How a program reaches the outside: it reads files by name, and writes to sinks.
#![tactic(auto)]

mod calls;
mod files;
mod given;
mod host;
mod memory;
mod notes;
mod reading;
mod sink;
mod turns;
mod writing;

pub use files::{FileAnswer, Files};
pub use host::{HostFiles, HostSink};
pub use memory::{MemFiles, MemSink, NoFaultFiles};
pub use notes::Notes;
pub use reading::take_up_to;
pub use sink::{Failed, Sink};
pub use turns::{TurnReader, Turns};
pub use writing::{write_pieces, write_whole};
