//! The configuration: custom data sources and their rewrites, in a subset of the text format of Protocol
//! Buffers (Protocol Buffers, Text Format Language Specification).
#![tactic(auto)]

mod config;
mod draft;
mod parser;
mod reader;
mod values;

pub use config::{ConfigAnswer, ConfigKind, CustomSource, Rewrite, RewriteList};
pub use parser::parse;
