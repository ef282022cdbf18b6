//! Label patterns, and the rewrites of custom data sources.
#![tactic(auto)]

mod expand;
mod laws;
mod pattern;
mod regex_patterns;
mod rewriting;

pub use laws::no_text_is_both;
pub use pattern::{LabelFinder, LabelPattern, PatternAnswer, Patterns};
pub use regex_patterns::RegexPatterns;
pub use rewriting::{RewriteAnswer, Rewriter, Rewrites};
