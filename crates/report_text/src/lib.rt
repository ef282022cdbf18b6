//! The text of reports about sizes and growth, in columns or as comma- or tab-separated records, and of
//! explanations of a location.
#![tactic(auto)]

mod fields;
mod growth;
mod labels;
mod laws;
mod lines;
mod numbers;
mod pieces;
mod places;
mod records;
mod rows;
mod sizes;

pub use growth::{growth_csv, growth_text, growth_tsv};
pub use laws::{
    each_growth_has_a_record, each_path_has_a_record, growth_reads_back, reads_the_examples,
    records_read_back,
};
pub use places::place_text;
pub use sizes::{csv, text, tsv};
