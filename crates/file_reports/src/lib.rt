//! Reports of files: the sizes of files, their growth from base files, and the explanation of one location, as text,
//! CSV or TSV. The laws say what users rely on in them.
#![tactic(auto)]

mod growth;
mod laws;
mod location;
mod sizes;

pub use growth::report_of_growth;
pub use laws::{
    each_growth_is_read_back, each_path_is_read_back, files_in_any_order, growth_the_other_way,
    growths_add_up, growths_count_paths, more_sources_keep_the_first_level, no_growth_from_itself,
    one_report_of_growth, one_report_of_sizes, rows_count_paths, rows_show_files, sizes_add_up,
    totals_are_whole,
};
pub use location::report_of_location;
pub use sizes::report_of_sizes;
