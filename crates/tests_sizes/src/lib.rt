//! Tests of sizes: labels and limits, the plain definition of a size, maps from positions to labels, the totals of files,
//! and the rows of reports with their texts.
#![tactic(auto)]

#[cfg(test)]
mod added;
#[cfg(test)]
mod carried;
#[cfg(test)]
mod checks;
#[cfg(test)]
mod claim_rows;
#[cfg(test)]
mod covering;
#[cfg(test)]
mod growth;
#[cfg(test)]
mod growth_text;
#[cfg(test)]
mod lists;
#[cfg(test)]
mod model;
#[cfg(test)]
mod place_text;
#[cfg(test)]
mod ranges;
#[cfg(test)]
mod report_table;
#[cfg(test)]
mod rows;
#[cfg(test)]
mod size_text;
#[cfg(test)]
mod totals;
#[cfg(test)]
mod trees;
