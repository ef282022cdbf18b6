//! Tests of the readers of debug information: abbreviations, compile units, ranges of addresses and line programs; and of
//! the claims of compile units and of source lines.
#![tactic(auto)]

#[cfg(test)]
mod abbreviations;
#[cfg(test)]
mod checks;
#[cfg(test)]
mod claims;
#[cfg(test)]
mod line_programs;
#[cfg(test)]
mod ranges;
#[cfg(test)]
mod units;
