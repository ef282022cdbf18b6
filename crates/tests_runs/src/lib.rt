//! Runs of the whole tool that no session in `tests/` can make: over devices that fail, with other limits, over files that
//! are cut or have other bytes; and the sizes of one file by a plan. The expected lines and sizes were worked out by hand.
#![tactic(auto)]

#[cfg(test)]
mod bytes;
#[cfg(test)]
mod cuts;
#[cfg(test)]
mod devices;
#[cfg(test)]
mod ends;
#[cfg(test)]
mod faults;
#[cfg(test)]
mod files;
#[cfg(test)]
mod limits;
#[cfg(test)]
mod one_file;
#[cfg(test)]
mod subjects;
#[cfg(test)]
mod totals;
