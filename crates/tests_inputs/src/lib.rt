//! Tests of what a run reads: the command line, a configuration, the patterns in it, files, and synthetic files.
#![tactic(auto)]

#[cfg(test)]
mod cases;
#[cfg(test)]
mod command_line;
#[cfg(test)]
mod configuration;
#[cfg(test)]
mod devices;
#[cfg(test)]
mod host_sinks;
#[cfg(test)]
mod rewrites;
#[cfg(test)]
mod synthetic;
