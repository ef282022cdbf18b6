//! Tests of the claims of ELF files, of Mach-O files and of WebAssembly modules, of the sheet that collects claims, and of
//! the data sources that choose among them.
#![tactic(auto)]

#[cfg(test)]
mod elf;
#[cfg(test)]
mod elf_sources;
#[cfg(test)]
mod macho;
#[cfg(test)]
mod sheet;
#[cfg(test)]
mod sources;
#[cfg(test)]
mod wasm;
