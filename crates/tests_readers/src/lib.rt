//! Tests of the readers of ELF files, of their symbols, of Mach-O files and of WebAssembly modules, of the identifiers that
//! pair a file with its debug file, and of the cursor below them.
#![tactic(auto)]

#[cfg(test)]
mod checks;
#[cfg(test)]
mod cursors;
#[cfg(test)]
mod elf;
#[cfg(test)]
mod identities;
#[cfg(test)]
mod macho;
#[cfg(test)]
mod symbols;
#[cfg(test)]
mod synthetic;
#[cfg(test)]
mod wasm;
