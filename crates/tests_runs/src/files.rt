//! The files of the runs over devices that fail, and of those with other limits.

use sample_files::{Input, bytes_of};
use sample_runs::{Devices, NamedFile, Ran, run_over};
use size_core::NoMemory;
use std::alloc::Global;

// A data source with two patterns.
const CONFIG: &[u8] = b"custom_data_source {
  name: 'mine'
  base_data_source: 'sections'
  rewrite { pattern: 'a' replacement: '' }
  rewrite { pattern: 'b' replacement: '' }
}
";

/// Runs the arguments over these files:
///
/// - `a.elf`, `b.elf` and `--`, the plain file of 352 bytes, and `cut.elf`, which lacks its last byte;
/// - `big.elf`, a file of 416 bytes with one section more;
/// - `s.elf`, a stripped file of 448 bytes, and `d.elf`, its debug file;
/// - `conf`, a configuration.
pub fn run_named(alloc: Global, words: &[&str], devices: Devices) -> Result<Ran, NoMemory> {
    let plain = bytes_of(alloc, Input::Plain)?;
    let cut = bytes_of(alloc, Input::Cut(351))?;
    let big = bytes_of(alloc, Input::LargeBss)?;
    let stripped = bytes_of(alloc, Input::Stripped(156))?;
    let debug = bytes_of(alloc, Input::DebugFile(0xdd, 4))?;
    let files: [NamedFile<'_>; 8] = [
        ("a.elf", &plain),
        ("b.elf", &plain),
        ("--", &plain),
        ("cut.elf", &cut),
        ("big.elf", &big),
        ("s.elf", &stripped),
        ("d.elf", &debug),
        ("conf", CONFIG),
    ];
    run_over(alloc, words, &files, devices)
}
