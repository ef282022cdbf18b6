//! Labels with a number.

ghost use Rattle.std.specs.Prelude.{◌≡◌, ◌++◌, codes, decimal, IfOk};

use itoa::Buffer;
use size_core::NoMemory;
use std::alloc::Global;

/// Returns the label of something without a name: a text, its number and a closing bracket.
pub fn numbered_label(alloc: Global, before: &[u8], number: u32) -> Result<Vec<u8>, NoMemory>
    ensures { IfOk result (λ v. v.items ≡ before.now ++ decimal number ++ codes "]") }
{
    let mut digits = Buffer::new();
    let parts = [before, digits.format(number).as_bytes(), b"]"];
    parts.concat(alloc).map_err(NoMemory::from)
}
