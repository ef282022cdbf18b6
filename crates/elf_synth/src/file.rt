//! The synthetic file.

ghost use Rattle.std.specs.Prelude.{◌≡◌, ◌≤◌, ◌+◌, ◌*◌, IfOk, vec_len};
ghost use Rattle.elf_synth.specs.Made.{made};

use crate::contents::{push_section_names, push_strings, push_symbols, push_text};
use crate::layout::{IMAGE_ADDRESS, Layout, TEXT_ADDRESS};
use crate::records::{push_file_header, push_program_header};
use crate::sections::push_section_headers;
use size_core::NoMemory;
use std::alloc::Global;

/// Returns a 64-bit ELF file for x86-64 with `n` functions, at most 1,000,000. It has 49 n + 498 bytes: the
/// file header, the program header of a load of all bytes up to the end of `.text`, the sections `.text`,
/// `.symtab`, `.strtab` and `.shstrtab`, and the section headers. A function has 16 bytes of code. The
/// symbols are in falling order of address, and a symbol with an odd number ends 8 bytes after its
/// function. NoMemory if memory runs out.
#[tactic(auto, unfolding(crate::specs::Made::made), using(crate::proofs::Lengths::layout_is))]
pub fn synth(alloc: Global, n: u32) -> Result<Vec<u8>, NoMemory>
    requires { n ≤ 1_000_000 }
    ensures bytes { IfOk result (λ v. v.items ≡ made n) }
    ensures len { IfOk result (λ v. vec_len v ≡ 49 * n + 498) }
{
    let at = Layout::of(n);
    let mut out = Vec::with_capacity(alloc, 49 * n as usize + 498)?;
    push_file_header(&mut out, TEXT_ADDRESS, at.section_headers)?;
    push_program_header(&mut out, IMAGE_ADDRESS, at.text.offset + at.text.size)?;
    push_text(&mut out, n)?;
    push_symbols(&mut out, n)?;
    push_strings(&mut out, n)?;
    push_section_names(&mut out)?;
    push_section_headers(&mut out, &at)?;
    Ok(out)
}
