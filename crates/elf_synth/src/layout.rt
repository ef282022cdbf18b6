//! The offsets of the parts of a synthetic file.

ghost use Rattle.std.specs.Prelude.{◌≡◌, ◌≤◌};
ghost use Rattle.elf_synth.specs.Made.{layout_of};

use crate::records::{FILE_HEADER_LEN, PROGRAM_HEADER_LEN, SYMBOL_LEN};

/// The file offset of `.text`, which follows the file header and the program header.
pub const TEXT_OFFSET: u64 = FILE_HEADER_LEN as u64 + PROGRAM_HEADER_LEN as u64;

/// The virtual address of the first byte of the file.
pub const IMAGE_ADDRESS: u64 = 0x40_0000;

/// The virtual address of `.text`.
pub const TEXT_ADDRESS: u64 = IMAGE_ADDRESS + TEXT_OFFSET;

/// The size of a function in bytes.
pub const FUNCTION_LEN: u64 = 16;

/// The size of a function's name in bytes, with the terminating zero byte.
pub const NAME_LEN: u64 = 9;

/// The names of the sections, each with a terminating zero byte.
pub const SECTION_NAMES: &[u8] = b"\0.text\0.symtab\0.strtab\0.shstrtab\0";

/// A range of bytes of a file.
#[derive(Clone, Copy)]
pub struct Part {
    /// The file offset of the first byte.
    pub offset: u64,
    /// How many bytes there are.
    pub size: u64,
}

/// The parts of a file that its headers describe.
#[derive(Clone, Copy)]
pub struct Layout {
    /// `.text`.
    pub text: Part,
    /// `.symtab`.
    pub symbols: Part,
    /// `.strtab`.
    pub strings: Part,
    /// `.shstrtab`.
    pub section_names: Part,
    /// The file offset of the section headers, which are the last part of the file.
    pub section_headers: u64,
}

impl Layout {
    /// Returns the layout of a file with `n` functions.
    #[tactic(auto, using(crate::proofs::Lengths::layout_is))]
    pub fn of(n: u32) -> Layout
        requires { n ≤ 1_000_000 }
        ensures { result ≡ layout_of n }
    {
        let n = u64::from(n);
        let text = Part {
            offset: TEXT_OFFSET,
            size: FUNCTION_LEN * n,
        };
        let symbols = Part {
            offset: text.offset + text.size,
            size: u64::from(SYMBOL_LEN) * (n + 1),
        };
        let strings = Part {
            offset: symbols.offset + symbols.size,
            size: 1 + NAME_LEN * n,
        };
        let section_names = Part {
            offset: strings.offset + strings.size,
            size: SECTION_NAMES.len() as u64,
        };
        Layout {
            text,
            symbols,
            strings,
            section_names,
            section_headers: section_names.offset + section_names.size,
        }
    }
}
