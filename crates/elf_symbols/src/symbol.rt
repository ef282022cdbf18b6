//! Symbols.

ghost use Rattle.std.specs.Prelude.{◌≡◌, ◌+◌, ◌*◌, ◌≤◌, ◌<◌, ◌^◌, length};
ghost use Rattle.elf_file.specs.Layout.{encoding_of};
ghost use Rattle.elf_symbols.specs.Symbols.{section_number_at};
ghost use Rattle.elf_symbols.specs.TableFacts.{HasSymbol};

use crate::layout::ST_SHNDX;
use byte_cursor::{Encoding, u32_at};
use elf_file::SHN_XINDEX;
use size_core::{BadFile, Fault};

/// A symbol (ELF gABI, Symbol Table).
#[derive(Clone, Copy, Debug)]
pub struct Symbol<'a> {
    /// Its file offset.
    pub place: u64,
    /// Its name. Empty if `st_name` is 0.
    pub name: &'a [u8],
    /// `st_value`, in most files a virtual address.
    pub value: u64,
    /// `st_size`, in bytes.
    pub size: u64,
    /// The type, which is the low four bits of `st_info`.
    pub kind: u8,
    /// `st_shndx`, even if it is an escape.
    pub shndx: u16,
    /// The number of its section, from the extended section indexes if it doesn't fit `st_shndx`.
    pub section: u32,
}

/// Where the name of a symbol is. Symbols with equal values of this type have the same name.
#[derive(Clone, Copy, Debug, PartialEq, Eq)]
pub struct NameOffset {
    /// The number of the section with the names (`sh_link` of the symbol table).
    pub section: u32,
    /// The offset in that section (`st_name`), or 0 for no name.
    pub offset: u32,
}

/// Returns the section number of symbol `k`, which is at file offset `place`. BadIndex if it needs an
/// extended section index and has none.
#[tactic(auto, unfolding(crate::specs::Symbols::section_number_at))]
pub fn section_number_at(
    file: &[u8],
    encoding: Encoding,
    numbers: &[u8],
    place: u64,
    k: u32,
) -> Result<u32, BadFile>
    requires encoding { encoding ≡ encoding_of file.now }
    requires within { HasSymbol file.now place }
    ensures { result ≡ section_number_at file.now numbers.now place k }
{
    let shndx = encoding.half(file, place, ST_SHNDX);
    if shndx != SHN_XINDEX {
        return Ok(shndx as u32);
    }
    if numbers.len() / 4 <= k as usize {
        return Err(BadFile {
            fault: Fault::BadIndex,
            offset: place,
        });
    }
    Ok(u32_at(numbers, 4 * k as usize, encoding.order))
}
