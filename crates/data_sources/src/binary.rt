//! A file of a known format, and how a format is recognized.

ghost use Rattle.std.specs.Prelude.{◌≡◌, ◌^◌, ◌<◌, ◌||◌, nat_eq, length, IfOk};
ghost use Rattle.data_sources.specs.Groups.{bytes_of, groups_of};
ghost use Rattle.data_sources.specs.Kind.{is_macho};
ghost use Rattle.data_sources.specs.Opened.{opened};

use elf_file::ElfFile;
use macho_file::MachoFile;
use size_core::{BadFile, Fault};
use wasm_file::WasmFile;

/// A file of a known format. Its tables passed the checks of the format.
#[derive(Drop)]
pub enum Binary<'a> {
    /// An ELF file.
    Elf(ElfFile<'a>),
    /// A thin Mach-O file.
    Macho(MachoFile<'a>),
    /// A WebAssembly module.
    Wasm(WasmFile<'a>),
}

impl<'a> Binary<'a> {
    /// Returns the bytes of the file.
    pub fn bytes(&self) -> &'a [u8]
        ensures { result.now ≡ bytes_of self.now }
    {
        match self {
            Binary::Elf(file) => file.bytes(),
            Binary::Macho(file) => file.bytes(),
            Binary::Wasm(file) => file.bytes(),
        }
    }
}

fn is_macho(file: &[u8]) -> bool
    ensures { result ≡ is_macho file.now }
{
    file.starts_with(&[0xce, 0xfa, 0xed, 0xfe])
        || file.starts_with(&[0xcf, 0xfa, 0xed, 0xfe])
        || file.starts_with(&[0xfe, 0xed, 0xfa, 0xce])
        || file.starts_with(&[0xfe, 0xed, 0xfa, 0xcf])
}

/// Opens a file. Its first bytes decide its format. Archive, Universal and UnknownFormat are at offset 0. All other
/// faults are those of the format's reader.
#[tactic(auto, unfolding(crate::specs::Opened::opened))]
pub fn open_binary<'a>(file: &'a [u8]) -> Result<Binary<'a>, BadFile>
    requires { length file.now < 2 ^ 32 }
    ensures opened { result ≡ opened file.now }
    ensures bytes { IfOk result (λ binary. bytes_of binary ≡ file.now) }
{
    let fault = if file.starts_with(b"!<arch>\n") || file.starts_with(b"!<thin>\n") {
        Fault::Archive
    } else if file.starts_with(&[0xca, 0xfe, 0xba, 0xbe])
        || file.starts_with(&[0xca, 0xfe, 0xba, 0xbf])
    {
        Fault::Universal
    } else if file.starts_with(b"\x7fELF") {
        return ElfFile::parse(file).map(Binary::Elf);
    } else if is_macho(file) {
        return MachoFile::parse(file).map(Binary::Macho);
    } else if file.starts_with(b"\0asm") {
        return WasmFile::parse(file).map(Binary::Wasm);
    } else {
        Fault::UnknownFormat
    };
    Err(BadFile { fault, offset: 0 })
}
