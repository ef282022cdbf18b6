//! The names of the sample files.

use sample_files::{Class, Input, Order};

// A module with a type, three imported functions, one with a body, and a section of names that is cut short.
const MODULE: Input = Input::Text(
    b"\0asm\x01\0\0\0\x01\x04\x01\x60\0\0\x02\x13\x03\x01m\x01f\0\0\x01m\x01f\0\0\x01m\x01f\0\0\
\x03\x02\x01\0\x0a\x04\x01\x02\0\x0b\0\x08\x04name\x01\x05\x01",
);

// A module with one function of two bytes.
const FUNCTION: Input = Input::Text(
    b"\0asm\x01\0\0\0\x01\x04\x01\x60\0\0\x03\x02\x01\0\x0a\x04\x01\x02\0\x0b",
);

/// The sample files by their names: ELF files, those with units and lines, Mach-O files, files with their debug files,
/// and modules. A number in a name is the version of DWARF, the bits of a file, or a size.
pub const SAMPLES: [(&str, Input); 62] = [
    ("plain.elf", Input::Plain),
    ("cut-63.elf", Input::Cut(63)),
    ("cut-351.elf", Input::Cut(351)),
    ("mapped-2176.elf", Input::Mapped(2176)),
    ("half-largest.elf", Input::Mapped((1 << 62) - 1)),
    ("half-too-large.elf", Input::Mapped(1 << 62)),
    ("largest.elf", Input::Mapped((1 << 63) - 1)),
    ("too-large.elf", Input::Mapped(1 << 63)),
    ("at-the-top.elf", Input::AtTheTop(4096)),
    ("past-the-top.elf", Input::AtTheTop(4097)),
    ("bss.elf", Input::LargeBss),
    ("thread-local.elf", Input::ThreadLocal),
    ("loaded-twice.elf", Input::LoadedTwice),
    ("many-sections.elf", Input::ManySections),
    ("functions.elf", Input::TwoFunctions),
    ("big-endian.elf", Input::BigEndian),
    ("own-names.elf", Input::OwnNames),
    ("named-as-others.elf", Input::NamedAsOthers),
    ("source-names.elf", Input::SourceNames),
    ("long-names.elf", Input::LongNames),
    ("sizes.o", Input::AboutUnits),
    ("object.o", Input::Object),
    ("functions.o", Input::ObjectFunctions),
    ("units-2.elf", Input::Units(2)),
    ("units-3.elf", Input::Units(3)),
    ("units-4.elf", Input::Units(4)),
    ("units-5.elf", Input::Units(5)),
    ("units.macho", Input::MachoUnits),
    ("unnamed-units.elf", Input::UnnamedUnits),
    ("compressed-flag.elf", Input::Compressed(true)),
    ("compressed-name.elf", Input::Compressed(false)),
    ("operations-4.elf", Input::Operations(4)),
    ("operations-5.elf", Input::Operations(5)),
    ("two-rows.elf", Input::TwoRows(false)),
    ("cut-lines.elf", Input::TwoRows(true)),
    ("folders-4.elf", Input::Folders(4)),
    ("folders-5.elf", Input::Folders(5)),
    ("executable-4.elf", Input::Executable(4)),
    ("executable-5.elf", Input::Executable(5)),
    ("program.macho", Input::MachoProgram),
    ("without-access.macho", Input::MachoWithoutAccess),
    (
        "little-64.macho",
        Input::MachoOf(Class::Bits64, Order::Little),
    ),
    ("big-64.macho", Input::MachoOf(Class::Bits64, Order::Big)),
    (
        "little-32.macho",
        Input::MachoOf(Class::Bits32, Order::Little),
    ),
    ("big-32.macho", Input::MachoOf(Class::Bits32, Order::Big)),
    ("object.macho", Input::MachoObject),
    ("library.macho", Input::MachoLibrary),
    ("debug.macho", Input::MachoDebugFile),
    ("stripped.elf", Input::Stripped(156)),
    ("too-large-stripped.elf", Input::Stripped(1 << 63)),
    ("debug.elf", Input::DebugFile(0xdd, 4)),
    ("other-debug.elf", Input::DebugFile(0xde, 4)),
    ("bad-debug.elf", Input::DebugFile(0xdd, 9)),
    ("other-bad-debug.elf", Input::DebugFile(0xde, 9)),
    ("stripped.macho", Input::MachoStripped),
    ("symbols.macho", Input::MachoSymbols(7)),
    ("other-symbols.macho", Input::MachoSymbols(8)),
    ("module.wasm", MODULE),
    ("function.wasm", FUNCTION),
    ("header.wasm", Input::Text(b"\0asm\x01\0\0\0")),
    (
        "long-size.wasm",
        Input::Text(b"\0asm\x01\0\0\0\x01\xff\xff\xff\xff\x1f"),
    ),
    ("endless-size.wasm", Input::Text(b"\0asm\x01\0\0\0\x01\x80")),
];
