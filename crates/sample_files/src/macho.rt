//! Mach-O files (Apple's `mach-o/loader.h` and `mach-o/nlist.h`).

use crate::image::put_all;
use crate::numbers::{Class, Numbers, Order};
use std::alloc::{AllocError, Global};

/// Fields of a Mach-O header.
#[derive(Clone, Copy)]
pub struct MachoHead {
    /// The class.
    pub class: Class,
    /// The byte order.
    pub order: Order,
    /// The file type: MH_OBJECT is 1, MH_EXECUTE 2, MH_DYLIB 6, MH_DSYM 10.
    pub kind: u32,
}

/// A section.
#[derive(Clone, Copy)]
pub struct MachoSection<'a> {
    /// The name of its segment.
    pub segment: &'a [u8],
    /// Its own name.
    pub name: &'a [u8],
    /// Its virtual address.
    pub addr: u64,
    /// Its size in bytes.
    pub size: u64,
    /// Its file offset.
    pub offset: u32,
    /// S_ZEROFILL is 1.
    pub flags: u32,
}

/// A segment, with its sections.
#[derive(Clone, Copy)]
pub struct MachoSegment<'a> {
    /// Its name.
    pub name: &'a [u8],
    /// Its virtual address.
    pub vaddr: u64,
    /// Its size in memory, in bytes.
    pub memsz: u64,
    /// Its file offset.
    pub offset: u64,
    /// Its size in the file, in bytes.
    pub filesz: u64,
    /// Its maximum and its initial protection. VM_PROT_READ is 1, VM_PROT_WRITE is 2, VM_PROT_EXECUTE is 4.
    pub access: u32,
    /// Its sections.
    pub sections: &'a [MachoSection<'a>],
}

/// A load command.
#[derive(Clone, Copy)]
pub enum Command<'a> {
    /// LC_SEGMENT or LC_SEGMENT_64, by the class.
    Segment(MachoSegment<'a>),
    /// LC_SYMTAB: offset and count of the symbols, offset and size of the strings.
    Symbols([u32; 4]),
    /// LC_DYSYMTAB: offset and count of the indirect symbols.
    Indirect([u32; 2]),
    /// LC_DYLD_INFO_ONLY: offsets and sizes of five parts.
    DyldInfo([u32; 10]),
    /// LC_CODE_SIGNATURE: offset and size.
    Signature([u32; 2]),
    /// LC_UUID: the value of each of the 16 bytes.
    Uuid(u8),
}

/// A symbol: the offset of its name, its type, the number of its section from 1 on, and its value.
pub type MachoSymbol = (u32, u8, u8, u64);

// A name in a field of 16 bytes.
fn put_name(numbers: &mut Numbers, name: &[u8]) {
    numbers.text(name);
    numbers.zeros(16usize.saturating_sub(name.len()));
}

fn put_section(numbers: &mut Numbers, class: Class, s: &MachoSection<'_>) {
    put_name(numbers, s.name);
    put_name(numbers, s.segment);
    numbers.addresses(&[s.addr, s.size]);
    numbers.words(&[s.offset, 0, 0, 0, s.flags, 0, 0]);
    if class == Class::Bits64 {
        numbers.word(0);
    }
}

fn put_segment(numbers: &mut Numbers, class: Class, s: &MachoSegment<'_>) {
    let (kind, len, section) = match class {
        Class::Bits32 => (0x01, 56, 68u32),
        Class::Bits64 => (0x19, 72, 80u32),
    };
    let count = u32::try_from(s.sections.len()).unwrap_or(0);
    numbers.words(&[kind, count.wrapping_mul(section).wrapping_add(len)]);
    put_name(numbers, s.name);
    numbers.addresses(&[s.vaddr, s.memsz, s.offset, s.filesz]);
    numbers.words(&[s.access, s.access, count, 0]);
    for section in s.sections {
        put_section(numbers, class, section);
    }
}

fn put_indirect(numbers: &mut Numbers, fields: &[u32]) {
    numbers.words(&[0x0b, 80]);
    numbers.zeros(48);
    numbers.words(fields);
    numbers.zeros(16);
}

// The number of a command, its size, and its fields.
fn put_fields(numbers: &mut Numbers, command: u32, size: u32, fields: &[u32]) {
    numbers.words(&[command, size]);
    numbers.words(fields);
}

fn put_command(numbers: &mut Numbers, class: Class, command: &Command<'_>) {
    match command {
        Command::Segment(segment) => put_segment(numbers, class, segment),
        Command::Symbols(fields) => put_fields(numbers, 0x02, 24, fields),
        Command::Indirect(fields) => put_indirect(numbers, fields),
        Command::DyldInfo(fields) => put_fields(numbers, 0x8000_0022, 48, fields),
        Command::Signature(fields) => put_fields(numbers, 0x1d, 16, fields),
        Command::Uuid(byte) => {
            numbers.words(&[0x1b, 24]);
            numbers.text(&[*byte; 16]);
        }
    }
}

/// A table of symbols.
pub fn macho_symbols(
    alloc: Global,
    head: MachoHead,
    symbols: &[MachoSymbol],
) -> Result<Vec<u8>, AllocError> {
    let mut table = Numbers::new(alloc, head.class, head.order);
    for (name, kind, section, value) in symbols {
        table.word(*name);
        table.text(&[*kind, *section]);
        table.half(0);
        table.address(*value);
    }
    table.finish()
}

// The header of a file with these commands.
fn header(alloc: Global, head: MachoHead, count: usize, commands: &Numbers) -> Numbers {
    let mut header = Numbers::new(alloc, head.class, head.order);
    let (magic, machine) = match head.class {
        Class::Bits32 => (0xfeed_face, 12),
        Class::Bits64 => (0xfeed_facf, 0x0100_000c),
    };
    let count = u32::try_from(count).unwrap_or(0);
    header.words(&[magic, machine, 0, head.kind, count, commands.len(), 0]);
    if head.class == Class::Bits64 {
        header.word(0);
    }
    header.all(commands);
    header
}

/// A file of `len` bytes: its header, the commands, and zeros after them, with these bytes at these offsets.
pub fn macho_file(
    alloc: Global,
    head: MachoHead,
    commands: &[Command<'_>],
    len: usize,
    parts: &[(usize, &[u8])],
) -> Result<Vec<u8>, AllocError> {
    let mut body = Numbers::new(alloc, head.class, head.order);
    for command in commands {
        put_command(&mut body, head.class, command);
    }
    let mut file = header(alloc, head, commands.len(), &body);
    file.zeros(len.saturating_sub(file.len() as usize));
    let mut bytes = file.finish()?;
    put_all(&mut bytes, parts);
    Ok(bytes)
}
