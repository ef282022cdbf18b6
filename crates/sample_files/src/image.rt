//! Small ELF files (ELF gABI, chapters 4 and 5).

ghost use Rattle.std.specs.Prelude.{◌≡◌, ◌+◌, ◌≤◌, length};

use crate::numbers::{Class, Numbers, Order};
use std::alloc::{AllocError, Global};

/// Fields of the file header.
#[derive(Clone, Copy)]
pub struct Head {
    /// The class.
    pub class: Class,
    /// The byte order.
    pub order: Order,
    /// e_type: ET_REL is 1, ET_EXEC is 2.
    pub kind: u16,
    /// e_machine: EM_X86_64 is 62.
    pub machine: u16,
}

/// An executable for x86-64.
pub const EXECUTABLE: Head = Head {
    class: Class::Bits64,
    order: Order::Little,
    kind: 2,
    machine: 62,
};

/// A program header.
#[derive(Clone, Copy)]
pub struct Segment {
    /// p_type: PT_LOAD is 1.
    pub kind: u32,
    /// p_flags: PF_X is 1, PF_W is 2, PF_R is 4.
    pub flags: u32,
    /// p_offset, in bytes.
    pub offset: u64,
    /// p_vaddr.
    pub vaddr: u64,
    /// p_filesz, in bytes.
    pub filesz: u64,
    /// p_memsz, in bytes.
    pub memsz: u64,
}

/// A section, with its bytes. The section name table is `.shstrtab`, and `file` makes its bytes.
#[derive(Clone, Copy)]
pub struct Section<'a> {
    /// The name itself. `file` adds it to the section name table.
    pub name: &'a [u8],
    /// sh_type: SHT_NOBITS is 8.
    pub kind: u32,
    /// sh_flags: SHF_WRITE is 1, SHF_ALLOC is 2, SHF_EXECINSTR is 4.
    pub flags: u64,
    /// sh_addr.
    pub addr: u64,
    /// The bytes of the section in the file.
    pub bytes: &'a [u8],
    /// The size of a section of type SHT_NOBITS, in bytes.
    pub empty: u64,
    /// sh_link: the number of another section.
    pub link: u32,
}

/// A section without a name or a byte.
pub const NULL: Section<'static> = Section {
    name: b"",
    kind: 0,
    flags: 0,
    addr: 0,
    bytes: b"",
    empty: 0,
    link: 0,
};

/// The names of the sections, which `file` writes.
pub const NAMES: Section<'static> = Section {
    name: b".shstrtab",
    kind: 3,
    ..NULL
};

/// Bytes of the file that have no addresses.
pub fn part<'a>(name: &'a [u8], bytes: &'a [u8]) -> Section<'a> {
    Section {
        name,
        kind: 1,
        bytes,
        ..NULL
    }
}

/// A symbol.
#[derive(Clone, Copy)]
pub struct Symbol {
    /// st_name: the offset of its name in the string table.
    pub name: u32,
    /// st_info: STT_FUNC is 2, STT_SECTION is 3, STT_FILE is 4.
    pub kind: u8,
    /// st_value.
    pub value: u64,
    /// st_size, in bytes.
    pub size: u64,
    /// st_shndx: the number of its section.
    pub section: u16,
}

// A number of items in a field of 2 bytes.
fn count(items: usize) -> u16 {
    u16::try_from(items).unwrap_or(u16::MAX)
}

// The file's header. The offset of the section headers is still 0.
fn put_header(image: &mut Numbers, head: Head, segments: usize, sections: &[Section<'_>]) {
    let (class, header, segment, section) = match head.class {
        Class::Bits32 => (1, 52u16, 32, 40),
        Class::Bits64 => (2, 64, 56, 64),
    };
    let order = match head.order {
        Order::Little => 1,
        Order::Big => 2,
    };
    let names = sections.iter().position(|s| s.name == NAMES.name);
    let first = if segments == 0 { 0 } else { header };
    image.text(b"\x7fELF");
    image.text(&[class, order, 1, 0, 0, 0, 0, 0, 0, 0, 0, 0]);
    image.halves(&[head.kind, head.machine]);
    image.word(1);
    image.addresses(&[0x400078, u64::from(first), 0]);
    image.word(0);
    image.halves(&[header, segment, count(segments), section]);
    image.halves(&[count(sections.len()), count(names.unwrap_or(0))]);
}

fn put_segment(image: &mut Numbers, class: Class, s: &Segment) {
    image.word(s.kind);
    if class == Class::Bits64 {
        image.word(s.flags);
    }
    image.addresses(&[s.offset, s.vaddr, s.vaddr, s.filesz, s.memsz]);
    if class == Class::Bits32 {
        image.word(s.flags);
    }
    image.address(4096);
}

// The header of a section whose name and bytes are at these offsets.
fn put_section(headers: &mut Numbers, s: &Section<'_>, name: u32, offset: u64, size: u64) {
    headers.words(&[name, s.kind]);
    headers.addresses(&[s.flags, s.addr, offset, size]);
    headers.words(&[s.link, 0]);
    headers.addresses(&[1, 0]);
}

fn put_symbol(image: &mut Numbers, class: Class, s: &Symbol) {
    image.word(s.name);
    if class == Class::Bits64 {
        image.text(&[s.kind, 0]);
        image.half(s.section);
    }
    image.addresses(&[s.value, s.size]);
    if class == Class::Bits32 {
        image.text(&[s.kind, 0]);
        image.half(s.section);
    }
}

/// A symbol table: the null symbol, and then these symbols.
pub fn symbols(alloc: Global, head: Head, symbols: &[Symbol]) -> Result<Vec<u8>, AllocError> {
    let mut image = Numbers::new(alloc, head.class, head.order);
    image.zeros(match head.class {
        Class::Bits32 => 16,
        Class::Bits64 => 24,
    });
    for symbol in symbols {
        put_symbol(&mut image, head.class, symbol);
    }
    image.finish()
}

/// A symbol of type STT_FUNC in the first section, without a name.
pub const FUNCTION: Symbol = Symbol {
    name: 0,
    kind: 2,
    value: 0,
    size: 0,
    section: 1,
};

// The section name table: an empty name at offset 0, and then the names of these sections.
fn names_of(alloc: Global, head: Head, sections: &[Section<'_>]) -> Numbers {
    let mut names = Numbers::new(alloc, head.class, head.order);
    names.text(&[0]);
    for section in sections {
        if !section.name.is_empty() {
            names.name(section.name);
        }
    }
    names
}

// How many bytes a section's name takes.
fn name_size(name: &[u8]) -> u32 {
    if name.is_empty() {
        return 0;
    }
    u32::try_from(name.len()).unwrap_or(0).wrapping_add(1)
}

// The bytes of the sections, and their headers.
fn put_sections(
    image: &mut Numbers,
    headers: &mut Numbers,
    names: &Numbers,
    sections: &[Section<'_>],
) {
    let mut next_name = 1u32;
    for section in sections {
        let name = if section.name.is_empty() {
            0
        } else {
            next_name
        };
        next_name = next_name.wrapping_add(name_size(section.name));
        let start = image.len();
        image.text(section.bytes);
        if section.name == NAMES.name {
            image.all(names);
        }
        let size = image.len().wrapping_sub(start) as u64;
        let offset = if section.kind == 0 { 0 } else { start as u64 };
        put_section(headers, section, name, offset, section.empty.max(size));
    }
}

/// A file: its header, the program headers, the bytes of each section, and, from a multiple of 8 on, the section
/// headers. The first section is `NULL`.
pub fn file(
    alloc: Global,
    head: Head,
    segments: &[Segment],
    sections: &[Section<'_>],
) -> Result<Vec<u8>, AllocError> {
    let mut image = Numbers::new(alloc, head.class, head.order);
    put_header(&mut image, head, segments.len(), sections);
    for segment in segments {
        put_segment(&mut image, head.class, segment);
    }
    let mut headers = Numbers::new(alloc, head.class, head.order);
    put_sections(
        &mut image,
        &mut headers,
        &names_of(alloc, head, sections),
        sections,
    );
    image.zeros(7 - (image.len().wrapping_sub(1) % 8) as usize);
    let mut table = Numbers::new(alloc, head.class, head.order);
    table.address(image.len() as u64);
    image.all(&headers);
    let place = match head.class {
        Class::Bits32 => 32,
        Class::Bits64 => 40,
    };
    Ok(patched(image.finish()?, place, table.bytes()?))
}

/// Writes bytes over those from an offset on.
pub fn put(file: &mut [u8], at: usize, bytes: &[u8])
    requires { at + length bytes.now ≤ length file.old }
    ensures { length file.new ≡ length file.old }
{
    for (i, byte) in bytes.iter().enumerate() {
        file[at + i] = *byte;
    }
}

/// Writes each part over the bytes from its offset on. A part that passes the end is left out.
pub fn put_all(file: &mut [u8], parts: &[(usize, &[u8])])
    ensures { length file.new ≡ length file.old }
{
    for &(at, part) in parts {
        if at <= file.len() && part.len() <= file.len() - at {
            put(file, at, part);
        }
    }
}

/// A file with other bytes from an offset on.
pub fn patched(mut file: Vec<u8>, place: usize, bytes: &[u8]) -> Vec<u8> {
    for (old, new) in file.iter_mut().skip(place).zip(bytes) {
        *old = *new;
    }
    file
}

/// `.text` of the plain file and of its kin: 16 bytes of code, after a header and one program header.
pub const TEXT: Section<'static> = Section {
    name: b".text",
    kind: 1,
    flags: 6,
    addr: 0x400078,
    bytes: b"sixteen bytes ..",
    ..NULL
};

/// A load of the first 136 bytes, which end with `.text`.
pub const LOAD: Segment = Segment {
    kind: 1,
    flags: 5,
    offset: 0,
    vaddr: 0x400000,
    filesz: 136,
    memsz: 136,
};

/// The plain file: 352 bytes, one load of the first 136, `.text` of 16 bytes, `.shstrtab` of 17.
pub fn plain_file(alloc: Global) -> Result<Vec<u8>, AllocError> {
    file(alloc, EXECUTABLE, &[LOAD], &[NULL, TEXT, NAMES])
}

/// The plain file with 65,280 sections, all but two of them SHT_NULL. Their number is in section 0.
pub fn many_sections(alloc: Global) -> Result<Vec<u8>, AllocError> {
    let mut bytes = patched(plain_file(alloc)?, 60, &[0, 0]);
    bytes = patched(bytes, 160 + 32, &65_280u64.to_le_bytes());
    for _ in 0..65_277 * 64 {
        bytes.push(0)?;
    }
    Ok(bytes)
}

/// A file of 416 bytes whose thread-local `.tbss` has the addresses of `.init_array`.
pub fn thread_local(alloc: Global) -> Result<Vec<u8>, AllocError> {
    let load = Segment {
        filesz: 128,
        memsz: 128,
        ..LOAD
    };
    let tbss = Section {
        name: b".tbss",
        kind: 8,
        flags: 0x403,
        addr: 0x400078,
        empty: 16,
        ..NULL
    };
    let array = Section {
        name: b".init_array",
        kind: 14,
        flags: 3,
        addr: 0x400078,
        bytes: b"an array",
        ..NULL
    };
    file(alloc, EXECUTABLE, &[load], &[NULL, tbss, array, NAMES])
}
