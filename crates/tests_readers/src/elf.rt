//! Headers, sections and segments of ELF files.

ghost use Rattle.std.specs.Prelude.{◌≡◌, ◌+◌, ◌≤◌, ◌<◌, ◌^◌, length};

use crate::checks::{holds, same};
use byte_cursor::Order;
use elf_file::{ElfFile, Section, Segment};
use sample_files::{put, put_all};
use size_core::{BadFile, Fault};
use std::process::Abort;

const PLAIN_FILE_BYTES: [(usize, &[u8]); 12] = [
    (0, b"\x7fELF\x02\x01\x01"),
    (16, b"\x02\0\x3e\0\x01"),
    (32, b"\x40\0\0\0\0\0\0\0\xa0"),
    (52, b"\x40\0\x38\0\x01\0\x40\0\x03\0\x02"),
    (64, b"\x01\0\0\0\x05"),
    (80, b"\0\0\x40\0\0\0\0\0\0\0\x40"),
    (96, b"\x88\0\0\0\0\0\0\0\x88"),
    (136, b"\0.text\0.shstrtab"),
    (224, b"\x01\0\0\0\x01\0\0\0\x06"),
    (240, b"\x78\0\x40\0\0\0\0\0\x78\0\0\0\0\0\0\0\x10"),
    (288, b"\x07\0\0\0\x03"),
    (312, b"\x88\0\0\0\0\0\0\0\x11"),
];

/// A program of 16 bytes: one load, and the sections `.text` and `.shstrtab`, whose headers are at 160.
fn plain_file() -> [u8; 352] {
    let mut file = [0; 352];
    put_all(&mut file, &PLAIN_FILE_BYTES);
    file
}

const ALL_ONES: &[u8] = b"\xff\xff\xff\xff\xff\xff\xff\xff";

// A load's address, physical address, size in the file and size in memory: up to 2^64, and a byte more.
const LAST_PAGE: &[u8] = b"\0\xf0\xff\xff\xff\xff\xff\xff\0\0\0\0\0\0\0\0\0\0\0\0\0\0\0\0\0\x10";

const PAST_IT: &[u8] = b"\0\xf0\xff\xff\xff\xff\xff\xff\0\0\0\0\0\0\0\0\0\0\0\0\0\0\0\0\x01\x10";

// A section's type, flags, address and offset: none, and a byte further than it fits.
const PAST_END: &[u8] = b"\0\0\0\0\0\0\0\0\0\0\0\0\0\0\0\0\0\0\0\0\x51\x01";

// An offset and the bytes that are written there, how many bytes of the file are kept, and the fault with its offset.
const FIRST_FAULTS: [(usize, &[u8], usize, Option<(Fault, u64)>); 22] = [
    (0, b"", 352, None),
    (0, b"", 351, Some((Fault::TablePastEnd, 160))),
    (0, b"", 64, Some((Fault::TablePastEnd, 160))),
    (0, b"", 63, Some((Fault::Truncated, 0))),
    (0, b"", 15, Some((Fault::Truncated, 0))),
    (4, b"\x03", 352, Some((Fault::BadHeader, 4))),
    (5, b"\0", 352, Some((Fault::BadHeader, 5))),
    (58, b"\x28", 352, Some((Fault::BadHeader, 58))),
    (54, b"\x20", 352, Some((Fault::BadHeader, 54))),
    (
        40,
        b"\0\0\0\0\0\0\0\x80",
        352,
        Some((Fault::TablePastEnd, 1 << 63)),
    ),
    (32, ALL_ONES, 352, Some((Fault::TablePastEnd, u64::MAX))),
    (62, b"\x03", 352, Some((Fault::BadIndex, 62))),
    (62, b"\0", 352, None),
    // The number of segments is in section 0.
    (56, b"\xff\xff", 352, None),
    (248, b"\x50\x01", 352, None),
    (248, b"\x51\x01", 352, Some((Fault::SectionPastEnd, 224))),
    // A header that is no section's may have any values.
    (228, PAST_END, 352, None),
    (240, ALL_ONES, 352, Some((Fault::RangeOverflow, 224))),
    (224, b"\x10", 352, None),
    (224, b"\x11", 352, Some((Fault::NameOutside, 224))),
    (80, LAST_PAGE, 352, None),
    (80, PAST_IT, 352, Some((Fault::RangeOverflow, 64))),
];

#[test]
fn first_faults(rt: HostRuntime) {
    for &(at, bytes, len, want) in &FIRST_FAULTS {
        let mut file = plain_file();
        assert!(rt; at < 300 && bytes.len() < 50 && len <= file.len());
        put(&mut file, at, bytes);
        let found = ElfFile::parse(&file[..len]).err();
        let want = want.map(|(fault, offset)| BadFile { fault, offset });
        same(&rt, &(at, bytes, len), &found, &want);
    }
}

fn is_text(rt: &impl Abort, text: &Section<'_>) {
    holds(rt, &"name", text.name == b".text".as_slice());
    same(
        rt,
        &"header",
        &(text.place, text.kind, text.flags),
        &(224, 1, 6),
    );
    let range = (text.addr, text.offset, text.size);
    same(rt, &"range", &range, &(0x400078, 120, 16));
}

/// The segment has this offset of its header, type and flags, and this offset, address, and size in the file and in
/// memory.
fn is_load(rt: &impl Abort, load: &Segment, header: (u64, u32, u32), range: (u64, u64, u64, u64)) {
    same(rt, &"header", &(load.place, load.kind, load.flags), &header);
    let found = (load.offset, load.vaddr, load.filesz, load.memsz);
    same(rt, &"range", &found, &range);
}

#[test]
fn tables_of_a_plain_file(rt: HostRuntime) {
    let file = plain_file();
    let elf = ElfFile::parse(&file).expect(&rt, "the file is well formed");
    let header = elf.header();
    same(&rt, &"type", &(header.kind, header.machine), &(2, 0x3e));
    same(&rt, &"offsets", &(header.phoff, header.shoff), &(64, 160));
    assert_eq!(rt; (header.segments, header.sections), (1, 3));
    let text = elf.section(1);
    is_text(&rt, &text);
    holds(&rt, &"section 0", elf.section(0).name.is_empty());
    let lengths = (elf.section_bytes(2).len(), elf.section_bytes(0).len());
    same(&rt, &"bytes of sections", &lengths, &(17, 0));
    let load = elf.segment(0);
    is_load(&rt, &load, (64, 1, 5), (0, 0x400000, 136, 136));
    let lengths = (elf.segment_bytes(0).len(), elf.bytes().len());
    same(&rt, &"bytes", &lengths, &(136, 352));
    let found = (elf.find(b".shstrtab"), elf.find(b""));
    same(&rt, &"names", &found, &(Some(2), None));
}

const BIG_ENDIAN_FILE_OF_32_BITS_BYTES: [(usize, &[u8]); 6] = [
    (0, b"\x7fELF\x01\x02\x01"),
    (16, b"\0\x03\0\x08"),
    (28, b"\0\0\0\x34"),
    (40, b"\0\x34\0\x20\0\x01"),
    (52, b"\0\0\0\x01\0\0\0\0\0\x40"),
    (68, b"\0\0\0\x54\0\0\x01\0\0\0\0\x06"),
];

#[test]
fn big_endian_file_of_32_bits(rt: HostRuntime) {
    let mut file = [0; 84];
    put_all(&mut file, &BIG_ENDIAN_FILE_OF_32_BITS_BYTES);
    let elf = ElfFile::parse(&file).expect(&rt, "the file is well formed");
    let header = elf.header();
    let form = (header.wide, header.order);
    same(&rt, &"form", &form, &(false, Order::Big));
    same(&rt, &"type", &(header.kind, header.machine), &(3, 8));
    assert_eq!(rt; (header.segments, header.sections), (1, 0));
    let load = elf.segment(0);
    let range = (load.vaddr, load.filesz, load.memsz);
    same(&rt, &"flags", &load.flags, &6);
    same(&rt, &"range", &range, &(0x400000, 84, 256));
}

#[test]
fn more_sections_than_the_header_can_count(rt: HostRuntime) {
    let mut file = vec![in rt.alloc(); 0u8; 160 + 64 * 65280].expect(&rt, "memory");
    put(&mut file, 0, &plain_file());
    put(&mut file, 60, b"\0");
    put(&mut file, 192, b"\0\xff");
    let elf = ElfFile::parse(&file).expect(&rt, "the file is well formed");
    same(&rt, &"sections", &elf.header().sections, &65280);
    same(&rt, &".data", &elf.find(b".data"), &None);
}
