//! Notes, build IDs and UUIDs.

ghost use Rattle.std.specs.Prelude.{◌≡◌, ◌+◌, ◌≤◌, length};

use crate::checks::{holds, same};
use byte_cursor::Order;
use debug_pair::{elf_identity, macho_identity, notes};
use elf_file::ElfFile;
use macho_file::MachoFile;
use sample_files::{put, put_all};

const GNU: &[u8] = b"GNU\0";

// An area and its order, its first note, and whether one follows.
type Area<'a> = (&'a [u8], Order, Option<(&'a [u8], u32, &'a [u8])>, bool);

const AREAS: [Area<'static>; 12] = [
    (b"", Order::Little, None, false),
    (b"\0\0\0\0\0\0\0\0\0\0\0", Order::Little, None, false),
    (
        b"\0\0\0\0\0\0\0\0\x07\0\0\0",
        Order::Little,
        Some((b"", 7, b"")),
        false,
    ),
    (
        b"\x04\0\0\0\x04\0\0\0\x03\0\0\0GNU\0\xaa\xbb\xcc\xdd",
        Order::Little,
        Some((GNU, 3, b"\xaa\xbb\xcc\xdd")),
        false,
    ),
    (
        b"\0\0\0\x04\0\0\0\x04\0\0\0\x03GNU\0\xaa\xbb\xcc\xdd",
        Order::Big,
        Some((GNU, 3, b"\xaa\xbb\xcc\xdd")),
        false,
    ),
    // A name and a descriptor that are filled up, and another note after them.
    (
        b"\x05\0\0\0\x01\0\0\0\x02\0\0\0Xen1\0\0\0\0\xaa\0\0\0\0\0\0\0\0\0\0\0\0\0\0\0",
        Order::Little,
        Some((b"Xen1\0", 2, b"\xaa")),
        true,
    ),
    // The last fill is missing, in whole or in part.
    (
        b"\x04\0\0\0\x02\0\0\0\x03\0\0\0GNU\0\xaa\xbb",
        Order::Little,
        Some((GNU, 3, b"\xaa\xbb")),
        false,
    ),
    (
        b"\x04\0\0\0\x02\0\0\0\x03\0\0\0GNU\0\xaa\xbb\0",
        Order::Little,
        Some((GNU, 3, b"\xaa\xbb")),
        false,
    ),
    // A descriptor, a name, and both together pass the end.
    (
        b"\x04\0\0\0\x05\0\0\0\x03\0\0\0GNU\0\xaa\xbb\xcc\xdd",
        Order::Little,
        None,
        false,
    ),
    (
        b"\xfd\xff\xff\xff\0\0\0\0\x03\0\0\0GNU\0",
        Order::Little,
        None,
        false,
    ),
    (
        b"\xff\xff\xff\xff\xff\xff\xff\xff\x03\0\0\0GNU\0",
        Order::Little,
        None,
        false,
    ),
    // Nothing comes after a note that doesn't fit.
    (
        b"\0\0\0\0\0\0\0\0\x07\0\0\0\x01\0\0\0\0\0\0\0\x07\0\0\0",
        Order::Little,
        Some((b"", 7, b"")),
        false,
    ),
];

#[test]
fn notes_of_areas(rt: HostRuntime) {
    for &(area, order, first, more) in &AREAS {
        let mut all = notes(area, order);
        let found = all.next().map(|note| (note.name, note.kind, note.content));
        holds(&rt, &area, found == first);
        same(&rt, &area, &all.next().is_some(), &more);
        holds(&rt, &area, all.next().is_none());
    }
}

const ELF_BYTES: [(usize, &[u8]); 15] = [
    (0, b"\x7fELF\x02\x01\x01"),
    (16, b"\x02\0\x3e\0\x01"),
    (32, b"\x40\0\0\0\0\0\0\0\xb0"),
    (52, b"\x40\0\x38\0\x02\0\x40\0\x03"),
    (64, b"\x01"),
    (120, b"\x04\0\0\0\x04\0\0\0\xac\x01"),
    (152, b"\x14"),
    (244, b"\x07"),
    (264, b"\x70\x01\0\0\0\0\0\0\x28"),
    (308, b"\x07"),
    (328, b"\x98\x01\0\0\0\0\0\0\x14"),
    (368, b"\x04\0\0\0\x04\0\0\0\x01\0\0\0GNU"),
    (388, b"\x04\0\0\0\x04\0\0\0\x03\0\0\0GNU\0\xaa\xbb\xcc\xdd"),
    (408, b"\x04\0\0\0\x04\0\0\0\x03\0\0\0GNU\0\x11\x22\x33\x44"),
    (428, b"\x04\0\0\0\x04\0\0\0\x03\0\0\0GNU\0\x55\x66\x77\x88"),
];

/// A file of 64 bits with two sections and a segment of notes. The first section has two notes, with a build ID in
/// the second of them.
fn elf() -> [u8; 448] {
    let mut file = [0; 448];
    put_all(&mut file, &ELF_BYTES);
    file
}

const FIRST: Option<&[u8]> = Some(b"\xaa\xbb\xcc\xdd");

const SECOND: Option<&[u8]> = Some(b"\x11\x22\x33\x44");

const OF_SEGMENT: Option<&[u8]> = Some(b"\x55\x66\x77\x88");

// What is written over which bytes, and the identifier.
const BUILD_IDS: [(usize, &[u8], Option<&[u8]>); 11] = [
    (0, b"", FIRST),
    // Another type, another name, a longer name, and no descriptor.
    (396, b"\x01", SECOND),
    (400, b"GNX", SECOND),
    (388, b"\x05", SECOND),
    (392, b"\0", SECOND),
    // A shorter one, and two notes that don't fit.
    (392, b"\x02", Some(b"\xaa\xbb")),
    (392, b"\x05", SECOND),
    (372, b"\xff\xff\xff\xff", SECOND),
    // The section is no section of notes.
    (244, b"\x01", SECOND),
    // There are no sections, and then no segments either.
    (40, b"\0", OF_SEGMENT),
    (40, b"\0\0\0\0\0\0\0\0\0\0\0\0\0\0\0\0\0", None),
];

#[test]
fn build_ids(rt: HostRuntime) {
    for &(at, bytes, want) in &BUILD_IDS {
        let mut file = elf();
        assert!(rt; at < 420 && bytes.len() < 20);
        put(&mut file, at, bytes);
        let elf = ElfFile::parse(&file).expect(&rt, "the file is well formed");
        holds(&rt, &(at, bytes), elf_identity(&elf) == want);
    }
}

const BUILD_ID_OF_A_BIG_ENDIAN_FILE_OF_32_BITS_BYTES: [(usize, &[u8]); 5] = [
    (0, b"\x7fELF\x01\x02\x01"),
    (16, b"\0\x03\0\x08"),
    (28, b"\0\0\0\x34"),
    (40, b"\0\x34\0\x20\0\x01"),
    (52, b"\0\0\0\x04\0\0\0\x54"),
];

#[test]
fn build_id_of_a_big_endian_file_of_32_bits(rt: HostRuntime) {
    let mut file = [0; 104];
    put_all(&mut file, &BUILD_ID_OF_A_BIG_ENDIAN_FILE_OF_32_BITS_BYTES);
    // It passes the file's end, at which its bytes are cut.
    put(&mut file, 68, b"\xff\xff\xff\xff");
    put(
        &mut file,
        84,
        b"\0\0\0\x04\0\0\0\x03\0\0\0\x03GNU\0\xaa\xbb\xcc",
    );
    let elf = ElfFile::parse(&file).expect(&rt, "the file is well formed");
    assert!(rt; elf_identity(&elf) == Some(b"\xaa\xbb\xcc".as_slice()));
}

// What is written over which bytes, and the identifier.
const UUIDS: [(usize, &[u8], Option<&[u8]>); 4] = [
    (0, b"", Some(b"0123456789abcdef")),
    (32, b"\x2a", Some(b"ghijklmnopqrstuv")),
    (16, b"\x01\0\0\0\x18", Some(b"0123456789abcdef")),
    (16, b"\0\0\0\0\0", None),
];

#[test]
fn uuids(rt: HostRuntime) {
    for &(at, bytes, want) in &UUIDS {
        let mut file = [0; 80];
        put(&mut file, 0, b"\xcf\xfa\xed\xfe\x0c\0\0\x01");
        put(&mut file, 12, b"\x02\0\0\0\x02\0\0\0\x30");
        put(&mut file, 32, b"\x1b\0\0\0\x18\0\0\x000123456789abcdef");
        put(&mut file, 56, b"\x1b\0\0\0\x18\0\0\0ghijklmnopqrstuv");
        assert!(rt; at < 40 && bytes.len() < 20);
        put(&mut file, at, bytes);
        let macho = MachoFile::parse(&file).expect(&rt, "the file is well formed");
        holds(&rt, &(at, bytes), macho_identity(&macho) == want);
    }
}
