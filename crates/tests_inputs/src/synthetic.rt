//! The bytes of synthetic files.

use elf_synth::synth;

// How many functions, the file's length, an offset, and the bytes at it.
const BYTES: [(u32, usize, usize, &[u8]); 9] = [
    (
        0,
        498,
        0,
        b"\x7fELF\x02\x01\x01\0\0\0\0\0\0\0\0\0\x02\0\x3e\0\x01\0\0\0",
    ),
    (
        0,
        498,
        24,
        b"\x78\0\x40\0\0\0\0\0\x40\0\0\0\0\0\0\0\xb2\0\0\0\0\0\0\0",
    ),
    (0, 498, 144, b"\0\0.text\0.symtab\0.strtab\0.shstrtab\0\0"),
    (
        2,
        596,
        40,
        b"\x14\x01\0\0\0\0\0\0\0\0\0\0\x40\0\x38\0\x01\0\x40\0\x05\0\x04\0\x01\0\0\0\x05\0\0\0",
    ),
    (
        2,
        596,
        96,
        b"\x98\0\0\0\0\0\0\0\x98\0\0\0\0\0\0\0\0\x10\0\0\0\0\0\0\0\x01\x02\x03",
    ),
    (
        2,
        596,
        176,
        b"\x0a\0\0\0\x12\0\x01\0\x88\0\x40\0\0\0\0\0\x18\0\0\0\0\0\0\0",
    ),
    (
        2,
        596,
        200,
        b"\x01\0\0\0\x12\0\x01\0\x78\0\x40\0\0\0\0\0\x10\0\0\0\0\0\0\0",
    ),
    (2, 596, 224, b"\0f0000001\0f0000002\0\0.text\0"),
    (17, 1331, 374, b"\xfe\xff\0\x01"),
];

#[test]
fn bytes_of_small_files(rt: HostRuntime) {
    for &(n, len, at, bytes) in &BYTES {
        let file = synth(rt.alloc(), n).expect(&rt, "memory");
        assert_eq!(rt; file.len(), len, "the length for {n}");
        let found = file.as_slice().get(at..at + bytes.len());
        assert!(rt; found == Some(bytes), "offset {at} for {n}");
    }
}
