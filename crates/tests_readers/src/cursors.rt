//! Numbers and texts that a cursor reads.

ghost use Rattle.std.specs.Prelude.{◌<◌, length};

use crate::checks::{holds, same};
use byte_cursor::{Cursor, Order};
use size_core::{BadFile, Fault};

/// A cursor over the bytes of a file from offset 1,000 on.
fn cursor<'a>(bytes: &'a [u8]) -> Cursor<'a>
    requires { length bytes.now < 100 }
{
    Cursor::new(1000, bytes)
}

const TRUNCATED: Result<u64, BadFile> = Err(BadFile {
    fault: Fault::Truncated,
    offset: 1000,
});

const BAD_LEB: Result<u64, BadFile> = Err(BadFile {
    fault: Fault::BadLeb,
    offset: 1000,
});

// The first of these are the standard's own examples.
const UNSIGNED: [(&[u8], Result<u64, BadFile>); 9] = [
    (b"\x02", Ok(2)),
    (b"\x7f", Ok(127)),
    (b"\x80\x01", Ok(128)),
    (b"\x81\x01", Ok(129)),
    (b"\xb9\x64", Ok(12857)),
    (
        b"\x82\x80\x80\x80\x80\x80\x80\x80\x80\x80\x80\x00\x55",
        Ok(2),
    ),
    (b"\xff\xff\xff\xff\xff\xff\xff\xff\xff\x01", Ok(u64::MAX)),
    (b"\x80\x80\x80\x80\x80\x80\x80\x80\x80\x02", BAD_LEB),
    (b"\x80\x80", TRUNCATED),
];

#[test]
fn leb128_numbers(rt: HostRuntime) {
    for &(bytes, want) in &UNSIGNED {
        assert!(rt; bytes.len() < 100);
        same(&rt, &bytes, &cursor(bytes).uleb(), &want);
    }
}

const BAD_SIGNED_LEB: Result<i64, BadFile> = Err(BadFile {
    fault: Fault::BadLeb,
    offset: 1000,
});

const SIGNED: [(&[u8], Result<i64, BadFile>); 10] = [
    (b"\x02", Ok(2)),
    (b"\x7e", Ok(-2)),
    (b"\xff\x00", Ok(127)),
    (b"\x81\x7f", Ok(-127)),
    (b"\x80\x01", Ok(128)),
    (b"\x80\x7f", Ok(-128)),
    (b"\x81\x01", Ok(129)),
    (b"\xff\x7e", Ok(-129)),
    (b"\x80\x80\x80\x80\x80\x80\x80\x80\x80\x7f", Ok(i64::MIN)),
    (b"\x80\x80\x80\x80\x80\x80\x80\x80\x80\x01", BAD_SIGNED_LEB),
];

#[test]
fn signed_leb128_numbers(rt: HostRuntime) {
    for &(bytes, want) in &SIGNED {
        assert!(rt; bytes.len() < 100);
        same(&rt, &bytes, &cursor(bytes).sleb(), &want);
    }
}

#[test]
fn places_are_offsets_of_the_file(rt: HostRuntime) {
    let bytes = b"\x01\x02\x03\x04\x05\x06\x07\x08\x09\x0a\x0b\x0c\x0d\x0e\x0fab\0c";
    let mut c = cursor(bytes);
    same(&rt, &"1 byte", &c.u8(), &Ok(1));
    same(&rt, &"2 bytes", &c.u16(Order::Little), &Ok(0x302));
    same(&rt, &"4 bytes", &c.u32(Order::Big), &Ok(0x4050607));
    let eight = c.u64(Order::Little);
    same(&rt, &"8 bytes", &eight, &Ok(0xf0e0d0c0b0a0908));
    holds(&rt, &"a text", c.cstr() == Ok(b"ab".as_slice()));
    same(&rt, &"after the text", &c.place(), &1018);
    let missing = Err(BadFile {
        fault: Fault::Truncated,
        offset: 1018,
    });
    holds(&rt, &"no text", c.cstr() == missing);
    same(&rt, &"a skipped byte", &c.skip(1), &Ok(()));
    same(&rt, &"at the end", &c.left(), &0);
    let mut window = c
        .sub(15, 2)
        .expect(&rt, "these two bytes lie in the window");
    same(&rt, &"the window", &window.place(), &1015);
    same(&rt, &"its first byte", &window.u8(), &Ok(b'a'));
}
