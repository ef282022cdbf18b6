//! Headers, commands, segments, sections and symbols of Mach-O files.

ghost use Rattle.std.specs.Prelude.{◌≡◌, ◌+◌, ◌≤◌, length};

use byte_cursor::{ByClass, Encoding, Order};
use macho_file::{LinkEdit, MachoFile, MachoSection, MachoSegment, SpanAnswer};
use sample_files::{put, put_all};
use size_core::{BadFile, Fault};
use std::alloc::Global;
use std::process::Abort;

const PROGRAM_BYTES: [(usize, &[u8]); 16] = [
    (
        0,
        b"\xcf\xfa\xed\xfe\x0c\0\0\x01\0\0\0\0\x02\0\0\0\x04\0\0\0\x40\x01",
    ),
    (32, b"\x19\0\0\0\x48\0\0\0__PAGEZERO"),
    (68, b"\x01"),
    (104, b"\x19\0\0\0\x98\0\0\0__TEXT"),
    (128, b"\0\0\0\0\x01\0\0\0\0\x10"),
    (153, b"\x10\0\0\0\0\0\0\x05\0\0\0\x05\0\0\0\x01"),
    (176, b"__text\0\0\0\0\0\0\0\0\0\0__TEXT"),
    (208, b"\0\x08\0\0\x01\0\0\0\x10\0\0\0\0\0\0\0\0\x08"),
    (256, b"\x19\0\0\0\x48\0\0\0__LINKEDIT"),
    (280, b"\0\x10\0\0\x01\0\0\0\0\x10"),
    (296, b"\0\x10\0\0\0\0\0\0\x38\0\0\0\0\0\0\0\x01\0\0\0\x01"),
    (
        328,
        b"\x02\0\0\0\x18\0\0\0\0\x10\0\0\x03\0\0\0\x30\x10\0\0\x08",
    ),
    (4100, b"\x24"),
    (4112, b"\x01\0\0\0\x0f\x01\0\0\0\x08\0\0\x01"),
    (4128, b"\x04\0\0\0\x0f\x01\0\0\x0c\x08\0\0\x01"),
    (4144, b"\0_a\0_b"),
];

/// A program of 64 bits: no access to the first 4 GiB, code of 16 bytes at 2048, and three symbols at 4096. The first
/// symbol is for a debugger.
fn program() -> [u8; 4152] {
    let mut file = [0; 4152];
    put_all(&mut file, &PROGRAM_BYTES);
    file
}

const ALL_ONES: &[u8] = b"\xff\xff\xff\xff\xff\xff\xff\xff";

/// An offset and the bytes that are written there over those of a program, how many bytes of the file are kept, and
/// the fault with its offset.
const FIRST_FAULTS: [(usize, &[u8], usize, Option<(Fault, u64)>); 23] = [
    (0, b"", 4152, None),
    (0, b"", 3, Some((Fault::UnknownFormat, 0))),
    (0, b"\x7fELF", 4152, Some((Fault::UnknownFormat, 0))),
    (0, b"", 4, Some((Fault::Truncated, 0))),
    (0, b"", 31, Some((Fault::Truncated, 0))),
    (0, b"", 32, Some((Fault::TablePastEnd, 32))),
    (0, b"", 351, Some((Fault::TablePastEnd, 32))),
    (0, b"", 352, Some((Fault::SectionPastEnd, 176))),
    (0, b"", 2063, Some((Fault::SectionPastEnd, 176))),
    (0, b"", 2064, None),
    (16, b"\x05", 4152, Some((Fault::BadCommand, 352))),
    (108, b"\x07", 4152, Some((Fault::BadCommand, 104))),
    (168, b"\x02", 4152, Some((Fault::BadCommand, 104))),
    (332, b"\x17", 4152, Some((Fault::BadCommand, 328))),
    (332, b"\x19", 4152, Some((Fault::BadCommand, 328))),
    // An identifier of 16 bytes takes a command of 24.
    (328, b"\x1b", 4152, None),
    (328, b"\x1b\0\0\0\x10", 4152, Some((Fault::BadCommand, 328))),
    (56, b"\0\0\0\0\xff\xff\xff\xff", 4152, None),
    (56, ALL_ONES, 4152, Some((Fault::RangeOverflow, 32))),
    (208, ALL_ONES, 4152, Some((Fault::RangeOverflow, 176))),
    (224, b"\x28\x10", 4152, None),
    (224, b"\x29\x10", 4152, Some((Fault::SectionPastEnd, 176))),
    (224, b"\0\0", 352, None),
];

/// The fault of the first `len` bytes of the program, with these bytes written over it.
fn fault_with(rt: &impl Abort, at: usize, bytes: &[u8], len: usize) -> Option<BadFile> {
    let mut file = program();
    assert!(rt; at < 400 && bytes.len() < 50 && len <= file.len());
    put(&mut file, at, bytes);
    MachoFile::parse(&file[..len]).err()
}

#[test]
fn first_faults(rt: HostRuntime) {
    for &(at, bytes, len, want) in &FIRST_FAULTS {
        let found = fault_with(&rt, at, bytes, len);
        let want = want.map(|(fault, offset)| BadFile { fault, offset });
        assert_eq!(rt; found, want, "{bytes:?} at {at}, {len} bytes");
    }
}

/// The program has its header and its commands. The last command locates the symbols.
fn has_commands(rt: &impl Abort, macho: &MachoFile<'_>) {
    assert!(rt; macho.wide() && macho.order() == Order::Little);
    assert_eq!(rt; macho.wide(), macho.fork().wide());
    assert_eq!(rt; (macho.kind(), macho.command_count()), (2, 4));
    let symbols = macho.command(3);
    assert_eq!(rt; (symbols.place, symbols.kind, symbols.size), (328, 2, 24));
    assert_eq!(rt; macho.command_bytes(3).len(), 24);
}

/// The program has its segment of code.
fn has_text(rt: &impl Abort, text: MachoSegment<'_>) {
    assert!(rt; text.name == b"__TEXT".as_slice());
    assert_eq!(rt; (text.place, text.maxprot), (104, 5));
    assert_eq!(rt; (text.vaddr, text.memsz), (0x1_0000_0000, 4096));
    assert_eq!(rt; (text.offset, text.filesz), (0, 4096));
    assert_eq!(rt; (text.first, text.count), (0, 1));
}

/// The program has its section of code.
fn has_code(rt: &impl Abort, code: MachoSection<'_>) {
    assert!(rt; code.name == b"__text".as_slice() && code.segment == b"__TEXT".as_slice());
    assert_eq!(rt; (code.place, code.flags, code.in_file), (176, 0, true));
    assert_eq!(rt;
        (code.addr, code.size, code.offset),
        (0x1_0000_0800, 16, 2048)
    );
}

#[test]
fn tables_of_a_program(rt: HostRuntime) {
    let file = program();
    let macho = MachoFile::parse(&file).expect(&rt, "a sound file");
    has_commands(&rt, &macho);
    assert_eq!(rt; (macho.segment_count(), macho.section_count()), (3, 1));
    has_text(&rt, macho.segment(1));
    has_code(&rt, macho.section(0));
    assert_eq!(rt; macho.section_bytes(0).len(), 16);
    assert_eq!(rt; macho.bytes().len(), 4152);
}

const COMMANDS: [(u64, u32); 4] = [(32, 25), (104, 25), (256, 25), (328, 2)];

/// The program's commands, in order.
fn commands_follow(rt: &impl Abort, macho: &MachoFile<'_>) {
    let mut commands = macho.commands();
    for &(place, kind) in &COMMANDS {
        let command = commands.next().expect(rt, "a command");
        assert_eq!(rt; (command.place, command.kind), (place, kind));
    }
    assert!(rt; commands.next().is_none());
}

const SEGMENTS: [(u64, u32, u32); 3] = [(32, 0, 0), (104, 5, 0), (256, 1, 1)];

/// The program's segments, in order.
fn segments_follow(rt: &impl Abort, macho: &MachoFile<'_>) {
    let mut segments = macho.segments();
    for &(place, maxprot, first) in &SEGMENTS {
        let segment = segments.next().expect(rt, "a segment");
        assert_eq!(rt;
            (segment.place, segment.maxprot, segment.first),
            (place, maxprot, first)
        );
    }
    assert!(rt; segments.next().is_none());
}

/// The program's one section.
fn sections_follow(rt: &impl Abort, macho: &MachoFile<'_>) {
    let mut sections = macho.sections();
    assert_eq!(rt; sections.next().expect(rt, "a section").place, 176);
    assert!(rt; sections.next().is_none());
}

const PARTS: [(LinkEdit, u64, u64); 2] = [
    (LinkEdit::SymbolTable, 4096, 48),
    (LinkEdit::StringTable, 4144, 8),
];

/// The parts that the program's last command locates, in order.
fn parts_follow(rt: &impl Abort, macho: &MachoFile<'_>) {
    let mut parts = macho.link_edit_parts();
    for &(kind, offset, len) in &PARTS {
        let part = parts.next().expect(rt, "a part");
        assert_eq!(rt; (part.kind, part.offset, part.len), (kind, offset, len));
    }
    assert!(rt; parts.next().is_none());
}

#[test]
fn rows_of_a_program(rt: HostRuntime) {
    let file = program();
    let macho = MachoFile::parse(&file).expect(&rt, "a sound file");
    commands_follow(&rt, &macho);
    segments_follow(&rt, &macho);
    sections_follow(&rt, &macho);
    parts_follow(&rt, &macho);
}

/// How many symbols have spans, and the length of the first one's.
fn spans_in(alloc: Global, file: &[u8]) -> Result<(usize, u64), SpanAnswer>
    requires { length file.now ≤ 4152 }
{
    let macho = MachoFile::parse(file)?;
    let spans = macho.spans(alloc)?;
    let len = match spans.first() {
        Some(span) => span.len,
        None => 0,
    };
    Ok((spans.len(), len))
}

/// An offset and the bytes that are written there over those of a program, how many bytes of the file are kept, and
/// how many spans there are with the length of the first, or the fault with its offset.
const SPANS: [(usize, &[u8], usize, Result<(usize, u64), (Fault, u64)>); 15] = [
    (4096, b"", 4152, Ok((2, 12))),
    // Two symbols at one value, and one that is the first of the table and the last in memory.
    (4136, b"\0\x08", 4152, Ok((1, 16))),
    (4120, b"\x0f\x08", 4152, Ok((2, 1))),
    // A symbol that no other file may use.
    (4116, b"\x1e", 4152, Ok((2, 12))),
    // A symbol at its section's end, in no section, for a debugger, with another type, without a name.
    (4120, b"\x10\x08", 4152, Ok((1, 4))),
    (4117, b"\x02", 4152, Ok((1, 4))),
    (4116, b"\x2f", 4152, Ok((1, 4))),
    (4116, b"\x4e", 4152, Ok((1, 4))),
    (4116, b"\x8e", 4152, Ok((1, 4))),
    (4116, b"\x03", 4152, Ok((1, 4))),
    (4112, b"\0", 4152, Ok((1, 4))),
    (4096, b"\x08", 4152, Err((Fault::NameOutside, 4096))),
    (4128, b"\x08", 4152, Err((Fault::NameOutside, 4128))),
    (4096, b"", 4151, Err((Fault::TablePastEnd, 328))),
    (4096, b"", 4100, Err((Fault::TablePastEnd, 328))),
];

/// The spans of the first `len` bytes of the program, with these bytes written over it.
fn spans_with(
    rt: &impl Abort,
    alloc: Global,
    at: usize,
    bytes: &[u8],
    len: usize,
) -> Result<(usize, u64), SpanAnswer> {
    let mut file = program();
    assert!(rt; at < 4140 && bytes.len() < 5 && len <= file.len());
    put(&mut file, at, bytes);
    spans_in(alloc, &file[..len])
}

#[test]
fn spans_of_symbols(rt: HostRuntime) {
    for &(at, bytes, len, want) in &SPANS {
        let found = spans_with(&rt, rt.alloc(), at, bytes, len);
        let want = want.map_err(|(fault, offset)| SpanAnswer::Bad(BadFile { fault, offset }));
        assert_eq!(rt; found, want, "{bytes:?} at {at}, {len} bytes");
    }
}

#[test]
fn symbols_of_a_program(rt: HostRuntime) {
    let file = program();
    let macho = MachoFile::parse(&file).expect(&rt, "a sound file");
    let Ok(3) = macho.symbol_count() else {
        panic!(rt; "there are three symbols");
    };
    let symbol = macho.symbol(2).expect(&rt, "a symbol with a name");
    assert!(rt; symbol.name == b"_b".as_slice());
    assert_eq!(rt; (symbol.place, symbol.kind, symbol.sect), (4128, 15, 1));
    assert_eq!(rt; symbol.value, 0x1_0000_080c);
}

/// Writes a number of four bytes.
fn put_number(file: &mut [u8], at: u64, number: u32, order: Order)
    requires { at + 4 ≤ length file.old }
    ensures { length file.new ≡ length file.old }
{
    let digits = match order {
        Order::Little => number.to_le_bytes(),
        Order::Big => number.to_be_bytes(),
    };
    put(file, at as usize, &digits);
}

/// Writes a file of 80 bytes: one command of 48, whose first part has 3 bytes at 64.
fn put_command(file: &mut [u8], command: u32)
    requires { length file.old ≡ 80 }
    ensures { length file.new ≡ length file.old }
{
    put(file, 0, b"\xcf\xfa\xed\xfe");
    put(file, 16, b"\x01\0\0\0\x30");
    put_number(file, 32, command, Order::Little);
    put(file, 36, b"\x30\0\0\0\x40\0\0\0\x03");
}

/// Commands, and the first part that each locates.
const FIRST_PARTS: [(u32, LinkEdit); 10] = [
    (0x1d, LinkEdit::CodeSignature),
    (0x1e, LinkEdit::SegmentSplitInfo),
    (0x22, LinkEdit::RebaseInfo),
    (0x26, LinkEdit::FunctionStarts),
    (0x29, LinkEdit::DataInCode),
    (0x2b, LinkEdit::CodeSignDrs),
    (0x2e, LinkEdit::OptimizationHints),
    (0x8000_0022, LinkEdit::RebaseInfo),
    (0x8000_0033, LinkEdit::ExportTrie),
    (0x8000_0034, LinkEdit::ChainedFixups),
];

#[test]
fn first_part_of_each_command(rt: HostRuntime) {
    for &(command, kind) in &FIRST_PARTS {
        let mut file = [0; 80];
        put_command(&mut file, command);
        let macho = MachoFile::parse(&file).expect(&rt, "a sound file");
        let part = macho.link_edit_parts().next().expect(&rt, "a part");
        assert_eq!(rt;
            (part.kind, part.offset, part.len),
            (kind, 64, 3),
            "{command}"
        );
    }
}

/// Writes a file of 256 bytes: one segment of 4096 bytes at 65536, with no access, whose one section has the 16
/// bytes at 240, a segment's name and flags.
fn put_file(file: &mut [u8], e: Encoding, kind: u32, name: &[u8], flags: u32)
    requires file { length file.old ≡ 256 }
    requires name { length name.now ≤ 16 }
    ensures { length file.new ≡ length file.old }
{
    let order = e.order;
    put_number(file, 0, 0xfeed_face + e.wide as u32, order);
    put_number(file, 12, kind, order);
    put_number(file, 16, 1, order);
    put_number(file, 20, e.pick(ByClass(124, 152)) as u32, order);
    let place = e.pick(ByClass(28, 32));
    put_number(file, place, e.pick(ByClass(1, 25)) as u32, order);
    put_number(file, place + 4, e.pick(ByClass(124, 152)) as u32, order);
    put(file, place as usize + 8, b"0123456789abcdef");
    let low = match order {
        Order::Little => 0,
        Order::Big => 4 * e.wide as u64,
    };
    put_number(file, place + 24 + low, 65536, order);
    put_number(file, place + e.pick(ByClass(28, 32)) + low, 4096, order);
    put_number(file, place + e.pick(ByClass(48, 64)), 1, order);
    let section = place + e.pick(ByClass(56, 72));
    put(file, section as usize + 16, name);
    put_number(file, section + 32 + low, 65536, order);
    put_number(file, section + e.pick(ByClass(36, 40)) + low, 16, order);
    put_number(file, section + e.pick(ByClass(40, 48)), 240, order);
    put_number(file, section + e.pick(ByClass(56, 64)), flags, order);
}

/// The class, the order, the type, the segment that a section names, its flags, and whether its bytes are in the file.
const FILES: [(bool, Order, u32, &[u8], u32, bool); 9] = [
    (true, Order::Little, 1, b"__TEXT", 0, true),
    (true, Order::Big, 6, b"__DATA", 1, false),
    (false, Order::Little, 6, b"__DATA", 0x10c, false),
    (false, Order::Big, 1, b"__DATA", 0x12, false),
    (false, Order::Big, 2, b"__DATA", 0x11, true),
    (true, Order::Little, 2, b"__DATA", 0x81, true),
    (true, Order::Little, 10, b"__TEXT", 0, false),
    (true, Order::Little, 10, b"__DWARF", 0, true),
    (false, Order::Big, 10, b"__DWARF", 0, true),
];

/// The file has one segment, and in it one section of the segment's name.
fn has_section(rt: &impl Abort, macho: &MachoFile<'_>, name: &[u8], in_file: bool) {
    assert!(rt; macho.segment_count() == 1 && macho.section_count() == 1);
    let segment = macho.segment(0);
    assert_eq!(rt; (segment.vaddr, segment.memsz), (65536, 4096));
    assert_eq!(rt; (segment.name.len(), segment.maxprot), (16, 0));
    let section = macho.section(0);
    assert!(rt; section.segment == name);
    assert_eq!(rt;
        (section.addr, section.size, section.in_file),
        (65536, 16, in_file)
    );
    assert_eq!(rt; macho.section_bytes(0).is_empty(), !in_file);
}

#[test]
fn files_of_each_class_and_order(rt: HostRuntime) {
    for &(wide, order, kind, name, flags, in_file) in &FILES {
        let mut file = [0; 256];
        assert!(rt; name.len() <= 16);
        put_file(&mut file, Encoding { wide, order }, kind, name, flags);
        let macho = MachoFile::parse(&file).expect(&rt, "a sound file");
        assert_eq!(rt;
            (macho.wide(), macho.order(), macho.kind()),
            (wide, order, kind)
        );
        has_section(&rt, &macho, name, in_file);
    }
}

const SEGMENT_WITHOUT_ACCESS_OR_SECTIONS_BYTES: [(usize, &[u8]); 4] = [
    (0, b"\xfe\xed\xfa\xce"),
    (12, b"\0\0\0\x02\0\0\0\x01\0\0\0\x38"),
    (28, b"\0\0\0\x01\0\0\0\x38__PAGEZERO"),
    (56, b"\0\0\x10"),
];

#[test]
fn segment_without_access_or_sections(rt: HostRuntime) {
    let mut file = [0; 84];
    put_all(&mut file, &SEGMENT_WITHOUT_ACCESS_OR_SECTIONS_BYTES);
    let macho = MachoFile::parse(&file).expect(&rt, "a sound file");
    assert!(rt; macho.segment_count() == 1 && macho.section_count() == 0);
    let segment = macho.segment(0);
    assert_eq!(rt;
        (segment.memsz, segment.maxprot, segment.count),
        (4096, 0, 0)
    );
    assert_eq!(rt; macho.symbol_count().ok(), Some(0));
}
