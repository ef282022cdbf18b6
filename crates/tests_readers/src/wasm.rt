//! Sections, functions and names of WebAssembly modules.

ghost use Rattle.std.specs.Prelude.{◌<◌, ◌^◌, length};

use crate::checks::{holds, same};
use size_core::{BadFile, Fault};
use std::alloc::Global;
use std::process::Abort;
use wasm_file::{WasmAnswer, WasmFile};

/// Three imported functions, one with a body, and a section of names that is cut short.
const MODULE: [u8; 55] =
    *b"\0asm\x01\0\0\0\x01\x04\x01\x60\0\0\x02\x13\x03\x01m\x01f\0\0\x01m\x01f\0\0\x01m\x01f\0\0\x03\x02\x01\0\x0a\x04\x01\x02\0\x0b\0\x08\x04name\x01\x05\x01";

/// Imports of each kind, two of them functions, at 11, 17, 26, 33 and 40; three bodies at 49, 52 and 55, and a byte
/// after them; the name `imp` of function 0, `a` and `b` of function 2, an empty name and `c` of function 3. The
/// names are between two other subsections. The last subsection is cut short.
const NAMED: [u8; 92] =
    *b"\0asm\x01\0\0\0\x02\x24\x05\x01m\x01f\0\0\x01m\x01t\x01\x70\x01\x01\x02\x01m\x01m\x02\0\x01\x01m\x01g\x03\x7f\0\x01m\x01h\0\0\x0a\x0b\x03\x02\0\x0b\x02\0\x0b\x02\0\x0b\xff\0\x1f\x04name\0\x02\x01m\x01\x11\x05\0\x03imp\x02\x01a\x02\x01b\x03\0\x03\x01c\x02\x7f\0";

/// The fault of opening a module.
fn fault_of(file: &[u8]) -> Option<BadFile>
    requires { length file.now < 2 ^ 32 }
{
    WasmFile::parse(file).err()
}

fn bad(fault: Fault, offset: u64) -> Option<BadFile> {
    Some(BadFile { fault, offset })
}

// Modules, and their faults with the offsets.
const MODULE_FAULTS: [(&[u8], Option<(Fault, u64)>); 7] = [
    (b"\0asm\x01\0\0\0", None),
    (b"\0asm\x02\0\0\0", Some((Fault::BadHeader, 4))),
    (b"\0asm\x01\0\0\x01", Some((Fault::BadHeader, 4))),
    (
        b"\0asm\x01\0\0\0\x01\xff\xff\xff\xff\x1f",
        Some((Fault::BadLeb, 8)),
    ),
    (b"\0asm\x01\0\0\0\x01\x80", Some((Fault::Truncated, 8))),
    // Five bytes may spell a size, and six may not.
    (b"\0asm\x01\0\0\0\x63\x81\x80\x80\x80\0\x07", None),
    (
        b"\0asm\x01\0\0\0\x63\x81\x80\x80\x80\x80\0\x07",
        Some((Fault::BadLeb, 8)),
    ),
];

#[test]
fn faults_of_modules(rt: HostRuntime) {
    for &(file, want) in &MODULE_FAULTS {
        assert!(rt; file.len() < 100);
        let want = want.map(|(fault, offset)| BadFile { fault, offset });
        same(&rt, &file, &fault_of(file), &want);
    }
}

/// The fault of the first `n` bytes of the module with three imports.
fn fault_of_cut(n: usize) -> Option<BadFile> {
    match n {
        0..8 => bad(Fault::Truncated, 4),
        8 | 14 | 35 | 39 | 45 | 55 => None,
        9 | 15 | 36 | 40 | 46 => bad(Fault::Truncated, n as u64 - 1),
        10..14 => bad(Fault::SectionPastEnd, 8),
        16..35 => bad(Fault::SectionPastEnd, 14),
        37..39 => bad(Fault::SectionPastEnd, 35),
        41..45 => bad(Fault::SectionPastEnd, 39),
        _ => bad(Fault::SectionPastEnd, 45),
    }
}

#[test]
fn faults_of_cut_modules(rt: HostRuntime) {
    for n in 0..56 {
        same(&rt, &n, &fault_of(&MODULE[..n]), &fault_of_cut(n));
    }
}

/// The sections of the module: the id, the offset, the length, and the first byte of the contents.
const IN_ORDER: [(u8, u64, u64, u8); 5] = [
    (1, 8, 6, 0x01),
    (2, 14, 21, 0x03),
    (3, 35, 4, 0x01),
    (10, 39, 6, 0x01),
    (0, 45, 10, 0x04),
];

#[test]
fn sections_come_in_order(rt: HostRuntime) {
    let module = WasmFile::parse(&MODULE).expect(&rt, "a sound file");
    assert!(rt; module.bytes() == MODULE.as_slice());
    let mut sections = module.sections();
    for &(id, place, len, first) in &IN_ORDER {
        let section = sections.next().expect(&rt, "a section");
        let header = (section.id, section.place, section.len);
        same(&rt, &place, &header, &(id, place, len));
        same(&rt, &place, &section.name.is_some(), &(id == 0));
        let mut contents = section.contents;
        same(&rt, &place, &contents.place(), &(place + 2));
        same(&rt, &place, &contents.u8(), &Ok(first));
    }
    assert!(rt; sections.next().is_none());
}

/// The name of a module's first section. It outlives the module that was opened, and not the file's bytes.
fn first_name<'a>(file: &'a [u8]) -> Option<&'a [u8]>
    requires { length file.now < 2 ^ 32 }
{
    let module = WasmFile::parse(file).ok()?;
    module.sections().next()?.name
}

#[test]
fn names_borrow_the_file(rt: HostRuntime) {
    let name = first_name(b"\0asm\x01\0\0\0\0\x03\x02ab");
    assert!(rt; name == Some(b"ab".as_slice()));
}

/// The functions of a module have a fault at this offset, or none.
fn has_fault(rt: &impl Abort, alloc: Global, file: &[u8], offset: Option<u64>)
    requires { length file.now < 2 ^ 32 }
{
    let want = offset.map(|offset| {
        WasmAnswer::Bad(BadFile {
            fault: Fault::BadWasm,
            offset,
        })
    });
    let module = WasmFile::parse(file).expect(rt, "a sound file");
    same(rt, &file, &module.functions(alloc).err(), &want);
}

#[test]
fn faults_of_functions(rt: HostRuntime) {
    let alloc = rt.alloc();
    has_fault(&rt, alloc, &MODULE, None);
    has_fault(&rt, alloc, &NAMED, None);
    let mut many = MODULE;
    many[16] = 127;
    has_fault(&rt, alloc, &many, Some(35));
    let mut unknown = NAMED;
    unknown[30] = 4;
    has_fault(&rt, alloc, &unknown, Some(26));
    let mut long = NAMED;
    long[55] = 127;
    has_fault(&rt, alloc, &long, Some(55));
    unknown[55] = 127;
    has_fault(&rt, alloc, &unknown, Some(26));
    has_fault(&rt, alloc, b"\0asm\x01\0\0\0\x02\0", Some(10));
    has_fault(&rt, alloc, b"\0asm\x01\0\0\0\x0a\0", Some(10));
}

/// A module, how many functions it has, the number of one among them, its index, its offset and its name.
type Function<'a> = (&'a [u8], usize, usize, u32, u64, Option<&'a [u8]>);

const FUNCTIONS: [Function<'static>; 4] = [
    (&MODULE, 1, 0, 3, 42, None),
    (&NAMED, 3, 0, 2, 49, Some(b"a")),
    (&NAMED, 3, 1, 3, 52, None),
    (&NAMED, 3, 2, 4, 55, None),
];

#[test]
fn functions_have_indices_and_names(rt: HostRuntime) {
    for &(file, count, j, index, place, name) in &FUNCTIONS {
        assert!(rt; file.len() < 100);
        let module = WasmFile::parse(file).expect(&rt, "a sound file");
        let functions = module.functions(rt.alloc()).expect(&rt, "functions");
        same(&rt, &index, &functions.len(), &count);
        assert!(rt; j < functions.len());
        let function = functions[j];
        let range = (function.index, function.place, function.len);
        same(&rt, &index, &range, &(index, place, 3));
        holds(&rt, &index, function.name == name);
    }
}

/// The function of a module with this index has this name, or none.
fn has_name(rt: &impl Abort, file: &[u8], index: u32, want: Option<&[u8]>)
    requires { length file.now < 2 ^ 32 }
{
    let module = WasmFile::parse(file).expect(rt, "a sound file");
    holds(rt, &index, module.name_of(index) == want);
}

/// The names of functions by their indices.
const NAMES: [(u32, Option<&[u8]>); 4] = [(0, Some(b"imp")), (1, None), (2, Some(b"a")), (3, None)];

#[test]
fn names_of_functions(rt: HostRuntime) {
    for &(index, want) in &NAMES {
        has_name(&rt, &NAMED, index, want);
    }
    // If the count of names is one too large, no function has a name.
    let mut more = NAMED;
    more[72] = 6;
    has_name(&rt, &more, 0, None);
}
