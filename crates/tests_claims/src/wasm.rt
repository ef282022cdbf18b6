//! The claims of WebAssembly modules: sections, headers and functions.

ghost use Rattle.std.specs.Prelude.{◌<◌, length};

use claim_sheet::{ClaimSheet, Stop, Wrap};
use size_core::{BadFile, Claim, Fault, LabelPool, Side, Span};
use std::alloc::Global;
use std::process::Abort;
use wasm_claims::{add_headers, add_sections, add_symbols};
use wasm_file::WasmFile;

/// A type, three imported functions, and one function with a body and without a name, since the section of names is
/// cut short.
const MODULE: &[u8] =
    b"\0asm\x01\0\0\0\x01\x04\x01\x60\0\0\x02\x13\x03\x01m\x01f\0\0\x01m\x01f\0\0\x01m\x01f\0\0\
\x03\x02\x01\0\x0a\x04\x01\x02\0\x0b\0\x08\x04name\x01\x05\x01";

/// A custom section whose name passes its contents, a section of an id that no standard names, and one that names
/// function 0.
const NAMED: &[u8] =
    b"\0asm\x01\0\0\0\0\x01\x05\x0d\0\x0a\x04\x01\x02\0\x0b\0\x0c\x04name\x01\x05\x01\0\x02hi";

/// A section of each other id, without contents.
const OTHERS: &[u8] = b"\0asm\x01\0\0\0\x04\0\x05\0\x06\0\x07\0\x08\0\x09\0\x0b\0\x0c\0";

fn is_on(claim: &Claim, start: u64, len: u64) -> bool {
    let bytes = Span {
        space: 0,
        start,
        len,
    };
    claim.side == Side::File && claim.file == bytes && claim.vm.len == 0
}

/// The module's groups make these claims: where each begins, its length and its label.
fn assert_claims(rt: &impl Abort, alloc: Global, bytes: &[u8], wanted: &[(u64, u64, &[u8])])
    requires { length bytes.now < 100 }
{
    let file = WasmFile::parse(bytes).expect(rt, "a sound file");
    let mut pool = LabelPool::new(alloc);
    let mut sheet = ClaimSheet::begin(alloc, &mut pool, 100);
    add_symbols(alloc, &file, &mut sheet).expect(rt, "symbols");
    add_sections(alloc, &file, Wrap::Section, &mut sheet).expect(rt, "sections");
    add_headers(&file, &mut sheet).expect(rt, "headers");
    let made = sheet.finish(&mut pool).expect(rt, "within the limit");
    assert_eq!(rt; made.len(), wanted.len());
    for (claim, (start, len, label)) in made.iter().zip(wanted) {
        assert!(rt; is_on(claim, *start, *len), "{claim:?}");
        assert!(rt; claim.label < pool.len());
        assert!(rt; pool.get(claim.label) == *label, "{claim:?}");
    }
}

const WHOLE: [(u64, u64, &[u8]); 7] = [
    (42, 3, b"func[3]"),
    (8, 6, b"[section Type]"),
    (14, 21, b"[section Import]"),
    (35, 4, b"[section Function]"),
    (39, 6, b"[section Code]"),
    (45, 10, b"[section name]"),
    (0, 8, b"[WASM Header]"),
];

const NAMED_CLAIMS: [(u64, u64, &[u8]); 6] = [
    (16, 3, b"hi"),
    (8, 3, b"[section [Custom]]"),
    (11, 2, b"[section [Section #13]]"),
    (13, 6, b"[section Code]"),
    (19, 14, b"[section name]"),
    (0, 8, b"[WASM Header]"),
];

const OTHER_CLAIMS: [(u64, u64, &[u8]); 9] = [
    (8, 2, b"[section Table]"),
    (10, 2, b"[section Memory]"),
    (12, 2, b"[section Global]"),
    (14, 2, b"[section Export]"),
    (16, 2, b"[section Start]"),
    (18, 2, b"[section Element]"),
    (20, 2, b"[section Data]"),
    (22, 2, b"[section DataCount]"),
    (0, 8, b"[WASM Header]"),
];

#[test]
fn groups_of_modules(rt: HostRuntime) {
    let alloc = rt.alloc();
    assert_claims(&rt, alloc, MODULE, &WHOLE);
    assert_claims(&rt, alloc, NAMED, &NAMED_CLAIMS);
    assert_claims(&rt, alloc, OTHERS, &OTHER_CLAIMS);
}

#[test]
fn the_imports_fault_first(rt: HostRuntime) {
    let alloc = rt.alloc();
    // One import of an unknown kind, and a body that passes its section.
    let bytes = b"\0asm\x01\0\0\0\x02\x05\x01\x01m\x01f\x0a\x02\x01\x7f";
    let file = WasmFile::parse(bytes).expect(&rt, "a sound file");
    let mut pool = LabelPool::new(alloc);
    let mut sheet = ClaimSheet::begin(alloc, &mut pool, 100);
    let bad = BadFile {
        fault: Fault::BadWasm,
        offset: 11,
    };
    assert_eq!(rt;
        add_symbols(alloc, &file, &mut sheet).err(),
        Some(Stop::Bad(bad))
    );
}
