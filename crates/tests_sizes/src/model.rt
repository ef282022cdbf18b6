//! The plain definition of a size, on worked files.

use crate::checks::{holds, same};
use size_core::{Bytes, Claim, List, Load, NoMemory, Path, Side, Span};
use size_model::{
    FileView, LabelTest, LabelledClaim, NumberedSource, SourceView, addr, address_label,
    address_path, counts_for, cut_has_labels, cut_is_unique, each_byte_counts_once, file_size_in,
    label_of_address, label_of_offset, mapped, offset_label, offset_path, passes, place,
    range_adds_two_places, rewriting_is_by_label, sizes_add_up, totals_are_whole,
    twice_covered_counts_once, vm_size_in,
};
use std::alloc::Global;
use std::process::Abort;

// A claim's side, the start and length of its VM span and of its file span, and its label.
type Row<'a> = (Side, (u64, u64), (u64, u64), &'a str);

const NONE: (u64, u64) = (0, 0);

fn span((start, len): (u64, u64)) -> Span {
    Span {
        space: 0,
        start,
        len,
    }
}

fn load(vaddr: u64, memsz: u64, offset: u64, filesz: u64) -> Load {
    Load {
        space: 0,
        vaddr,
        memsz,
        offset,
        filesz,
    }
}

fn source(alloc: Global, rows: &[Row<'_>]) -> Result<SourceView, NoMemory> {
    let mut claims = List::new(alloc);
    for &(side, vm, file, label) in rows {
        claims.push(LabelledClaim {
            side,
            vm: span(vm),
            file: span(file),
            label: Bytes::of(alloc, label.as_bytes())?,
        })?;
    }
    Ok(SourceView {
        claims,
        unmapped: Bytes::of(alloc, b"[Unmapped]")?,
    })
}

// A load: its address and size in memory, its offset, and its size in the file.
type LoadRow = (u64, u64, u64, u64);

// A path, its VM size and its file size.
type Sizes<'a> = (&'a [&'a str], u128, u64);

// A file: its length, its loads, the claims of each data source, and the sizes of paths.
struct Example<'a> {
    len: u64,
    loads: &'a [LoadRow],
    sources: &'a [&'a [Row<'a>]],
    sizes: &'a [Sizes<'a>],
}

fn view(alloc: Global, example: &Example<'_>) -> Result<FileView, NoMemory> {
    let mut file = FileView {
        len: example.len,
        loads: List::new(alloc),
        sources: List::new(alloc),
    };
    for &(vaddr, memsz, offset, filesz) in example.loads {
        file.loads.push(load(vaddr, memsz, offset, filesz))?;
    }
    for rows in example.sources {
        file.sources.push(source(alloc, rows)?)?;
    }
    Ok(file)
}

// Labels with a bracket at the front.
struct Bracketed;

impl LabelTest for Bracketed {
    ghost use Rattle.std.specs.Prelude.{◌∷◌, [], nat_eq};
    ghost use Rattle.std.specs.List.{starts_with};

    ghost holds = { λ _ label. starts_with nat_eq label (91 ∷ []) };

    fn holds(&self, label: &[u8]) -> bool {
        label.starts_with(b"[")
    }
}

fn path_of(alloc: Global, labels: &[&str]) -> Result<Path, NoMemory> {
    let mut path = Path::new(alloc);
    for label in labels {
        path.push(Bytes::of(alloc, label.as_bytes())?)?;
    }
    Ok(path)
}

// The first path whose sizes differ.
fn first_other<'a>(
    alloc: Global,
    filter: Option<&Bracketed>,
    file: &FileView,
    sizes: &'a [Sizes<'a>],
) -> Result<Option<&'a Sizes<'a>>, NoMemory> {
    for row in sizes {
        let prefix = path_of(alloc, row.0)?;
        let vm = vm_size_in(alloc, filter, &prefix, file)?;
        let file = file_size_in(alloc, filter, &prefix, file)?;
        if vm != row.1 || file != row.2 {
            return Ok(Some(row));
        }
    }
    Ok(None)
}

// The paths of a file have these sizes.
fn has_sizes(rt: &impl Abort, alloc: Global, example: &Example<'_>) {
    let file = view(alloc, example).expect(rt, "memory");
    let other = first_other(alloc, None, &file, example.sizes).expect(rt, "memory");
    assert!(rt; other.is_none(), "{other:?}");
}

// One load of the first 136 bytes, a section of code, and a section table at 160.
const SECTIONS: [Row<'static>; 6] = [
    (Side::Both, (0x400078, 16), (120, 16), ".text"),
    (Side::File, NONE, (136, 17), ".shstrtab"),
    (Side::File, NONE, (0, 64), "[ELF Header]"),
    (Side::File, NONE, (64, 56), "[ELF Program Headers]"),
    (Side::File, NONE, (160, 192), "[ELF Section Headers]"),
    (Side::Both, (0x400000, 136), (0, 136), "[LOAD #0 [RX]]"),
];

const SEGMENTS: [Row<'static>; 4] = [
    (Side::Both, (0x400000, 136), (0, 136), "LOAD #0 [RX]"),
    (Side::File, NONE, (0, 64), "[ELF Header]"),
    (Side::File, NONE, (64, 56), "[ELF Program Headers]"),
    (Side::File, NONE, (160, 192), "[ELF Section Headers]"),
];

const PLAIN: Example<'static> = Example {
    len: 352,
    loads: &[(0x400000, 136, 0, 136)],
    sources: &[&SECTIONS],
    sizes: &[
        (&[], 136, 352),
        (&["[ELF Section Headers]"], 0, 192),
        (&["[ELF Header]"], 64, 64),
        (&["[ELF Program Headers]"], 56, 56),
        (&[".shstrtab"], 0, 17),
        (&[".text"], 16, 16),
        (&["[Unmapped]"], 0, 7),
        (&["[LOAD #0 [RX]]"], 0, 0),
    ],
};

#[test]
fn plain_file(rt: HostRuntime) {
    has_sizes(&rt, rt.alloc(), &PLAIN);
}

const BY_SEGMENTS: Example<'static> = Example {
    len: 352,
    loads: &[(0x400000, 136, 0, 136)],
    sources: &[&SEGMENTS, &SECTIONS],
    sizes: &[
        (&["LOAD #0 [RX]"], 136, 136),
        (&["LOAD #0 [RX]", "[ELF Header]"], 64, 64),
        (&["LOAD #0 [RX]", "[ELF Program Headers]"], 56, 56),
        (&["LOAD #0 [RX]", ".text"], 16, 16),
        (&["[ELF Section Headers]", "[ELF Section Headers]"], 0, 192),
        (&["[Unmapped]", ".shstrtab"], 0, 17),
        (&["[Unmapped]", "[Unmapped]"], 0, 7),
    ],
};

// The sizes of the same file if only labels with a bracket count.
const BRACKETED: [Sizes<'static>; 3] = [
    (&[], 120, 336),
    (&["LOAD #0 [RX]"], 120, 120),
    (&["[Unmapped]", ".shstrtab"], 0, 17),
];

#[test]
fn plain_file_by_two_data_sources(rt: HostRuntime) {
    let alloc = rt.alloc();
    has_sizes(&rt, alloc, &BY_SEGMENTS);
    let file = view(alloc, &BY_SEGMENTS).expect(&rt, "memory");
    let other = first_other(alloc, Some(&Bracketed), &file, &BRACKETED).expect(&rt, "memory");
    assert!(rt; other.is_none(), "with a filter: {other:?}");
}

// A section of memory alone that has another section's addresses claims nothing.
const THREAD_LOCAL: Example<'static> = Example {
    len: 416,
    loads: &[(0x400000, 128, 0, 128)],
    sources: &[&[
        (Side::Both, (0x400078, 8), (120, 8), ".init_array"),
        (Side::File, NONE, (128, 29), ".shstrtab"),
        (Side::File, NONE, (0, 64), "[ELF Header]"),
        (Side::File, NONE, (64, 56), "[ELF Program Headers]"),
        (Side::File, NONE, (160, 256), "[ELF Section Headers]"),
        (Side::Both, (0x400000, 128), (0, 128), "[LOAD #0 [RX]]"),
    ]],
    sizes: &[
        (&[], 128, 416),
        (&["[ELF Section Headers]"], 0, 256),
        (&["[ELF Header]"], 64, 64),
        (&["[ELF Program Headers]"], 56, 56),
        (&[".shstrtab"], 0, 29),
        (&[".init_array"], 8, 8),
        (&["[Unmapped]"], 0, 3),
    ],
};

#[test]
fn section_of_memory_alone_claims_nothing(rt: HostRuntime) {
    has_sizes(&rt, rt.alloc(), &THREAD_LOCAL);
}

// The headers are loaded twice, and are in the file once.
const LOADED_TWICE: Example<'static> = Example {
    len: 408,
    loads: &[(0x400000, 192, 0, 192), (0x600000, 192, 0, 192)],
    sources: &[
        &[
            (Side::Both, (0x400000, 192), (0, 192), "LOAD #0 [RX]"),
            (Side::Both, (0x600000, 192), (0, 192), "LOAD #1 [R]"),
            (Side::File, NONE, (216, 192), "[ELF Section Headers]"),
        ],
        &[
            (Side::Both, (0x4000b0, 16), (176, 16), ".text"),
            (Side::File, NONE, (192, 17), ".shstrtab"),
            (Side::File, NONE, (0, 64), "[ELF Header]"),
            (Side::File, NONE, (64, 112), "[ELF Program Headers]"),
            (Side::File, NONE, (216, 192), "[ELF Section Headers]"),
            (Side::Both, (0x400000, 192), (0, 192), "[LOAD #0 [RX]]"),
            (Side::Both, (0x600000, 192), (0, 192), "[LOAD #1 [R]]"),
        ],
    ],
    sizes: &[
        (&[], 384, 408),
        (&["LOAD #0 [RX]"], 192, 192),
        (&["LOAD #1 [R]"], 192, 0),
        (&["[ELF Section Headers]"], 0, 192),
        (&["[Unmapped]"], 0, 24),
        (&["LOAD #0 [RX]", "[ELF Header]"], 64, 64),
        (&["LOAD #1 [R]", "[ELF Header]"], 64, 0),
    ],
};

#[test]
fn two_loads_over_the_same_offsets(rt: HostRuntime) {
    has_sizes(&rt, rt.alloc(), &LOADED_TWICE);
}

// Symbols claim addresses, and the bytes that are loaded there.
const TWO_SYMBOLS: Example<'static> = Example {
    len: 352,
    loads: &[(0x400000, 136, 0, 136)],
    sources: &[&[
        (Side::Vm, (0x400078, 8), NONE, "a"),
        (Side::Vm, (0x400078, 12), NONE, "b"),
        (Side::Both, (0x400078, 16), (120, 16), "[section .text]"),
    ]],
    sizes: &[
        (&["a"], 8, 8),
        (&["b"], 4, 4),
        (&["[section .text]"], 4, 4),
        (&["[Unmapped]"], 120, 336),
    ],
};

#[test]
fn symbols_claim_the_bytes_that_are_loaded(rt: HostRuntime) {
    has_sizes(&rt, rt.alloc(), &TWO_SYMBOLS);
}

// A WebAssembly module has no mapped addresses.
const MODULE: Example<'static> = Example {
    len: 55,
    loads: &[],
    sources: &[&[
        (Side::File, NONE, (42, 3), "func[3]"),
        (Side::File, NONE, (8, 6), "[section Type]"),
        (Side::File, NONE, (14, 21), "[section Import]"),
        (Side::File, NONE, (35, 4), "[section Function]"),
        (Side::File, NONE, (39, 6), "[section Code]"),
        (Side::File, NONE, (45, 10), "[section name]"),
        (Side::File, NONE, (0, 8), "[WASM Header]"),
    ]],
    sizes: &[
        (&[], 0, 55),
        (&["[section Import]"], 0, 21),
        (&["[section name]"], 0, 10),
        (&["[WASM Header]"], 0, 8),
        (&["[section Type]"], 0, 6),
        (&["[section Function]"], 0, 4),
        (&["[section Code]"], 0, 3),
        (&["func[3]"], 0, 3),
    ],
};

#[test]
fn module_has_no_addresses(rt: HostRuntime) {
    has_sizes(&rt, rt.alloc(), &MODULE);
}

// A section of memory alone that is too large to be walked.
const LARGE_BSS: Example<'static> = Example {
    len: 416,
    loads: &[(0x400000, 136 + (1 << 40), 0, 136)],
    sources: &[&[
        (Side::Both, (0x400078, 16), (120, 16), ".text"),
        (Side::Vm, (0x400088, 1 << 40), NONE, ".bss"),
    ]],
    sizes: &[],
};

const LARGE_BSS_END: u64 = 0x400088 + (1 << 40);

// Addresses at the edges of its sections, their labels, and whether they are mapped.
const EDGE_ADDRESSES: [(u64, &str, bool); 6] = [
    (0x3fffff, "[Unmapped]", false),
    (0x400077, "[Unmapped]", true),
    (0x400087, ".text", true),
    (0x400088, ".bss", true),
    (LARGE_BSS_END - 1, ".bss", true),
    (LARGE_BSS_END, "[Unmapped]", false),
];

const EDGE_OFFSETS: [(u64, &str); 3] = [(119, "[Unmapped]"), (120, ".text"), (136, "[Unmapped]")];

#[test]
fn edges_of_a_large_section(rt: HostRuntime) {
    let file = view(rt.alloc(), &LARGE_BSS).expect(&rt, "memory");
    assert!(rt; file.sources.len() > 0);
    let sections = file.sources.get(0);
    for &(address, label, is_mapped) in &EDGE_ADDRESSES {
        let found = label_of_address(&file, sections, 0, address);
        let is_here = mapped(&file.loads, 0, address);
        holds(&rt, &(label, address), found.as_slice() == label.as_bytes());
        same(&rt, &address, &is_here, &is_mapped);
    }
    for &(offset, label) in &EDGE_OFFSETS {
        let found = label_of_offset(&file, sections, offset);
        holds(&rt, &(label, offset), found.as_slice() == label.as_bytes());
    }
}

const LAST_PAGE: u64 = u64::MAX - 4095;

// The last 4,096 addresses, a load that the file's end cuts, and two loads over the same addresses.
const EDGES: Example<'static> = Example {
    len: 100,
    loads: &[
        (LAST_PAGE, 4096, 90, 200),
        (0x1000, 16, 0, 8),
        (0x1004, 16, 50, 16),
    ],
    sources: &[&[(Side::File, NONE, (50, 50), "tail")]],
    sizes: &[(&[], 4116, 100), (&["tail"], 14, 50)],
};

// A space and an address, and the offset at which it is loaded.
const EDGE_PLACES: [(u32, u64, Option<u64>); 9] = [
    (0, LAST_PAGE, Some(90)),
    (0, LAST_PAGE + 9, Some(99)),
    (0, LAST_PAGE + 10, None),
    (0, u64::MAX, None),
    (0, 0x1007, Some(7)),
    (0, 0x1008, None),
    (0, 0x1010, Some(62)),
    (0, 0x1014, None),
    (1, LAST_PAGE, None),
];

// An offset, and the space and the address at which it is loaded.
const EDGE_LOADED: [(u64, Option<(u32, u128)>); 4] = [
    (99, Some((0, LAST_PAGE as u128 + 9))),
    (50, Some((0, 0x1004))),
    (8, None),
    (100, None),
];

#[test]
fn edges_of_loads(rt: HostRuntime) {
    let alloc = rt.alloc();
    let file = view(alloc, &EDGES).expect(&rt, "memory");
    for &(space, address, offset) in &EDGE_PLACES {
        let found = place(100, &file.loads, space, address);
        same(&rt, &address, &found, &offset);
    }
    for &(offset, address) in &EDGE_LOADED {
        let found = addr(100, &file.loads, offset);
        same(&rt, &offset, &found, &address);
    }
    has_sizes(&rt, alloc, &EDGES);
}

const NUMBERED: [Claim; 2] = [
    Claim {
        side: Side::Vm,
        vm: Span {
            space: 0,
            start: 0x400078,
            len: 8,
        },
        file: Span {
            space: 0,
            start: 0,
            len: 0,
        },
        label: 1,
    },
    Claim {
        side: Side::File,
        vm: Span {
            space: 0,
            start: 0,
            len: 0,
        },
        file: Span {
            space: 0,
            start: 120,
            len: 12,
        },
        label: 2,
    },
];

#[test]
fn labels_by_number(rt: HostRuntime) {
    let mut loads = List::new(rt.alloc());
    loads
        .push(load(0x400000, 136, 0, 136))
        .expect(&rt, "memory");
    let source = NumberedSource {
        claims: &NUMBERED,
        unmapped: 0,
    };
    for (offset, label) in [(119, 0), (120, 1), (127, 1), (128, 2), (132, 0)] {
        let found = offset_label(352, &loads, source, offset);
        same(&rt, &offset, &found, &label);
        let address = 0x400000 + offset;
        let found = address_label(352, &loads, source, 0, address);
        same(&rt, &address, &found, &label);
    }
}

// What is proved of each file.
fn laws() {
    cut_is_unique();
    cut_has_labels();
    range_adds_two_places();
    each_byte_counts_once();
    sizes_add_up();
    totals_are_whole();
    twice_covered_counts_once();
    rewriting_is_by_label();
}

// A path of two labels without a bracket, which counts for `wanted`.
fn is_counted(rt: &impl Abort, wanted: &Path, path: &Path) {
    same(rt, &"labels", &path.len(), &2);
    holds(rt, &"counts", counts_for::<Bracketed>(None, wanted, path));
    holds(rt, &"has no bracket", !passes(Some(&Bracketed), path));
}

#[test]
fn paths_of_single_bytes(rt: HostRuntime) {
    laws();
    let alloc = rt.alloc();
    let file = view(alloc, &BY_SEGMENTS).expect(&rt, "memory");
    let wanted = path_of(alloc, &["LOAD #0 [RX]", ".text"]).expect(&rt, "memory");
    let by_offset = offset_path(alloc, &file, 120).expect(&rt, "memory");
    is_counted(&rt, &wanted, &by_offset);
    let by_address = address_path(alloc, &file, 0, 0x400078).expect(&rt, "memory");
    is_counted(&rt, &wanted, &by_address);
}
