//! Reports of growth over trees that were made by hand.

ghost use Rattle.report_text.specs.Worked.{WorkedGrowths};

use crate::trees::{Kind, is_tree, joined, letters, names};
use report_text::{growth_csv, growth_text, growth_tsv};
use size_core::{Bytes, Domain, Format};
use size_growth::{GrowthKind, GrowthRow, GrowthRows, GrowthSizes, GrowthTree};
use std::alloc::Global;
use std::process::Abort;

// The definitions on worked sizes, and on a small tree.
fn worked_growths()
    ensures { WorkedGrowths }
{}

// New VM and file sizes, and base VM and file sizes.
type Four = (u64, u64, u64, u64);

fn sizes((new_vm, new_file, base_vm, base_file): Four) -> GrowthSizes {
    GrowthSizes {
        new_vm,
        new_file,
        base_vm,
        base_file,
    }
}

// A row of a tree: its level, what it is, and its sizes.
type Line<'a> = (u32, Kind<'a>, Four);

// A tree with its totals.
#[derive(Clone, Copy)]
struct Tree<'a> {
    depth: u32,
    total: Four,
    rows: &'a [Line<'a>],
}

fn kind_of(rt: &impl Abort, alloc: Global, kind: Kind<'_>) -> GrowthKind {
    match kind {
        Kind::Label(label) => GrowthKind::Label(Bytes::of(alloc, label).expect(rt, "memory")),
        Kind::Others(count) => GrowthKind::Others(count),
    }
}

fn tree_of(rt: &impl Abort, alloc: Global, tree: &Tree<'_>) -> GrowthTree {
    let mut rows = GrowthRows::new(alloc);
    for &(level, kind, four) in tree.rows {
        let row = GrowthRow {
            level,
            kind: kind_of(rt, alloc, kind),
            sizes: sizes(four),
        };
        rows.push(row).expect(rt, "memory");
    }
    GrowthTree {
        depth: tree.depth,
        sizes: sizes(tree.total),
        rows,
    }
}

// The records of a tree, whose levels form one, with as many names.
fn records(
    rt: &impl Abort,
    alloc: Global,
    tree: &GrowthTree,
    (format, domain): (Format, Domain),
    sources: &[&str],
) -> Vec<u8> {
    let mut out = Vec::new(alloc);
    let names = names(rt, alloc, sources);
    assert_eq!(rt; names.len(), tree.depth as usize);
    assert!(rt; is_tree(tree.depth, &tree.rows));
    let written = if format == Format::Csv {
        growth_csv(alloc, tree, domain, &names, &mut out)
    } else {
        growth_tsv(alloc, tree, domain, &names, &mut out)
    };
    written.expect(rt, "memory");
    out
}

// The lines of a tree.
fn lines(rt: &impl Abort, alloc: Global, tree: &GrowthTree, domain: Domain, wide: bool) -> Vec<u8> {
    let mut out = Vec::new(alloc);
    growth_text(alloc, tree, domain, wide, &mut out).expect(rt, "memory");
    out
}

const FILE_TITLE: &[u8] = b"          FILE SIZE  LABEL\n";

const SECTION_RECORDS: &[u8] = b"sections,vmsize,filesize
.bss,1099511627776,0
[ELF Section Headers],0,64
.shstrtab,0,5
[Unmapped],0,-5
";

const TOTAL: Four = (1_099_511_627_912, 416, 136, 352);

const WHOLE: Tree<'static> = Tree {
    depth: 1,
    total: TOTAL,
    rows: &[
        (0, Kind::Label(b".bss"), (1 << 40, 0, 0, 0)),
        (0, Kind::Label(b"[ELF Section Headers]"), (0, 256, 0, 192)),
        (0, Kind::Label(b".shstrtab"), (0, 22, 0, 17)),
        (0, Kind::Label(b"[Unmapped]"), (0, 2, 0, 7)),
    ],
};

const FEW: Tree<'static> = Tree {
    depth: 1,
    total: TOTAL,
    rows: &[
        (0, Kind::Label(b"[ELF Section Headers]"), (0, 256, 0, 192)),
        (0, Kind::Others(2), (1 << 40, 24, 0, 24)),
    ],
};

const FEW_LINES: [&[u8]; 5] = [
    b"kept\n",
    FILE_TITLE,
    b"   +33.3%       +64  [ELF Section Headers]\n",
    b"    [ = ]         0  [2 Others]\n",
    b"   +18.1%       +64  TOTAL\n",
];

#[test]
fn sections_that_grew(rt: HostRuntime) {
    worked_growths();
    let alloc = rt.alloc();
    let whole = tree_of(&rt, alloc, &WHOLE);
    let form = (Format::Csv, Domain::Both);
    let out = records(&rt, alloc, &whole, form, &["sections"]);
    assert!(rt; out.as_slice() == SECTION_RECORDS);
    let few = tree_of(&rt, alloc, &FEW);
    let mut out = Vec::from_slice(alloc, b"kept\n").expect(&rt, "memory");
    growth_text(alloc, &few, Domain::File, false, &mut out).expect(&rt, "memory");
    assert!(rt; out == joined(&rt, alloc, &FEW_LINES));
}

const SAME: Tree<'static> = Tree {
    depth: 1,
    total: (136, 352, 136, 352),
    rows: &[],
};

const SAME_LINES: &[u8] = b"          FILE SIZE              VM SIZE  LABEL
    [ = ]         0      [ = ]         0  TOTAL
";

#[test]
fn nothing_grew(rt: HostRuntime) {
    let tree = tree_of(&rt, rt.alloc(), &SAME);
    let form = (Format::Tsv, Domain::Both);
    let out = records(&rt, rt.alloc(), &tree, form, &["sections"]);
    assert!(rt; out.as_slice() == b"sections\tvmsize\tfilesize\n".as_slice());
    let out = lines(&rt, rt.alloc(), &tree, Domain::Both, false);
    assert!(rt; out.as_slice() == SAME_LINES);
}

// Two levels, with an Others row on each.
const LEVELS: Tree<'static> = Tree {
    depth: 2,
    total: (36, 47, 36, 17),
    rows: &[
        (0, Kind::Label(b"a"), (10, 35, 14, 10)),
        (1, Kind::Label(b"b"), (10, 30, 10, 5)),
        (1, Kind::Others(3), (0, 5, 4, 5)),
        (0, Kind::Label(b"c"), (20, 5, 16, 0)),
        (1, Kind::Label(b"d"), (20, 5, 16, 0)),
        (0, Kind::Others(2), (6, 7, 6, 7)),
    ],
};

const BOTH_LINES: &[u8] = b"          FILE SIZE              VM SIZE  LABEL
  +250.0%       +25     -28.5%        -4  a
  +500.0%       +25      [ = ]         0    b
    [ = ]         0      [DEL]        -4    [3 Others]
    [NEW]        +5     +25.0%        +4  c
    [NEW]        +5     +25.0%        +4    d
    [ = ]         0      [ = ]         0  [2 Others]
  +176.4%       +30      [ = ]         0  TOTAL
";

const VM_LINES: &[u8] = b"            VM SIZE  LABEL
   -28.5%        -4  a
    [ = ]         0    b
    [DEL]        -4    [3 Others]
   +25.0%        +4  c
   +25.0%        +4    d
    [ = ]         0  [2 Others]
    [ = ]         0  TOTAL
";

const BOTH_RECORDS: &[u8] = b"x,y,vmsize,filesize
a,b,0,25
a,[3 Others],-4,0
c,d,4,5
[2 Others],,0,0
";

const VM_RECORDS: &[u8] = b"x\ty\tvmsize
a\tb\t0
a\t[3 Others]\t-4
c\td\t4
[2 Others]\t\t0
";

const LEVEL_LINES: [(Domain, &[u8]); 2] = [(Domain::Both, BOTH_LINES), (Domain::Vm, VM_LINES)];

const LEVEL_RECORDS: [(Format, Domain, &[u8]); 2] = [
    (Format::Csv, Domain::Both, BOTH_RECORDS),
    (Format::Tsv, Domain::Vm, VM_RECORDS),
];

#[test]
fn levels_and_others(rt: HostRuntime) {
    let alloc = rt.alloc();
    let tree = tree_of(&rt, alloc, &LEVELS);
    for &(domain, want) in &LEVEL_LINES {
        let out = lines(&rt, alloc, &tree, domain, false);
        assert!(rt; out.as_slice() == want);
    }
    for &(format, domain, want) in &LEVEL_RECORDS {
        let out = records(&rt, alloc, &tree, (format, domain), &["x", "y"]);
        assert!(rt; out.as_slice() == want);
    }
}

// 2^63 - 1.
const MOST: u64 = 9_223_372_036_854_775_807;

// A new size, a base size, and the column of the growth.
const CHANGES: [(u64, u64, &[u8]); 10] = [
    (17, 17, b"    [ = ]         0  "),
    (0, 0, b"    [ = ]         0  "),
    (5, 0, b"    [NEW]        +5  "),
    (0, 5, b"    [DEL]        -5  "),
    (1000, 1001, b"    -0.0%        -1  "),
    (30000, 1000, b" +2900.0%   +28.3Ki  "),
    (MOST, 0, b"    [NEW]    +7.9Ei  "),
    (0, MOST, b"    [DEL]    -7.9Ei  "),
    (1, MOST, b"   -99.9%    -7.9Ei  "),
    (MOST, 1, b"+922337203685477580600.0%    +7.9Ei  "),
];

// The report of one label that grew has these columns and this form of the label.
fn has_lines(
    rt: &impl Abort,
    alloc: Global,
    &(new, base, column): &(u64, u64, &[u8]),
    (label, wide, want): (&[u8], bool, &[u8]),
) {
    let total = (0, new, 0, base);
    let tree = Tree {
        depth: 1,
        total,
        rows: &[(0, Kind::Label(label), total)],
    };
    let tree = tree_of(rt, alloc, &tree);
    let out = lines(rt, alloc, &tree, Domain::File, wide);
    let parts = [FILE_TITLE, column, want, b"\n", column, b"TOTAL\n"];
    assert!(rt; out == joined(rt, alloc, &parts), "from {base} to {new}");
}

#[test]
fn changes_and_growths(rt: HostRuntime) {
    for case in &CHANGES {
        has_lines(&rt, rt.alloc(), case, (b"x", false, b"x"));
    }
}

const GROWN: (u64, u64, &[u8]) = (9, 6, b"   +50.0%        +3  ");

#[test]
fn labels_in_lines(rt: HostRuntime) {
    let alloc = rt.alloc();
    let whole = letters(&rt, alloc, 0, b"", 61);
    let cut = letters(&rt, alloc, 28, b"[...]", 60);
    has_lines(&rt, alloc, &GROWN, (&whole, false, &cut));
    has_lines(&rt, alloc, &GROWN, (&whole, true, &whole));
    has_lines(&rt, alloc, &GROWN, (b"a\nb", false, b"a\\x0ab"));
}

const CONTROLS: Tree<'static> = Tree {
    depth: 1,
    total: (MOST, 9, 0, MOST),
    rows: &[
        (0, Kind::Label(b"a,b"), (MOST, 0, 0, MOST)),
        (0, Kind::Label(b"a\tb"), (0, 2, 7, 9)),
        (0, Kind::Label(b"a\"b"), (0, 7, 0, 8)),
        (0, Kind::Others(2), (0, 0, 2048, 0)),
    ],
};

const CONTROL_RECORDS: [(Format, &[u8]); 2] = [
    (
        Format::Csv,
        b"x,vmsize,filesize\n\"a,b\",9223372036854775807,-9223372036854775807\na\tb,-7,-7\n\"a\"\"b\",0,-1\n[2 Others],-2048,0\n",
    ),
    (
        Format::Tsv,
        b"x\tvmsize\tfilesize\na,b\t9223372036854775807\t-9223372036854775807\n\"a\tb\"\t-7\t-7\n\"a\"\"b\"\t0\t-1\n[2 Others]\t-2048\t0\n",
    ),
];

#[test]
fn labels_in_records(rt: HostRuntime) {
    let alloc = rt.alloc();
    let tree = tree_of(&rt, alloc, &CONTROLS);
    for &(format, want) in &CONTROL_RECORDS {
        let out = records(&rt, alloc, &tree, (format, Domain::Both), &["x"]);
        assert!(rt; out.as_slice() == want);
    }
}
