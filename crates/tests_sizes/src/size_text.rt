//! Reports of trees that were made by hand.

use crate::trees::{Kind, is_tree, joined, letters, names};
use report_rows::{Row, RowKind, RowTree, Rows};
use report_text::{csv, text, tsv};
use size_core::{Bytes, Domain, Format};
use std::alloc::Global;
use std::process::Abort;

// A row of a tree: its level, what it is, its VM size and its file size.
type Line<'a> = (u32, Kind<'a>, u64, u64);

// A tree with its totals.
#[derive(Clone, Copy)]
struct Tree<'a> {
    depth: u32,
    vm: u64,
    file: u64,
    rows: &'a [Line<'a>],
}

fn kind_of(rt: &impl Abort, alloc: Global, kind: Kind<'_>) -> RowKind {
    match kind {
        Kind::Label(label) => RowKind::Label(Bytes::of(alloc, label).expect(rt, "memory")),
        Kind::Others(count) => RowKind::Others(count),
    }
}

fn tree_of(rt: &impl Abort, alloc: Global, tree: &Tree<'_>) -> RowTree {
    let mut rows = Rows::new(alloc);
    for &(level, kind, vm, file) in tree.rows {
        let row = Row {
            level,
            kind: kind_of(rt, alloc, kind),
            vm,
            file,
        };
        rows.push(row).expect(rt, "memory");
    }
    RowTree {
        depth: tree.depth,
        vm: tree.vm,
        file: tree.file,
        rows,
    }
}

// A tree of one label, which has a part of the file.
fn one(rt: &impl Abort, alloc: Global, label: &[u8], part: u64, total: u64) -> RowTree {
    let tree = Tree {
        depth: 1,
        vm: 0,
        file: total,
        rows: &[(0, Kind::Label(label), 0, part)],
    };
    tree_of(rt, alloc, &tree)
}

// The records of a tree, whose levels form one, with as many names.
#[tactic(auto, using(crate::proofs::TreeLemmas::from_plain))]
fn records(
    rt: &impl Abort,
    alloc: Global,
    tree: &RowTree,
    (format, domain): (Format, Domain),
    sources: &[&str],
) -> Vec<u8> {
    let mut out = Vec::new(alloc);
    let names = names(rt, alloc, sources);
    assert_eq!(rt; names.len(), tree.depth as usize);
    assert!(rt; is_tree(tree.depth, &tree.rows));
    let written = if format == Format::Csv {
        csv(alloc, tree, domain, &names, &mut out)
    } else {
        tsv(alloc, tree, domain, &names, &mut out)
    };
    written.expect(rt, "memory");
    out
}

// The lines of a tree.
fn lines(rt: &impl Abort, alloc: Global, tree: &RowTree, domain: Domain, wide: bool) -> Vec<u8> {
    let mut out = Vec::new(alloc);
    text(alloc, tree, domain, wide, &mut out).expect(rt, "memory");
    out
}

// The rows of a small file's sections.
const SECTIONS: Tree<'static> = Tree {
    depth: 1,
    vm: 136,
    file: 352,
    rows: &[
        (0, Kind::Label(b"[ELF Section Headers]"), 0, 192),
        (0, Kind::Label(b"[ELF Header]"), 64, 64),
        (0, Kind::Label(b"[ELF Program Headers]"), 56, 56),
        (0, Kind::Label(b".shstrtab"), 0, 17),
        (0, Kind::Label(b".text"), 16, 16),
        (0, Kind::Label(b"[Unmapped]"), 0, 7),
    ],
};

const SECTION_LINES: &[u8] = b"      FILE SIZE          VM SIZE  LABEL
 54.5%      192    0.0%        0  [ELF Section Headers]
 18.1%       64   47.0%       64  [ELF Header]
 15.9%       56   41.1%       56  [ELF Program Headers]
  4.8%       17    0.0%        0  .shstrtab
  4.5%       16   11.7%       16  .text
  1.9%        7    0.0%        0  [Unmapped]
100.0%      352  100.0%      136  TOTAL
";

const SECTION_RECORDS: &[u8] = b"sections,filesize
[ELF Section Headers],192
[ELF Header],64
[ELF Program Headers],56
.shstrtab,17
.text,16
[Unmapped],7
";

#[test]
fn sections_of_a_small_file(rt: HostRuntime) {
    let alloc = rt.alloc();
    let tree = tree_of(&rt, alloc, &SECTIONS);
    let mut out = Vec::from_slice(alloc, b"kept\n").expect(&rt, "memory");
    text(alloc, &tree, Domain::Both, false, &mut out).expect(&rt, "memory");
    assert!(rt; out == joined(&rt, alloc, &[b"kept\n", SECTION_LINES]));
    let form = (Format::Csv, Domain::File);
    let out = records(&rt, alloc, &tree, form, &["sections"]);
    assert_eq!(rt; out.len(), 120);
    assert!(rt; out.as_slice() == SECTION_RECORDS);
}

const SEGMENT_RECORDS: &[u8] = b"segments\tsections\tvmsize\tfilesize
[ELF Section Headers]\t[ELF Section Headers]\t0\t192
LOAD #0 [RX]\t[ELF Header]\t64\t64
LOAD #0 [RX]\t[ELF Program Headers]\t56\t56
LOAD #0 [RX]\t.text\t16\t16
[Unmapped]\t.shstrtab\t0\t17
[Unmapped]\t[Unmapped]\t0\t7
";

const SEGMENTS: Tree<'static> = Tree {
    depth: 2,
    vm: 136,
    file: 352,
    rows: &[
        (0, Kind::Label(b"[ELF Section Headers]"), 0, 192),
        (1, Kind::Label(b"[ELF Section Headers]"), 0, 192),
        (0, Kind::Label(b"LOAD #0 [RX]"), 136, 136),
        (1, Kind::Label(b"[ELF Header]"), 64, 64),
        (1, Kind::Label(b"[ELF Program Headers]"), 56, 56),
        (1, Kind::Label(b".text"), 16, 16),
        (0, Kind::Label(b"[Unmapped]"), 0, 24),
        (1, Kind::Label(b".shstrtab"), 0, 17),
        (1, Kind::Label(b"[Unmapped]"), 0, 7),
    ],
};

#[test]
fn sections_of_segments(rt: HostRuntime) {
    let tree = tree_of(&rt, rt.alloc(), &SEGMENTS);
    let form = (Format::Tsv, Domain::Both);
    let out = records(&rt, rt.alloc(), &tree, form, &["segments", "sections"]);
    assert!(rt; out.as_slice() == SEGMENT_RECORDS);
}

// Three levels, with Others rows on each.
const LEVELS: Tree<'static> = Tree {
    depth: 3,
    vm: 12,
    file: 23,
    rows: &[
        (0, Kind::Label(b"a"), 10, 20),
        (1, Kind::Label(b"b"), 6, 12),
        (2, Kind::Label(b"c"), 4, 8),
        (2, Kind::Others(3), 2, 4),
        (1, Kind::Others(2), 4, 8),
        (0, Kind::Label(b"d"), 1, 2),
        (1, Kind::Label(b"e"), 1, 2),
        (2, Kind::Label(b"f"), 1, 2),
        (0, Kind::Others(7), 1, 1),
    ],
};

const LEVEL_LINES: &[u8] = b"      FILE SIZE  LABEL
 86.9%       20  a
 52.1%       12    b
 34.7%        8      c
 17.3%        4      [3 Others]
 34.7%        8    [2 Others]
  8.6%        2  d
  8.6%        2    e
  8.6%        2      f
  4.3%        1  [7 Others]
100.0%       23  TOTAL
";

const LEVEL_RECORDS: [(Domain, &[u8]); 3] = [
    (
        Domain::Both,
        b"x,y,z,vmsize,filesize\na,b,c,4,8\na,b,[3 Others],2,4\na,[2 Others],,4,8\nd,e,f,1,2\n[7 Others],,,1,1\n",
    ),
    (
        Domain::Vm,
        b"x,y,z,vmsize\na,b,c,4\na,b,[3 Others],2\na,[2 Others],,4\nd,e,f,1\n[7 Others],,,1\n",
    ),
    (
        Domain::File,
        b"x,y,z,filesize\na,b,c,8\na,b,[3 Others],4\na,[2 Others],,8\nd,e,f,2\n[7 Others],,,1\n",
    ),
];

#[test]
fn others_on_three_levels(rt: HostRuntime) {
    let alloc = rt.alloc();
    let tree = tree_of(&rt, alloc, &LEVELS);
    assert!(rt; lines(&rt, alloc, &tree, Domain::File, false).as_slice() == LEVEL_LINES);
    for &(domain, want) in &LEVEL_RECORDS {
        let form = (Format::Csv, domain);
        let out = records(&rt, alloc, &tree, form, &["x", "y", "z"]);
        assert!(rt; out.as_slice() == want);
    }
}

const FILE_TITLE: &[u8] = b"      FILE SIZE  LABEL\n";

// A label with its size, the total, and the two lines of the report after its titles.
const PERCENTAGES: [(u64, u64, &[u8]); 8] = [
    (0, 0, b"  0.0%        0  x\n  0.0%        0  TOTAL\n"),
    (1, 3, b" 33.3%        1  x\n100.0%        3  TOTAL\n"),
    (1023, 1024, b" 99.9%     1023  x\n100.0%    1.0Ki  TOTAL\n"),
    (1536, 2000, b" 76.8%    1.5Ki  x\n100.0%    1.9Ki  TOTAL\n"),
    (
        1_048_575,
        1_048_576,
        b" 99.9% 1023.9Ki  x\n100.0%    1.0Mi  TOTAL\n",
    ),
    (
        1_073_741_823,
        1_073_741_824,
        b" 99.9% 1023.9Mi  x\n100.0%    1.0Gi  TOTAL\n",
    ),
    (
        1 << 40,
        1 << 50,
        b"  0.0%    1.0Ti  x\n100.0%    1.0Pi  TOTAL\n",
    ),
    (
        1,
        9_223_372_036_854_775_807,
        b"  0.0%        1  x\n100.0%    7.9Ei  TOTAL\n",
    ),
];

// The report of one label has these lines.
fn has_lines(rt: &impl Abort, alloc: Global, &(part, total, want): &(u64, u64, &[u8])) {
    let tree = one(rt, alloc, b"x", part, total);
    let out = lines(rt, alloc, &tree, Domain::File, false);
    assert!(rt; out == joined(rt, alloc, &[FILE_TITLE, want]), "at {part}");
}

const NONE: Tree<'static> = Tree {
    depth: 1,
    vm: 0,
    file: 0,
    rows: &[],
};

#[test]
fn sizes_and_percentages(rt: HostRuntime) {
    let alloc = rt.alloc();
    for case in &PERCENTAGES {
        has_lines(&rt, alloc, case);
    }
    let none = tree_of(&rt, alloc, &NONE);
    let out = lines(&rt, alloc, &none, Domain::Vm, false);
    assert!(rt; out.as_slice() == b"        VM SIZE  LABEL\n  0.0%        0  TOTAL\n".as_slice());
    let out = records(&rt, alloc, &none, (Format::Csv, Domain::Vm), &["x"]);
    assert!(rt; out.as_slice() == b"x,vmsize\n".as_slice());
}

// The line of a label has it in this form.
fn has_label(rt: &impl Abort, alloc: Global, label: &[u8], wide: bool, want: &[u8]) {
    let tree = one(rt, alloc, label, 1, 1);
    let out = lines(rt, alloc, &tree, Domain::File, wide);
    let column = b"100.0%        1  ".as_slice();
    let parts = [FILE_TITLE, column, want, b"\n", column, b"TOTAL\n"];
    assert!(rt; out == joined(rt, alloc, &parts));
}

#[test]
fn labels_in_lines(rt: HostRuntime) {
    let alloc = rt.alloc();
    let whole = letters(&rt, alloc, 0, b"", 61);
    let cut = letters(&rt, alloc, 28, b"[...]", 60);
    has_label(&rt, alloc, &whole, false, &cut);
    has_label(&rt, alloc, &whole, true, &whole);
}

// Labels, and how their lines show them.
const SHOWN: [(&[u8], &[u8]); 3] = [
    (b"a\nb", b"a\\x0ab"),
    (b"\"\x7f\xff\xc3 \x1f", b"\"\\x7f\xff\xc3 \\x1f"),
    (b"", b""),
];

#[test]
fn controls_in_lines(rt: HostRuntime) {
    let alloc = rt.alloc();
    let tab = letters(&rt, alloc, 59, b"\t", 60);
    let tab_shown = letters(&rt, alloc, 59, b"\\x09", 63);
    has_label(&rt, alloc, &tab, false, &tab_shown);
    let feed = letters(&rt, alloc, 27, b"\n\n", 61);
    let feed_shown = letters(&rt, alloc, 27, b"\\x0a[...]", 63);
    has_label(&rt, alloc, &feed, false, &feed_shown);
    for &(label, want) in &SHOWN {
        has_label(&rt, alloc, label, false, want);
    }
}

const CONTROLS: Tree<'static> = Tree {
    depth: 1,
    vm: 0,
    file: 9,
    rows: &[
        (0, Kind::Label(b"a\nb"), 0, 9),
        (0, Kind::Label(b"a,b"), 0, 8),
        (0, Kind::Label(b"a\tb"), 0, 7),
        (0, Kind::Label(b"a\"b"), 0, 6),
        (0, Kind::Label(b"a\rb"), 0, 5),
        (0, Kind::Label(b"a b\xff\x7f"), 0, 4),
        (0, Kind::Label(b""), 0, 3),
        (0, Kind::Label(b"[2 Others]"), 0, 2),
        (0, Kind::Others(2), 0, 2048),
    ],
};

const CONTROL_RECORDS: [(Format, &[u8]); 2] = [
    (
        Format::Csv,
        b"x,filesize\n\"a\nb\",9\n\"a,b\",8\na\tb,7\n\"a\"\"b\",6\n\"a\rb\",5\na b\xff\x7f,4\n,3\n[2 Others],2\n[2 Others],2048\n",
    ),
    (
        Format::Tsv,
        b"x\tfilesize\n\"a\nb\"\t9\na,b\t8\n\"a\tb\"\t7\n\"a\"\"b\"\t6\n\"a\rb\"\t5\na b\xff\x7f\t4\n\t3\n[2 Others]\t2\n[2 Others]\t2048\n",
    ),
];

#[test]
fn labels_in_records(rt: HostRuntime) {
    let alloc = rt.alloc();
    let tree = tree_of(&rt, alloc, &CONTROLS);
    for &(format, want) in &CONTROL_RECORDS {
        let out = records(&rt, alloc, &tree, (format, Domain::File), &["x"]);
        assert!(rt; out.as_slice() == want);
    }
}
