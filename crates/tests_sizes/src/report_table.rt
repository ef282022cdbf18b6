//! The rows of a report over rollups that a file was added to: worked tables of paths, each with the rows that a
//! person computed.

ghost use Rattle.std.specs.Prelude.{◌≡◌, ◌<◌, All, IfOk, length};
ghost use Rattle.size_model.specs.Loads.{IsLoad};
ghost use Rattle.dual_map.specs.Layout.{IsOver, LabelsBelow};

use crate::added::{Labels, add, map_of};
use dual_map::{Base, DualMap};
use report_rows::{RowKind, RowOptions, RowTree, rows};
use rollup::Rollup;
use size_core::{Claim, Domain, LabelPool, Load, NoMemory, Side, Sort, Span};
use std::alloc::Global;
use std::marker::Brand;
use std::process::Abort;
use std::sync::ledger::Blank;
use std::test::Fail;

// The label of bytes that no claim covers, and those of all tables.
const LABELS: [&str; 11] = [
    "[Unmapped]",
    "[3 Others]",
    "a",
    "b",
    "c",
    "d",
    "p",
    "q",
    "x",
    "y",
    "z",
];

// A path with its VM size and its file size.
type Counted<'a> = (&'a [&'a str], u64, u64);

// Paths of `depth` labels, and the sums of their sizes.
struct Table<'a> {
    depth: u32,
    vm: u64,
    file: u64,
    paths: &'a [Counted<'a>],
}

const FIVE: Table<'static> = Table {
    depth: 1,
    vm: 10,
    file: 25,
    paths: &[
        (&["[3 Others]"], 0, 9),
        (&["a"], 1, 8),
        (&["b"], 2, 4),
        (&["c"], 3, 2),
        (&["d"], 4, 2),
    ],
};

const PAIRS: Table<'static> = Table {
    depth: 2,
    vm: 15,
    file: 13,
    paths: &[
        (&["a", "x"], 1, 4),
        (&["a", "y"], 2, 3),
        (&["a", "z"], 3, 1),
        (&["b", "x"], 9, 0),
        (&["c", "x"], 0, 5),
    ],
};

const TRIPLES: Table<'static> = Table {
    depth: 3,
    vm: 1,
    file: 3,
    paths: &[(&["a", "x", "p"], 1, 1), (&["a", "x", "q"], 0, 2)],
};

enum Name<'a> {
    Label(&'a str),
    Others(u64),
}

// A row's level and name, its VM size and its file size.
type Wanted<'a> = (u32, Name<'a>, u64, u64);

// A limit, a table, and the rows of a report over it.
struct Case<'a> {
    limit: u32,
    sort: Sort,
    domain: Domain,
    table: &'a Table<'a>,
    rows: &'a [Wanted<'a>],
}

const CASES: [Case<'static>; 9] = [
    // The row of others comes before a label of its key.
    Case {
        limit: 2,
        sort: Sort::Both,
        domain: Domain::File,
        table: &FIVE,
        rows: &[
            (0, Name::Label("[3 Others]"), 0, 9),
            (0, Name::Others(3), 9, 8),
            (0, Name::Label("a"), 1, 8),
        ],
    },
    // No limit, and one that leaves nothing over.
    Case {
        limit: 0,
        sort: Sort::Both,
        domain: Domain::File,
        table: &FIVE,
        rows: &[
            (0, Name::Label("[3 Others]"), 0, 9),
            (0, Name::Label("a"), 1, 8),
            (0, Name::Label("b"), 2, 4),
            (0, Name::Label("c"), 3, 2),
            (0, Name::Label("d"), 4, 2),
        ],
    },
    Case {
        limit: 5,
        sort: Sort::File,
        domain: Domain::Both,
        table: &FIVE,
        rows: &[
            (0, Name::Label("[3 Others]"), 0, 9),
            (0, Name::Label("a"), 1, 8),
            (0, Name::Label("b"), 2, 4),
            (0, Name::Label("c"), 3, 2),
            (0, Name::Label("d"), 4, 2),
        ],
    },
    // The others are larger than the label that is kept.
    Case {
        limit: 1,
        sort: Sort::File,
        domain: Domain::File,
        table: &FIVE,
        rows: &[
            (0, Name::Others(4), 10, 16),
            (0, Name::Label("[3 Others]"), 0, 9),
        ],
    },
    Case {
        limit: 0,
        sort: Sort::Vm,
        domain: Domain::Both,
        table: &FIVE,
        rows: &[
            (0, Name::Label("d"), 4, 2),
            (0, Name::Label("c"), 3, 2),
            (0, Name::Label("b"), 2, 4),
            (0, Name::Label("a"), 1, 8),
            (0, Name::Label("[3 Others]"), 0, 9),
        ],
    },
    // The size that rows are sorted by is not shown: all keys are 0.
    Case {
        limit: 0,
        sort: Sort::Vm,
        domain: Domain::File,
        table: &FIVE,
        rows: &[
            (0, Name::Label("[3 Others]"), 0, 9),
            (0, Name::Label("a"), 1, 8),
            (0, Name::Label("b"), 2, 4),
            (0, Name::Label("c"), 3, 2),
            (0, Name::Label("d"), 4, 2),
        ],
    },
    // A label with no shown size has no row, and is not among the others.
    Case {
        limit: 2,
        sort: Sort::Both,
        domain: Domain::Vm,
        table: &FIVE,
        rows: &[
            (0, Name::Label("d"), 4, 2),
            (0, Name::Others(2), 3, 12),
            (0, Name::Label("c"), 3, 2),
        ],
    },
    Case {
        limit: 2,
        sort: Sort::Both,
        domain: Domain::File,
        table: &PAIRS,
        rows: &[
            (0, Name::Label("a"), 6, 8),
            (1, Name::Label("x"), 1, 4),
            (1, Name::Label("y"), 2, 3),
            (1, Name::Others(1), 3, 1),
            (0, Name::Label("c"), 0, 5),
            (1, Name::Label("x"), 0, 5),
        ],
    },
    Case {
        limit: 0,
        sort: Sort::Both,
        domain: Domain::Both,
        table: &TRIPLES,
        rows: &[
            (0, Name::Label("a"), 1, 3),
            (1, Name::Label("x"), 1, 3),
            (2, Name::Label("q"), 0, 2),
            (2, Name::Label("p"), 1, 1),
        ],
    },
];

fn pool_of(rt: &impl Abort, alloc: Global) -> Result<LabelPool, Fail>
    ensures { IfOk result (λ pool. length pool ≡ 11) }
{
    let mut pool = LabelPool::new(alloc);
    for label in &LABELS {
        pool.intern(label.as_bytes())?;
    }
    assert_eq!(rt; pool.len(), 11);
    Ok(pool)
}

fn number_of(rt: &impl Abort, text: &str) -> usize {
    for (i, label) in LABELS.iter().enumerate() {
        if label.as_bytes() == text.as_bytes() {
            return i;
        }
    }
    panic!(rt; "no label {text}")
}

// A claim of one side, whose other span is not read.
fn claim(side: Side, start: u64, len: u64, label: usize) -> Claim {
    let span = Span {
        space: 0,
        start,
        len,
    };
    Claim {
        side,
        vm: span,
        file: span,
        label,
    }
}

// The claims of a data source: the addresses and the bytes of each path follow those of the path before it.
fn claims_of(
    rt: &impl Abort,
    alloc: Global,
    paths: &[Counted<'_>],
    level: usize,
) -> Result<Vec<Claim>, Fail> {
    let mut claims = Vec::new(alloc);
    let mut address = 0u64;
    let mut offset = 0u64;
    for &(path, vm, file) in paths {
        assert!(rt; level < path.len());
        let label = number_of(rt, path[level]);
        claims.push(claim(Side::Vm, address, vm, label))?;
        claims.push(claim(Side::File, offset, file, label))?;
        address = address.saturating_add(vm);
        offset = offset.saturating_add(file);
    }
    Ok(claims)
}

// The maps of a table's levels, whose labels are numbers below 11.
fn maps_of(
    rt: &impl Abort,
    alloc: Global,
    base: &Base,
    depth: u32,
    paths: &[Counted<'_>],
) -> Result<Vec<DualMap>, Fail>
    ensures count { IfOk result (λ maps. length maps.items ≡ depth) }
    ensures over { IfOk result (λ maps. All (IsOver base.now) maps.items) }
    ensures labels { IfOk result (λ maps. All (LabelsBelow 11) maps.items) }
{
    let mut maps = Vec::new(alloc);
    for level in 0..depth {
        let claims = claims_of(rt, alloc, paths, level as usize)?;
        maps.push(map_of(rt, alloc, base, 11, claims.as_slice())?)?;
    }
    Ok(maps)
}

// One load of `vm` addresses, without a byte of the file.
fn loads_of(alloc: Global, vm: u64, file: u64) -> Result<Vec<Load>, NoMemory>
    ensures { IfOk result (λ loads. All IsLoad loads.items) }
{
    let mut loads = Vec::new(alloc);
    loads.push(Load {
        space: 0,
        vaddr: 0,
        memsz: vm,
        offset: file,
        filesz: 0,
    })?;
    Ok(loads)
}

// The rollup of a file whose paths have the sizes of a table.
fn rollup_of(rt: &impl Abort, alloc: Global, table: &Table<'_>) -> Result<Rollup, Fail> {
    let len = table.file;
    let depth = table.depth;
    assert!(rt; len < 1 << 63);
    let mut rollup = Rollup::new(alloc, depth);
    let pool = pool_of(rt, alloc)?;
    let loads = loads_of(alloc, table.vm, len)?;
    let base = Base::from_loads(alloc, len, loads.as_slice())?;
    let maps = maps_of(rt, alloc, &base, depth, table.paths)?;
    let labels = Labels {
        pool: &pool,
        marks: None,
    };
    add::<Brand>(&mut rollup, &base, maps.as_slice(), labels, Blank::new(1))?;
    Ok(rollup)
}

fn is_named(kind: &RowKind, name: &Name<'_>) -> bool {
    match (kind, name) {
        (RowKind::Label(text), Name::Label(label)) => text.as_slice() == label.as_bytes(),
        (RowKind::Others(count), Name::Others(left)) => *count == *left,
        _ => false,
    }
}

fn has_rows(rt: &impl Abort, tree: &RowTree, wanted: &[Wanted<'_>]) {
    assert_eq!(rt; tree.rows.len(), wanted.len());
    for (i, (level, name, vm, file)) in wanted.iter().enumerate() {
        assert!(rt; i < tree.rows.len());
        let row = tree.rows.get(i);
        assert_eq!(rt;
            (row.level, row.vm, row.file),
            (*level, *vm, *file),
            "row {i}"
        );
        assert!(rt; is_named(&row.kind, name), "row {i}");
    }
}

#[test]
fn rows_over_worked_tables(rt: HostRuntime) -> Result<(), Fail> {
    let alloc = rt.alloc();
    for case in &CASES {
        let options = RowOptions {
            limit: case.limit,
            sort: case.sort,
            domain: case.domain,
        };
        let table = case.table;
        let rollup = rollup_of(&rt, alloc, table)?;
        let tree = rows(alloc, &rollup, &options)?;
        let totals = (tree.depth, tree.vm, tree.file);
        assert_eq!(rt; totals, (table.depth, table.vm, table.file));
        has_rows(&rt, &tree, case.rows);
    }
    Ok(())
}
