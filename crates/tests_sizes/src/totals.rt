//! Totals of files, beside worked rows and beside the plain definition.

ghost use Rattle.std.specs.Prelude.{◌≡◌, ◌+◌, ◌^◌, ◌<◌, ◌≤◌, IfOk, OnErr, All, IsTrue, length};
ghost use Rattle.std.specs.Option.{ForSome, option_copied};
ghost use Rattle.size_model.specs.Loads.{IsLoad};
ghost use Rattle.dual_map.specs.Layout.{IsOver, LabelsBelow};

use crate::added::{Labels, add, map_of};
use crate::checks::{holds, same};
use dual_map::{Base, DualMap};
use rollup::{Rollup, RollupAnswer};
use size_core::{Bytes, Claim, LabelPool, List, Load, NoMemory, Path, Side, Span};
use size_model::{FileView, LabelTest, LabelledClaim, SourceView, file_size_in, vm_size_in};
use std::alloc::Global;
use std::marker::Brand;
use std::process::Abort;
use std::sync::ledger::Blank;
use std::test::Fail;

const LABELS: [&str; 9] = [
    "[Unmapped]",
    "[ELF Header]",
    "[ELF Program Headers]",
    ".text",
    ".shstrtab",
    "[ELF Section Headers]",
    "LOAD #0 [RX]",
    "b",
    "a",
];

fn claim(side: Side, vm: (u64, u64), file: (u64, u64), label: usize) -> Claim {
    Claim {
        side,
        vm: Span {
            space: 0,
            start: vm.0,
            len: vm.1,
        },
        file: Span {
            space: 0,
            start: file.0,
            len: file.1,
        },
        label,
    }
}

fn sections() -> [Claim; 5] {
    [
        claim(Side::File, (0, 0), (0, 64), 1),
        claim(Side::File, (0, 0), (64, 56), 2),
        claim(Side::Both, (0x40_0078, 16), (120, 16), 3),
        claim(Side::File, (0, 0), (136, 17), 4),
        claim(Side::File, (0, 0), (160, 192), 5),
    ]
}

fn segments() -> [Claim; 2] {
    [
        claim(Side::Both, (0x40_0000, 136), (0, 136), 6),
        claim(Side::File, (0, 0), (160, 192), 5),
    ]
}

fn pool_of(rt: &impl Abort, alloc: Global) -> Result<LabelPool, Fail>
    ensures { IfOk result (λ pool. length pool ≡ 9) }
{
    let mut pool = LabelPool::new(alloc);
    for label in &LABELS {
        pool.intern(label.as_bytes())?;
    }
    assert_eq!(rt; pool.len(), 9);
    Ok(pool)
}

// The maps of data sources, whose labels are numbers below 9.
fn maps_of(
    rt: &impl Abort,
    alloc: Global,
    base: &Base,
    sources: &[&[Claim]],
) -> Result<Vec<DualMap>, Fail>
    ensures count { IfOk result (λ maps. length maps.items ≡ length sources.now) }
    ensures over { IfOk result (λ maps. All (IsOver base.now) maps.items) }
    ensures labels { IfOk result (λ maps. All (LabelsBelow 9) maps.items) }
{
    let mut maps = Vec::new(alloc);
    for claims in sources {
        maps.push(map_of(rt, alloc, base, 9, claims)?)?;
    }
    Ok(maps)
}

fn loads_of(alloc: Global, memsz: u64) -> Result<Vec<Load>, NoMemory>
    requires { memsz ≤ 2 ^ 62 }
    ensures { IfOk result (λ loads. All IsLoad loads.items) }
{
    let mut loads = Vec::new(alloc);
    loads.push(Load {
        space: 0,
        vaddr: 0x40_0000,
        memsz,
        offset: 0,
        filesz: 136,
    })?;
    Ok(loads)
}

// The length of a file, and how many addresses its load has.
#[derive(Clone, Copy)]
struct FileSize {
    len: u64,
    memsz: u64,
}

const SMALL: FileSize = FileSize {
    len: 352,
    memsz: 136,
};

const LARGE: FileSize = FileSize {
    len: 1 << 62,
    memsz: 1 << 62,
};

// The claims of the data sources asked, and the labels that a filter passes.
#[derive(Clone, Copy)]
struct Asked<'s, 'c, 'm> {
    sources: &'s [&'c [Claim]],
    marks: Option<&'m [bool]>,
}

// Adds a file of one load.
fn adds(
    rt: &impl Abort,
    alloc: Global,
    rollup: &mut Rollup,
    size: FileSize,
    asked: Asked<'_, '_, '_>,
) -> Result<Option<RollupAnswer>, Fail>
    requires len { size.len < 2 ^ 63 }
    requires memsz { size.memsz ≤ 2 ^ 62 }
    requires depth { length asked.sources.now ≡ rollup.old.depth }
    requires marks { ForSome (option_copied asked.marks) (λ m. length m ≡ 9) }
    ensures depth { rollup.new.depth ≡ rollup.old.depth }
{
    let pool = pool_of(rt, alloc)?;
    let loads = loads_of(alloc, size.memsz)?;
    let base = Base::from_loads(alloc, size.len, loads.as_slice())?;
    let maps = maps_of(rt, alloc, &base, asked.sources)?;
    let labels = Labels {
        pool: &pool,
        marks: asked.marks,
    };
    let added = add::<Brand>(rollup, &base, maps.as_slice(), labels, Blank::new(1));
    Ok(added.err())
}

// A path with its VM size and its file size.
type Row<'a> = (&'a [&'a str], u64, u64);

fn has_path(rt: &impl Abort, path: &Path, labels: &[&str]) {
    assert_eq!(rt; path.len(), labels.len());
    for (i, label) in labels.iter().enumerate() {
        assert!(rt; i < path.len());
        holds(rt, label, path.get(i).as_slice() == label.as_bytes());
    }
}

fn has_rows(rt: &impl Abort, rollup: &Rollup, rows: &[Row<'_>]) {
    assert_eq!(rt; rollup.len(), rows.len());
    for (i, &(labels, vm, file)) in rows.iter().enumerate() {
        assert!(rt; i < rollup.len());
        let row = rollup.row(i);
        has_path(rt, &row.path, labels);
        same(rt, &i, &(row.vm, row.file), &(vm, file));
    }
}

const SECTION_ROWS: [Row<'static>; 6] = [
    (&[".shstrtab"], 0, 17),
    (&[".text"], 16, 16),
    (&["[ELF Header]"], 64, 64),
    (&["[ELF Program Headers]"], 56, 56),
    (&["[ELF Section Headers]"], 0, 192),
    (&["[Unmapped]"], 0, 7),
];

// All labels but that of the code.
const OTHER_LABELS: [bool; 9] = [true, true, true, false, true, true, true, true, true];

// The rows of a file by sections and a filter are these.
fn adds_sections(
    rt: &impl Abort,
    alloc: Global,
    marks: Option<&[bool]>,
    rows: &[Row<'_>],
) -> Result<(), Fail>
    requires { ForSome (option_copied marks) (λ m. length m ≡ 9) }
{
    let mut rollup = Rollup::new(alloc, 1);
    assert_eq!(rt; rollup.depth(), 1);
    let claims = sections();
    let sources: [&[Claim]; 1] = [&claims];
    let asked = Asked {
        sources: &sources,
        marks,
    };
    let answer = adds(rt, alloc, &mut rollup, SMALL, asked)?;
    same(rt, &"sections", &answer, &None);
    has_rows(rt, &rollup, rows);
    Ok(())
}

#[test]
fn a_file_is_added_by_sections(rt: HostRuntime) -> Result<(), Fail> {
    let alloc = rt.alloc();
    adds_sections(&rt, alloc, None, &SECTION_ROWS)?;
    // The code has no row.
    let mut others = Vec::new(alloc);
    for row in &SECTION_ROWS {
        if row.2 != 16 {
            others.push(*row)?;
        }
    }
    adds_sections(&rt, alloc, Some(&OTHER_LABELS), others.as_slice())
}

const ROWS_OF_THREE: [Row<'static>; 6] = [
    (&["LOAD #0 [RX]", ".text"], 48, 48),
    (&["LOAD #0 [RX]", "[ELF Header]"], 192, 192),
    (&["LOAD #0 [RX]", "[ELF Program Headers]"], 168, 168),
    (&["[ELF Section Headers]", "[ELF Section Headers]"], 0, 576),
    (&["[Unmapped]", ".shstrtab"], 0, 51),
    (&["[Unmapped]", "[Unmapped]"], 4, 21),
];

#[test]
fn files_add_up_by_paths_of_two(rt: HostRuntime) -> Result<(), Fail> {
    let alloc = rt.alloc();
    let mut rollup = Rollup::new(alloc, 2);
    let sections = sections();
    let segments = segments();
    let sources: [&[Claim]; 2] = [&segments, &sections];
    let asked = Asked {
        sources: &sources,
        marks: None,
    };
    for memsz in [136, 136, 140] {
        assert!(rt; rollup.depth() == 2 && memsz <= 140);
        let size = FileSize { len: 352, memsz };
        let answer = adds(&rt, alloc, &mut rollup, size, asked)?;
        same(&rt, &memsz, &answer, &None);
    }
    has_rows(&rt, &rollup, &ROWS_OF_THREE);
    Ok(())
}

#[test]
fn what_passes_the_limits_is_refused(rt: HostRuntime) -> Result<(), Fail> {
    let alloc = rt.alloc();
    let mut rollup = Rollup::new(alloc, 0);
    let asked = Asked {
        sources: &[],
        marks: None,
    };
    let answer = adds(&rt, alloc, &mut rollup, LARGE, asked)?;
    same(&rt, &"a large file", &answer, &None);
    let answer = adds(&rt, alloc, &mut rollup, LARGE, asked)?;
    let too_many = Some(RollupAnswer::TooManyBytes);
    same(&rt, &"two large files", &answer, &too_many);
    let size = FileSize {
        len: 352,
        memsz: 1 << 62,
    };
    let answer = adds(&rt, alloc, &mut rollup, size, asked)?;
    let too_large = Some(RollupAnswer::MappedTooLarge);
    same(&rt, &"a large load", &answer, &too_large);
    has_rows(&rt, &rollup, &[(&[], 1 << 62, 1 << 62)]);
    Ok(())
}

// The label of the code.
struct IsCode;

impl LabelTest for IsCode {
    ghost use Rattle.std.specs.Prelude.{codes};
    ghost use Rattle.std.specs.Str.{bytes_eq};

    ghost holds = { λ _ label. bytes_eq label (codes ".text") };

    fn holds(&self, label: &[u8]) -> bool {
        label == b".text".as_slice()
    }
}

fn view_of(rt: &impl Abort, alloc: Global, claims: &[Claim]) -> Result<SourceView, Fail> {
    let mut seen = List::new(alloc);
    for claim in claims {
        assert!(rt; claim.label < 9);
        seen.push(LabelledClaim {
            side: claim.side,
            vm: claim.vm,
            file: claim.file,
            label: Bytes::of(alloc, LABELS[claim.label].as_bytes())?,
        })?;
    }
    Ok(SourceView {
        claims: seen,
        unmapped: Bytes::of(alloc, LABELS[0].as_bytes())?,
    })
}

// The claims of both data sources, for the plain program.
fn plain_view(rt: &impl Abort, alloc: Global) -> Result<FileView, Fail> {
    let mut file = FileView {
        len: 352,
        loads: List::new(alloc),
        sources: List::new(alloc),
    };
    for load in &loads_of(alloc, 136)? {
        file.loads.push(*load)?;
    }
    file.sources.push(view_of(rt, alloc, &segments())?)?;
    file.sources.push(view_of(rt, alloc, &sections())?)?;
    Ok(file)
}

// The sizes by both data sources of the labels that a filter passes.
fn rollup_of(rt: &impl Abort, alloc: Global, marks: Option<&[bool]>) -> Result<Rollup, Fail>
    requires { ForSome (option_copied marks) (λ m. length m ≡ 9) }
{
    let sections = sections();
    let segments = segments();
    let sources: [&[Claim]; 2] = [&segments, &sections];
    let mut rollup = Rollup::new(alloc, 2);
    let asked = Asked {
        sources: &sources,
        marks,
    };
    let answer = adds(rt, alloc, &mut rollup, SMALL, asked)?;
    same(rt, &"both", &answer, &None);
    Ok(rollup)
}

const CODE_LABEL: [bool; 9] = [false, false, false, true, false, false, false, false, false];

// The plain program, which looks at each byte, counts the same.
#[test]
fn the_plain_program_counts_the_same(rt: HostRuntime) -> Result<(), Fail> {
    let alloc = rt.alloc();
    let file = plain_view(&rt, alloc)?;
    let all = rollup_of(&rt, alloc, None)?;
    let code = rollup_of(&rt, alloc, Some(&CODE_LABEL))?;
    assert_eq!(rt; (all.len(), code.len()), (6, 1));
    agree(&rt, alloc, &all, &file, None)?;
    agree(&rt, alloc, &code, &file, Some(&IsCode))
}

fn agree(
    rt: &impl Abort,
    alloc: Global,
    rollup: &Rollup,
    file: &FileView,
    filter: Option<&IsCode>,
) -> Result<(), Fail> {
    for i in 0..rollup.len() {
        let row = rollup.row(i);
        let size = file_size_in(alloc, filter, &row.path, file)?;
        let vm = vm_size_in(alloc, filter, &row.path, file)?;
        same(rt, &i, &(size, vm), &(row.file, u128::from(row.vm)));
    }
    Ok(())
}
