//! The plan of a run, and the sizes of one file by it.

ghost use Rattle.std.specs.Prelude.{◌≡◌, ◌<◌, ◌≤◌, ◌+◌, ◌^◌, length};

use bloaty_engine::{Plan, ProfileAnswer, plan, profile_file};
use custom_rewrites::RegexPatterns;
use rollup::Rollup;
use sample_files::two_functions;
use size_core::{FULL, NoMemory, Steps};
use size_options::options;
use std::alloc::Global;
use std::marker::Brand;
use std::process::Abort;
use std::sync::ledger::{Blank, Ledger};
use std::test::Fail;

// A path of labels, with its VM size and its file size.
type Row<'a> = ([&'a str; 2], u64, u64);

const WORDS: [&str; 3] = ["-d", "segments,symbols", "a.elf"];

const FILTERED: [&str; 4] = ["-d", "segments,symbols", "--source-filter=^[ab]$", "a.elf"];

const ROWS: [Row<'static>; 10] = [
    (["LOAD #0 [RX]", "[ELF Header]"], 64, 64),
    (["LOAD #0 [RX]", "[ELF Program Headers]"], 56, 56),
    (["LOAD #0 [RX]", "[section .text]"], 4, 4),
    (["LOAD #0 [RX]", "a"], 8, 8),
    (["LOAD #0 [RX]", "b"], 4, 4),
    (["[ELF Section Headers]", "[ELF Section Headers]"], 0, 320),
    (["[Unmapped]", "[Unmapped]"], 0, 2),
    (["[Unmapped]", "[section .shstrtab]"], 0, 33),
    (["[Unmapped]", "[section .strtab]"], 0, 5),
    (["[Unmapped]", "[section .symtab]"], 0, 72),
];

fn words_of(alloc: Global, words: &[&str]) -> Result<Vec<String>, NoMemory> {
    let mut owned = Vec::new(alloc);
    for word in words {
        owned.push(String::from_str(alloc, word)?)?;
    }
    Ok(owned)
}

fn add<L: Ledger>(
    alloc: Global,
    plan: &Plan,
    file: &[u8],
    total: &mut Rollup,
    blank: Blank,
) -> Result<(), ProfileAnswer>
    requires name { blank.name ≡ L.name }
    requires parts { blank.parts ≡ L.parts }
    requires some { 0 < blank.parts }
    requires short { length file.now < 2 ^ 32 }
    requires depth { total.old.depth ≡ length plan.now.sources }
    requires lengths { total.old.lengths + length file.now ≤ 2 ^ 62 }
{
    let mut steps = Steps::<L>::begin(blank);
    profile_file(alloc, plan, "a.elf", file, total, &FULL, &mut steps)
}

fn has_rows(rt: &impl Abort, total: &Rollup, wanted: &[Row<'_>]) {
    assert_eq!(rt; total.len(), wanted.len());
    for (i, (path, vm, file)) in wanted.iter().enumerate() {
        assert!(rt; i < total.len());
        let row = total.row(i);
        assert_eq!(rt; (row.vm, row.file), (*vm, *file), "row {i}");
        assert_eq!(rt; row.path.len(), path.len());
        for (level, label) in path.iter().enumerate() {
            assert!(rt; level < row.path.len());
            assert!(rt;
                row.path.get(level).as_slice() == label.as_bytes(),
                "row {i}"
            );
        }
    }
}

#[test]
fn the_paths_of_one_file(rt: HostRuntime) -> Result<(), Fail> {
    let alloc = rt.alloc();
    let file = two_functions(alloc)?;
    assert!(rt; file.len() < 1 << 32);
    let cases: [(&[&str], &[Row<'_>]); 2] = [(&WORDS, &ROWS), (&FILTERED, &ROWS[3..5])];
    for (words, rows) in cases {
        let options = options(alloc, &words_of(alloc, words)?)?;
        let mut patterns = RegexPatterns::new(Vec::new(alloc));
        let asked = plan(alloc, &options, &[], &mut patterns)?;
        assert!(rt; asked.len() == 2);
        let mut total = Rollup::new(alloc, asked.depth());
        add::<Brand>(alloc, &asked, &file, &mut total, Blank::new(1))?;
        has_rows(&rt, &total, rows);
    }
    Ok(())
}
