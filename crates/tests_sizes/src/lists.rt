//! Labels, limits, lists, and the counter of steps.

ghost use Rattle.std.specs.Prelude.{◌≡◌, ◌<◌};

use crate::checks::{holds, same};
use size_core::{Bytes, FULL, LabelPool, Names, Path, Source, Steps, Text};
use std::alloc::Global;
use std::marker::Brand;
use std::process::Abort;
use std::sync::ledger::{Blank, Ledger};
use std::test::Fail;

#[test]
fn labels_keep_their_numbers(rt: HostRuntime) -> Result<(), Fail> {
    let mut pool = LabelPool::new(rt.alloc());
    for (label, number) in [(b".text".as_slice(), 0), (b"", 1), (b".text", 0)] {
        same(&rt, &label, &pool.intern(label)?, &number);
    }
    assert_eq!(rt; pool.len(), 2);
    assert!(rt; pool.get(1) == b"".as_slice());
    Ok(())
}

#[test]
fn limits_of_the_program(rt: HostRuntime) {
    let limits = (FULL.file, FULL.total, FULL.claims);
    assert_eq!(rt; limits, (1_073_741_824, 2_147_483_648, 16_777_216));
}

fn names_hold_copies(rt: &impl Abort, alloc: Global) -> Result<(), Fail> {
    let mut names = Names::new(alloc);
    let name = Text::of(alloc, "sections")?;
    names.push(name.copy()?)?;
    assert_eq!(rt; names.len(), 1);
    let first = names.get(0);
    holds(rt, &"a name", first.as_str() == "sections");
    let source = Source::named(first.as_slice());
    same(rt, &"a source", &source, &Some(Source::Sections));
    Ok(())
}

fn paths_hold_copies(rt: &impl Abort, alloc: Global) -> Result<(), Fail> {
    let mut path = Path::new(alloc);
    let label = Bytes::of(alloc, b"\xff")?;
    path.push(label.copy()?)?;
    assert_eq!(rt; path.len(), 1);
    holds(rt, &"a label", path.get(0).as_slice() == b"\xff".as_slice());
    Ok(())
}

#[test]
fn lists_hold_copies(rt: HostRuntime) -> Result<(), Fail> {
    names_hold_copies(&rt, rt.alloc())?;
    paths_hold_copies(&rt, rt.alloc())
}

// Counts to two, and returns how many bytes the counter takes.
fn bytes_of_counter<L: Ledger>(blank: Blank) -> usize
    requires name { blank.name ≡ L.name }
    requires parts { blank.parts ≡ L.parts }
    requires some { 0 < blank.parts }
{
    let mut steps = Steps::<L>::begin(blank);
    steps.tick();
    steps.tick();
    size_of::<Steps<L>>()
}

#[test]
fn steps_take_no_bytes(rt: HostRuntime) {
    assert_eq!(rt; bytes_of_counter::<Brand>(Blank::new(1)), 0);
}
