//! The sheet that collects claims: its limit, its labels, and what it leaves out.

use claim_sheet::{ClaimSheet, Reach, TooMany, Wrap, span};
use size_core::{Claim, LabelPool, Load, NoMemory, Side};
use std::alloc::Global;
use std::process::Abort;

const LOAD: Load = Load {
    space: 2,
    vaddr: 0x1000,
    memsz: 32,
    offset: 90,
    filesz: 16,
};

/// Adds three claims, and two that have nothing to claim.
fn add_each(sheet: &mut ClaimSheet) -> Result<(), NoMemory> {
    sheet.add(Reach::of_load(100, &LOAD), Wrap::Brackets, b"a")?;
    sheet.add(Reach::in_file(span(0, 7, 0)), Wrap::Plain, b"empty")?;
    sheet.add_some(Some(Reach::of_addresses(&LOAD)), Wrap::Section, b"b")?;
    sheet.add_some(None, Wrap::Plain, b"none")?;
    sheet.add(Reach::in_file(span(0, 7, 3)), Wrap::Plain, b"first")
}

/// A pool that has the label `first`.
fn first_pool(alloc: Global) -> Result<LabelPool, NoMemory> {
    let mut pool = LabelPool::new(alloc);
    pool.intern(b"first")?;
    Ok(pool)
}

/// What is made up to a limit, with the pool of its labels.
fn made(alloc: Global, limit: u64) -> Result<(LabelPool, Result<Vec<Claim>, TooMany>), NoMemory> {
    let mut pool = first_pool(alloc)?;
    let mut sheet = ClaimSheet::begin(alloc, &mut pool, limit);
    add_each(&mut sheet)?;
    let made = sheet.finish(&mut pool);
    Ok((pool, made))
}

/// The pool has the labels of the claims after its first one.
fn assert_labels(rt: &impl Abort, pool: &LabelPool) {
    assert!(rt; pool.len() == 3 && pool.get(1) == b"[a]".as_slice());
    assert!(rt; pool.get(2) == b"[section b]".as_slice());
}

/// The claims are the three, the load's bytes cut at the file's end.
fn assert_claims(rt: &impl Abort, claims: &[Claim]) {
    assert_eq!(rt; claims.len(), 3);
    let part = span(0, 90, 10);
    assert_eq!(rt; (claims[0].file, claims[0].vm.len), (part, 32));
    assert_eq!(rt; (claims[1].side, claims[1].label), (Side::Vm, 2));
    assert_eq!(rt; (claims[2].side, claims[2].label), (Side::File, 0));
}

#[test]
fn claims_up_to_a_limit(rt: HostRuntime) {
    let (pool, claims) = made(rt.alloc(), 3).expect(&rt, "memory");
    assert_labels(&rt, &pool);
    assert_claims(&rt, &claims.expect(&rt, "memory"));
}

#[test]
fn claims_past_the_limit(rt: HostRuntime) {
    let (pool, claims) = made(rt.alloc(), 2).expect(&rt, "memory");
    assert_labels(&rt, &pool);
    assert!(rt; claims.is_err());
}

#[test]
fn claims_on_addresses_alone(rt: HostRuntime) {
    let alloc = rt.alloc();
    let file = span(0, 7, 3);
    let vm = span(0, 9, 2);
    let mut pool = LabelPool::new(alloc);
    let mut sheet = ClaimSheet::begin_on_addresses(alloc, &mut pool, 1);
    sheet
        .add(Reach::in_file(file), Wrap::Plain, b"file")
        .expect(&rt, "memory");
    sheet
        .add(Reach::in_memory(vm), Wrap::Plain, b"vm")
        .expect(&rt, "memory");
    sheet
        .add(Reach::in_both(vm, file), Wrap::Plain, b"both")
        .expect(&rt, "memory");
    let made = sheet.finish(&mut pool).expect(&rt, "memory");
    assert_eq!(rt; (made.len(), pool.len()), (1, 1));
    assert_eq!(rt; (made[0].side, made[0].vm), (Side::Vm, vm));
    assert!(rt; pool.get(0) == b"vm".as_slice());
}
