//! Files that are cut to each of their lengths.

use crate::ends::{Harm, assert_ends};
use crate::subjects::{ELF, MACHO, OLDER_UNITS, Subject, UNITS_OF_DWARF_5, UNITS_OF_MACHO, WASM};
use bloaty_engine::Outcome;
use sample_files::bytes_of;
use std::alloc::Global;
use std::process::Abort;
use std::test::Fail;

fn assert_cuts(rt: &impl Abort, alloc: Global, subject: Subject) -> Result<(), Fail> {
    let whole = bytes_of(alloc, subject.file)?;
    for len in 0..=whole.len() {
        let outcome = assert_ends(rt, alloc, &whole, subject.list, Harm::CutTo(len))?;
        assert!(rt; len < whole.len() || outcome == Outcome::Done);
    }
    Ok(())
}

#[test]
fn cut_elf_files(rt: HostRuntime) -> Result<(), Fail> {
    for &subject in &ELF {
        assert_cuts(&rt, rt.alloc(), subject)?;
    }
    Ok(())
}

#[test]
fn cut_macho_files(rt: HostRuntime) -> Result<(), Fail> {
    for &subject in &MACHO {
        assert_cuts(&rt, rt.alloc(), subject)?;
    }
    Ok(())
}

#[test]
fn cut_modules(rt: HostRuntime) -> Result<(), Fail> {
    for &subject in &WASM {
        assert_cuts(&rt, rt.alloc(), subject)?;
    }
    Ok(())
}

#[test]
fn cut_files_with_units(rt: HostRuntime) -> Result<(), Fail> {
    for &subject in &OLDER_UNITS {
        assert_cuts(&rt, rt.alloc(), subject)?;
    }
    for &subject in &UNITS_OF_DWARF_5 {
        assert_cuts(&rt, rt.alloc(), subject)?;
    }
    for &subject in &UNITS_OF_MACHO {
        assert_cuts(&rt, rt.alloc(), subject)?;
    }
    Ok(())
}
