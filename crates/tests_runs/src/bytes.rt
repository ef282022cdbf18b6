//! Files in which each byte gets other values in turn.

use crate::ends::{Harm, assert_ends};
use crate::subjects::{ELF, MACHO, OLDER_UNITS, Subject, UNITS_OF_DWARF_5, UNITS_OF_MACHO, WASM};
use sample_files::bytes_of;
use std::alloc::Global;
use std::process::Abort;
use std::test::Fail;

// The values that a byte gets: 0, 255, 128, and the value of the byte after it.
fn values(whole: &[u8], offset: usize) -> [u8; 4] {
    let next = whole.get(offset.wrapping_add(1)).copied().unwrap_or(0);
    [0, 0xff, 0x80, next]
}

fn assert_byte(
    rt: &impl Abort,
    alloc: Global,
    whole: &[u8],
    list: &str,
    offset: usize,
) -> Result<(), Fail> {
    for value in values(whole, offset) {
        if whole.get(offset) != Some(&value) {
            let harm = Harm::Set { offset, value };
            assert_ends(rt, alloc, whole, list, harm)?;
        }
    }
    Ok(())
}

fn assert_bytes(rt: &impl Abort, alloc: Global, subject: Subject) -> Result<(), Fail> {
    let whole = bytes_of(alloc, subject.file)?;
    for offset in 0..whole.len() {
        assert_byte(rt, alloc, &whole, subject.list, offset)?;
    }
    Ok(())
}

#[test]
fn bytes_of_elf_files(rt: HostRuntime) -> Result<(), Fail> {
    for &subject in &ELF {
        assert_bytes(&rt, rt.alloc(), subject)?;
    }
    Ok(())
}

#[test]
fn bytes_of_macho_files(rt: HostRuntime) -> Result<(), Fail> {
    for &subject in &MACHO {
        assert_bytes(&rt, rt.alloc(), subject)?;
    }
    Ok(())
}

#[test]
fn bytes_of_modules(rt: HostRuntime) -> Result<(), Fail> {
    for &subject in &WASM {
        assert_bytes(&rt, rt.alloc(), subject)?;
    }
    Ok(())
}

#[test]
fn bytes_of_older_units(rt: HostRuntime) -> Result<(), Fail> {
    for &subject in &OLDER_UNITS {
        assert_bytes(&rt, rt.alloc(), subject)?;
    }
    Ok(())
}

#[test]
fn bytes_of_units_of_dwarf_5(rt: HostRuntime) -> Result<(), Fail> {
    for &subject in &UNITS_OF_DWARF_5 {
        assert_bytes(&rt, rt.alloc(), subject)?;
    }
    Ok(())
}

#[test]
fn bytes_of_units_in_macho_files(rt: HostRuntime) -> Result<(), Fail> {
    for &subject in &UNITS_OF_MACHO {
        assert_bytes(&rt, rt.alloc(), subject)?;
    }
    Ok(())
}
