//! The data sources on ELF files.

use data_sources::{ClaimAnswer, claims, open_binary};
use sample_files::{
    Class, EXECUTABLE, FUNCTION, Head, LOAD, NAMES, NULL, SYMBOL_NAMES, Section, Segment, Symbol,
    TEXT, file, plain_file, symbol_table, symbols,
};
use size_core::{BadFile, Claim, Fault, LabelPool, Side, Source, Span};
use std::alloc::Global;
use std::process::Abort;

// The first claim of a data source on a sound file.
fn first_claim(rt: &impl Abort, alloc: Global, file: &[u8], source: Source) -> Option<Claim> {
    assert!(rt; file.len() < 1 << 32);
    let binary = open_binary(file).expect(rt, "a sound file");
    let mut labels = LabelPool::new(alloc);
    let claims = claims(alloc, &binary, source, b"a.elf", &mut labels, 1 << 24);
    claims.expect(rt, "claims").first().copied()
}

// The file is sound, and the data source has this fault.
fn assert_bad(rt: &impl Abort, alloc: Global, file: &[u8], source: Source, bad: BadFile) {
    assert!(rt; file.len() < 1 << 32);
    let binary = open_binary(file).expect(rt, "a sound file");
    let mut labels = LabelPool::new(alloc);
    let answer = claims(alloc, &binary, source, b"a.elf", &mut labels, 1 << 24);
    assert_eq!(rt; answer.err(), Some(ClaimAnswer::Bad(bad)));
}

#[test]
fn bit_0_of_an_arm_function_is_no_address(rt: HostRuntime) {
    let alloc = rt.alloc();
    for (machine, start) in [(40, 0x8000), (3, 0x8001)] {
        let head = Head {
            class: Class::Bits32,
            machine,
            ..EXECUTABLE
        };
        let load = Segment {
            offset: 84,
            vaddr: 0x8000,
            filesz: 16,
            memsz: 16,
            ..LOAD
        };
        let text = Section {
            addr: 0x8000,
            ..TEXT
        };
        let function = Symbol {
            name: 1,
            value: 0x8001,
            size: 4,
            ..FUNCTION
        };
        let symbols = symbols(alloc, head, &[function]).expect(&rt, "memory");
        let table = symbol_table(&symbols, 3);
        let file = file(
            alloc,
            head,
            &[load],
            &[NULL, text, table, SYMBOL_NAMES, NAMES],
        )
        .expect(&rt, "memory");
        let first = first_claim(&rt, alloc, &file, Source::Symbols);
        assert_eq!(rt;
            first.map(|c| (c.side, c.vm)),
            Some((
                Side::Vm,
                Span {
                    space: 0,
                    start,
                    len: 4
                }
            ))
        );
    }
}

#[test]
fn a_symbol_without_its_section_is_a_fault_of_symbols_alone(rt: HostRuntime) {
    let alloc = rt.alloc();
    let function = Symbol {
        name: 1,
        value: 0x400078,
        size: 4,
        section: 0xffff,
        ..FUNCTION
    };
    let symbols = symbols(alloc, EXECUTABLE, &[function]).expect(&rt, "memory");
    let table = symbol_table(&symbols, 3);
    let file = file(
        alloc,
        EXECUTABLE,
        &[LOAD],
        &[NULL, TEXT, table, SYMBOL_NAMES, NAMES],
    )
    .expect(&rt, "memory");
    // The second symbol of the table, which begins after the 136 bytes up to the end of `.text`.
    let bad = BadFile {
        fault: Fault::BadIndex,
        offset: 136 + 24,
    };
    assert_bad(&rt, alloc, &file, Source::Symbols, bad);
    assert!(rt; first_claim(&rt, alloc, &file, Source::Sections).is_some());
}

#[test]
fn the_limit_is_the_most_that_is_claimed(rt: HostRuntime) {
    let alloc = rt.alloc();
    let file = plain_file(alloc).expect(&rt, "memory");
    assert!(rt; file.len() < 1 << 32);
    let binary = open_binary(&file).expect(&rt, "a sound file");
    let mut labels = LabelPool::new(alloc);
    labels.intern(b"[Unmapped]").expect(&rt, "memory");
    let answer = claims(alloc, &binary, Source::Sections, b"a.elf", &mut labels, 5);
    assert_eq!(rt; answer.err(), Some(ClaimAnswer::TooManyClaims));
    let all = claims(alloc, &binary, Source::Sections, b"a.elf", &mut labels, 6);
    assert_eq!(rt; all.expect(&rt, "claims").len(), 6);
    assert!(rt; labels.get(0) == b"[Unmapped]".as_slice());
}
