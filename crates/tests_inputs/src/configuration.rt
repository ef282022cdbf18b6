//! Configurations: the custom data sources that they declare, and their faults.

use crate::cases::{cases, same};
use config_text::{ConfigAnswer, ConfigKind, CustomSource, parse};
use size_core::Source;
use std::alloc::Global;
use std::process::Abort;

const NAME_FAULTS: &str =
    r#"# A configuration => the kind and the offset of its first fault. After `custom_data_source { ` the offset is 21.
x => UnknownField 0
@ => Syntax 0
1a => Syntax 0
"x => Syntax 0
'x' "y => Syntax 0
custom_data_sources { => UnknownField 0
custom_data_source => Syntax 18
custom_data_source # { => Syntax 22
custom_data_source :: { => Syntax 20
custom_data_source { => Syntax 20
custom_data_source { , } => Syntax 21
custom_data_source { Name: 'm' } => UnknownField 21
custom_data_source { pattern: 'm' } => UnknownField 21
custom_data_source { name 'm' } => Syntax 26
custom_data_source { name: m } => Syntax 27
custom_data_source { name: 'm',; } => Syntax 31
custom_data_source { name: 'm', 'n } => Syntax 32
custom_data_source { name: 'm' => Syntax 30
custom_data_source { name: 'm' name => RepeatedField 31
custom_data_source { rewrite { name: 'm' => UnknownField 31
custom_data_source { rewrite: { } => MissingField 32
custom_data_source { rewrite { pattern: '' } } => MissingField 43
custom_data_source { rewrite { pattern: '' pattern => RepeatedField 43
custom_data_source { rewrite { pattern: '' 'a' # } => Syntax 50
"#;

const VALUE_FAULTS: &str =
    r#"# A configuration => the kind and the offset of its first fault. After `name: ` the offset is 27.
custom_data_source { name: "m => BadString 27
custom_data_source { name: 'm" } => BadString 27
custom_data_source { name: '\x6d' } => BadString 27
custom_data_source { name: 'm\ => BadString 27
custom_data_source { name: '' "\0" } => BadString 30
custom_data_source { name: '' @ => BadName 27
custom_data_source { name: 'm' ',' } => BadName 27
custom_data_source: { name: "sections" base_data_source: "symbols" } => BadName 28
custom_data_source { name: "m" } => MissingField 31
custom_data_source { base_data_source: 'symbols' } => MissingField 49
custom_data_source { name: "m" base_data_source: "q" } => BadBase 49
custom_data_source { rewrite { replacement: '\\q' } => BadReplacement 44
custom_data_source { rewrite { replacement: '\\1\\' } => BadReplacement 44
custom_data_source { name: 'm' base_data_source: 'symbols' } custom_data_source { name: 'm' } => BadName 88
custom_data_source { name: 'm' base_data_source: 'symbols' };,  => Syntax 61
"#;

// The first fault of a configuration has this kind and this offset.
fn has_fault(rt: &impl Abort, alloc: Global, text: &str, wanted: &str) {
    let Some(ConfigAnswer::Bad(kind, at)) = parse(alloc, text.as_bytes()).err() else {
        panic!(rt; "no fault in {text}");
    };
    let found = format!(in alloc; "{kind:?} {at}").expect(rt, "memory");
    same(rt, text, found.as_str(), wanted);
}

fn have_faults(rt: &impl Abort, alloc: Global, text: &str, count: usize) {
    let cases = cases(rt, alloc, text, count);
    for &(text, wanted) in cases.as_slice() {
        has_fault(rt, alloc, text, wanted);
    }
}

#[test]
fn faults_of_names_and_marks(rt: HostRuntime) {
    have_faults(&rt, rt.alloc(), NAME_FAULTS, 24);
}

#[test]
fn faults_of_values(rt: HostRuntime) {
    have_faults(&rt, rt.alloc(), VALUE_FAULTS, 15);
}

// Configurations of more than one line, or that aren't UTF-8, with the kind and the offset of the first fault.
const OTHER_FAULTS: [(&[u8], ConfigKind, u64); 6] = [
    (b"# x\n; y", ConfigKind::Syntax, 4),
    (b"# \"x\r\n\t y", ConfigKind::UnknownField, 8),
    (
        b"custom_data_source { name: \"m\n\" }",
        ConfigKind::BadString,
        27,
    ),
    (
        b"custom_data_source { name: 'm' # m\n 'n",
        ConfigKind::BadString,
        36,
    ),
    (
        b"custom_data_source { name: ',\xff' }",
        ConfigKind::NotUtf8,
        27,
    ),
    (
        b"custom_data_source { rewrite { replacement: '\\\\\xc3' }",
        ConfigKind::NotUtf8,
        44,
    ),
];

#[test]
fn faults_after_a_line_and_outside_utf8(rt: HostRuntime) {
    let alloc = rt.alloc();
    for &(text, kind, at) in &OTHER_FAULTS {
        assert_eq!(rt; parse(alloc, text).err(), Some(ConfigAnswer::Bad(kind, at)));
    }
}

const TWO_SOURCES: &[u8] =
    b"custom_data_source: {\n  name: 'm' # of two\n \"\\\"i\\\\n'e\"\n  base_data_source: \"sections\",
  rewrite { pattern: '^(x)?\\\\.text$'; replacement: '\\\\1' };
  rewrite: { replacement: \"\\\\\\\\\" \"\\\\2\\n\" pattern: \"^(\\\\.\\\\./)?(third_party/\\\\w+)\" }\n},
custom_data_source{base_data_source:'symbols'name:'other'}";

// A source has this name, this base and this number of rewrites.
fn is_source(rt: &impl Abort, source: &CustomSource, name: &str, base: Source, rewrites: usize) {
    assert_eq!(rt; source.name.as_str(), name);
    assert_eq!(rt; source.base, base);
    assert_eq!(rt; source.rewrites.len(), rewrites);
}

// Rewrite `i` of a source has this pattern and this replacement.
fn rewrites_so(
    rt: &impl Abort,
    source: &CustomSource,
    i: usize,
    pattern: &str,
    replacement: &[u8],
) {
    assert!(rt; i < source.rewrites.len());
    let rewrite = source.rewrites.get(i);
    assert_eq!(rt; rewrite.pattern.as_str(), pattern);
    assert!(rt; rewrite.replacement.as_slice() == replacement);
}

#[test]
fn reads_sources(rt: HostRuntime) {
    let alloc = rt.alloc();
    let none = parse(alloc, b"# nothing").expect(&rt, "a configuration");
    assert_eq!(rt; none.len(), 0);
    let sources = parse(alloc, TWO_SOURCES).expect(&rt, "a configuration");
    assert_eq!(rt; sources.len(), 2);
    is_source(&rt, &sources[0], "m\"i\\n'e", Source::Sections, 2);
    rewrites_so(&rt, &sources[0], 0, "^(x)?\\.text$", b"\\1");
    let pattern = "^(\\.\\./)?(third_party/\\w+)";
    rewrites_so(&rt, &sources[0], 1, pattern, b"\\\\\\2\n");
    is_source(&rt, &sources[1], "other", Source::Symbols, 0);
}

/// `count` sources, of 55 bytes each.
fn sources(rt: &impl Abort, alloc: Global, count: u8) -> Vec<u8> {
    let mut text = Vec::new(alloc);
    for k in 0..count {
        text.extend_from_slice(b"custom_data_source{name:\"")
            .expect(rt, "memory");
        text.extend_from_slice(&[b'0' + k / 10 % 10, b'0' + k % 10])
            .expect(rt, "memory");
        text.extend_from_slice(b"\"base_data_source:\"symbols\"}")
            .expect(rt, "memory");
    }
    text
}

/// A source with `count` rewrites, of 34 bytes each, from offset 19 on.
fn rewrites(rt: &impl Abort, alloc: Global, count: u8) -> Vec<u8> {
    let mut text = Vec::from_slice(alloc, b"custom_data_source{").expect(rt, "memory");
    for _ in 0..count {
        let rewrite = b"rewrite{pattern:\"a\"replacement:\"\"}";
        text.extend_from_slice(rewrite).expect(rt, "memory");
    }
    text.push(b'}').expect(rt, "memory");
    text
}

#[test]
fn counts_sources_and_rewrites(rt: HostRuntime) {
    let alloc = rt.alloc();
    let found = parse(alloc, &sources(&rt, alloc, 64)).expect(&rt, "a configuration");
    assert_eq!(rt; found.len(), 64);
    let answer = parse(alloc, &sources(&rt, alloc, 65)).err();
    assert_eq!(rt; answer, Some(ConfigAnswer::Bad(ConfigKind::TooMany, 3520)));
    let answer = parse(alloc, &rewrites(&rt, alloc, 64)).err();
    assert_eq!(rt;
        answer,
        Some(ConfigAnswer::Bad(ConfigKind::MissingField, 2195))
    );
    let answer = parse(alloc, &rewrites(&rt, alloc, 65)).err();
    assert_eq!(rt; answer, Some(ConfigAnswer::Bad(ConfigKind::TooMany, 2195)));
}
