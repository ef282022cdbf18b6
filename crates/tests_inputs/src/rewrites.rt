//! Patterns, and rewrites of labels.

use config_text::{CustomSource, parse};
use custom_rewrites::{PatternAnswer, Patterns, RegexPatterns, RewriteAnswer, Rewrites};
use std::alloc::Global;
use std::process::Abort;

/// The first source of a configuration of one.
fn first_source(rt: &impl Abort, alloc: Global, text: &[u8]) -> CustomSource {
    let mut sources = parse(alloc, text).expect(rt, "a configuration");
    sources.pop().expect(rt, "a source")
}

// Labels, and what they are rewritten to.
const REWRITTEN: [(&[u8], &[u8]); 8] = [
    (b".text", b""),
    (b"x.text", b"x"),
    (b"y.text", b"y.text"),
    (b"../third_party/abc/x.c", b"third_party/abc"),
    (b"src/third_party/abc", b"last"),
    (b"src/abc", b"src/abc"),
    (b"[Unmapped]", b"[Unmapped]"),
    (b"a\xffbc", b"<\xffb\\b>"),
];

const MINE: &[u8] = b"custom_data_source { name: 'mine' base_data_source: 'sections'
  rewrite { pattern: '^(x)?\\\\.text$' replacement: '\\\\1' }
  rewrite { pattern: '^(\\\\.\\\\./)?(third_party/\\\\w+)' replacement: '\\\\2' }
  rewrite { pattern: '(?-u:\\\\xff)(.)' replacement: '<\\\\0\\\\9\\\\\\\\\\\\1>' }
  rewrite { pattern: 'party' replacement: 'last' } }";

// The rewrites of a configuration's one source.
fn rewrites_of(rt: &impl Abort, alloc: Global, text: &[u8]) -> Rewrites {
    let source = first_source(rt, alloc, text);
    let mut patterns = RegexPatterns::new(Vec::new(alloc));
    Rewrites::build(alloc, &source, &mut patterns).expect(rt, "rewrites")
}

#[test]
fn rewrites_labels(rt: HostRuntime) {
    let alloc = rt.alloc();
    let rewrites = rewrites_of(&rt, alloc, MINE);
    let mut rewriter = rewrites.rewriter().expect(&rt, "memory");
    for &(label, want) in &REWRITTEN {
        let mut out = Vec::new(alloc);
        rewriter.rewrite(label, &mut out).expect(&rt, "memory");
        assert!(rt; out.as_slice() == want);
    }
}

#[test]
fn rewrites_one_label(rt: HostRuntime) {
    let alloc = rt.alloc();
    let rewrites = rewrites_of(&rt, alloc, MINE);
    let mut out = Vec::new(alloc);
    rewrites.rewrite(b"x.text", &mut out).expect(&rt, "memory");
    assert!(rt; out.as_slice() == b"x".as_slice());
}

const TWO: &[u8] = b"custom_data_source { name: 'm' base_data_source: 'symbols'
  rewrite { pattern: 'a' replacement: '' } rewrite { pattern: 'b' replacement: '' } }";

// A pattern isn't compiled, for this reason.
fn is_refused(
    rt: &impl Abort,
    alloc: Global,
    patterns: &mut RegexPatterns,
    pattern: &str,
    answer: PatternAnswer,
) {
    assert_eq!(rt; patterns.build(alloc, pattern).err(), Some(answer));
}

#[test]
fn refuses_by_number(rt: HostRuntime) {
    let alloc = rt.alloc();
    let refusing = vec![in alloc; 1, 4].expect(&rt, "memory");
    let mut patterns = RegexPatterns::new(refusing);
    is_refused(&rt, alloc, &mut patterns, "zzz", PatternAnswer::TooBig);
    is_refused(&rt, alloc, &mut patterns, "(", PatternAnswer::Syntax);
    let source = first_source(&rt, alloc, TWO);
    let answer = Rewrites::build(alloc, &source, &mut patterns).err();
    assert_eq!(rt; answer, Some(RewriteAnswer::PatternTooBig(1)));
    let large = "(a{1000}){1000}";
    is_refused(&rt, alloc, &mut patterns, large, PatternAnswer::TooBig);
}

#[test]
fn finds_in_bytes(rt: HostRuntime) {
    let alloc = rt.alloc();
    let mut patterns = RegexPatterns::new(Vec::new(alloc));
    let pattern = patterns.build(alloc, "zzz").expect(&rt, "a pattern");
    assert!(rt; !pattern.finds(alloc, b".text").expect(&rt, "memory"));
    let pattern = patterns.build(alloc, "^a[0-9]+$").expect(&rt, "a pattern");
    let mut finder = pattern.finder(alloc).expect(&rt, "memory");
    assert!(rt; finder.finds(b"a12"));
    assert!(rt; !finder.finds(b"a\xff12"));
    assert!(rt; finder.finds(b"a3"));
}
