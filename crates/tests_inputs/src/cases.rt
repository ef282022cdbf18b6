//! Cases that are written as one text. A line is a case: what is given, ` => `, and what is expected. A line that begins
//! with `# ` is a comment.

use std::alloc::Global;
use std::process::Abort;

/// The cases of a text: what is given, and what is expected. Fails on a line that isn't a case, or if there are more or
/// fewer cases than `count`.
pub fn cases<'a>(
    rt: &impl Abort,
    alloc: Global,
    text: &'a str,
    count: usize,
) -> Vec<(&'a str, &'a str)> {
    let mut cases = Vec::new(alloc);
    for line in text.lines() {
        if !line.starts_with("# ") {
            let case = line.split_once(" => ").expect(rt, "a case");
            cases.push(case).expect(rt, "memory");
        }
    }
    assert_eq!(rt; cases.len(), count, "the number of cases");
    cases
}

/// Fails, and prints what was given, unless the result is the expected one.
pub fn same(rt: &impl Abort, given: &str, found: &str, wanted: &str) {
    assert_eq!(rt; found, wanted, "{given}");
}
