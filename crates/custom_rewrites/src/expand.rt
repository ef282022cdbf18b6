//! Expanding replacements.

ghost use Rattle.std.specs.Prelude.{◌≡◌, ◌++◌, OnOk, IfOk};
ghost use Rattle.custom_rewrites.specs.Expand.{expanded, group_in};

use regex::bytes::Captures;
use size_core::NoMemory;
use std::alloc::Global;

/// Appends the text of a group of the match. A group that didn't match or doesn't exist has no text.
fn push_group(captures: &Captures<'_, '_>, index: usize, out: &mut Vec<u8>) -> Result<(), NoMemory>
    ensures { OnOk result (out.new.items ≡ out.old.items ++ group_in captures.now index) }
{
    if let Some(group) = captures.get(index) {
        out.extend_from_slice(group.as_bytes())?;
    }
    Ok(())
}

/// Expands the replacement for this match: `\0` to `\9` is the text of a group, `\\` a backslash, and any other
/// byte itself.
pub(crate) fn expansion_of(
    alloc: Global,
    captures: &Captures<'_, '_>,
    replacement: &[u8],
) -> Result<Vec<u8>, NoMemory>
    ensures { IfOk result (λ out. out.items ≡ expanded (group_in captures.now) replacement.now) }
{
    let mut out = Vec::new(alloc);
    let mut left = replacement;
    'parts: loop {
        match left {
            [] => break,
            [b'\\', digit, rest @ ..] if digit.is_ascii_digit() => {
                push_group(captures, (*digit - b'0') as usize, &mut out)?;
                left = rest;
            }
            [b'\\', b'\\', rest @ ..] => {
                out.push(b'\\')?;
                left = rest;
            }
            [byte, rest @ ..] => {
                out.push(*byte)?;
                left = rest;
            }
        }
    }
    Ok(out)
}
