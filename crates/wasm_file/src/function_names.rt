//! Pairs of a function index and a name.

ghost use Rattle.std.specs.Prelude.{◌≡◌, [], ◌∷◌, None, Ok, is_ok, MatchOption};
ghost use Rattle.std.specs.Iterator.{YieldsFirstBy, item_count};
ghost use Rattle.wasm_file.specs.Names.{pair_at, pairs_in};
ghost use Rattle.wasm_file.specs.Records.{Reads, fault_in, values_in};
ghost use Rattle.wasm_file.specs.Shown.{named, pair};

use crate::reads::{name, number};
use byte_cursor::Cursor;
use std::marker::Model;

/// Reads a pair of a function index and a name.
#[tactic(auto, unfolding(crate::specs::Names::pair_at))]
fn read_pair<'a>(cursor: &mut Cursor<'a>) -> Option<(u32, &'a [u8])>
    ensures { Reads (pair result) pair_at cursor.old cursor.new }
{
    let index = number(cursor)?;
    let name = name(cursor)?;
    Some((index, name))
}

/// Returns whether each of the next `count` pairs can be read.
#[tactic(auto, using(crate::proofs::RecordLemmas::fault_end, crate::proofs::RecordLemmas::fault_here, crate::proofs::RecordLemmas::fault_later))]
fn are_pairs(cursor: &Cursor, count: u32) -> bool
    ensures { result ≡ is_ok (fault_in pair_at count cursor.now) }
{
    let mut rest = cursor.fork();
    for i in 0..count {
        match read_pair(&mut rest) {
            Some(_) => {}
            None => return false,
        }
    }
    true
}

/// Returns the next pair. `left` counts the remaining pairs, which can all be read.
#[tactic(auto, using(crate::proofs::RecordLemmas::values_end, crate::proofs::RecordLemmas::values_next, crate::proofs::RecordLemmas::fault_here, crate::proofs::RecordLemmas::fault_later))]
fn next_pair<'a>(cursor: &mut Cursor<'a>, left: &mut u32) -> Option<(u32, &'a [u8])>
    requires { fault_in pair_at left.old cursor.old ≡ Ok tt }
    ensures there { fault_in pair_at left.new cursor.new ≡ Ok tt }
    ensures item { MatchOption result
        ((values_in pair_at left.old cursor.old ≡ [])
        × (values_in pair_at left.new cursor.new ≡ []))
        (λ p. values_in pair_at left.old cursor.old
        ≡ named p ∷ values_in pair_at left.new cursor.new) }
{
    if *left == 0 {
        return None;
    }
    *left -= 1;
    match read_pair(cursor) {
        Some(pair) => Some(pair),
        None => None,
    }
}

/// The pairs of function index and name that `next` has not returned yet, in file order.
#[derive(Drop)]
pub struct FunctionNames<'a> {
    cursor: Cursor<'a>,
    left: u32,
}

impl<'a> Model for FunctionNames<'a> {
    ghost use Rattle.std.specs.Prelude.{◌≡◌, ℕ, List, Ok};
    ghost use Rattle.wasm_file.specs.Names.{pair_at};
    ghost use Rattle.wasm_file.specs.Records.{fault_in, values_in};

    ghost Value = { List (ℕ × List ℕ) };

    ghost view = { λ n. values_in pair_at n.left n.cursor };

    ghost invariant = { λ n. fault_in pair_at n.left n.cursor ≡ Ok tt };
}

impl<'a> Iterator for FunctionNames<'a> {
    type Item = (u32, &'a [u8]);

    ghost next_gives = { YieldsFirstBy named (λ s. s) };

    ghost remaining = { item_count (λ s. s) };

    fn next(&mut self) -> Option<(u32, &'a [u8])> {
        next_pair(&mut self.cursor, &mut self.left)
    }
}

/// Returns the pairs of a subsection, and none if one of them can't be read.
#[tactic(auto, unfolding(crate::specs::Names::pairs_in, crate::specs::Records::vector, crate::specs::Records::fault_in, crate::specs::Records::values_in))]
pub fn pairs_in<'a>(contents: Cursor<'a>) -> FunctionNames<'a>
    ensures { result ≡ pairs_in (Some contents.entry) }
{
    let mut cursor = contents;
    match number(&mut cursor) {
        Some(left) if are_pairs(&cursor, left) => FunctionNames { cursor, left },
        _ => no_names(),
    }
}

/// Returns an empty list of names.
#[tactic(auto, using(crate::proofs::RecordLemmas::fault_end, crate::proofs::RecordLemmas::values_end))]
pub fn no_names<'a>() -> FunctionNames<'a>
    ensures { result ≡ [] }
{
    FunctionNames {
        cursor: Cursor::new(0, &[]),
        left: 0,
    }
}
