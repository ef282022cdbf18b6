//! The rows of one file.

ghost use Rattle.std.specs.Prelude.{◌≡◌, ◌<◌, [], IfOk, All, length, map, slice_index_or};
ghost use Rattle.std.specs.List.{range_with_len};
ghost use Rattle.std.specs.Option.{ForSome};
ghost use Rattle.size_model.specs.Numbered.{text_of};
ghost use Rattle.path_rows.specs.Rows.{FitTogether};
ghost use Rattle.rollup.specs.Order.{AreNewRows, HaveRows, IsKeyed, IsRanked, RankLabels, digits_after, keyed_row, rank_in};
ghost use Rattle.rollup.specs.Sizes.{Entry, no_entry, row_of};

use crate::order::ranks_of;
use crate::sizes::PathSizes;
use path_rows::RollupRow;
use size_core::{Bytes, LabelPool, NoMemory, Path};
use std::alloc::{AllocError, Global};

/// An entry of a file's sizes, and the key that puts it in order.
#[derive(Drop)]
pub struct Keyed<K> {
    /// The key: the ranks of its labels in their order, or the number whose digits they are.
    pub key: K,
    /// The index of the entry.
    pub entry: usize,
}

// The entries of a file, and the pool of their labels.
#[derive(Clone, Copy)]
struct Entries<'s> {
    alloc: Global,
    pool: &'s LabelPool,
    sizes: &'s PathSizes,
}

fn ranks_along(alloc: Global, ranks: &[usize], numbers: &[usize]) -> Result<Vec<usize>, AllocError>
    ensures { IfOk result (λ v. v.items ≡ map (rank_in ranks.now) numbers.now) }
{
    let mut along = Vec::with_capacity(alloc, numbers.len())?;
    for number in numbers {
        along.push(ranks.get(*number).copied().unwrap_or(0))?;
    }
    Ok(along)
}

// The entries with the ranks of their labels.
fn ranked_entries(file: Entries<'_>, ranks: &[usize]) -> Result<Vec<Keyed<Vec<usize>>>, AllocError>
    ensures entries { IfOk result (λ v. map (λ r. r.entry) v.items
        ≡ range_with_len 0 (length file.entry.sizes.now)) }
    ensures ranks { IfOk result (λ v. All (IsRanked ranks.now file.entry.sizes.now) v.items) }
{
    let mut ranked = Vec::with_capacity(file.alloc, file.sizes.len())?;
    for entry in 0..file.sizes.len() {
        let (numbers, _) = file.sizes.get(entry);
        let key = ranks_along(file.alloc, ranks, numbers)?;
        ranked.push(Keyed { key, entry })?;
    }
    Ok(ranked)
}

// The path of the labels with these numbers.
fn spell(alloc: Global, pool: &LabelPool, numbers: &[usize]) -> Result<Path, NoMemory>
    requires { All (λ n. n < length pool.now) numbers.now }
    ensures { IfOk result (λ p. p ≡ map (text_of pool.now) numbers.now) }
{
    let mut path = Path::with_capacity(alloc, numbers.len())?;
    for number in numbers {
        path.push(Bytes::of(alloc, pool.get(*number))?)?;
    }
    Ok(path)
}

// The row of an entry.
fn row_at(file: Entries<'_>, i: usize) -> Result<RollupRow, NoMemory>
    requires within { i < length file.sizes.now }
    requires rows { HaveRows file.pool.now file.sizes.now }
    ensures { IfOk result
        (λ r. r ≡ row_of file.entry.pool.now (slice_index_or file.entry.sizes.now i no_entry)) }
{
    let (numbers, size) = file.sizes.get(i);
    Ok(RollupRow {
        path: spell(file.alloc, file.pool, numbers)?,
        vm: size.vm as u64,
        file: size.file as u64,
    })
}

// The rows of these entries.
fn rows_of<K>(file: Entries<'_>, keyed: &[Keyed<K>]) -> Result<Vec<RollupRow>, NoMemory>
    requires within { All (λ k. k.entry < length file.sizes.now) keyed.now }
    requires rows { HaveRows file.pool.now file.sizes.now }
    ensures { IfOk result
        (λ v. v.items ≡ map (keyed_row file.entry.pool.now file.entry.sizes.now) keyed.now) }
{
    let mut rows = Vec::with_capacity(file.alloc, keyed.len())?;
    for entry in keyed {
        rows.push(row_at(file, entry.entry)?)?;
    }
    Ok(rows)
}

// The ranks of labels as the digits of one number, or `None` if that number is too large.
fn key_of(ranks: &[usize], numbers: &[usize]) -> Option<usize>
    ensures digits { ForSome result
        (λ key. key ≡ digits_after (length ranks.now) 0 (map (rank_in ranks.now) numbers.now)) }
    ensures below { ForSome result
        (λ _. All (λ r. r < length ranks.now) (map (rank_in ranks.now) numbers.now)) }
{
    let base = ranks.len();
    let mut key = 0usize;
    for number in numbers {
        let rank = *ranks.get(*number)?;
        if rank >= base {
            return None;
        }
        key = key.checked_mul(base)?.checked_add(rank)?;
    }
    Some(key)
}

// How many labels the first entry has.
fn first_depth(sizes: &PathSizes) -> usize {
    if sizes.len() == 0 {
        return 0;
    }
    let (numbers, _) = sizes.get(0);
    numbers.len()
}

// The entries with their keys, if each has one and has `depth` labels.
fn keyed_entries(
    file: Entries<'_>,
    ranks: &[usize],
    depth: usize,
) -> Result<Option<Vec<Keyed<usize>>>, AllocError>
    ensures entries { IfOk result (λ o. ForSome o
        (λ v. map (λ k. k.entry) v.items ≡ range_with_len 0 (length file.entry.sizes.now))) }
    ensures keys { IfOk result (λ o. ForSome o
        (λ v. All (IsKeyed ranks.now depth file.entry.sizes.now) v.items)) }
{
    let mut keyed = Vec::with_capacity(file.alloc, file.sizes.len())?;
    for entry in 0..file.sizes.len() {
        let (numbers, _) = file.sizes.get(entry);
        if numbers.len() != depth {
            return Ok(None);
        }
        let Some(key) = key_of(ranks, numbers) else {
            return Ok(None);
        };
        keyed.push(Keyed { key, entry })?;
    }
    Ok(Some(keyed))
}

// The rows of a file, the greatest path first, if each entry has a key: keys are compared as plain numbers, and no entry
// needs a vector for its ranks.
fn keyed_rows(file: Entries<'_>, ranks: &[usize]) -> Result<Option<Vec<RollupRow>>, NoMemory>
    requires rows { HaveRows file.pool.now file.sizes.now }
    requires labels { RankLabels file.pool.now ranks.now }
    ensures { IfOk result (λ o. ForSome o
        (λ v. AreNewRows file.entry.pool.now file.entry.sizes.now v.items)) }
{
    let depth = first_depth(file.sizes);
    let Some(mut keyed) = keyed_entries(file, ranks, depth)? else {
        return Ok(None);
    };
    keyed.sort_unstable_by(|a, b| b.key.cmp(&a.key));
    let rows = rows_of(file, keyed.as_slice())?;
    Ok(Some(rows))
}

/// The rows of a file, the greatest path first. Its sizes are dropped.
pub fn new_rows(
    alloc: Global,
    pool: &LabelPool,
    sizes: PathSizes,
) -> Result<Vec<RollupRow>, NoMemory>
    requires below { All (λ (e : Entry). All (λ n. n < length pool.now) e.numbers) sizes }
    requires fits { FitTogether [] (map (row_of pool.now) sizes) }
    ensures { IfOk result (λ v. AreNewRows pool.now sizes v.items) }
{
    let ranks = ranks_of(alloc, pool)?;
    let file = Entries {
        alloc,
        pool,
        sizes: &sizes,
    };
    if let Some(rows) = keyed_rows(file, ranks.as_slice())? {
        return Ok(rows);
    }

    // Most paths come in ascending runs, which a stable sort merges.
    let mut ranked = ranked_entries(file, ranks.as_slice())?;
    ranked.sort_by(|a, b| b.key.as_slice().cmp(&a.key.as_slice()))?;
    rows_of(file, ranked.as_slice())
}
