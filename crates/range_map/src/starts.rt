//! The starts of ranges in ascending order.

ghost use Rattle.std.specs.Prelude.{◌≡◌, ◌^◌, ◌<◌, ◌≤◌, length, map, All, IfOk};
ghost use Rattle.std.specs.List.Sorted.{IsNonDecreasingBy, IsPermutation};
ghost use Rattle.range_map.specs.Ranges.{IsRange};
ghost use Rattle.range_map.specs.Starts.{pair_of, pairs_of};
ghost use Rattle.range_map.specs.Sweep.{number_at, start_at, starts_from};

use size_model::Piece;
use std::alloc::{AllocError, Global};

/// The position after the last start. No range reaches past it.
pub const END: u128 = 1 << 97;

// The numbers in packed starts are below this one.
const NUMBERS: u128 = 1 << 32;

/// The starts of ranges with the ranges' numbers, sorted by start.
#[derive(Drop)]
pub enum Starts {
    /// Each as one number, `start * 2^32 + number`, which sorts fast. The numbers of up to 2^32 ranges fit.
    Packed(Vec<u128>),
    /// Each start with the number of its range.
    Pairs(Vec<(u128, usize)>),
}

fn packed(alloc: Global, claims: &[Piece]) -> Result<Vec<u128>, AllocError>
    requires ranges { All IsRange claims.now }
    requires few { length claims.now ≤ 2 ^ 32 }
    ensures same { IfOk result
        (λ v. IsPermutation (starts_from 0 claims.now) (map pair_of v.items)) }
    ensures sorted { IfOk result (λ v. IsNonDecreasingBy (λ p. p.0) (map pair_of v.items)) }
{
    let mut keys = Vec::with_capacity(alloc, claims.len())?;
    for (i, claim) in claims.iter().enumerate() {
        keys.push(claim.start * NUMBERS + i as u128)?;
    }
    keys.sort()?;
    Ok(keys)
}

fn pairs(alloc: Global, claims: &[Piece]) -> Result<Vec<(u128, usize)>, AllocError>
    ensures same { IfOk result (λ v. IsPermutation (starts_from 0 claims.now) v.items) }
    ensures sorted { IfOk result (λ v. IsNonDecreasingBy (λ p. p.0) v.items) }
{
    let mut starts = Vec::new(alloc);
    for (i, claim) in claims.iter().enumerate() {
        starts.push((claim.start, i))?;
    }
    starts.sort_by_key(|start| start.0)?;
    Ok(starts)
}

fn start_of_packed(keys: &[u128], i: usize) -> u128
    ensures { result ≡ start_at (map pair_of keys.now) i }
{
    match keys.get(i) {
        Some(key) => *key / NUMBERS,
        None => END,
    }
}

fn start_of_pair(starts: &[(u128, usize)], i: usize) -> u128
    ensures { result ≡ start_at starts.now i }
{
    match starts.get(i) {
        Some(start) => start.0,
        None => END,
    }
}

impl Starts {
    /// The starts of these ranges.
    pub fn of(alloc: Global, claims: &[Piece]) -> Result<Starts, AllocError>
        requires { All IsRange claims.now }
        ensures same { IfOk result (λ s. IsPermutation (starts_from 0 claims.now) (pairs_of s)) }
        ensures sorted { IfOk result (λ s. IsNonDecreasingBy (λ p. p.0) (pairs_of s)) }
    {
        if claims.len() as u128 <= NUMBERS {
            let keys = packed(alloc, claims)?;
            return Ok(Starts::Packed(keys));
        }
        let starts = pairs(alloc, claims)?;
        Ok(Starts::Pairs(starts))
    }

    /// The number of starts.
    pub fn len(&self) -> usize
        ensures { result ≡ length (pairs_of self.now) }
    {
        match self {
            Starts::Packed(keys) => keys.len(),
            Starts::Pairs(starts) => starts.len(),
        }
    }

    /// The number of the range whose start has this index.
    pub fn number(&self, i: usize) -> usize
        requires { i < length (pairs_of self.now) }
        ensures { result ≡ number_at (pairs_of self.now) i }
    {
        match self {
            Starts::Packed(keys) => (keys[i] % NUMBERS) as usize,
            Starts::Pairs(starts) => starts[i].1,
        }
    }

    /// The start with this index, or END after the last one.
    pub fn start(&self, i: usize) -> u128
        ensures { result ≡ start_at (pairs_of self.now) i }
    {
        match self {
            Starts::Packed(keys) => start_of_packed(keys.as_slice(), i),
            Starts::Pairs(starts) => start_of_pair(starts.as_slice(), i),
        }
    }
}
