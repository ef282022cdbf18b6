//! An index of symbols by position.

ghost use Rattle.std.specs.Prelude.{◌≡◌, ◌+◌, ◌*◌, ◌<◌, ◌^◌, IfOk, length, map};
ghost use Rattle.macho_symbols.specs.Index.{AreAddresses, IsIndex, keys_from, position};
ghost use Rattle.macho_symbols.specs.Shown.{placed_shown};

use crate::symbol::PlacedSymbol;
use size_core::NoMemory;
use std::alloc::Global;

/// The position of a symbol and its number in a list.
#[derive(Clone, Copy)]
pub struct Key {
    /// `sect * 2^64 + value`.
    pub position: u128,
    /// The index of the symbol in the list, counted from 0.
    pub number: u32,
}

/// Returns the position of a symbol: `sect * 2^64 + value`.
pub fn position(symbol: &PlacedSymbol<'_>) -> u128
    ensures value { result ≡ position (placed_shown symbol.now) }
    ensures address { symbol.now.value < 2 ^ 64 }
{
    symbol.sect as u128 * (1 << 64) + symbol.value as u128
}

/// Returns the keys of symbols, in symbol order.
#[tactic(auto, using(crate::proofs::IndexLemmas::key_next, crate::proofs::IndexLemmas::keys_over, crate::proofs::IndexLemmas::addresses_more, crate::proofs::IndexLemmas::addresses_whole))]
fn keys_of(alloc: Global, symbols: &[PlacedSymbol<'_>]) -> Result<Vec<Key>, NoMemory>
    requires { length symbols.now < 2 ^ 32 }
    ensures keys { IfOk result (λ v. v.items ≡ keys_from 0 (map placed_shown symbols.now)) }
    ensures addresses { IfOk result (λ _. AreAddresses (map placed_shown symbols.now)) }
{
    let mut keys = Vec::new(alloc);
    'rows: for (i, symbol) in symbols.iter().enumerate() {
        keys.push(Key {
            position: position(symbol),
            number: i as u32,
        })?;
    }
    Ok(keys)
}

/// Returns the keys of symbols, sorted by position. Keys with the same position are in symbol order.
pub fn index_of(alloc: Global, symbols: &[PlacedSymbol<'_>]) -> Result<Vec<Key>, NoMemory>
    requires { length symbols.now < 2 ^ 32 }
    ensures index { IfOk result (λ v. IsIndex (map placed_shown symbols.now) v.items) }
    ensures addresses { IfOk result (λ _. AreAddresses (map placed_shown symbols.now)) }
{
    let mut keys = keys_of(alloc, symbols)?;
    keys.sort_by_key(|key| key.position)?;
    Ok(keys)
}
