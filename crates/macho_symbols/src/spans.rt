//! The spans of symbols.

ghost use Rattle.std.specs.Prelude.{◌≡◌, ℕ, List, IfSome, ◌-◌, ◌<◌, ◌^◌, ◌++◌, ◌∷◌, [], IfOk, MatchOption, OnOk, Some, length, map, not, slice_get, take, true, false, if◌then◌else◌};
ghost use Rattle.std.specs.List.{list_any};
ghost use Rattle.macho_symbols.specs.Index.{AreAddresses, IsIndex};
ghost use Rattle.byte_cursor.specs.Numbers.{text};
ghost use Rattle.macho_symbols.specs.Names.{AreNamed, AreNamedSpans};
ghost use Rattle.macho_symbols.specs.Shown.{named_shown, placed_shown};
ghost use Rattle.macho_symbols.specs.Taken.{Reads, TakePart};
ghost use Rattle.macho_symbols.specs.Spans.{extent_end, extent_numbered, is_at, least_above, span_of, spans_of_taking, table_spans, takes_part};

use crate::answer::SpanAnswer;
use crate::extent::Extent;
use crate::file_table::FileTable;
use crate::index::{Key, index_of, position};
use crate::span_symbols::symbols_taking_part;
use crate::symbol::PlacedSymbol;
use size_core::NoMemory;
use std::alloc::Global;

/// The address range of a symbol, which starts at its value, with a file offset of its name.
#[derive(Clone, Copy, Debug)]
pub struct NamedSpan<'a> {
    /// The symbol's name.
    pub name: &'a [u8],
    /// A file offset at which the text, up to the next zero byte, is the name.
    pub name_place: u64,
    /// Its value, which is a virtual address.
    pub start: u64,
    /// Its size in bytes.
    pub len: u64,
}

// The symbols that take part, the sorted index of their sections and values, and the extents of the sections.
#[derive(Clone, Copy)]
struct IndexedSymbols<'s, 'a> {
    extents: &'s [Extent],
    symbols: &'s [PlacedSymbol<'a>],
    keys: &'s [Key],
}

/// Returns whether symbol `i` is the first one with its section and value.
fn is_first(symbols: &[PlacedSymbol<'_>], keys: &[Key], i: usize, symbol: &PlacedSymbol<'_>) -> bool
    requires index { IsIndex (map placed_shown symbols.now) keys.now }
    requires addresses { AreAddresses (map placed_shown symbols.now) }
    requires symbol { slice_get (map placed_shown symbols.now) i ≡ Some (placed_shown symbol.now) }
    ensures { result
        ≡ not (list_any (is_at (placed_shown symbol.now)) (take i (map placed_shown symbols.now))) }
{
    let at = position(symbol);
    let first = keys.partition_point(|key| key.position < at);
    keys[first].number as usize == i
}

/// Returns the next greater value of a symbol in the same section. `None` if there is none.
fn next_value(symbols: &[PlacedSymbol<'_>], keys: &[Key], symbol: &PlacedSymbol<'_>) -> Option<u64>
    requires index { IsIndex (map placed_shown symbols.now) keys.now }
    requires addresses { AreAddresses (map placed_shown symbols.now) }
    ensures { result ≡ least_above (placed_shown symbol.now) (map placed_shown symbols.now) }
{
    let at = position(symbol);
    let next = keys.partition_point(|key| key.position <= at);
    if next >= keys.len() {
        return None;
    }
    let other = &symbols[keys[next].number as usize];
    if other.sect == symbol.sect {
        Some(other.value)
    } else {
        None
    }
}

/// Returns the number of bytes from the value of a symbol to the end of its section. The symbol takes part.
#[tactic(auto, unfolding(crate::specs::Spans::takes_part))]
fn rest_of_section(extents: &[Extent], symbol: &PlacedSymbol<'_>) -> u64
    requires { takes_part extents.now (placed_shown symbol.now) ≡ true }
    ensures { result ≡ extent_end (extent_numbered extents.now symbol.now.sect) - symbol.now.value }
{
    let extent = &extents[symbol.sect as usize - 1];
    extent.size - (symbol.value - extent.addr)
}

/// Returns the span of symbol `i`, if it is the first one with its section and value.
#[tactic(auto, unfolding(crate::specs::Spans::span_of))]
fn span_at<'a>(
    indexed: IndexedSymbols<'_, 'a>,
    i: usize,
    symbol: &PlacedSymbol<'a>,
) -> Option<NamedSpan<'a>>
    requires index { IsIndex (map placed_shown indexed.symbols.now) indexed.keys.now }
    requires addresses { AreAddresses (map placed_shown indexed.symbols.now) }
    requires symbol { slice_get (map placed_shown indexed.symbols.now) i
        ≡ Some (placed_shown symbol.now) }
    requires part { takes_part indexed.extents.now (placed_shown symbol.now) ≡ true }
    ensures span { let all = map placed_shown indexed.entry.symbols.now in
        let s = placed_shown symbol.now in
        MatchOption result (list_any (is_at s) (take i all) ≡ true)
        (λ x. (list_any (is_at s) (take i all) ≡ false)
        × (named_shown x ≡ span_of indexed.entry.extents.now all s)) }
    ensures name { IfSome result (λ x. x.name ≡ symbol.now.name) }
    ensures place { IfSome result (λ x. x.name_place ≡ symbol.now.name_place) }
{
    if !is_first(indexed.symbols, indexed.keys, i, symbol) {
        return None;
    }
    let len = match next_value(indexed.symbols, indexed.keys, symbol) {
        Some(end) => end - symbol.value,
        None => rest_of_section(indexed.extents, symbol),
    };
    Some(NamedSpan {
        name: symbol.name,
        name_place: symbol.name_place,
        start: symbol.value,
        len,
    })
}

/// Adds the span of symbol `i`, if it is the first one with its section and value.
#[tactic(auto, using(crate::proofs::NameLemmas::spans_named_more))]
fn push_span<'a>(
    spans: &mut Vec<NamedSpan<'a>>,
    indexed: IndexedSymbols<'_, 'a>,
    i: usize,
    symbol: &PlacedSymbol<'a>,
) -> Result<(), NoMemory>
    requires index { IsIndex (map placed_shown indexed.symbols.now) indexed.keys.now }
    requires addresses { AreAddresses (map placed_shown indexed.symbols.now) }
    requires symbol { slice_get (map placed_shown indexed.symbols.now) i
        ≡ Some (placed_shown symbol.now) }
    requires part { takes_part indexed.extents.now (placed_shown symbol.now) ≡ true }
    ensures spans { let all = map placed_shown indexed.entry.symbols.now in
        let s = placed_shown symbol.now in
        OnOk result (map named_shown spans.new.items
        ≡ map named_shown spans.old.items
        ++ (if list_any (is_at s) (take i all) then []
        else span_of indexed.entry.extents.now all s ∷ [])) }
    ensures named { (file : List ℕ) → AreNamedSpans file spans.old.items
        → text file symbol.now.name_place ≡ Some symbol.now.name.now
        → OnOk result (AreNamedSpans file spans.new.items) }
{
    if let Some(span) = span_at(indexed, i, symbol) {
        spans.push(span)?;
    }
    Ok(())
}

/// Returns the spans of symbols that take part, in symbol order. An index that is sorted once finds the
/// next value.
#[tactic(auto, using(crate::proofs::NameLemmas::no_spans_named, crate::proofs::SpanLemmas::span_next, crate::proofs::SpanLemmas::spans_end, crate::proofs::SpanLemmas::spans_begin, crate::proofs::SpanLemmas::part_at, crate::proofs::LeastLemmas::shown_at))]
fn spans_of<'a>(
    alloc: Global,
    extents: &[Extent],
    symbols: &[PlacedSymbol<'a>],
) -> Result<Vec<NamedSpan<'a>>, NoMemory>
    requires few { length symbols.now < 2 ^ 32 }
    requires part { TakePart extents.now (map placed_shown symbols.now) }
    ensures spans { IfOk result (λ v. map named_shown v.items
        ≡ spans_of_taking extents.now (map placed_shown symbols.now)) }
    ensures named { (file : List ℕ) → AreNamed file symbols.now
        → IfOk result (λ v. AreNamedSpans file v.items) }
{
    let keys = index_of(alloc, symbols)?;
    let indexed = IndexedSymbols {
        extents,
        symbols,
        keys: keys.as_slice(),
    };
    let mut spans = Vec::new(alloc);
    'rows: for (i, symbol) in symbols.iter().enumerate() {
        push_span(&mut spans, indexed, i, symbol)?;
    }
    Ok(spans)
}

/// Returns the spans of the symbols of a table, in table order. `extents` has the address range of each section. A symbol
/// takes part if it isn't for a debugger, is defined in a section that contains its value, and has a name. Its span ends
/// at the next greater value of the symbols that take part in the same section, or at the end of the section. Of several
/// symbols of one section with one value, the first has the span. Bad is the fault of the first symbol with one
/// (NameOutside), whether or not it takes part.
#[tactic(auto, using(crate::proofs::SpanLemmas::spans_are, crate::proofs::SpanLemmas::taken_part))]
pub fn spans_of_table<'a>(
    alloc: Global,
    table: FileTable<'a>,
    extents: &[Extent],
) -> Result<Vec<NamedSpan<'a>>, SpanAnswer>
    ensures spans { Reads (λ v. map named_shown v.items) result
        (table_spans table.entry.file.now table.entry.fields extents.now) }
    ensures names { IfOk result (λ v. AreNamedSpans table.entry.file.now v.items) }
{
    let taking = symbols_taking_part(alloc, table, extents)?;
    let spans = spans_of(alloc, extents, &taking)?;
    Ok(spans)
}
