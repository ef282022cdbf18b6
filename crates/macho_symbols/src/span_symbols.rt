//! The symbols that take part in the search for spans.

ghost use Rattle.std.specs.Prelude.{◌≡◌, ℕ, List, true, ◌+◌, ◌≤◌, ◌<◌, ◌^◌, ◌++◌, ◌∷◌, [], IfOk, OnOk, length, map, if◌then◌else◌};
ghost use Rattle.macho_symbols.specs.Names.{AreNamed, IsNamed};
ghost use Rattle.macho_symbols.specs.Shown.{placed_shown};
ghost use Rattle.macho_symbols.specs.Spans.{extent_numbered, lies_in, takes_part};
ghost use Rattle.macho_symbols.specs.Taken.{Reads, taken_from};

use crate::answer::SpanAnswer;
use crate::extent::Extent;
use crate::file_table::FileTable;
use crate::names::Names;
use crate::symbol::PlacedSymbol;
use macho_records::{N_SECT, N_STAB, N_TYPE};
use size_core::NoMemory;
use std::alloc::Global;

/// Returns whether an address lies in the section with this number.
fn lies_in(extents: &[Extent], sect: u8, value: u64) -> bool
    ensures { result ≡ lies_in value (extent_numbered extents.now sect) }
{
    if sect == 0 {
        return false;
    }
    match extents.get(sect as usize - 1) {
        Some(extent) => extent.addr <= value && value - extent.addr < extent.size,
        None => false,
    }
}

/// Returns whether a symbol takes part: it isn't for a debugger, it is defined in a section, it has a name,
/// and its value lies in its section.
#[tactic(auto, unfolding(crate::specs::Spans::takes_part))]
fn takes_part(extents: &[Extent], symbol: &PlacedSymbol<'_>) -> bool
    ensures part { result ≡ takes_part extents.now (placed_shown symbol.now) }
    ensures named { result ≡ true → 0 < length symbol.now.name.now }
{
    if symbol.kind & N_STAB != 0 || symbol.kind & N_TYPE != N_SECT {
        return false;
    }
    if symbol.name.is_empty() {
        return false;
    }
    lies_in(extents, symbol.sect, symbol.value)
}

/// Adds a symbol if it takes part.
#[tactic(auto, using(crate::proofs::NameLemmas::named_more))]
fn push_if_taking_part<'a>(
    taking: &mut Vec<PlacedSymbol<'a>>,
    extents: &[Extent],
    symbol: PlacedSymbol<'a>,
) -> Result<(), NoMemory>
    ensures taking { OnOk result (map placed_shown taking.new.items
        ≡ map placed_shown taking.old.items
        ++ (if takes_part extents.now (placed_shown symbol.entry)
        then placed_shown symbol.entry ∷ [] else [])) }
    ensures named { (file : List ℕ) → AreNamed file taking.old.items → IsNamed file symbol.entry
        → OnOk result (AreNamed file taking.new.items) }
{
    if takes_part(extents, &symbol) {
        taking.push(symbol)?;
    }
    Ok(())
}

/// Returns the symbols of a table that take part, in table order. Each symbol of the table is read. Bad is the fault
/// of the first symbol with one (NameOutside).
#[tactic(auto, using(crate::proofs::NameLemmas::none_named, crate::proofs::TakenLemmas::taken_for_bad, crate::proofs::TakenLemmas::taken_next, crate::proofs::TakenLemmas::taken_bad, crate::proofs::TakenLemmas::taken_end, crate::proofs::TakenLemmas::taken_none, crate::proofs::TakenLemmas::few_more))]
pub fn symbols_taking_part<'a>(
    alloc: Global,
    table: FileTable<'a>,
    extents: &[Extent],
) -> Result<Vec<PlacedSymbol<'a>>, SpanAnswer>
    ensures value { let t = table.entry in Reads (λ v. map placed_shown v.items) result
        (taken_from t.file.now t.fields extents.now 0 t.fields.nsyms) }
    ensures few { IfOk result (λ v. length (map placed_shown v.items) ≤ table.entry.fields.nsyms) }
    ensures named { IfOk result (λ v. AreNamed table.entry.file.now v.items) }
{
    let mut names = Names::of(alloc, table.strings());
    let mut taking = Vec::new(alloc);
    'rows: for k in 0..table.fields.nsyms {
        let symbol = table.next_symbol(k, &mut names)?;
        push_if_taking_part(&mut taking, extents, symbol)?;
    }
    Ok(taking)
}
