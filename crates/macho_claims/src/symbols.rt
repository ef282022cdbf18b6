//! The claims of symbols (`mach-o/nlist.h`).

ghost use Rattle.std.specs.Prelude.{◌≡◌, List, Some, Ok, Err, IfOk, IsErrOf, OnOk, map};
ghost use Rattle.std.specs.List.{flat_map};
ghost use Rattle.size_core.specs.declared.fault.BadFile.{BadFile as BadFileSpec};
ghost use Rattle.size_model.specs.declared.view.LabelledClaim.{LabelledClaim};
ghost use Rattle.byte_cursor.specs.Numbers.{text};
ghost use Rattle.macho_symbols.specs.Names.{AreNamedSpans};
ghost use Rattle.macho_symbols.specs.Shown.{named_shown};
ghost use Rattle.macho_file.specs.Spans.{spans};
ghost use Rattle.claim_sheet.specs.Adds.{Adds, AddsRead};
ghost use Rattle.claim_sheet.specs.Known.{IsKnown};
ghost use Rattle.claim_sheet.specs.LongNames.{AreKnownNames, AreNames};
ghost use Rattle.macho_claims.specs.SymbolClaims.{span_claim, symbols_claims};

use claim_sheet::{ClaimSheet, KnownLabel, LongNames, Reach, Stop, span};
use macho_file::{MachoFile, NamedSpan, SpanAnswer};
use size_core::NoMemory;
use std::alloc::Global;

// Returns the spans of the symbols. A span ends at the next symbol or at the end of the section.
fn spans_of<'a>(alloc: Global, file: &MachoFile<'a>) -> Result<Vec<NamedSpan<'a>>, Stop>
    ensures names { IfOk result (λ v. AreNamedSpans file.now v.items) }
    ensures spans { IfOk result (λ v. spans file.now ≡ Ok (map named_shown v.items)) }
    ensures bad { (bad : BadFileSpec) → IsErrOf result (Stop.Bad bad) → spans file.now ≡ Err bad }
{
    match file.named_spans(alloc) {
        Ok(spans) => Ok(spans),
        Err(SpanAnswer::Bad(bad)) => Err(Stop::Bad(bad)),
        Err(SpanAnswer::NoMemory) => Err(Stop::NoMemory),
    }
}

// Returns the label of a span. A long name that an earlier span has isn't looked up again.
#[tactic(auto, using(claim_sheet::proofs::LongNameLemmas::found_known))]
fn label_of<'a>(symbol: &NamedSpan<'a>, names: &LongNames<'a>) -> KnownLabel<'a>
    requires names { AreNames names.now }
    requires name { text names.now.file.now symbol.now.name_place ≡ Some symbol.now.name.now }
    ensures text { result.text.now ≡ symbol.now.name.now }
    ensures known { (made : List LabelledClaim) → AreKnownNames made names.now
        → IsKnown made result }
{
    match names.label_at(symbol.name_place) {
        Some(label) => label,
        None => KnownLabel {
            text: symbol.name,
            claim: None,
        },
    }
}

#[tactic(auto, unfolding(crate::specs::SymbolClaims::span_claim))]
fn add_span<'a>(
    symbol: &NamedSpan<'a>,
    names: &mut LongNames<'a>,
    sheet: &mut ClaimSheet,
) -> Result<(), NoMemory>
    requires names { AreNames names.old }
    requires name { text names.old.file.now symbol.now.name_place ≡ Some symbol.now.name.now }
    requires known { AreKnownNames sheet.old.made names.old }
    ensures adds { Adds result sheet.old sheet.new (span_claim (named_shown symbol.now)) }
    ensures names { OnOk result (AreNames names.new) }
    ensures file { names.new.file ≡ names.old.file }
    ensures known { OnOk result (AreKnownNames sheet.new.made names.new) }
{
    let mut label = label_of(symbol, names);
    let addresses = span(0, symbol.start, symbol.len);
    sheet.add_known(Reach::in_memory(addresses), &mut label)?;
    names.keep(symbol.name_place, label)
}

// Adds the claims of spans, in order.
#[tactic(auto, using(claim_sheet::proofs::ListLemmas::shown_goes, claim_sheet::proofs::ListLemmas::shown_ends))]
fn add_spans<'a>(
    spans: &[NamedSpan<'a>],
    names: &mut LongNames<'a>,
    sheet: &mut ClaimSheet,
) -> Result<(), NoMemory>
    requires names { AreNames names.old }
    requires named { AreNamedSpans names.old.file.now spans.now }
    requires known { AreKnownNames sheet.old.made names.old }
    ensures { Adds result sheet.old sheet.new (flat_map span_claim (map named_shown spans.now)) }
{
    for symbol in spans {
        add_span(symbol, names, sheet)?;
    }
    Ok(())
}

/// Adds the claims of the spans of the symbols, in the order of the symbol table. Bad is the first fault of the table
/// or of a symbol. Symbols without a span may have faults too.
#[tactic(auto, unfolding(crate::specs::SymbolClaims::symbols_claims))]
pub fn add_symbols(alloc: Global, file: &MachoFile<'_>, sheet: &mut ClaimSheet) -> Result<(), Stop>
    ensures { AddsRead result sheet.old sheet.new (symbols_claims file.now) }
{
    let spans = spans_of(alloc, file)?;
    let mut names = LongNames::new(alloc, file.bytes());
    add_spans(&spans, &mut names, sheet).map_err(Stop::from)
}
