//! The claims of the link-edit parts: the tables whose offsets and lengths are in load commands.

ghost use Rattle.std.specs.Prelude.{◌≡◌};
ghost use Rattle.claim_sheet.specs.Adds.{Adds};
ghost use Rattle.macho_claims.specs.Claims.{link_edit_claims, part_claim, part_label, part_reach};

use claim_sheet::{ClaimSheet, Reach, Wrap, span};
use macho_file::{LinkEdit, LinkEditPart, MachoFile};
use size_core::NoMemory;

fn part_label(kind: LinkEdit) -> &'static [u8]
    ensures { result.now ≡ part_label kind }
{
    match kind {
        LinkEdit::SymbolTable => b"[Symbol Table]",
        LinkEdit::StringTable => b"[String Table]",
        LinkEdit::IndirectSymbols => b"[Indirect Symbols]",
        LinkEdit::RebaseInfo => b"[Rebase Info]",
        LinkEdit::BindingInfo => b"[Binding Info]",
        LinkEdit::WeakBindingInfo => b"[Weak Binding Info]",
        LinkEdit::LazyBindingInfo => b"[Lazy Binding Info]",
        LinkEdit::ExportInfo => b"[Export Info]",
        LinkEdit::CodeSignature => b"[Code Signature]",
        LinkEdit::SegmentSplitInfo => b"[Segment Split Info]",
        LinkEdit::FunctionStarts => b"[Function Starts]",
        LinkEdit::DataInCode => b"[Data in Code]",
        LinkEdit::CodeSignDrs => b"[Code Sign DRs]",
        LinkEdit::OptimizationHints => b"[Optimization Hints]",
        LinkEdit::ExportTrie => b"[Export Trie]",
        LinkEdit::ChainedFixups => b"[Chained Fixups]",
    }
}

// Returns the bytes of a part. Bytes after the end of a file of `len` bytes are left out.
fn part_reach(len: u64, part: &LinkEditPart) -> Reach
    ensures { result ≡ part_reach len part.now }
{
    let left = len.saturating_sub(part.offset);
    Reach::in_file(span(0, part.offset, part.len.min(left)))
}

#[tactic(auto, unfolding(crate::specs::Claims::part_claim))]
fn add_part(len: u64, part: &LinkEditPart, sheet: &mut ClaimSheet) -> Result<(), NoMemory>
    ensures { Adds result sheet.old sheet.new (part_claim len part.now) }
{
    sheet.add(part_reach(len, part), Wrap::Plain, part_label(part.kind))
}

/// Adds the claims of the link-edit parts, in the order of the commands. Bytes after the end of the file are left out.
#[tactic(auto, using(claim_sheet::proofs::LoopLemmas::list_goes, claim_sheet::proofs::ListLemmas::none_left), unfolding(crate::specs::Claims::link_edit_claims))]
pub fn add_link_edit(file: &MachoFile<'_>, sheet: &mut ClaimSheet) -> Result<(), NoMemory>
    ensures { Adds result sheet.old sheet.new (link_edit_claims file.now) }
{
    let len = file.bytes().len() as u64;
    for part in file.link_edit_parts() {
        add_part(len, &part, sheet)?;
    }
    Ok(())
}
