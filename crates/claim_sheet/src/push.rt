//! Pushing one claim onto a list.

ghost use Rattle.std.specs.Prelude.{◌≡◌, OnOk, OnErr, IfOk};
ghost use Rattle.claim_sheet.specs.Known.{HasClaim, label_text};
ghost use Rattle.claim_sheet.specs.Made.{AreNumbered, IsNumber, Pushes, texts};
ghost use Rattle.claim_sheet.specs.Reaches.{claim_of};

use crate::labels::{ClaimLabel, Wrap};
use crate::reach::Reach;
use size_core::{Claim, LabelPool, NoMemory};
use std::alloc::Global;

// Returns the number of a text. Consecutive claims often have the same label, and comparing it with that of the last
// claim is cheaper than a lookup in the pool.
#[tactic(auto, using(crate::proofs::MadeLemmas::same_number, crate::proofs::MadeLemmas::interned))]
fn number_of_text(pool: &mut LabelPool, claims: &[Claim], text: &[u8]) -> Result<usize, NoMemory>
    requires { AreNumbered pool.old claims.now }
    ensures number { IfOk result (λ i. IsNumber pool.old pool.new text.now i) }
    ensures same { OnErr result (pool.new ≡ pool.old) }
{
    if !claims.is_empty() {
        let last = claims[claims.len() - 1].label;
        if pool.get(last) == text {
            return Ok(last);
        }
    }
    pool.intern(text)
}

// Returns the number of a label. A plain text is copied only if it is new in the pool.
fn number_of(
    alloc: Global,
    pool: &mut LabelPool,
    claims: &[Claim],
    label: ClaimLabel<'_>,
) -> Result<usize, NoMemory>
    requires numbered { AreNumbered pool.old claims.now }
    requires there { HasClaim (texts pool.old claims.now) label }
    ensures number { IfOk result (λ i.
        IsNumber pool.old pool.new (label_text (texts pool.old claims.now) label.entry) i) }
    ensures same { OnErr result (pool.new ≡ pool.old) }
{
    match label {
        ClaimLabel::OfClaim(position) => Ok(claims[position].label),
        ClaimLabel::Text(text, Wrap::Plain) => number_of_text(pool, claims, text),
        ClaimLabel::Text(text, wrap) => {
            let text = wrap.text(alloc, text)?;
            number_of_text(pool, claims, &text)
        }
    }
}

/// Pushes the claim on these bytes. Its label gets a number in the pool only if the claim is pushed, so that each
/// new label of the pool is the label of a claim.
pub fn push(
    alloc: Global,
    pool: &mut LabelPool,
    claims: &mut Vec<Claim>,
    reach: Reach,
    label: ClaimLabel<'_>,
) -> Result<(), NoMemory>
    requires numbered { AreNumbered pool.old claims.old.items }
    requires there { HasClaim (texts pool.old claims.old.items) label }
    ensures pushes { OnOk result (Pushes pool.old pool.new claims.old.items claims.new.items
        (claim_of reach (label_text (texts pool.old claims.old.items) label.entry))) }
    ensures same_claims { OnErr result (claims.new.items ≡ claims.old.items) }
    ensures same_pool { OnErr result (pool.new ≡ pool.old) }
{
    // Reserves memory first: a failed push would leave a label in the pool that no claim uses.
    claims.reserve(1)?;
    let number = number_of(alloc, pool, claims, label)?;
    claims.push(Claim {
        side: reach.side,
        vm: reach.vm,
        file: reach.file,
        label: number,
    })?;
    Ok(())
}
