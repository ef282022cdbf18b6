//! The claims of the data sources of a plan on a file.

ghost use Rattle.std.specs.Prelude.{◌≡◌, ◌<◌, ◌≤◌, ◌++◌, All, IfOk, length, map, slice_get, Some};
ghost use Rattle.claim_sheet.specs.Made.{AreNumbered, KeepsLabels, texts};
ghost use Rattle.custom_rewrites.specs.Rewriting.{rewritten};
ghost use Rattle.file_profile.specs.Choices.{chosen_of};
ghost use Rattle.file_profile.specs.Claims.{claims_after, claims_with_debug_file, claims_within, own_claims, within};
ghost use Rattle.file_profile.specs.Numbering.{AreClaims, IsNumbered, IsRenumbering, renumbered};
ghost use Rattle.file_profile.specs.Results.{Makes};
ghost use Rattle.file_profile.specs.Sources.{built_in};

use crate::answer::{Made, PairFile, SourceAnswer};
use crate::plan::PlanSource;
use crate::subject::Subject;
use custom_rewrites::{Rewriter, Rewrites};
use data_sources::{Binary, ClaimAnswer, claims, debug_claims};
use size_core::{Claim, LabelPool, NoMemory, Source};
use std::alloc::Global;

/// The claims of a data source. Labels are numbers of a pool.
#[derive(Drop)]
pub struct Numbered {
    /// The claims in order. The first claim that covers a byte gives its label.
    pub claims: Vec<Claim>,
    /// The label of bytes that no claim covers.
    pub unmapped: usize,
}

// Rewrites each label of `labels` once and adds it to `pool`. Returns the numbers that the rewritten labels have there.
#[tactic(auto, using(crate::proofs::ClaimLemmas::keeping))]
fn rewritten_numbers(
    alloc: Global,
    rewrites: &Rewrites,
    labels: &LabelPool,
    pool: &mut LabelPool,
) -> Result<Vec<usize>, NoMemory>
    ensures numbers { IfOk result
        (λ v. IsRenumbering (λ label. rewritten label rewrites.now) labels.now pool.new v.items) }
    ensures kept { KeepsLabels pool.old pool.new }
{
    let mut rewriter = rewrites.rewriter()?;
    let mut numbers = Vec::new(alloc);
    for k in 0..labels.len() {
        let mut text = Vec::new(alloc);
        rewriter.rewrite(labels.get(k), &mut text)?;
        let number = pool.intern(&text)?;
        numbers.push(number)?;
    }
    Ok(numbers)
}

// Gives each claim the new number of its label.
fn renumber(claims: &mut Vec<Claim>, numbers: &[usize])
    requires { All (λ c. c.label < length numbers.now) claims.old.items }
    ensures { claims.new.items ≡ map (renumbered numbers.now) claims.old.items }
{
    for i in 0..claims.len() {
        claims[i].label = numbers[claims[i].label];
    }
}

// The claims on the file itself.
fn own_claims(file: &Subject, source: Source, pool: &mut LabelPool, limit: u64) -> Made<Vec<Claim>>
    ensures { Makes AreClaims result pool.old pool.new
        (within limit (own_claims file.now source)) }
{
    let alloc = file.alloc;
    match claims(alloc, &file.binary, source, file.name, pool, limit) {
        Ok(made) => Ok(made),
        Err(answer) => Err(SourceAnswer::of_claims(PairFile::Own, answer)),
    }
}

// The first claims and then the others.
fn followed_by(mut first: Vec<Claim>, mut others: Vec<Claim>) -> Result<Vec<Claim>, NoMemory>
    ensures { IfOk result (λ v. v.items ≡ first.items ++ others.items) }
{
    if first.is_empty() {
        return Ok(others);
    }
    first.append(&mut others)?;
    Ok(first)
}

// The claims on addresses of the debug file, and then those on the file.
#[tactic(auto, using(crate::proofs::ClaimLemmas::keeping))]
fn claims_with_debug_file(
    debug: &Binary,
    file: &Subject,
    source: Source,
    pool: &mut LabelPool,
    limit: u64,
) -> Made<Vec<Claim>>
    ensures { Makes AreClaims result pool.old pool.new
        (within limit (claims_with_debug_file file.now source debug.now)) }
{
    match debug_claims(file.alloc, debug, source, pool, limit) {
        Ok(first) => {
            let own = own_claims(file, source, pool, limit - first.len() as u64)?;
            Ok(followed_by(first, own)?)
        }
        Err(ClaimAnswer::TooManyClaims) => {
            // A fault of the file itself comes first.
            own_claims(file, source, pool, 0)?;
            Err(SourceAnswer::TooManyClaims)
        }
        Err(answer) => Err(SourceAnswer::of_claims(PairFile::Debug, answer)),
    }
}

// The claims of a data source: those of the debug file, if there is one, and then those on the file.
fn all_claims(file: &Subject, source: Source, pool: &mut LabelPool, limit: u64) -> Made<Vec<Claim>>
    ensures { Makes AreClaims result pool.old pool.new (claims_within limit file.now source) }
{
    match &file.debug {
        None => own_claims(file, source, pool, limit),
        Some(debug) => claims_with_debug_file(debug, file, source, pool, limit),
    }
}

// The claims by a built-in data source.
#[tactic(auto, using(crate::proofs::ClaimLemmas::keeping))]
pub fn claims_by(file: &Subject, source: Source, pool: &mut LabelPool, limit: u64) -> Made<Numbered>
    ensures { Makes (IsNumbered (built_in source)) result pool.old pool.new
        (claims_within limit file.now source) }
{
    let unmapped = pool.intern(b"[Unmapped]")?;
    let claims = all_claims(file, source, pool, limit)?;
    Ok(Numbered { claims, unmapped })
}

/// The claims by a data source of a plan: those of its built-in source, with each label rewritten if it is a custom one.
/// Labels that are already in the pool keep their numbers.
#[tactic(auto, using(crate::proofs::ClaimLemmas::keeping))]
pub fn claims_of_source(
    chosen: &PlanSource,
    file: &Subject,
    pool: &mut LabelPool,
    limit: u64,
) -> Made<Numbered>
    ensures { Makes (IsNumbered (chosen_of chosen.now)) result pool.old pool.new
        (claims_within limit file.now chosen.now.base) }
{
    let Some(rewrites) = chosen.rewrites else {
        return claims_by(file, chosen.base, pool, limit);
    };
    let alloc = file.alloc;
    let mut labels = LabelPool::new(alloc);
    let mut made = claims_by(file, chosen.base, &mut labels, limit)?;
    let numbers = rewritten_numbers(alloc, rewrites, &labels, pool)?;
    renumber(&mut made.claims, &numbers);
    made.unmapped = numbers[made.unmapped];
    Ok(made)
}
