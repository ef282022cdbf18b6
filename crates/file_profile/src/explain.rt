//! The explanation of one location of a file by the data sources of a plan.

ghost use Rattle.std.specs.Prelude.{◌≡◌, ◌<◌, ◌^◌, length, IfOk, IsTrue};
ghost use Rattle.custom_rewrites.specs.Rewriting.{rewritten};
ghost use Rattle.place_explain.specs.Explanation.{under_name};
ghost use Rattle.file_profile.specs.Choices.{chosen_of};
ghost use Rattle.file_profile.specs.Claims.{claims_within};
ghost use Rattle.file_profile.specs.Explanations.{AreExplanations, Explains, IsExplained, explained_place, is_in, named_sources, opened_explained, sources_explained};
ghost use Rattle.file_profile.specs.Results.{Yields};

use crate::answer::{Made, PlaceAnswer};
use crate::claims::claims_by;
use crate::plan::{Plan, PlanSource};
use crate::subject::Subject;
use data_sources::open_binary;
use place_explain::{
    Explained, NumberedClaims, PlaceSource, explain_source, is_inside, rewrites_the_label_alone,
};
use size_core::{Bytes, LabelPool, Limits, Names, NoMemory, Place, Source, Text};
use std::alloc::Global;

/// What is explained.
#[derive(Clone, Copy)]
pub struct Request {
    /// The location.
    pub place: Place,
    /// The first claim that covers the location is kept, and up to this many more. If it is 0, all are kept.
    pub shown: u32,
    /// The most claims of all data sources together.
    pub limit: u64,
}

/// The explanation by one data source, and how many claims the data source makes.
#[derive(Drop)]
pub struct CountedExplanation {
    /// The explanation before labels are rewritten.
    pub explained: Explained,
    /// The number of all claims of the data source, whether they cover the location or not.
    pub claims: u64,
}

// The explanation of a location by a built-in data source. Its claims and their labels are dropped here.
fn explain_built_in(
    request: &Request,
    base: Source,
    subject: &Subject,
    limit: u64,
) -> Made<CountedExplanation>
    requires inside { IsTrue (is_in subject.now.binary request.now.place) }
    ensures { Yields (IsExplained request.now.place request.now.shown subject.now)
        (claims_within limit subject.now base) result }
{
    let alloc = subject.alloc;
    let mut pool = LabelPool::new(alloc);
    let made = claims_by(subject, base, &mut pool, limit)?;
    let source = NumberedClaims {
        claims: &made.claims,
        pool: &pool,
        unmapped: made.unmapped,
    };
    let explained = explain_source(alloc, subject.base(), source, &request.place, request.shown)?;
    let claims = made.claims.len() as u64;
    Ok(CountedExplanation { explained, claims })
}

// A label, rewritten by a data source.
fn rewritten_label(alloc: Global, chosen: &PlanSource, label: Bytes) -> Result<Bytes, NoMemory>
    ensures { IfOk result (λ text. text ≡ rewritten label (chosen_of chosen.now).rewrites) }
{
    match chosen.rewrites {
        None => Ok(label),
        Some(rewrites) => {
            let mut text = Vec::new(alloc);
            rewrites.rewrite(label.as_slice(), &mut text)?;
            Bytes::of(alloc, &text)
        }
    }
}

// The explanation of a location by a data source, under the data source's name in `-d`.
fn explain_under_name(
    alloc: Global,
    chosen: &PlanSource,
    name: &Text,
    explained: Explained,
) -> Result<PlaceSource, NoMemory>
    ensures { let rewrites = (chosen_of chosen.now).rewrites in
        IfOk result (λ s. s ≡ under_name name.now (λ label. rewritten label rewrites) explained) }
{
    let label = rewritten_label(alloc, chosen, explained.label)?;
    let name = name.copy()?;
    Ok(PlaceSource {
        name,
        label,
        claims: explained.claims,
        more: explained.more,
    })
}

// The explanations of a location by the data sources of the plan, in their order and under these names. The claims of a
// data source are dropped before those of the next are made.
fn explain_all(
    plan: &Plan,
    names: &Names,
    request: &Request,
    subject: &Subject,
) -> Made<Vec<PlaceSource>>
    requires names { length names.now ≡ length plan.now.sources }
    requires inside { IsTrue (is_in subject.now.binary request.now.place) }
    ensures { Yields AreExplanations
        (sources_explained request.now.limit request.now.place request.now.shown subject.now
        (named_sources names.now plan.now.sources)) result }
{
    // This law lets the explanation be made first and its label rewritten afterwards.
    rewrites_the_label_alone();
    let alloc = subject.alloc;
    let mut all = Vec::new(alloc);
    let mut left = request.limit;
    for i in 0..plan.len() {
        let chosen = plan.source(i);
        let made = explain_built_in(request, chosen.base, subject, left)?;
        left -= made.claims;
        all.push(explain_under_name(alloc, &chosen, names.get(i), made.explained)?)?;
    }
    Ok(all)
}

// Explains a location of an opened file by each data source of the plan.
#[tactic(auto, unfolding(crate::specs::Explanations::opened_explained))]
fn explain_opened(
    plan: &Plan,
    names: &Names,
    request: &Request,
    subject: &Subject,
) -> Result<Vec<PlaceSource>, PlaceAnswer>
    requires names { length names.now ≡ length plan.now.sources }
    ensures { Explains result
        (opened_explained request.now.limit request.now.shown request.now.place subject.now
        (named_sources names.now plan.now.sources)) }
{
    let base = subject.base();
    if !is_inside(base, base.len(), &request.place) {
        return Err(PlaceAnswer::PlaceOutside);
    }
    let made = explain_all(plan, names, request, subject)?;
    // A fault of a data source comes before a mapped size that is too large.
    if base.mapped_size() > (1 << 63) - 1 {
        return Err(PlaceAnswer::MappedTooLarge);
    }
    Ok(made)
}

/// Explains a location of the file `name` by each data source of the plan: its label and the claims that cover it.
/// `names` are the data sources' names in `-d`. If `shown` is 0, all these claims are kept, otherwise the first and up
/// to `shown` more.
///
/// # Errors
///
/// The first of these:
///
/// - `Bad`: the first fault of the file,
/// - `PlaceOutside`: the file offset isn't below the file's length, or the address isn't mapped,
/// - `Bad` or `TooManyClaims` of the first data source that has a fault or with which the claims exceed
///   `limits.claims`,
/// - `MappedTooLarge`: the mapped size of the file exceeds 2^63 - 1.
///
/// `NoMemory` may come at any step.
#[tactic(auto, unfolding(crate::specs::Explanations::explained_place))]
pub fn explain_place(
    alloc: Global,
    plan: &Plan,
    names: &Names,
    place: &Place,
    shown: u32,
    name: &str,
    file: &[u8],
    limits: &Limits,
) -> Result<Vec<PlaceSource>, PlaceAnswer>
    requires short { length file.now < 2 ^ 32 }
    requires names { length names.now ≡ length plan.now.sources }
    ensures { Explains result
        (explained_place limits.now.claims shown place.now name.now file.now
        (named_sources names.now plan.now.sources)) }
{
    let binary = open_binary(file)?;
    let subject = Subject::new(alloc, name.as_bytes(), binary, None)?;
    let request = Request {
        place: *place,
        shown,
        limit: limits.claims,
    };
    explain_opened(plan, names, &request, &subject)
}
