//! The claims that cover a byte, with their numbers and labels.

ghost use Rattle.std.specs.Prelude.{◌≡◌, ◌+◌, ◌<◌, ◌==◌, min, if◌then◌else◌, All, IfOk, IsTrue, length, map};
ghost use Rattle.size_model.specs.Numbered.{numbered_view, text_of};
ghost use Rattle.place_explain.specs.Explanation.{explained, label_of_first};
ghost use Rattle.place_explain.specs.Naming.{named_at, AreNumbered, IsNumber};
ghost use Rattle.place_explain.specs.Numbers.{within_limit};
ghost use Rattle.place_explain.specs.Places.{is_inside};

use crate::covering::explain;
use dual_map::Base;
use size_core::{Bytes, Claim, LabelPool, List, NoMemory, Place, Side, Text};
use std::alloc::Global;

/// The numbers of claims, counted from 1.
pub type Numbers = List<u64>;

/// A claim with its number and its label.
#[derive(Debug, Drop)]
pub struct NamedClaim {
    /// The claim's number in the list of its data source, counted from 1.
    pub number: u64,
    /// The claim's side.
    pub side: Side,
    /// The claim's label before any rewrite.
    pub label: Bytes,
}

/// Claims with their numbers.
pub type NamedClaims = List<NamedClaim>;

/// The explanation of a byte by a data source, before labels are rewritten.
#[derive(Debug, Drop)]
pub struct Explained {
    /// The label of the byte.
    pub label: Bytes,
    /// The claims that cover the byte. The first one gives the label.
    pub claims: NamedClaims,
    /// The number of further claims that a limit leaves out.
    pub more: u64,
}

/// The explanation of a byte by a data source, with the data source's name.
#[derive(Debug, Drop)]
pub struct PlaceSource {
    /// The name of the data source.
    pub name: Text,
    /// The label of the byte, rewritten by the data source's rewrites.
    pub label: Bytes,
    /// The claims that cover the byte. The first one gives the label.
    pub claims: NamedClaims,
    /// The number of further claims that a limit leaves out.
    pub more: u64,
}

/// The claims of a data source. Their labels are numbers in a pool.
#[derive(Clone, Copy)]
pub struct NumberedClaims<'c, 'p> {
    /// The claims in order. The first claim that covers a byte gives its label.
    pub claims: &'c [Claim],
    /// The pool of the labels.
    pub pool: &'p LabelPool,
    /// The number of the label for bytes that no claim covers.
    pub unmapped: usize,
}

// The number of claims that a limit keeps of `len` claims. A limit of 0 keeps all.
fn count_within(limit: u32, len: usize) -> usize
    ensures { result ≡ (if limit == 0 then len else min len (limit + 1)) }
{
    if limit == 0 {
        len
    } else {
        len.min(limit as usize + 1)
    }
}

impl NumberedClaims<'_, '_> {
    // The claim with this number, and its label.
    fn named_claim(self, alloc: Global, number: u64) -> Result<NamedClaim, NoMemory>
        requires numbered { AreNumbered self.pool.now self.claims.now }
        requires number { IsNumber self.claims.now number }
        ensures { IfOk result
            (λ c. c ≡ named_at self.entry.pool.now self.entry.claims.now number) }
    {
        let claim = &self.claims[number as usize - 1];
        Ok(NamedClaim {
            number,
            side: claim.side,
            label: Bytes::of(alloc, self.pool.get(claim.label))?,
        })
    }

    // The claims with these numbers, as far as the limit keeps them.
    fn named(self, alloc: Global, numbers: &Numbers, limit: u32) -> Result<NamedClaims, NoMemory>
        requires numbered { AreNumbered self.pool.now self.claims.now }
        requires numbers { All (IsNumber self.claims.now) numbers.now }
        ensures { IfOk result (λ v. v ≡ map (named_at self.entry.pool.now self.entry.claims.now)
            (within_limit limit numbers.now)) }
    {
        let mut named = NamedClaims::new(alloc);
        for k in 0..count_within(limit, numbers.len()) {
            let claim = self.named_claim(alloc, *numbers.get(k))?;
            named.push(claim)?;
        }
        Ok(named)
    }

    // The label of the first of these claims, or else the label for uncovered bytes.
    fn label_of_first(self, alloc: Global, claims: &NamedClaims) -> Result<Bytes, NoMemory>
        requires { self.unmapped < length self.pool.now }
        ensures { IfOk result (λ b. b
            ≡ label_of_first (text_of self.entry.pool.now self.entry.unmapped) claims.now) }
    {
        if claims.len() == 0 {
            return Bytes::of(alloc, self.pool.get(self.unmapped));
        }
        claims.get(0).label.copy()
    }
}

/// The explanation of a byte of the file of this base by a data source, before labels are rewritten. A `limit` above 0
/// keeps the first claim that covers the byte and up to `limit` more. Only the labels of these claims are copied.
pub fn explain_source(
    alloc: Global,
    base: &Base,
    source: NumberedClaims<'_, '_>,
    place: &Place,
    limit: u32,
) -> Result<Explained, NoMemory>
    requires inside { IsTrue (is_inside base.now.len base.now.loads place.now) }
    requires numbered { AreNumbered source.pool.now source.claims.now }
    requires unmapped { source.unmapped < length source.pool.now }
    ensures { IfOk result (λ e. e
        ≡ explained base.now.len base.now.loads place.now limit
        (numbered_view source.entry.pool.now source.entry.claims.now source.entry.unmapped)) }
{
    let file_len = base.len();
    let numbers = explain(alloc, base, file_len, source.claims, place)?;
    let claims = source.named(alloc, &numbers, limit)?;
    let label = source.label_of_first(alloc, &claims)?;
    let more = (numbers.len() - claims.len()) as u64;
    Ok(Explained {
        label,
        claims,
        more,
    })
}
