//! The sheet that collects claims.

ghost use Rattle.std.specs.Prelude.{◌≡◌, ◌<◌, ◌≤◌, true, false, List, [], ◌∷◌, length, get_or, OnErr, IfOk, MatchResult};
ghost use Rattle.size_model.specs.declared.view.LabelledClaim.{LabelledClaim};
ghost use Rattle.claim_sheet.specs.Adds.{Adds};
ghost use Rattle.claim_sheet.specs.Known.{AreAdded, HasClaim, claims_between, label_at, label_text};
ghost use Rattle.claim_sheet.specs.Made.{AreNumbered, AreUsed, KeepsLabels, texts};
ghost use Rattle.claim_sheet.specs.Reaches.{claim_of, claim_on, claim_on_some, wrapped};
ghost use Rattle.claim_sheet.specs.Sheets.{fresh, fresh_on_addresses, is_taken};

use crate::labels::{ClaimLabel, Wrap};
use crate::push::push;
use crate::reach::Reach;
use size_core::{Claim, LabelPool, NoMemory, Side};
use std::alloc::Global;
use std::marker::Model;
use std::mem::replace;

/// A source makes more claims than the limit.
#[derive(Clone, Copy, Debug, PartialEq, Eq)]
pub struct TooMany;

/// The claims made so far, up to a limit. After the limit, claims and labels are dropped, and `finish` fails.
#[derive(Drop)]
pub struct ClaimSheet {
    alloc: Global,
    pool: LabelPool,
    // The number of labels that the pool had when the sheet began.
    first: usize,
    claims: Vec<Claim>,
    limit: u64,
    // Whether claims that cover bytes of the file are dropped.
    addresses_only: bool,
    over: bool,
}

impl Model for ClaimSheet {
    ghost use Rattle.std.specs.Prelude.{take};
    ghost use Rattle.claim_sheet.specs.Made.{texts};
    ghost use Rattle.claim_sheet.specs.Sheets.{Sheet, IsSheet};

    ghost Value = { Sheet };

    ghost view = { λ s. record {
      pool = take s.first s.pool;
      limit = s.limit;
      addresses_only = s.addresses_only;
      made = texts s.pool s.claims.items;
      over = s.over;
    } };

    ghost invariant = { λ s. IsSheet s.pool s.first s.claims.items s.limit s.over };
}

// Returns whether a sheet takes a claim on this side.
fn is_taken(addresses_only: bool, side: Side) -> bool
    ensures { result ≡ is_taken addresses_only side }
{
    match side {
        Side::Vm => true,
        Side::File | Side::Both => !addresses_only,
    }
}

impl ClaimSheet {
    /// Returns an empty sheet that takes every claim. It owns the pool's labels until `finish` gives them back, and the pool
    /// has none meanwhile.
    pub fn begin(alloc: Global, pool: &mut LabelPool, limit: u64) -> ClaimSheet
        ensures sheet { result ≡ fresh pool.old limit }
        ensures taken { pool.new ≡ [] }
    {
        let pool = replace(pool, LabelPool::new(alloc));
        let first = pool.len();
        ClaimSheet {
            alloc,
            pool,
            first,
            claims: Vec::new(alloc),
            limit,
            addresses_only: false,
            over: false,
        }
    }

    /// Returns an empty sheet that takes only claims on addresses without bytes of the file. It drops the others with
    /// their labels, and doesn't count them. It owns the pool's labels until `finish` gives them back.
    pub fn begin_on_addresses(alloc: Global, pool: &mut LabelPool, limit: u64) -> ClaimSheet
        ensures sheet { result ≡ fresh_on_addresses pool.old limit }
        ensures taken { pool.new ≡ [] }
    {
        let mut sheet = ClaimSheet::begin(alloc, pool, limit);
        sheet.addresses_only = true;
        sheet
    }

    // Adds a claim, even if it covers nothing.
    #[tactic(auto, using(crate::proofs::SheetLemmas::adding_left))]
    pub(crate) fn add_any(&mut self, reach: Reach, label: ClaimLabel<'_>) -> Result<(), NoMemory>
        requires { HasClaim self.old.made label }
        ensures adds { Adds result self.old self.new
            (claim_of reach (label_text self.old.made label.entry) ∷ []) }
        ensures same { OnErr result (self.new ≡ self.old) }
    {
        if !is_taken(self.addresses_only, reach.side) {
            return Ok(());
        }
        if self.claims.len() as u64 >= self.limit {
            self.over = true;
            return Ok(());
        }
        push(self.alloc, &mut self.pool, &mut self.claims, reach, label)?;
        Ok(())
    }

    /// Adds a claim. A claim that covers nothing, or on a side that the sheet doesn't take, is dropped. A claim above the
    /// limit is dropped, and the sheet records that there were more. If memory runs out, the sheet is unchanged.
    #[tactic(auto, using(crate::proofs::SheetLemmas::adding_none))]
    pub fn add(&mut self, reach: Reach, wrap: Wrap, label: &[u8]) -> Result<(), NoMemory>
        ensures adds { Adds result self.old self.new (claim_on reach (wrapped wrap label.now)) }
        ensures same { OnErr result (self.new ≡ self.old) }
    {
        if reach.is_empty() {
            return Ok(());
        }
        self.add_any(reach, ClaimLabel::Text(label, wrap))
    }

    /// Adds a claim if there is something to cover.
    #[tactic(auto, using(crate::proofs::SheetLemmas::adding_none))]
    pub fn add_some(
        &mut self,
        reach: Option<Reach>,
        wrap: Wrap,
        label: &[u8],
    ) -> Result<(), NoMemory>
        ensures adds { Adds result self.old self.new
            (claim_on_some reach (wrapped wrap label.now)) }
        ensures same { OnErr result (self.new ≡ self.old) }
    {
        match reach {
            Some(reach) => self.add(reach, wrap, label),
            None => Ok(()),
        }
    }

    /// Returns the number of claims that were kept.
    pub fn len(&self) -> usize
        ensures { result ≡ length self.now.made }
    {
        self.claims.len()
    }

    // Returns the bytes and addresses of the claim at a position.
    fn reach_at(&self, position: usize) -> Reach
        requires { position < length self.now.made }
        ensures { (other : LabelledClaim) → get_or self.now.made position other
            ≡ claim_of result (label_at self.now.made position) }
    {
        let claim = &self.claims[position];
        Reach {
            side: claim.side,
            vm: claim.vm,
            file: claim.file,
        }
    }

    /// Adds a claim under the label of the claim at a position. The label isn't looked up. A claim that covers nothing
    /// is dropped.
    #[tactic(auto, using(crate::proofs::SheetLemmas::adding_none))]
    pub fn add_like(&mut self, reach: Reach, position: usize) -> Result<(), NoMemory>
        requires { position < length self.old.made }
        ensures adds { Adds result self.old self.new
            (claim_on reach (label_at self.old.made position)) }
        ensures same { OnErr result (self.new ≡ self.old) }
    {
        if reach.is_empty() {
            return Ok(());
        }
        self.add_any(reach, ClaimLabel::OfClaim(position))
    }

    // Adds the claims from one position up to another again.
    #[tactic(auto, using(crate::proofs::KnownLemmas::repeat_goes, crate::proofs::KnownLemmas::repeat_ends, crate::proofs::SheetLemmas::still_within))]
    fn repeat(&mut self, first: usize, end: usize) -> Result<(), NoMemory>
        requires order { first ≤ end }
        requires within { end ≤ length self.old.made }
        ensures { Adds result self.old self.new (claims_between self.old.made first end) }
    {
        for position in first..end {
            let reach = self.reach_at(position);
            self.add_any(reach, ClaimLabel::OfClaim(position))?;
        }
        Ok(())
    }

    /// Adds the claims from position `first` up to position `end` again. They are copied, and their labels aren't
    /// looked up. If memory runs out, some of them may have been added.
    pub fn add_again(&mut self, first: usize, end: usize) -> Result<(), NoMemory>
        requires order { first ≤ end }
        requires within { end ≤ length self.old.made }
        ensures { (claims : List LabelledClaim) → AreAdded self.old first end claims
            → Adds result self.old self.new claims }
    {
        if self.over {
            return Ok(());
        }
        self.repeat(first, end)
    }

    /// Returns the claims, or TooMany if there were more than the limit. The pool gets its labels back. If it returns
    /// the claims, the pool has their labels and no other new one.
    pub fn finish(self, pool: &mut LabelPool) -> Result<Vec<Claim>, TooMany>
        ensures claims { IfOk result (λ v. texts pool.new v.items ≡ self.made) }
        ensures numbered { IfOk result (λ v. AreNumbered pool.new v.items) }
        ensures used { IfOk result (λ v. AreUsed (length self.pool) pool.new v.items) }
        ensures few { IfOk result (λ v. length v.items ≤ self.limit) }
        ensures many { MatchResult result (λ _. self.over ≡ false) (λ _. self.over ≡ true) }
        ensures kept { KeepsLabels self.pool pool.new }
    {
        let ClaimSheet {
            pool: labels,
            claims,
            over,
            ..
        } = self;
        *pool = labels;
        if over { Err(TooMany) } else { Ok(claims) }
    }
}
