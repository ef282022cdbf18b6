//! The two maps of a data source.

ghost use Rattle.std.specs.Prelude.{◌≡◌, ◌+◌, ◌*◌, ◌<◌, ◌≤◌, ℕ, length, max, IfOk, All};
ghost use Rattle.size_model.specs.Cut.{IsCut, IsTidy};
ghost use Rattle.size_model.specs.Labels.{offset_labelling, address_labelling};
ghost use Rattle.dual_map.specs.Layout.{HasPieces, IsOver, LabelsBelow};

use crate::base::Base;
use crate::layers::Layers;
use range_map::RangeMap;
use size_core::{Claim, NoMemory};
use std::alloc::Global;
use std::marker::Model;

/// The labels that one data source gives a file: a map over the file's offsets, and a map over its mapped
/// virtual addresses. Contracts see the pieces of both.
#[derive(Debug, Drop)]
pub struct DualMap {
    file: RangeMap,
    vm: RangeMap,
}

impl Model for DualMap {
    ghost use Rattle.dual_map.specs.Layout.{Maps, AreTidy};

    ghost Value = { Maps };

    ghost view = { λ m. record { file = m.file; vm = m.vm } };

    ghost invariant = { λ m. AreTidy m.file m.vm };
}

impl DualMap {
    /// The maps of a data source's claims, in their order, over the base of a file of `file_len` bytes. The
    /// first claim that covers a byte gives its label. A byte that no claim covers gets the label `unmapped`.
    pub fn build(
        alloc: Global,
        base: &Base,
        file_len: u64,
        claims: &[Claim],
        unmapped: usize,
    ) -> Result<DualMap, NoMemory>
        requires { base.now.len ≡ file_len }
        ensures file { IfOk result
            (λ m. IsCut (offset_labelling base.now.len base.now.loads unmapped claims.now) m.file) }
        ensures vm { IfOk result
            (λ m. IsCut (address_labelling base.now.len base.now.loads unmapped claims.now) m.vm) }
        ensures over { IfOk result (IsOver base.now) }
        ensures labels { IfOk result (λ m. (n : ℕ)
            → unmapped < n → All (λ c. c.label < n) claims.now → LabelsBelow n m) }

        // The number of pieces is bounded, by the base's `pieces()` and by the number of loads.
        ensures few_file { IfOk result (λ m. (b : ℕ) → HasPieces base.now b
            → length m.file ≤ 2 * (length claims.now * max 1 b + 1) + 1) }
        ensures few_vm { IfOk result (λ m. (b : ℕ) → HasPieces base.now b
            → length m.vm ≤ 2 * (length claims.now + 1) * max 1 b + 1) }
        ensures few_by_loads { IfOk result (λ m. length m.file + length m.vm
            ≤ 4 * length claims.now * (2 * length base.now.loads + 1)
            + 2 * (2 * length base.now.loads + 1) + 4) }
    {
        let layers = Layers::build(alloc, claims, unmapped)?;
        let file = base.file_map(alloc, &layers)?;
        let vm = base.vm_map(alloc, &layers)?;
        Ok(DualMap { file, vm })
    }

    /// The map over the file's offsets.
    pub fn file_map(&self) -> &RangeMap
        ensures value { result.now ≡ self.now.file }
        ensures tidy { IsTidy result.now }
    {
        &self.file
    }

    /// The map over mapped positions, `space * 2^64 + address`.
    pub fn vm_map(&self) -> &RangeMap
        ensures value { result.now ≡ self.now.vm }
        ensures tidy { IsTidy result.now }
    {
        &self.vm
    }
}
