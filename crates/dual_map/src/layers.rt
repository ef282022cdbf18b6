//! The claims of a data source by their numbers: for each offset and each position the first claim on it.

ghost use Rattle.std.specs.Prelude.{◌≡◌, IfOk};
ghost use Rattle.size_model.specs.Cut.{IsLaid};
ghost use Rattle.range_map.specs.Ranges.{IsRange};
ghost use Rattle.dual_map.specs.Layers.{is_side, offset_range, position_range, claim_ranges};
ghost use Rattle.dual_map.specs.Layers.{labels_of, IsFileLayer, IsMemoryLayer, AreLayers};

use crate::position::position;
use range_map::{Piece, RangeMap};
use size_core::{Claim, NoMemory, Side};
use std::alloc::{AllocError, Global};

/// The claims on the offsets of a file, or those on its addresses. Each map labels a position with the number of
/// the first claim that names it.
#[derive(Debug, Drop)]
pub struct Layer {
    /// Claims on this side alone. Loads carry them to the other side.
    pub alone: RangeMap,
    /// Claims on both sides.
    pub both: RangeMap,
}

/// The claims of a data source.
#[derive(Debug, Drop)]
pub struct Layers {
    /// Claims on offsets.
    pub file: Layer,
    /// Claims on addresses.
    pub memory: Layer,
    /// The label of each claim, and then the label of what no claim covers.
    pub labels: Vec<usize>,
}

// Whether a side is the other one.
fn is_side(side: Side, other: Side) -> bool
    ensures { result ≡ is_side side other }
{
    match other {
        Side::File => matches!(side, Side::File),
        Side::Vm => matches!(side, Side::Vm),
        Side::Both => matches!(side, Side::Both),
    }
}

// The offsets that a claim names, labelled with the claim's number.
fn offset_range(claim: &Claim, number: usize) -> Piece
    ensures value { result ≡ offset_range number claim.now }
    ensures fits { IsRange result }
{
    Piece {
        start: u128::from(claim.file.start),
        len: u128::from(claim.file.len),
        label: number,
    }
}

// The positions that a claim names, clipped to their address space and labelled with the claim's number.
fn position_range(claim: &Claim, number: usize) -> Piece
    ensures value { result ≡ position_range number claim.now }
    ensures fits { IsRange result }
{
    Piece {
        start: position(claim.vm.space, claim.vm.start),
        len: u128::from(claim.vm.len).min((1 << 64) - u128::from(claim.vm.start)),
        label: number,
    }
}

// For each offset, the number of the first claim of this side that names it.
fn offsets_of(alloc: Global, claims: &[Claim], side: Side) -> Result<RangeMap, NoMemory>
    ensures { IfOk result (IsLaid (claim_ranges offset_range side 0 claims.now)) }
{
    let mut ranges = Vec::new(alloc);
    for (i, claim) in claims.iter().enumerate() {
        if is_side(claim.side, side) {
            ranges.push(offset_range(claim, i))?;
        }
    }
    RangeMap::build(alloc, ranges.as_slice())
}

// For each position, the number of the first claim of this side that names it.
fn positions_of(alloc: Global, claims: &[Claim], side: Side) -> Result<RangeMap, NoMemory>
    ensures { IfOk result (IsLaid (claim_ranges position_range side 0 claims.now)) }
{
    let mut ranges = Vec::new(alloc);
    for (i, claim) in claims.iter().enumerate() {
        if is_side(claim.side, side) {
            ranges.push(position_range(claim, i))?;
        }
    }
    RangeMap::build(alloc, ranges.as_slice())
}

// The label of each claim, and then the label of what no claim covers.
fn labels_of(alloc: Global, claims: &[Claim], unmapped: usize) -> Result<Vec<usize>, AllocError>
    ensures { IfOk result (λ v. v.items ≡ labels_of unmapped claims.now) }
{
    let mut labels = Vec::new(alloc);
    for claim in claims {
        labels.push(claim.label)?;
    }
    labels.push(unmapped)?;
    Ok(labels)
}

impl Layer {
    // The claims on offsets.
    fn of_file(alloc: Global, claims: &[Claim]) -> Result<Layer, NoMemory>
        ensures { IfOk result (IsFileLayer claims.now) }
    {
        let alone = offsets_of(alloc, claims, Side::File)?;
        let both = offsets_of(alloc, claims, Side::Both)?;
        Ok(Layer { alone, both })
    }

    // The claims on addresses.
    fn of_memory(alloc: Global, claims: &[Claim]) -> Result<Layer, NoMemory>
        ensures { IfOk result (IsMemoryLayer claims.now) }
    {
        let alone = positions_of(alloc, claims, Side::Vm)?;
        let both = positions_of(alloc, claims, Side::Both)?;
        Ok(Layer { alone, both })
    }
}

impl Layers {
    /// The layers of the claims of a data source. What no claim covers has the label `unmapped`.
    pub fn build(alloc: Global, claims: &[Claim], unmapped: usize) -> Result<Layers, NoMemory>
        ensures { IfOk result (AreLayers claims.now unmapped) }
    {
        let file = Layer::of_file(alloc, claims)?;
        let memory = Layer::of_memory(alloc, claims)?;
        let labels = labels_of(alloc, claims, unmapped)?;
        Ok(Layers {
            file,
            memory,
            labels,
        })
    }
}
