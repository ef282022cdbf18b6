//! The loads of a file, with indices for translating between file offsets and virtual addresses.

ghost use Rattle.std.specs.Prelude.{◌≡◌, ◌+◌, ◌*◌, ◌^◌, ◌<◌, ◌≤◌, length, IfOk, OnOk, All};
ghost use Rattle.size_model.specs.Cut.{IsCut};
ghost use Rattle.size_model.specs.Loads.{addr, mapped, mapped_count, place, place_in, IsLoad};
ghost use Rattle.range_map.specs.Ranges.{IsRange};
ghost use Rattle.dual_map.specs.Layout.{HasPieces, IsLayout};
ghost use Rattle.dual_map.specs.Loads.{file_ranges, address_ranges};
ghost use Rattle.dual_map.specs.Paint.{offset_labels, position_labels, HasNumbers};

use crate::layers::Layers;
use crate::paint::paint;
use crate::position::position;
use crate::reads::{label_of, piece_of};
use crate::stretch::{Stretch, to_file, to_memory};
use range_map::{Piece, RangeMap};
use size_core::{Load, NoMemory};
use std::alloc::{AllocError, Global};
use std::marker::Model;

/// The loads of a file, and the file's length. The maps of its data sources are built over a base. Contracts
/// see the length and the list of loads.
#[derive(Debug, Drop)]
pub struct Base {
    file_len: u64,
    loads: Vec<Load>,
    // For each offset, and for each position, the number of the first load that covers it.
    offsets: RangeMap,
    positions: RangeMap,
}

impl Model for Base {
    ghost use Rattle.dual_map.specs.Layout.{Layout};
    ghost use Rattle.dual_map.specs.Base.{IsBase};

    ghost Value = { Layout };

    ghost view = { λ b. record { len = b.file_len; loads = b.loads.items } };

    ghost invariant = { IsBase };
}

// The offsets that each load covers, labelled with the load's number.
fn offsets_of(alloc: Global, file_len: u64, loads: &[Load]) -> Result<Vec<Piece>, AllocError>
    ensures ranges { IfOk result (λ v. v.items ≡ file_ranges file_len 0 loads.now) }
    ensures fits { IfOk result (λ v. All IsRange v.items) }
{
    let mut ranges = Vec::new(alloc);
    for (i, load) in loads.iter().enumerate() {
        let in_file = file_len.saturating_sub(load.offset);
        ranges.push(Piece {
            start: u128::from(load.offset),
            len: u128::from(load.filesz.min(load.memsz).min(in_file)),
            label: i,
        })?;
    }
    Ok(ranges)
}

// The positions that each load covers, labelled with the load's number.
fn positions_of(alloc: Global, loads: &[Load]) -> Result<Vec<Piece>, AllocError>
    requires { All IsLoad loads.now }
    ensures ranges { IfOk result (λ v. v.items ≡ address_ranges 0 loads.now) }
    ensures fits { IfOk result (λ v. All IsRange v.items) }
{
    let mut ranges = Vec::new(alloc);
    for (i, load) in loads.iter().enumerate() {
        ranges.push(Piece {
            start: position(load.space, load.vaddr),
            len: u128::from(load.memsz),
            label: i,
        })?;
    }
    Ok(ranges)
}

// The file offset of an address in this load. `None` if the load doesn't cover the address, or has no byte
// of the file there.
fn offset_in(file_len: u64, load: &Load, address: u64) -> Option<u64>
    ensures { result ≡ place_in file_len load.now address }
{
    let past = address.saturating_sub(load.vaddr);
    let in_file = file_len.saturating_sub(load.offset);
    if past < load.filesz.min(load.memsz).min(in_file) {
        Some(load.offset + past)
    } else {
        None
    }
}

impl Base {
    /// The base of a file of `file_len` bytes, fewer than 2^63, with these loads in their order. Each load lies
    /// completely in its address space.
    pub fn from_loads(alloc: Global, file_len: u64, loads: &[Load]) -> Result<Base, NoMemory>
        requires loads_fit { All IsLoad loads.now }
        requires len_fits { file_len < 2 ^ 63 }
        ensures len { IfOk result (λ base. base.len ≡ file_len) }
        ensures loads { IfOk result (λ base. base.loads ≡ loads.now) }
    {
        let ranges = offsets_of(alloc, file_len, loads)?;
        let offsets = RangeMap::build(alloc, ranges.as_slice())?;
        let ranges = positions_of(alloc, loads)?;
        let positions = RangeMap::build(alloc, ranges.as_slice())?;
        Ok(Base {
            file_len,
            loads: loads.to_vec(alloc)?,
            offsets,
            positions,
        })
    }

    /// The file's length in bytes.
    pub fn len(&self) -> u64
        ensures { result ≡ self.now.len }
    {
        self.file_len
    }

    /// The address space and the virtual address of a file offset, by the first load that covers it. `None`
    /// if no load does.
    pub fn to_vm(&self, offset: u64) -> Option<(u32, u64)>
        ensures { result ≡ addr self.now.len self.now.loads offset }
    {
        let i = label_of(&self.offsets, u128::from(offset))?;
        let load = &self.loads[i];
        Some((load.space, load.vaddr + (offset - load.offset)))
    }

    /// The file offset of a virtual address in an address space, by the first load that covers the address.
    /// `None` if no load does, or if the load has no byte of the file there.
    pub fn to_file(&self, space: u32, address: u64) -> Option<u64>
        ensures { result ≡ place self.now.len self.now.loads space address }
    {
        let i = label_of(&self.positions, position(space, address))?;
        offset_in(self.file_len, &self.loads[i], address)
    }

    /// Whether a load covers a virtual address of an address space.
    pub fn is_mapped(&self, space: u32, address: u64) -> bool
        ensures { result ≡ mapped self.now.loads space address }
    {
        label_of(&self.positions, position(space, address)).is_some()
    }

    /// The number of mapped addresses over all spaces. An address that several loads cover counts once.
    pub fn mapped_size(&self) -> u128
        ensures { result ≡ mapped_count self.now.loads }
    {
        let mut total = 0;
        for i in 0..self.positions.len() {
            let piece = piece_of(&self.positions, i);
            total += piece.len;
        }
        total
    }

    /// The larger of two numbers of pieces: those of the offsets by the first load that covers each, and those
    /// of the addresses.
    pub fn pieces(&self) -> usize
        ensures count { HasPieces self.now result }
        ensures few { result ≤ 2 * length self.now.loads + 1 }
    {
        self.offsets.len().max(self.positions.len())
    }

    // The label of each offset, by the first claim that covers it.
    pub(crate) fn file_map(&self, alloc: Global, layers: &Layers) -> Result<RangeMap, NoMemory>
        requires { HasNumbers layers.now.labels.items layers.now.file }
        ensures cut { IfOk result (IsCut (offset_labels self.now.len self.now.loads layers.now)) }
        ensures layout { OnOk result (IsLayout self.now) }
    {
        let labels = layers.labels.as_slice();
        let nothing = RangeMap::new(alloc);
        let mut out = Vec::with_capacity(alloc, layers.memory.alone.len())?;
        let mut from = 0;
        for i in 0..self.offsets.len() {
            let piece = piece_of(&self.offsets, i);
            let before = Stretch::gap(from, piece.start);
            paint(&mut out, &layers.file, &nothing, labels, &before)?;
            let stretch = to_file(&self.loads[piece.label], &piece);
            paint(
                &mut out,
                &layers.file,
                &layers.memory.alone,
                labels,
                &stretch,
            )?;
            from = piece.start + piece.len;
        }
        let after = Stretch::gap(from, u128::from(self.file_len));
        paint(&mut out, &layers.file, &nothing, labels, &after)?;
        Ok(RangeMap::of_pieces(alloc, out))
    }

    // The label of each mapped position, by the first claim that covers it.
    pub(crate) fn vm_map(&self, alloc: Global, layers: &Layers) -> Result<RangeMap, NoMemory>
        requires { HasNumbers layers.now.labels.items layers.now.memory }
        ensures { IfOk result (IsCut (position_labels self.now.len self.now.loads layers.now)) }
    {
        let labels = layers.labels.as_slice();
        let nothing = RangeMap::new(alloc);
        let mut out = Vec::with_capacity(alloc, layers.memory.alone.len())?;
        for i in 0..self.positions.len() {
            let piece = piece_of(&self.positions, i);
            let stretch = to_memory(self.file_len, &self.loads[piece.label], &piece);
            paint(
                &mut out,
                &layers.memory,
                &layers.file.alone,
                labels,
                &stretch,
            )?;
            let rest = Stretch::gap(piece.start + stretch.len, piece.start + piece.len);
            paint(&mut out, &layers.memory, &nothing, labels, &rest)?;
        }
        Ok(RangeMap::of_pieces(alloc, out))
    }
}
