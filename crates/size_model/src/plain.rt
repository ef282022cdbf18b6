//! The plain program: it finds labels and sizes by visiting loads, claims, offsets and addresses one by
//! one. It is slow, but its code shows what each number means. Tests compare the fast code with it.

ghost use Rattle.std.specs.Prelude.{◌≡◌, ◌≤◌, take, length};
ghost use Rattle.size_model.specs.Claims.{span_has, address_in, offset_in, covers_offset, covers_address};
ghost use Rattle.size_model.specs.Labels.{offset_label, address_label};
ghost use Rattle.size_model.specs.Loads.{load_has_address, load_has_offset, mapped, addr, place_in, place};
ghost use Rattle.size_model.specs.Sizes.{label_of_offset, label_of_address};

use crate::view::{FileView, SourceView};
use size_core::{Bytes, Claim, List, Load, Side, Span};

/// A data source whose labels are numbers.
#[derive(Clone, Copy)]
pub struct NumberedSource<'c> {
    /// The claims, in order.
    pub claims: &'c [Claim],
    /// The number of the label of a byte that no claim covers.
    pub unmapped: usize,
}

// The bytes that a claim names.
#[derive(Clone, Copy)]
struct Reach {
    side: Side,
    vm: Span,
    file: Span,
}

// Returns whether a load covers an address of a space.
fn load_has_address(load: &Load, space: u32, address: u64) -> bool
    ensures { result ≡ load_has_address load.now space address }
{
    load.space == space && load.vaddr <= address && address - load.vaddr < load.memsz
}

// Returns whether a load covers an offset of a file of `len` bytes.
fn load_has_offset(len: u64, load: &Load, offset: u64) -> bool
    ensures { result ≡ load_has_offset len load.now offset }
{
    let mapped = load.filesz.min(load.memsz);
    load.offset <= offset && offset - load.offset < mapped && offset < len
}

// Returns the file offset that a load maps to an address. `None` after the part of the load that is in the
// file, and from the end of the file on.
fn place_in(len: u64, load: &Load, address: u64) -> Option<u64>
    ensures { result ≡ place_in len load.now address }
{
    let distance = address.saturating_sub(load.vaddr);
    if distance < load.filesz.min(load.memsz)
        && load.offset as u128 + (distance as u128) < len as u128
    {
        Some(load.offset + distance)
    } else {
        None
    }
}

// Returns whether one of the first `count` loads covers an address.
pub(crate) fn is_mapped_by_first(loads: &List<Load>, count: usize, space: u32, address: u64) -> bool
    requires { count ≤ length loads.now }
    ensures { result ≡ mapped (take count loads.now) space address }
{
    for i in 0..count {
        if load_has_address(loads.get(i), space, address) {
            return true;
        }
    }
    false
}

/// Returns whether an address of a space is mapped.
pub fn mapped(loads: &List<Load>, space: u32, address: u64) -> bool
    ensures { result ≡ mapped loads.now space address }
{
    is_mapped_by_first(loads, loads.len(), space, address)
}

/// Returns the space and the virtual address of an offset in a file of `len` bytes, by the first load that
/// covers the offset. `None` if no load covers it. The address can be 2^64 or more if the load ends past 2^64.
pub fn addr(len: u64, loads: &List<Load>, offset: u64) -> Option<(u32, u128)>
    ensures { result ≡ addr len loads.now offset }
{
    for i in 0..loads.len() {
        let load = loads.get(i);
        if load_has_offset(len, load, offset) {
            return Some((
                load.space,
                load.vaddr as u128 + (offset - load.offset) as u128,
            ));
        }
    }
    None
}

/// Returns the file offset of an address of a space in a file of `len` bytes, by the first load that covers
/// the address. `None` if no load covers it, or if that load has no byte of the file there.
pub fn place(len: u64, loads: &List<Load>, space: u32, address: u64) -> Option<u64>
    ensures { result ≡ place len loads.now space address }
{
    for i in 0..loads.len() {
        let load = loads.get(i);
        if load_has_address(load, space, address) {
            return place_in(len, load, address);
        }
    }
    None
}

// Returns whether a number lies in a span. The span's space is not compared.
fn span_has(span: &Span, x: u128) -> bool
    ensures { result ≡ span_has span.now x }
{
    let start = span.start as u128;
    start <= x && x < start + span.len as u128
}

// Returns whether an address lies in a span and in the span's space.
fn address_in(span: &Span, address: Option<(u32, u128)>) -> bool
    ensures { result ≡ address_in span.now address }
{
    match address {
        None => false,
        Some((space, x)) => span.space == space && span_has(span, x),
    }
}

// Returns whether an offset lies in a span.
fn offset_in(span: &Span, offset: Option<u64>) -> bool
    ensures { result ≡ offset_in span.now offset }
{
    match offset {
        None => false,
        Some(o) => span_has(span, o as u128),
    }
}

// Returns whether a claim covers an offset of a file of `len` bytes.
fn covers_offset(len: u64, loads: &List<Load>, reach: Reach, offset: u64) -> bool
    ensures { result ≡ covers_offset len loads.now reach.side reach.vm reach.file offset }
{
    match reach.side {
        Side::Vm => address_in(&reach.vm, addr(len, loads, offset)),
        Side::File | Side::Both => span_has(&reach.file, offset as u128),
    }
}

// Returns whether a claim covers an address of a space.
fn covers_address(len: u64, loads: &List<Load>, reach: Reach, space: u32, address: u64) -> bool
    ensures { result
        ≡ covers_address len loads.now reach.side reach.vm reach.file space address }
{
    match reach.side {
        Side::File => offset_in(&reach.file, place(len, loads, space, address)),
        Side::Vm | Side::Both => address_in(&reach.vm, Some((space, address as u128))),
    }
}

/// Returns the label of a file offset in a data source: that of the first claim that covers the offset.
pub fn label_of_offset<'a>(file: &FileView, source: &'a SourceView, offset: u64) -> &'a Bytes
    ensures { result.now ≡ label_of_offset file.now offset source.now }
{
    for i in 0..source.claims.len() {
        let claim = source.claims.get(i);
        let reach = Reach {
            side: claim.side,
            vm: claim.vm,
            file: claim.file,
        };
        if covers_offset(file.len, &file.loads, reach, offset) {
            return &claim.label;
        }
    }
    &source.unmapped
}

/// Returns the label of an address of a space in a data source: that of the first claim that covers the
/// address.
pub fn label_of_address<'a>(
    file: &FileView,
    source: &'a SourceView,
    space: u32,
    address: u64,
) -> &'a Bytes
    ensures { result.now ≡ label_of_address file.now space address source.now }
{
    for i in 0..source.claims.len() {
        let claim = source.claims.get(i);
        let reach = Reach {
            side: claim.side,
            vm: claim.vm,
            file: claim.file,
        };
        if covers_address(file.len, &file.loads, reach, space, address) {
            return &claim.label;
        }
    }
    &source.unmapped
}

/// Returns the number of the label of an offset in a file of `len` bytes: that of the first claim that
/// covers the offset, or `unmapped`.
pub fn offset_label(len: u64, loads: &List<Load>, source: NumberedSource<'_>, offset: u64) -> usize
    ensures { result ≡ offset_label len loads.now source.entry.unmapped source.entry.claims.now
        offset }
{
    let NumberedSource { claims, unmapped } = source;
    for claim in claims {
        let reach = Reach {
            side: claim.side,
            vm: claim.vm,
            file: claim.file,
        };
        if covers_offset(len, loads, reach, offset) {
            return claim.label;
        }
    }
    unmapped
}

/// Returns the number of the label of an address: that of the first claim that covers the address, or
/// `unmapped`.
pub fn address_label(
    len: u64,
    loads: &List<Load>,
    source: NumberedSource<'_>,
    space: u32,
    address: u64,
) -> usize
    ensures { result ≡ address_label len loads.now source.entry.unmapped source.entry.claims.now
        space address }
{
    let NumberedSource { claims, unmapped } = source;
    for claim in claims {
        let reach = Reach {
            side: claim.side,
            vm: claim.vm,
            file: claim.file,
        };
        if covers_address(len, loads, reach, space, address) {
            return claim.label;
        }
    }
    unmapped
}
