//! The part of the plain program (see `plain`) that finds paths and sizes. It visits each file offset and each mapped
//! address.

ghost use Rattle.std.specs.Prelude.{◌≡◌, ◌<◌, ◌&&◌, ℕ, not, Bool, List, Some, map, take, length, slice_get, option_map, IfOk};
ghost use Rattle.std.specs.List.{list_any, starts_with};
ghost use Rattle.std.specs.Str.{bytes_eq};
ghost use Rattle.size_core.specs.declared.claim.Load.{Load};
ghost use Rattle.size_model.specs.Loads.{mapped};
ghost use Rattle.size_model.specs.Plain.{first_mapped_size};
ghost use Rattle.size_model.specs.Sizes.{label_of_address, offset_path, passes, counts_for, file_size_in, vm_size_in};

use crate::plain::{is_mapped_by_first, label_of_address, label_of_offset};
use crate::view::FileView;
use size_core::{NoMemory, Path};
use std::alloc::Global;

/// A test of labels. A filter is one.
pub trait LabelTest {
    /// Whether a label passes the test, as contracts see it.
    ghost holds: { Self → List ℕ → Bool };

    /// Returns whether a label passes the test.
    fn holds(&self, label: &[u8]) -> bool
        ensures { result ≡ holds self.now label.now };
}

/// Returns the path of a file offset: its label in each data source, in order.
pub fn offset_path(alloc: Global, file: &FileView, offset: u64) -> Result<Path, NoMemory>
    ensures { IfOk result (λ path. path ≡ offset_path file.now offset) }
{
    let mut path = Path::new(alloc);
    for i in 0..file.sources.len() {
        path.push(label_of_offset(file, file.sources.get(i), offset).copy()?)?;
    }
    Ok(path)
}

/// Returns the path of a virtual address of a space: its label in each data source, in order.
pub fn address_path(
    alloc: Global,
    file: &FileView,
    space: u32,
    address: u64,
) -> Result<Path, NoMemory>
    ensures { IfOk result (λ path. path
        ≡ map (label_of_address file.now space address) file.now.sources) }
{
    let mut path = Path::new(alloc);
    for i in 0..file.sources.len() {
        path.push(label_of_address(file, file.sources.get(i), space, address).copy()?)?;
    }
    Ok(path)
}

// Returns whether some label of a path passes a test.
fn has_passing<T: LabelTest>(test: &T, path: &Path) -> bool
    ensures { result ≡ list_any (T.holds test.now) path.now }
{
    for i in 0..path.len() {
        if test.holds(path.get(i).as_slice()) {
            return true;
        }
    }
    false
}

/// Returns whether a path passes the filter: there is no filter, or some label of the path passes its test.
pub fn passes<T: LabelTest>(filter: Option<&T>, path: &Path) -> bool
    ensures { result ≡ passes (option_map (λ t. T.holds t.now) filter.entry) path.now }
{
    match filter {
        None => true,
        Some(test) => has_passing(test, path),
    }
}

// Returns whether a path begins with the labels of a prefix.
fn begins_with(path: &Path, prefix: &Path) -> bool
    ensures { result ≡ starts_with bytes_eq path.now prefix.now }
{
    if path.len() < prefix.len() {
        return false;
    }
    for i in 0..prefix.len() {
        if prefix.get(i).as_slice() != path.get(i).as_slice() {
            return false;
        }
    }
    true
}

/// Returns whether a path counts for a prefix: it passes the filter and begins with the prefix.
pub fn counts_for<T: LabelTest>(filter: Option<&T>, prefix: &Path, path: &Path) -> bool
    ensures { result
        ≡ counts_for (option_map (λ t. T.holds t.now) filter.entry) prefix.now path.now }
{
    passes(filter, path) && begins_with(path, prefix)
}

/// Returns how many file offsets count for a prefix.
pub fn file_size_in<T: LabelTest>(
    alloc: Global,
    filter: Option<&T>,
    prefix: &Path,
    file: &FileView,
) -> Result<u64, NoMemory>
    ensures { IfOk result (λ n. n
        ≡ file_size_in (option_map (λ t. T.holds t.now) filter.entry) prefix.now file.now) }
{
    let mut size = 0;
    for offset in 0..file.len {
        let path = offset_path(alloc, file, offset)?;
        size += counts_for(filter, prefix, &path) as u64;
    }
    Ok(size)
}

// An address of a space, and the number of a load that covers it.
#[derive(Clone, Copy)]
struct LoadedAddress {
    load: usize,
    space: u32,
    address: u64,
}

// Returns whether the load is the first one that covers the address, and the path of the address counts for a
// prefix.
fn counts_first<T: LabelTest>(
    alloc: Global,
    filter: Option<&T>,
    prefix: &Path,
    file: &FileView,
    at: LoadedAddress,
) -> Result<bool, NoMemory>
    requires { at.load < length file.now.loads }
    ensures { IfOk result (λ counts. counts
        ≡ (not (mapped (take at.load file.now.loads) at.space at.address)
        && counts_for (option_map (λ t. T.holds t.now) filter.entry) prefix.now
        (map (label_of_address file.now at.space at.address) file.now.sources))) }
{
    if is_mapped_by_first(&file.loads, at.load, at.space, at.address) {
        return Ok(false);
    }
    let path = address_path(alloc, file, at.space, at.address)?;
    Ok(counts_for(filter, prefix, &path))
}

// Returns how many addresses of load `i` count for a prefix. Addresses that an earlier load covers are left out. Only
// addresses below 2^64 are visited, even if the load ends past it.
fn size_of_load<T: LabelTest>(
    alloc: Global,
    filter: Option<&T>,
    prefix: &Path,
    file: &FileView,
    i: usize,
) -> Result<u128, NoMemory>
    requires { i < length file.now.loads }
    ensures { IfOk result (λ n. (load : Load) → slice_get file.now.loads i ≡ Some load
        → n ≡ first_mapped_size
        (counts_for (option_map (λ t. T.holds t.now) filter.entry) prefix.now)
        file.now (take i file.now.loads) load) }
{
    let load = file.loads.get(i);
    let space = load.space;
    let addresses = (load.memsz as u128).min((1 << 64) - load.vaddr as u128);
    let mut size = 0u128;
    for distance in 0..addresses {
        let at = LoadedAddress {
            load: i,
            space,
            address: (load.vaddr as u128 + distance) as u64,
        };
        size += counts_first(alloc, filter, prefix, file, at)? as u128;
    }
    Ok(size)
}

/// Returns how many mapped addresses of a file count for a prefix. Each address is counted once, at the
/// first load that covers it.
pub fn vm_size_in<T: LabelTest>(
    alloc: Global,
    filter: Option<&T>,
    prefix: &Path,
    file: &FileView,
) -> Result<u128, NoMemory>
    ensures { IfOk result (λ n. n
        ≡ vm_size_in (option_map (λ t. T.holds t.now) filter.entry) prefix.now file.now) }
{
    let mut size = 0u128;
    for i in 0..file.loads.len() {
        size += size_of_load(alloc, filter, prefix, file, i)?;
    }
    Ok(size)
}
