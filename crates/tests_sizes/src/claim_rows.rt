//! Loads and claims as rows of numbers, so that files can be tables of constants.

ghost use Rattle.std.specs.Prelude.{◌+◌, ◌^◌, ◌≤◌, IsTrue, All};
ghost use Rattle.size_model.specs.Loads.{IsLoad};

use size_core::{Claim, Load, Side, Span};
use std::alloc::Global;
use std::process::Abort;

/// A load: its space, its address and size there, its offset, and its size in the file.
pub type LoadRow = (u32, u64, u64, u64, u64);

/// A claim: its side; the space, the start and the length of its addresses; the start and the length of its offsets; its
/// label.
pub type ClaimRow = (Side, (u32, u64, u64), (u64, u64), usize);

/// No addresses.
pub const NOWHERE: (u32, u64, u64) = (0, 0, 0);

fn span(space: u32, start: u64, len: u64) -> Span {
    Span { space, start, len }
}

// True only if a load ends in its space.
fn ends_in_space(load: Load) -> bool
    ensures { IsTrue result → load.vaddr + load.memsz ≤ 2 ^ 64 }
{
    u128::from(load.vaddr) + u128::from(load.memsz) <= 1 << 64
}

/// The loads of an example, which end in their spaces.
pub fn loads_of(rt: &impl Abort, alloc: Global, rows: &[LoadRow]) -> Vec<Load>
    ensures { All IsLoad result.items }
{
    let mut out = Vec::new(alloc);
    for &(space, vaddr, memsz, offset, filesz) in rows {
        let load = Load {
            space,
            vaddr,
            memsz,
            offset,
            filesz,
        };
        assert!(rt; ends_in_space(load));
        out.push(load).expect(rt, "memory");
    }
    out
}

/// The claims of an example.
pub fn claims_of(rt: &impl Abort, alloc: Global, rows: &[ClaimRow]) -> Vec<Claim> {
    let mut out = Vec::new(alloc);
    for &(side, vm, file, label) in rows {
        let claim = Claim {
            side,
            vm: span(vm.0, vm.1, vm.2),
            file: span(0, file.0, file.1),
            label,
        };
        out.push(claim).expect(rt, "memory");
    }
    out
}
