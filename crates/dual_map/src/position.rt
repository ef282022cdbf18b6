//! Positions: the virtual addresses of all address spaces as one range of numbers.

ghost use Rattle.std.specs.Prelude.{◌≡◌, ◌^◌, ◌<◌};
ghost use Rattle.dual_map.specs.Way.{position_at};

use size_core::Load;

/// The position of an address in an address space.
pub fn position(space: u32, address: u64) -> u128
    ensures value { result ≡ position_at (space, address) }
    ensures fits { result < 2 ^ 96 }
{
    u128::from(space) * (1 << 64) + u128::from(address)
}
