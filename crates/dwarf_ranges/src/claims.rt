//! Which address ranges claim any bytes.

ghost use Rattle.std.specs.Prelude.{◌≡◌};
ghost use Rattle.dwarf_ranges.specs.Claims.{base_sum, claims_nothing, greatest};

/// The greatest address of `size` bytes. A size other than 2 and 4 counts as 8.
pub fn greatest(size: u8) -> u64
    ensures { result ≡ greatest size }
{
    match size {
        2 => u16::MAX as u64,
        4 => u32::MAX as u64,
        _ => u64::MAX,
    }
}

/// The sum of a base and an offset, modulo the number of addresses of `size` bytes.
pub fn base_sum(size: u8, base: u64, offset: u64) -> u64
    ensures { result ≡ base_sum size base offset }
{
    let sum = base as u128 + offset as u128;
    match size {
        2 => (sum % 0x1_0000) as u64,
        4 => (sum % 0x1_0000_0000) as u64,
        _ => (sum % 0x1_0000_0000_0000_0000) as u64,
    }
}

/// Whether a range of `len` addresses from `start` on claims nothing: it is empty, or it starts at 0 or at one
/// of the two greatest addresses of `size` bytes. Linkers write these starts for code that they dropped.
pub fn claims_nothing(size: u8, start: u64, len: u64) -> bool
    ensures { result ≡ claims_nothing size start len }
{
    let last = greatest(size);
    len == 0 || start == 0 || start == last || start == last - 1
}
