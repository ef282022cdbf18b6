//! Reads numbers and texts from bytes that are known to hold them.

ghost use Rattle.std.specs.Prelude.{◌≡◌, ◌+◌, ◌≤◌, length, ◌==◌, position};
ghost use Rattle.std.specs.Int.{w16, w32, w64};
ghost use Rattle.std.specs.Option.{option_copied};
ghost use Rattle.byte_cursor.specs.Numbers.{field, text};

use crate::order::Order;
use memchr::memchr;

/// Returns the number in the two bytes from an index on.
#[tactic(auto, unfolding(crate::specs::Numbers::field))]
pub fn u16_at(bytes: &[u8], at: usize, order: Order) -> u16
    requires { at + 2 ≤ length bytes.now }
    ensures { result ≡ field bytes.now at w16 order }
{
    let rest = &bytes[at..];
    let digits = [rest[0], rest[1]];
    match order {
        Order::Little => u16::from_le_bytes(digits),
        Order::Big => u16::from_be_bytes(digits),
    }
}

/// Returns the number in the four bytes from an index on.
#[tactic(auto, unfolding(crate::specs::Numbers::field))]
pub fn u32_at(bytes: &[u8], at: usize, order: Order) -> u32
    requires { at + 4 ≤ length bytes.now }
    ensures { result ≡ field bytes.now at w32 order }
{
    let rest = &bytes[at..];
    let digits = [rest[0], rest[1], rest[2], rest[3]];
    match order {
        Order::Little => u32::from_le_bytes(digits),
        Order::Big => u32::from_be_bytes(digits),
    }
}

/// Returns the number in the eight bytes from an index on.
#[tactic(auto, unfolding(crate::specs::Numbers::field))]
pub fn u64_at(bytes: &[u8], at: usize, order: Order) -> u64
    requires { at + 8 ≤ length bytes.now }
    ensures { result ≡ field bytes.now at w64 order }
{
    let rest = &bytes[at..];
    let digits = [
        rest[0], rest[1], rest[2], rest[3], rest[4], rest[5], rest[6], rest[7],
    ];
    match order {
        Order::Little => u64::from_le_bytes(digits),
        Order::Big => u64::from_be_bytes(digits),
    }
}

/// Returns the index of the first zero byte.
#[tactic(auto, using(crate::proofs::Zeros::first_is))]
fn first_zero(bytes: &[u8]) -> Option<usize>
    ensures { result ≡ position (λ b. b == 0) bytes.now }
{
    memchr(0, bytes)
}

/// Returns the bytes from an index on, up to the next zero byte. `None` if no zero byte follows, or if the index
/// isn't below the length.
#[tactic(auto, unfolding(crate::specs::Numbers::text))]
pub fn text_at(bytes: &[u8], at: usize) -> Option<&[u8]>
    ensures { option_copied result ≡ text bytes.now at }
{
    if at >= bytes.len() {
        return None;
    }
    let rest = &bytes[at..];
    let len = first_zero(rest)?;
    Some(&rest[..len])
}
