//! LEB128 numbers: digits in base 128, the lowest first (DWARF 5, section 7.6).
//!
//! A number is decoded from its last byte to its first, so a small number with many redundant bytes needs
//! no special case.

ghost use Rattle.std.specs.Prelude.{◌≡◌, ℕ, ℤ, pos, ◌+ℤ◌, ◌*ℤ◌, ◌+◌, ◌*◌, ◌%◌, ◌^◌, ◌<◌, ◌≤◌, length, slice_index, MatchOption, FitsSigned};
ghost use Rattle.std.specs.Int.{w64};
ghost use Rattle.std.specs.Option.{SomeIff};
ghost use Rattle.byte_cursor.specs.Numbers.{leb, signed};
ghost use Rattle.byte_cursor.specs.Spelled.{IsUnsigned, IsSigned};

/// Returns the index of the last byte of the LEB128 number at the start of the bytes: the first byte with a clear top
/// bit. `None` if there is no such byte.
pub fn last_digit(bytes: &[u8]) -> Option<usize>
    ensures { MatchOption result (leb bytes.now ≡ None)
        (λ i. (i < length bytes.now) × (slice_index bytes.now i < 128)
        × ((k : ℕ) → k < i → 128 ≤ slice_index bytes.now k)) }
{
    for (i, byte) in bytes.iter().enumerate() {
        if *byte < 128 {
            return Some(i);
        }
    }
    None
}

/// Returns the number with the low seven bits of `byte` as its lowest digit and `high` above it. `None`
/// if it doesn't fit 64 bits.
fn with_digit(high: Option<u64>, byte: u8) -> Option<u64>
    ensures { (x : ℕ) → SomeIff high (x < 2 ^ 64) x
        → SomeIff result (byte % 128 + 128 * x < 2 ^ 64) (byte % 128 + 128 * x) }
{
    match high {
        Some(high) if high <= u64::MAX / 128 => Some(high * 128 + (byte % 128) as u64),
        _ => None,
    }
}

/// Returns the unsigned number at the start of the bytes, whose last byte is at index `last`. `None` if it doesn't
/// fit 64 bits.
pub fn unsigned(bytes: &[u8], last: usize) -> Option<u64>
    requires within { last < length bytes.now }
    requires end { slice_index bytes.now last < 128 }
    requires before { (k : ℕ) → k < last → 128 ≤ slice_index bytes.now k }
    ensures { IsUnsigned (leb bytes.now) (last + 1) result }
{
    let mut value = Some(bytes[last] as u64);
    let mut i = last;
    while i > 0 {
        i -= 1;
        value = with_digit(value, bytes[i]);
    }
    value
}

/// Returns the value of the last digit of a signed number, which has the sign.
fn signed_digit(byte: u8) -> i64
    requires { byte < 128 }
    ensures { result ≡ signed byte 1 byte }
{
    if byte < 64 {
        byte as i64
    } else {
        byte as i64 - 128
    }
}

/// Returns the signed number with the low seven bits of `byte` as its lowest digit and `high` above it.
/// `None` if it doesn't fit 64 bits.
fn with_signed_digit(high: Option<i64>, byte: u8) -> Option<i64>
    ensures { (z : ℤ) → SomeIff high (FitsSigned w64 z) z
        → SomeIff result (FitsSigned w64 (pos (byte % 128) +ℤ pos 128 *ℤ z))
        (pos (byte % 128) +ℤ pos 128 *ℤ z) }
{
    let scaled = high?.checked_mul(128)?;
    scaled.checked_add((byte % 128) as i64)
}

/// Returns the signed number at the start of the bytes, whose last byte is at index `last`. `None` if it doesn't fit
/// 64 bits.
pub fn signed(bytes: &[u8], last: usize) -> Option<i64>
    requires within { last < length bytes.now }
    requires end { slice_index bytes.now last < 128 }
    requires before { (k : ℕ) → k < last → 128 ≤ slice_index bytes.now k }
    ensures { IsSigned (leb bytes.now) (slice_index bytes.now last) (last + 1) result }
{
    let mut value = Some(signed_digit(bytes[last]));
    let mut i = last;
    while i > 0 {
        i -= 1;
        value = with_signed_digit(value, bytes[i]);
    }
    value
}
