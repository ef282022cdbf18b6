//! The texts of sizes and percentages.

ghost use Rattle.std.specs.Prelude.{◌≡◌, ◌++◌, ◌<◌, ◌≤◌, OnOk, decimal};
ghost use Rattle.report_text.specs.Numbers.{tenths, in_unit, size_text, thousandths, percent_text};

use crate::pieces::push;
use itoa::Buffer;
use size_core::NoMemory;

/// Appends a decimal number.
pub fn push_decimal(out: &mut Vec<u8>, n: u128) -> Result<(), NoMemory>
    ensures { OnOk result (out.new.items ≡ out.old.items ++ decimal n) }
{
    let mut buffer = Buffer::new();
    push(out, buffer.format(n).as_bytes())
}

// Appends a number of tenths, with a decimal point.
#[tactic(auto, unfolding(crate::specs::Numbers::tenths))]
fn push_tenths(out: &mut Vec<u8>, count: u128) -> Result<(), NoMemory>
    ensures { OnOk result (out.new.items ≡ out.old.items ++ tenths count) }
{
    push_decimal(out, count / 10)?;
    push(out, &[b'.', b'0' + (count % 10) as u8])
}

// Appends a size in a unit.
#[tactic(auto, unfolding(crate::specs::Numbers::in_unit))]
fn push_in_unit(out: &mut Vec<u8>, size: u64, unit: u64, letters: &[u8]) -> Result<(), NoMemory>
    requires { 0 < unit }
    ensures { OnOk result (out.new.items ≡ out.old.items ++ in_unit size unit letters.now) }
{
    push_tenths(out, 10 * size as u128 / unit as u128)?;
    push(out, letters)
}

/// Appends a size in bytes. It is exact below 1024. Above, it is in the greatest unit that isn't larger than
/// it, rounded down to a tenth.
#[tactic(auto, unfolding(crate::specs::Numbers::size_text))]
pub fn push_size(out: &mut Vec<u8>, size: u64) -> Result<(), NoMemory>
    ensures { OnOk result (out.new.items ≡ out.old.items ++ size_text size) }
{
    if size < 1 << 10 {
        push_decimal(out, size as u128)
    } else if size < 1 << 20 {
        push_in_unit(out, size, 1 << 10, b"Ki")
    } else if size < 1 << 30 {
        push_in_unit(out, size, 1 << 20, b"Mi")
    } else if size < 1 << 40 {
        push_in_unit(out, size, 1 << 30, b"Gi")
    } else if size < 1 << 50 {
        push_in_unit(out, size, 1 << 40, b"Ti")
    } else if size < 1 << 60 {
        push_in_unit(out, size, 1 << 50, b"Pi")
    } else {
        push_in_unit(out, size, 1 << 60, b"Ei")
    }
}

// How many thousandths of the total a size is.
fn thousandths(size: u64, total: u64) -> u128
    ensures { result ≡ thousandths size total }
{
    if total == 0 {
        return 0;
    }
    1000 * size as u128 / total as u128
}

/// Appends the percentage of a size in a total, rounded down to a tenth.
#[tactic(auto, unfolding(crate::specs::Numbers::percent_text))]
pub fn push_percent(out: &mut Vec<u8>, size: u64, total: u64) -> Result<(), NoMemory>
    ensures { OnOk result (out.new.items ≡ out.old.items ++ percent_text size total) }
{
    push_tenths(out, thousandths(size, total))?;
    push(out, b"%")
}
