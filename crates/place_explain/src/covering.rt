//! The claims that cover a byte.

ghost use Rattle.std.specs.Prelude.{◌≡◌, IfOk, IsTrue};
ghost use Rattle.place_explain.specs.Numbers.{numbers_of};
ghost use Rattle.place_explain.specs.Places.{claim_covers, is_inside};

use crate::named::Numbers;
use crate::spot::Spot;
use dual_map::Base;
use size_core::{Claim, NoMemory, Place};
use std::alloc::Global;

/// Whether a byte belongs to a file of `file_len` bytes: its file offset is below the length, or its virtual
/// address is mapped.
pub fn is_inside(base: &Base, file_len: u64, place: &Place) -> bool
    ensures { result ≡ is_inside file_len base.now.loads place.now }
{
    match *place {
        Place::Offset(offset) => offset < file_len,
        Place::Address(space, address) => base.is_mapped(space, address),
    }
}

/// Whether a claim covers a byte of a file of `file_len` bytes. The base was built for this file.
pub fn covers(base: &Base, file_len: u64, claim: &Claim, place: &Place) -> bool
    requires { base.now.len ≡ file_len }
    ensures { result ≡ claim_covers file_len base.now.loads place.now claim.now }
{
    Spot::of(base, place).is_covered_by(claim)
}

/// The numbers, counted from 1 and ascending, of all claims that cover a byte of a file of `file_len` bytes.
/// The base was built for this file.
pub fn explain(
    alloc: Global,
    base: &Base,
    file_len: u64,
    claims: &[Claim],
    place: &Place,
) -> Result<Numbers, NoMemory>
    requires len { base.now.len ≡ file_len }
    requires inside { IsTrue (is_inside file_len base.now.loads place.now) }
    ensures { IfOk result (λ numbers. numbers
        ≡ numbers_of (claim_covers file_len base.now.loads place.now) 1 claims.now) }
{
    let spot = Spot::of(base, place);
    let mut numbers = Numbers::new(alloc);
    for (i, claim) in claims.iter().enumerate() {
        if spot.is_covered_by(claim) {
            numbers.push(i as u64 + 1)?;
        }
    }
    Ok(numbers)
}
