//! A byte with its file offset and its virtual address.

ghost use Rattle.std.specs.Prelude.{◌≡◌, ℕ, List};
ghost use Rattle.size_core.specs.declared.claim.Load.{Load};
ghost use Rattle.size_core.specs.declared.place.Place.{Place as PlaceSpec};
ghost use Rattle.size_model.specs.Claims.{span_has, offset_in, address_in};
ghost use Rattle.place_explain.specs.Places.{claim_covers};
ghost use Rattle.place_explain.specs.Spots.{IsSpot};

use dual_map::Base;
use size_core::{Claim, Place, Side, Span};

/// A byte with its file offset and its virtual address, as far as it has them.
#[derive(Clone, Copy)]
pub struct Spot {
    /// The location that was given: a file offset or an address.
    pub place: Place,
    /// The file offset. `None` if the byte isn't in the file.
    pub offset: Option<u64>,
    /// The address space and the virtual address. `None` if the byte isn't mapped.
    pub address: Option<(u32, u64)>,
}

fn span_has(span: &Span, x: u64) -> bool
    ensures { result ≡ span_has span.now x }
{
    span.start <= x && x - span.start < span.len
}

fn offset_in(span: &Span, offset: Option<u64>) -> bool
    ensures { result ≡ offset_in span.now offset }
{
    match offset {
        None => false,
        Some(offset) => span_has(span, offset),
    }
}

fn address_in(span: &Span, address: Option<(u32, u64)>) -> bool
    ensures { result ≡ address_in span.now address }
{
    match address {
        None => false,
        Some((space, address)) => span.space == space && span_has(span, address),
    }
}

impl Spot {
    /// The byte with its file offset and its virtual address.
    pub fn of(base: &Base, place: &Place) -> Spot
        ensures { IsSpot base.now.len base.now.loads place.now result }
    {
        let (offset, address) = match *place {
            Place::Offset(offset) => (Some(offset), base.to_vm(offset)),
            Place::Address(space, address) => (
                base.to_file(space, address),
                Some((space, address)),
            ),
        };
        Spot {
            place: *place,
            offset,
            address,
        }
    }

    /// Whether a claim covers the byte.
    pub fn is_covered_by(&self, claim: &Claim) -> bool
        ensures { (len : ℕ) (loads : List Load) (place : PlaceSpec)
            → IsSpot len loads place self.now
            → result ≡ claim_covers len loads place claim.now }
    {
        match claim.side {
            Side::File => offset_in(&claim.file, self.offset),
            Side::Vm => address_in(&claim.vm, self.address),
            Side::Both => match self.place {
                Place::Offset(_) => offset_in(&claim.file, self.offset),
                Place::Address(..) => address_in(&claim.vm, self.address),
            },
        }
    }
}
