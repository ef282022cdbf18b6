//! The explanation of a location.

ghost use Rattle.std.specs.Prelude.{◌≡◌, ◌++◌, OnOk, OnErr, codes};
ghost use Rattle.report_text.specs.Places.{number_line, name_line, space_text, place_line, side_text, claim_text, claim_lines, more_line, source_lines, place_report_text};

use crate::labels::push_shortened;
use crate::numbers::push_decimal;
use crate::pieces::{push, push_text};
use place_explain::{NamedClaim, NamedClaims, PlaceSource};
use size_core::{NoMemory, Place, Side};
use std::alloc::Global;

// Appends a line that ends in a number.
#[tactic(auto, unfolding(crate::specs::Places::number_line))]
fn push_number_line(out: &mut Vec<u8>, before: &[u8], number: u64) -> Result<(), NoMemory>
    ensures { OnOk result (out.new.items ≡ out.old.items ++ number_line before.now number) }
{
    push(out, before)?;
    push_decimal(out, number as u128)?;
    push(out, b"\n")
}

// Appends a line that ends in a name or a label.
#[tactic(auto, unfolding(crate::specs::Places::name_line))]
fn push_name_line(out: &mut Vec<u8>, before: &[u8], text: &[u8], wide: bool) -> Result<(), NoMemory>
    ensures { OnOk result (out.new.items ≡ out.old.items ++ name_line wide before.now text.now) }
{
    push(out, before)?;
    push_shortened(out, text, wide)?;
    push(out, b"\n")
}

// Appends the address space before an address.
#[tactic(auto, unfolding(crate::specs::Places::space_text))]
fn push_space(out: &mut Vec<u8>, space: u32) -> Result<(), NoMemory>
    ensures { OnOk result (out.new.items ≡ out.old.items ++ space_text space) }
{
    if space == 0 {
        return Ok(());
    }
    push_decimal(out, space as u128)?;
    push(out, b":")
}

// Appends the line of an address.
#[tactic(auto, unfolding(crate::specs::Places::number_line))]
fn push_address(out: &mut Vec<u8>, space: u32, address: u64) -> Result<(), NoMemory>
    ensures { OnOk result (out.new.items
        ≡ out.old.items ++ number_line (codes "address " ++ space_text space) address) }
{
    push(out, b"address ")?;
    push_space(out, space)?;
    push_number_line(out, b"", address)
}

// Appends the line of a location.
#[tactic(auto, unfolding(crate::specs::Places::place_line))]
fn push_place(out: &mut Vec<u8>, place: &Place) -> Result<(), NoMemory>
    ensures { OnOk result (out.new.items ≡ out.old.items ++ place_line place.now) }
{
    match *place {
        Place::Offset(offset) => push_number_line(out, b"file offset ", offset),
        Place::Address(space, address) => push_address(out, space, address),
    }
}

// The text for a claim's side.
fn side_text(side: Side) -> &'static [u8]
    ensures { result.now ≡ side_text side }
{
    match side {
        Side::File => b" file ",
        Side::Vm => b" vm ",
        Side::Both => b" both ",
    }
}

// Appends the rest of a claim's line after its rank.
#[tactic(auto, unfolding(crate::specs::Places::claim_text))]
fn push_claim(out: &mut Vec<u8>, claim: &NamedClaim, wide: bool) -> Result<(), NoMemory>
    ensures { OnOk result (out.new.items ≡ out.old.items ++ claim_text wide claim.now) }
{
    push_decimal(out, claim.number as u128)?;
    push_name_line(out, side_text(claim.side), claim.label.as_slice(), wide)
}

// Appends the lines of the claims that cover a location.
fn push_claims(out: &mut Vec<u8>, claims: &NamedClaims, wide: bool) -> Result<(), NoMemory>
    ensures { OnOk result (out.new.items ≡ out.old.items ++ claim_lines wide claims.now) }
{
    if claims.len() == 0 {
        return push(out, b"  first none\n");
    }
    push(out, b"  first #")?;
    push_claim(out, claims.get(0), wide)?;
    for k in 1..claims.len() {
        push(out, b"  beaten #")?;
        push_claim(out, claims.get(k), wide)?;
    }
    Ok(())
}

// Appends the line for the claims that a limit leaves out.
#[tactic(auto, unfolding(crate::specs::Places::more_line))]
fn push_more(out: &mut Vec<u8>, more: u64) -> Result<(), NoMemory>
    ensures { OnOk result (out.new.items ≡ out.old.items ++ more_line more) }
{
    if more == 0 {
        return Ok(());
    }
    push_number_line(out, b"  more ", more)
}

// Appends the lines of a data source.
#[tactic(auto, unfolding(crate::specs::Places::source_lines))]
fn push_source(out: &mut Vec<u8>, source: &PlaceSource, wide: bool) -> Result<(), NoMemory>
    ensures { OnOk result (out.new.items ≡ out.old.items ++ source_lines wide source.now) }
{
    push_name_line(out, b"source ", source.name.as_slice(), wide)?;
    push_name_line(out, b"  label ", source.label.as_slice(), wide)?;
    push_claims(out, &source.claims, wide)?;
    push_more(out, source.more)
}

/// Appends the explanation of a location: a line for the location, and then for each data source its name, the
/// location's label, the claims that cover the location, and the number of further claims. The claims are in order,
/// each with its number, its side and its label. A name or a label of more than 60 bytes is shortened unless `wide`. If
/// memory runs out, `out` is unchanged.
#[tactic(auto, unfolding(crate::specs::Places::place_report_text))]
pub fn place_text(
    alloc: Global,
    place: &Place,
    sources: &[PlaceSource],
    wide: bool,
    out: &mut Vec<u8>,
) -> Result<(), NoMemory>
    ensures ok { OnOk result (out.new.items
        ≡ out.old.items ++ place_report_text place.now sources.now wide) }
    ensures err { OnErr result (out.new.items ≡ out.old.items) }
{
    let mut text = Vec::new(alloc);
    push_place(&mut text, place)?;
    for source in sources {
        push_source(&mut text, source, wide)?;
    }
    push_text(out, text)
}
