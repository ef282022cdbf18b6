//! Initial lengths (DWARF 5, section 7.4).

ghost use Rattle.std.specs.Prelude.{◌≡◌};
ghost use Rattle.size_core.specs.Checks.{bad};
ghost use Rattle.size_core.specs.declared.fault.Fault.TheVariants.{BadUnit};
ghost use Rattle.dwarf_abbrev.specs.Lengths.{checked_length, initial_length_from, rest_of_length};
ghost use Rattle.dwarf_abbrev.specs.Reads.{Reads, Takes};

use crate::constants::{FIRST_RESERVED_LENGTH, WIDE_LENGTH};
use crate::form::Digits;
use crate::reads::number_from;
use byte_cursor::{Cursor, Order};
use size_core::{BadFile, Fault};

/// The length and the format of a unit, a table or a set.
#[derive(Clone, Copy, Debug, PartialEq, Eq, Hash)]
pub struct InitialLength {
    /// The number of bytes after the length field.
    pub len: u64,
    /// Whether offsets have 8 bytes (the 64-bit format) or 4 (the 32-bit format).
    pub wide: bool,
}

/// The rest of a length, after its first four bytes.
#[tactic(auto, unfolding(crate::specs::Reads::number_from))]
fn rest_of_length(cursor: &mut Cursor, first: u64, order: Order) -> Result<InitialLength, BadFile>
    ensures { Reads (λ x. x) result cursor.new (rest_of_length order (first, cursor.old)) }
{
    if first == WIDE_LENGTH {
        let len = number_from(cursor, order, Digits::Eight)?;
        Ok(InitialLength { len, wide: true })
    } else {
        Ok(InitialLength {
            len: first,
            wide: false,
        })
    }
}

/// The fault of a length at this file offset.
fn bad_unit(place: u64) -> Result<InitialLength, BadFile>
    ensures { result ≡ bad BadUnit place }
{
    Err(BadFile {
        fault: Fault::BadUnit,
        offset: place,
    })
}

/// Reads an initial length and checks it.
#[tactic(auto, unfolding(crate::specs::Lengths::checked_length, crate::specs::Reads::number_from))]
fn checked_length(cursor: &mut Cursor, order: Order) -> Result<InitialLength, BadFile>
    ensures { Reads (λ x. x) result cursor.new (checked_length order cursor.old) }
{
    let place = cursor.place();
    let first = number_from(cursor, order, Digits::Four)?;
    if first >= FIRST_RESERVED_LENGTH && first != WIDE_LENGTH {
        return bad_unit(place);
    }
    let initial = rest_of_length(cursor, first, order)?;
    if cursor.left() < initial.len {
        return bad_unit(place);
    }
    Ok(initial)
}

/// Reads an initial length: 4 bytes, or ffffffff and 8 bytes. Truncated if it isn't complete. BadUnit if
/// its first four bytes are fffffff0 to fffffffe, or if the contents reach past the end of the window.
#[tactic(auto, unfolding(crate::specs::Lengths::initial_length_from))]
pub fn initial_length(cursor: &mut Cursor, order: Order) -> Result<InitialLength, BadFile>
    ensures { Takes (λ x. x) result cursor.old cursor.new (initial_length_from order cursor.old) }
{
    let place = cursor.place();
    let mut ahead = cursor.fork();
    match checked_length(&mut ahead, order) {
        Ok(initial) => {
            *cursor = ahead;
            Ok(initial)
        }
        Err(bad) => Err(BadFile {
            fault: bad.fault,
            offset: place,
        }),
    }
}
