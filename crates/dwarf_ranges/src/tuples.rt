//! The tuples of an address set (DWARF 5, section 6.1.2).

ghost use Rattle.std.specs.Prelude.{◌≡◌};
ghost use Rattle.std.specs.Iterator.{YieldsFirst, item_count};
ghost use Rattle.dwarf_abbrev.specs.Reads.{Reads};
ghost use Rattle.dwarf_ranges.specs.Tuples.{tuple_from, tuples_from};

use crate::operands::addresses_from;
use byte_cursor::{Cursor, Order};
use size_core::BadFile;
use std::marker::Model;

/// Reads a tuple: an address, and a length in bytes. `None` for a tuple of zeros, the end of the list.
#[tactic(auto, unfolding(crate::specs::Tuples::tuple_from))]
fn tuple_from(cursor: &mut Cursor, order: Order, size: u8) -> Result<Option<(u64, u64)>, BadFile>
    ensures { Reads (λ t. t) result cursor.new (tuple_from order size cursor.old) }
{
    let (address, len) = addresses_from(cursor, order, size)?;
    if address == 0 && len == 0 {
        Ok(None)
    } else {
        Ok(Some((address, len)))
    }
}

/// The tuples of an address set in order, each an address and a length in bytes. Tuples that claim nothing are
/// included. The list ends before a tuple of zeros, or if fewer bytes are left than a tuple has.
#[derive(Drop)]
pub struct Tuples<'a> {
    order: Order,
    size: u8,
    cursor: Cursor<'a>,
}

impl<'a> Model for Tuples<'a> {
    ghost use Rattle.std.specs.Prelude.{ℕ, List};
    ghost use Rattle.dwarf_ranges.specs.Tuples.{tuples_from};

    ghost Value = { List (ℕ × ℕ) };

    ghost view = { λ t. tuples_from t.order t.size t.cursor };
}

impl<'a> Tuples<'a> {
    /// The tuples from the cursor on.
    pub(crate) fn new(order: Order, size: u8, cursor: Cursor<'a>) -> Tuples<'a>
        ensures { result ≡ tuples_from order size cursor.entry }
    {
        Tuples {
            order,
            size,
            cursor,
        }
    }
}

impl<'a> Iterator for Tuples<'a> {
    type Item = (u64, u64);

    ghost next_gives = { YieldsFirst (λ t. t) };

    ghost remaining = { item_count (λ t. t) };

    #[tactic(auto, using(crate::proofs::TupleLemmas::tuples_more, crate::proofs::TupleLemmas::tuples_done, crate::proofs::TupleLemmas::tuples_bad))]
    fn next(&mut self) -> Option<(u64, u64)> {
        let mut ahead = self.cursor.fork();
        match tuple_from(&mut ahead, self.order, self.size) {
            Ok(Some(tuple)) => {
                self.cursor = ahead;
                Some(tuple)
            }
            _ => None,
        }
    }
}
