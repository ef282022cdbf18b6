//! The address sets of `.debug_aranges`, one after another.

ghost use Rattle.std.specs.Prelude.{◌≡◌, [], ◌∷◌, MatchOption};
ghost use Rattle.std.specs.Iterator.{YieldsFirst, item_count};
ghost use Rattle.dwarf_ranges.specs.Sets.{sets_from, sets_of};

use crate::set::{AddressSet, set_from};
use byte_cursor::{Cursor, Order};
use dwarf_units::Sections;
use size_core::BadFile;
use std::marker::Model;

/// The next set or fault. After a fault nothing follows.
#[tactic(auto, using(crate::proofs::SetLemmas::comes_none, crate::proofs::SetLemmas::comes_fault, crate::proofs::SetLemmas::comes_set, crate::proofs::SetLemmas::comes_same, crate::proofs::SetLemmas::set_less))]
fn next_set<'a>(cursor: &mut Cursor<'a>, order: Order) -> Option<Result<AddressSet<'a>, BadFile>>
    ensures { MatchOption result
        ((sets_from order cursor.old ≡ []) × (sets_from order cursor.new ≡ []))
        (λ x. sets_from order cursor.old ≡ x ∷ sets_from order cursor.new) }
{
    'sets: while cursor.left() > 0 {
        match set_from(cursor, order) {
            Ok(Some(set)) => return Some(Ok(set)),
            Ok(None) => {}
            Err(fault) => {
                let _ = cursor.skip(cursor.left());
                return Some(Err(fault));
            }
        }
    }
    None
}

/// The address sets of `.debug_aranges` in order, and then its fault, if there is one. Sets are skipped that
/// are too short for a header, have a version other than 2, have addresses of a size other than 2, 4 and 8, or
/// have segments.
#[derive(Drop)]
pub struct AddressSets<'a> {
    order: Order,
    cursor: Cursor<'a>,
}

impl<'a> Model for AddressSets<'a> {
    ghost use Rattle.std.specs.Prelude.{List, Result};
    ghost use Rattle.size_core.specs.declared.fault.BadFile.{BadFile};
    ghost use Rattle.dwarf_ranges.specs.declared.set.AddressSet.{AddressSet};
    ghost use Rattle.dwarf_ranges.specs.Sets.{sets_from};

    ghost Value = { List (Result AddressSet BadFile) };

    ghost view = { λ s. sets_from s.order s.cursor };
}

impl<'a> Iterator for AddressSets<'a> {
    type Item = Result<AddressSet<'a>, BadFile>;

    ghost next_gives = { YieldsFirst (λ s. s) };

    ghost remaining = { item_count (λ s. s) };

    /// The next set. Truncated or BadUnit at the set's file offset if its length can't be read, is reserved,
    /// or reaches past the end of the section. After a fault no set follows.
    fn next(&mut self) -> Option<Result<AddressSet<'a>, BadFile>> {
        next_set(&mut self.cursor, self.order)
    }
}

/// The address sets of `.debug_aranges`.
pub fn arange_sets<'a>(sections: &Sections<'a>) -> AddressSets<'a>
    ensures { result ≡ sets_of sections.now }
{
    AddressSets {
        order: sections.order,
        cursor: sections.aranges.fork(),
    }
}
