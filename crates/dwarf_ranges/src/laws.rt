//! Laws of the definitions.

ghost use Rattle.std.specs.Prelude.{◌≡◌, [], ◌∷◌};
ghost use Rattle.dwarf_ranges.specs.declared.constants.TheConstants.{DW_RLE_END_OF_LIST, DW_RLE_BASE_ADDRESSX, DW_RLE_STARTX_ENDX, DW_RLE_STARTX_LENGTH, DW_RLE_OFFSET_PAIR, DW_RLE_BASE_ADDRESS, DW_RLE_START_END, DW_RLE_START_LENGTH};
ghost use Rattle.dwarf_ranges.specs.Laws.{ListsFollow, RangesClaim, SetsAreOneAfterAnother};

/// The kinds of range list entries have the numbers of the standard (DWARF 5, section 7.25, table 7.30).
pub fn standard_numbers()
    ensures { (DW_RLE_END_OF_LIST ∷ DW_RLE_BASE_ADDRESSX ∷ DW_RLE_STARTX_ENDX ∷ DW_RLE_STARTX_LENGTH
        ∷ DW_RLE_OFFSET_PAIR ∷ DW_RLE_BASE_ADDRESS ∷ DW_RLE_START_END ∷ DW_RLE_START_LENGTH ∷ [])
        ≡ (0 ∷ 1 ∷ 2 ∷ 3 ∷ 4 ∷ 5 ∷ 6 ∷ 7 ∷ []) }
{}

/// A range list is what its first entry means and then what the rest of the list means, up to its end or a
/// fault.
#[tactic(auto, using(crate::proofs::ListLemmas::list_follows))]
pub fn lists_are_read_one_entry_after_another()
    ensures { ListsFollow }
{}

/// No range that is returned is empty, starts at 0, or starts at one of the two greatest addresses.
pub fn each_range_claims_something()
    ensures { RangesClaim }
{}

/// Address sets are read one after another, up to the end of the section or to a fault.
pub fn sets_are_read_one_after_another()
    ensures { SetsAreOneAfterAnother }
{}
