//! Laws of the definitions.

ghost use Rattle.std.specs.Prelude.{◌≡◌, [], ◌∷◌};
ghost use Rattle.dwarf_line_header.specs.Laws.{TableGoesOn, TableStops};
ghost use Rattle.dwarf_line_header.specs.declared.constants.TheConstants.{DW_LNCT_PATH, DW_LNCT_DIRECTORY_INDEX};

/// The content types of entries have the numbers of the standard (DWARF 5, section 7.22, table 7.27).
pub fn standard_numbers()
    ensures { (DW_LNCT_PATH ∷ DW_LNCT_DIRECTORY_INDEX ∷ []) ≡ (1 ∷ 2 ∷ []) }
{}

/// A table of directories or files of DWARF 2 to 4 is read entry by entry, up to an entry with an empty name or
/// a fault.
pub fn entries_one_after_another()
    ensures more { TableGoesOn }
    ensures fault { TableStops }
{}
