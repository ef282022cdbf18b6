//! Laws of the definitions.

ghost use Rattle.std.specs.Prelude.{◌≡◌, [], ◌∷◌};
ghost use Rattle.dwarf_units.specs.declared.constants.TheConstants.{DW_AT_ADDR_BASE, DW_AT_HIGH_PC, DW_AT_LOW_PC, DW_AT_NAME, DW_AT_RANGES, DW_AT_RNGLISTS_BASE, DW_AT_STMT_LIST, DW_AT_STR_OFFSETS_BASE, DW_UT_COMPILE, DW_UT_SKELETON, DW_UT_SPLIT_COMPILE, DW_UT_SPLIT_TYPE, DW_UT_TYPE};
ghost use Rattle.dwarf_units.specs.Laws.{AreOneAfterAnother, UnitsAreKnown};

/// The constants have the numbers of the standard: the types of units (DWARF 5, section 7.5.1, table 7.2), the
/// attributes of DWARF 2 to 4, and the attributes of DWARF 5 (section 7.5.4, table 7.5).
pub fn standard_numbers()
    ensures unit_types { (DW_UT_COMPILE ∷ DW_UT_TYPE ∷ DW_UT_SKELETON ∷ DW_UT_SPLIT_COMPILE
        ∷ DW_UT_SPLIT_TYPE ∷ [])
        ≡ (1 ∷ 2 ∷ 4 ∷ 5 ∷ 6 ∷ []) }
    ensures attributes { (DW_AT_NAME ∷ DW_AT_STMT_LIST ∷ DW_AT_LOW_PC ∷ DW_AT_HIGH_PC
        ∷ DW_AT_RANGES ∷ [])
        ≡ (0x03 ∷ 0x10 ∷ 0x11 ∷ 0x12 ∷ 0x55 ∷ []) }
    ensures bases { (DW_AT_STR_OFFSETS_BASE ∷ DW_AT_ADDR_BASE ∷ DW_AT_RNGLISTS_BASE ∷ [])
        ≡ (0x72 ∷ 0x73 ∷ 0x74 ∷ []) }
{}

/// Each unit that is returned has a version from 2 to 5, and its addresses have 2, 4 or 8 bytes.
pub fn units_are_known()
    ensures { UnitsAreKnown }
{}

/// Units are read one after another, up to the end of the section or to a fault.
pub fn units_are_read_one_after_another()
    ensures { AreOneAfterAnother }
{}
