//! Laws of the definitions.

ghost use Rattle.std.specs.Prelude.{◌≡◌, [], ◌∷◌};
ghost use Rattle.dwarf_abbrev.specs.declared.constants.TheConstants.{FIRST_RESERVED_LENGTH, WIDE_LENGTH, DW_FORM_ADDR, DW_FORM_BLOCK2, DW_FORM_BLOCK4, DW_FORM_DATA2, DW_FORM_DATA4, DW_FORM_DATA8, DW_FORM_STRING, DW_FORM_BLOCK, DW_FORM_BLOCK1, DW_FORM_DATA1, DW_FORM_FLAG, DW_FORM_SDATA, DW_FORM_STRP, DW_FORM_UDATA, DW_FORM_REF_ADDR, DW_FORM_REF1, DW_FORM_REF2, DW_FORM_REF4, DW_FORM_REF8, DW_FORM_REF_UDATA, DW_FORM_INDIRECT, DW_FORM_SEC_OFFSET, DW_FORM_EXPRLOC, DW_FORM_FLAG_PRESENT, DW_FORM_STRX, DW_FORM_ADDRX, DW_FORM_REF_SUP4, DW_FORM_STRP_SUP, DW_FORM_DATA16, DW_FORM_LINE_STRP, DW_FORM_REF_SIG8, DW_FORM_IMPLICIT_CONST, DW_FORM_LOCLISTX, DW_FORM_RNGLISTX, DW_FORM_REF_SUP8, DW_FORM_STRX1, DW_FORM_STRX2, DW_FORM_STRX3, DW_FORM_STRX4, DW_FORM_ADDRX1, DW_FORM_ADDRX2, DW_FORM_ADDRX3, DW_FORM_ADDRX4, DW_FORM_GNU_ADDR_INDEX, DW_FORM_GNU_STR_INDEX, DW_FORM_GNU_REF_ALT, DW_FORM_GNU_STRP_ALT};
ghost use Rattle.dwarf_abbrev.specs.Laws.{SpecsFollow, DeclarationsFollow};

/// The constants have the numbers of the standard: reserved lengths (DWARF 5, section 7.4), forms of DWARF 2 to
/// 4, forms of DWARF 5 (section 7.5.6, table 7.6), and the forms of GNU tools.
pub fn standard_numbers()
    ensures lengths { (FIRST_RESERVED_LENGTH ∷ WIDE_LENGTH ∷ []) ≡ (0xfffffff0 ∷ 0xffffffff ∷ []) }
    ensures early { (DW_FORM_ADDR ∷ DW_FORM_BLOCK2 ∷ DW_FORM_BLOCK4 ∷ DW_FORM_DATA2 ∷ DW_FORM_DATA4
        ∷ DW_FORM_DATA8 ∷ DW_FORM_STRING ∷ DW_FORM_BLOCK ∷ DW_FORM_BLOCK1 ∷ DW_FORM_DATA1
        ∷ DW_FORM_FLAG ∷ DW_FORM_SDATA ∷ DW_FORM_STRP ∷ DW_FORM_UDATA ∷ [])
        ≡ (0x01 ∷ 0x03 ∷ 0x04 ∷ 0x05 ∷ 0x06 ∷ 0x07 ∷ 0x08 ∷ 0x09 ∷ 0x0a ∷ 0x0b
        ∷ 0x0c ∷ 0x0d ∷ 0x0e ∷ 0x0f ∷ []) }
    ensures references { (DW_FORM_REF_ADDR ∷ DW_FORM_REF1 ∷ DW_FORM_REF2 ∷ DW_FORM_REF4
        ∷ DW_FORM_REF8 ∷ DW_FORM_REF_UDATA ∷ DW_FORM_INDIRECT ∷ DW_FORM_SEC_OFFSET
        ∷ DW_FORM_EXPRLOC ∷ DW_FORM_FLAG_PRESENT ∷ [])
        ≡ (0x10 ∷ 0x11 ∷ 0x12 ∷ 0x13 ∷ 0x14 ∷ 0x15 ∷ 0x16 ∷ 0x17 ∷ 0x18 ∷ 0x19 ∷ []) }
    ensures dwarf_5 { (DW_FORM_STRX ∷ DW_FORM_ADDRX ∷ DW_FORM_REF_SUP4 ∷ DW_FORM_STRP_SUP
        ∷ DW_FORM_DATA16 ∷ DW_FORM_LINE_STRP ∷ DW_FORM_REF_SIG8 ∷ DW_FORM_IMPLICIT_CONST
        ∷ DW_FORM_LOCLISTX ∷ DW_FORM_RNGLISTX ∷ DW_FORM_REF_SUP8 ∷ [])
        ≡ (0x1a ∷ 0x1b ∷ 0x1c ∷ 0x1d ∷ 0x1e ∷ 0x1f ∷ 0x20 ∷ 0x21 ∷ 0x22 ∷ 0x23 ∷ 0x24 ∷ []) }
    ensures short_indices { (DW_FORM_STRX1 ∷ DW_FORM_STRX2 ∷ DW_FORM_STRX3 ∷ DW_FORM_STRX4
        ∷ DW_FORM_ADDRX1 ∷ DW_FORM_ADDRX2 ∷ DW_FORM_ADDRX3 ∷ DW_FORM_ADDRX4 ∷ [])
        ≡ (0x25 ∷ 0x26 ∷ 0x27 ∷ 0x28 ∷ 0x29 ∷ 0x2a ∷ 0x2b ∷ 0x2c ∷ []) }
    ensures gnu { (DW_FORM_GNU_ADDR_INDEX ∷ DW_FORM_GNU_STR_INDEX ∷ DW_FORM_GNU_REF_ALT
        ∷ DW_FORM_GNU_STRP_ALT ∷ [])
        ≡ (0x1f01 ∷ 0x1f02 ∷ 0x1f20 ∷ 0x1f21 ∷ []) }
{}

/// A table is read declaration by declaration, and a declaration attribute by attribute. Each list ends at its
/// end mark or at a fault.
pub fn one_after_another()
    ensures specs { SpecsFollow }
    ensures declarations { DeclarationsFollow }
{}
