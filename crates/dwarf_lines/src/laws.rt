//! Laws of the definitions.

ghost use Rattle.std.specs.Prelude.{◌≡◌, [], ◌∷◌};
ghost use Rattle.dwarf_lines.specs.Laws.{GoesOn, StopsAtEnd, StopsAtFault};
ghost use Rattle.dwarf_lines.specs.declared.constants.TheConstants.{EXTENDED_OPCODE, DW_LNS_COPY, DW_LNS_ADVANCE_PC, DW_LNS_ADVANCE_LINE, DW_LNS_SET_FILE, DW_LNS_SET_COLUMN, DW_LNS_NEGATE_STMT, DW_LNS_SET_BASIC_BLOCK, DW_LNS_CONST_ADD_PC, DW_LNS_FIXED_ADVANCE_PC, DW_LNS_SET_PROLOGUE_END, DW_LNS_SET_EPILOGUE_BEGIN, DW_LNS_SET_ISA, DW_LNE_END_SEQUENCE, DW_LNE_SET_ADDRESS, SLASH};

/// The constants have the numbers of the standard: the standard opcodes 1 to 12 (DWARF 5, section 7.22, table
/// 7.25), and the extended opcodes after opcode 0 (table 7.26). The parts of a path are joined by `/`.
pub fn standard_numbers()
    ensures standard { (DW_LNS_COPY ∷ DW_LNS_ADVANCE_PC ∷ DW_LNS_ADVANCE_LINE ∷ DW_LNS_SET_FILE
        ∷ DW_LNS_SET_COLUMN ∷ DW_LNS_NEGATE_STMT ∷ DW_LNS_SET_BASIC_BLOCK ∷ DW_LNS_CONST_ADD_PC
        ∷ DW_LNS_FIXED_ADVANCE_PC ∷ DW_LNS_SET_PROLOGUE_END ∷ DW_LNS_SET_EPILOGUE_BEGIN
        ∷ DW_LNS_SET_ISA ∷ [])
        ≡ (1 ∷ 2 ∷ 3 ∷ 4 ∷ 5 ∷ 6 ∷ 7 ∷ 8 ∷ 9 ∷ 10 ∷ 11 ∷ 12 ∷ []) }
    ensures extended { (EXTENDED_OPCODE ∷ DW_LNE_END_SEQUENCE ∷ DW_LNE_SET_ADDRESS ∷ [])
        ≡ (0 ∷ 1 ∷ 2 ∷ []) }
    ensures slash { SLASH ≡ 47 }
{}

/// A line program is read instruction by instruction, up to a fault or the end of its bytes.
pub fn one_after_another()
    ensures more { GoesOn }
    ensures fault { StopsAtFault }
    ensures end { StopsAtEnd }
{}
