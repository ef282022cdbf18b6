//! One instruction of a line program.

/// An instruction of a line program with its operands (DWARF 5, section 6.2.5).
#[derive(Clone, Copy, Debug, PartialEq, Eq)]
pub enum Instruction {
    /// A special opcode, minus the header's `opcode_base`.
    Special(u8),
    /// `DW_LNS_copy`.
    CopyRow,
    /// `DW_LNS_advance_pc`, with the number of operations.
    AdvancePc(u64),
    /// `DW_LNS_advance_line`, with the number of lines.
    AdvanceLine(i64),
    /// `DW_LNS_set_file`, with the file number.
    SetFile(u64),
    /// `DW_LNS_set_column`, with the column number.
    SetColumn(u64),
    /// `DW_LNS_negate_stmt`.
    NegateStatement,
    /// `DW_LNS_set_basic_block`.
    SetBasicBlock,
    /// `DW_LNS_const_add_pc`.
    ConstAddPc,
    /// `DW_LNS_fixed_advance_pc`, with the number of bytes.
    FixedAdvancePc(u16),
    /// `DW_LNS_set_prologue_end`.
    SetPrologueEnd,
    /// `DW_LNS_set_epilogue_begin`.
    SetEpilogueBegin,
    /// `DW_LNS_set_isa`, with the number of the instruction set.
    SetIsa(u64),
    /// A standard opcode that no version of the standard defines. Its operands are skipped.
    UnknownStandard(u8),
    /// `DW_LNE_end_sequence`.
    EndSequence,
    /// `DW_LNE_set_address`, with the virtual address.
    SetAddress(u64),
    /// Any other extended opcode.
    OtherExtended(u8),
}
