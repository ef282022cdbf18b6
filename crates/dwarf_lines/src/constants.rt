//! The constants of line programs that this crate distinguishes (DWARF 5, sections 6.2.5 and 7.22).

/// The byte that begins an extended instruction. Its length and its opcode follow.
pub const EXTENDED_OPCODE: u8 = 0;

/// Emits a row (`DW_LNS_copy`).
pub const DW_LNS_COPY: u8 = 1;

/// Advances the address and the operation index (`DW_LNS_advance_pc`).
pub const DW_LNS_ADVANCE_PC: u8 = 2;

/// Adds to the line number (`DW_LNS_advance_line`).
pub const DW_LNS_ADVANCE_LINE: u8 = 3;

/// Sets the file number (`DW_LNS_set_file`).
pub const DW_LNS_SET_FILE: u8 = 4;

/// Sets the column number (`DW_LNS_set_column`).
pub const DW_LNS_SET_COLUMN: u8 = 5;

/// Toggles whether rows begin statements (`DW_LNS_negate_stmt`).
pub const DW_LNS_NEGATE_STMT: u8 = 6;

/// A basic block begins (`DW_LNS_set_basic_block`).
pub const DW_LNS_SET_BASIC_BLOCK: u8 = 7;

/// Advances the address as the special opcode 255 does (`DW_LNS_const_add_pc`).
pub const DW_LNS_CONST_ADD_PC: u8 = 8;

/// Adds a two-byte number to the address (`DW_LNS_fixed_advance_pc`).
pub const DW_LNS_FIXED_ADVANCE_PC: u8 = 9;

/// A function's prologue ends (`DW_LNS_set_prologue_end`).
pub const DW_LNS_SET_PROLOGUE_END: u8 = 10;

/// A function's epilogue begins (`DW_LNS_set_epilogue_begin`).
pub const DW_LNS_SET_EPILOGUE_BEGIN: u8 = 11;

/// Sets the instruction set (`DW_LNS_set_isa`).
pub const DW_LNS_SET_ISA: u8 = 12;

/// Ends a sequence (`DW_LNE_end_sequence`).
pub const DW_LNE_END_SEQUENCE: u8 = 1;

/// Sets the address (`DW_LNE_set_address`).
pub const DW_LNE_SET_ADDRESS: u8 = 2;

/// The separator between a directory and a name.
pub const SLASH: u8 = b'/';

/// The path that is reported for a file number that the program doesn't have.
pub const UNKNOWN_FILE: &[u8] = b"[Unknown file]";
