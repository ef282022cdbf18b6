//! Reading the instructions of a line program.

ghost use Rattle.std.specs.Prelude.{◌≡◌};
ghost use Rattle.size_core.specs.Checks.{bad};
ghost use Rattle.size_core.specs.declared.fault.Fault.TheVariants.{BadLine};
ghost use Rattle.dwarf_abbrev.specs.Reads.{Reads, uleb_from};
ghost use Rattle.dwarf_line_header.specs.Header.{HasLengths};
ghost use Rattle.dwarf_line_header.specs.Tables.{many_from, passed_over};
ghost use Rattle.dwarf_lines.specs.Instructions.{extended_from, extended_in, instruction_from, opcode_and_operands, standard_from, whole_address};

use crate::constants::{
    DW_LNE_END_SEQUENCE, DW_LNE_SET_ADDRESS, DW_LNS_ADVANCE_LINE, DW_LNS_ADVANCE_PC,
    DW_LNS_CONST_ADD_PC, DW_LNS_COPY, DW_LNS_FIXED_ADVANCE_PC, DW_LNS_NEGATE_STMT,
    DW_LNS_SET_BASIC_BLOCK, DW_LNS_SET_COLUMN, DW_LNS_SET_EPILOGUE_BEGIN, DW_LNS_SET_FILE,
    DW_LNS_SET_ISA, DW_LNS_SET_PROLOGUE_END, EXTENDED_OPCODE,
};
use crate::instruction::Instruction;
use byte_cursor::{Cursor, Order};
use dwarf_abbrev::address_from;
use dwarf_line_header::LineEncoding;
use size_core::{BadFile, Fault};

/// The fault of an instruction at this file offset.
fn bad_line<T>(place: u64) -> Result<T, BadFile>
    ensures { result ≡ bad BadLine place }
{
    Err(BadFile {
        fault: Fault::BadLine,
        offset: place,
    })
}

/// Reads all bytes that are left as an address. BadLine unless they are 2, 4 or 8 bytes.
#[tactic(auto, unfolding(crate::specs::Instructions::whole_address))]
fn whole_address(cursor: &mut Cursor, order: Order) -> Result<u64, BadFile>
    ensures { Reads (λ n. n) result cursor.new (whole_address order cursor.old) }
{
    match cursor.left() {
        2 => address_from(cursor, order, 2),
        4 => address_from(cursor, order, 4),
        8 => address_from(cursor, order, 8),
        _ => bad_line(cursor.place()),
    }
}

/// Reads an extended instruction from its contents: the bytes after its size.
#[tactic(auto, unfolding(crate::specs::Instructions::extended_in, dwarf_abbrev::specs::Reads::num_from))]
fn extended_in(mut contents: Cursor, order: Order) -> Result<Instruction, BadFile>
    ensures { result ≡ extended_in order contents.entry }
{
    let opcode = contents.u8()?;
    match opcode {
        DW_LNE_END_SEQUENCE => Ok(Instruction::EndSequence),
        DW_LNE_SET_ADDRESS => {
            let address = whole_address(&mut contents, order)?;
            Ok(Instruction::SetAddress(address))
        }
        _ => Ok(Instruction::OtherExtended(opcode)),
    }
}

/// Reads an extended instruction, after its first byte.
#[tactic(auto, unfolding(crate::specs::Instructions::extended_from, dwarf_abbrev::specs::Reads::uleb_from, dwarf_abbrev::specs::Lengths::contents_from))]
fn extended_from(cursor: &mut Cursor, order: Order) -> Result<Instruction, BadFile>
    ensures { Reads (λ i. i) result cursor.new (extended_from order cursor.old) }
{
    let size = cursor.uleb()?;
    let contents = cursor.take(size)?;
    extended_in(contents, order)
}

/// Skips `count` operands.
#[tactic(auto, using(dwarf_line_header::proofs::TableLemmas::pass_bad, dwarf_line_header::proofs::TableLemmas::pass_end, dwarf_line_header::proofs::TableLemmas::pass_more), unfolding(dwarf_abbrev::specs::Reads::uleb_from))]
fn pass_operands(count: u8, cursor: &mut Cursor) -> Result<(), BadFile>
    ensures { Reads (λ u. u) result cursor.new
        (passed_over (many_from uleb_from count cursor.old)) }
{
    for i in 0..count {
        let _operand = cursor.uleb()?;
    }
    Ok(())
}

/// Reads the operands of a standard opcode.
#[tactic(auto, unfolding(crate::specs::Instructions::standard_from, dwarf_abbrev::specs::Reads::num_from, dwarf_abbrev::specs::Reads::uleb_from, dwarf_abbrev::specs::Reads::sleb_from))]
fn standard_from(
    cursor: &mut Cursor,
    order: Order,
    opcode: u8,
    count: u8,
) -> Result<Instruction, BadFile>
    ensures { Reads (λ i. i) result cursor.new (standard_from order opcode count cursor.old) }
{
    Ok(match opcode {
        DW_LNS_COPY => Instruction::CopyRow,
        DW_LNS_ADVANCE_PC => Instruction::AdvancePc(cursor.uleb()?),
        DW_LNS_ADVANCE_LINE => Instruction::AdvanceLine(cursor.sleb()?),
        DW_LNS_SET_FILE => Instruction::SetFile(cursor.uleb()?),
        DW_LNS_SET_COLUMN => Instruction::SetColumn(cursor.uleb()?),
        DW_LNS_NEGATE_STMT => Instruction::NegateStatement,
        DW_LNS_SET_BASIC_BLOCK => Instruction::SetBasicBlock,
        DW_LNS_CONST_ADD_PC => Instruction::ConstAddPc,
        DW_LNS_FIXED_ADVANCE_PC => Instruction::FixedAdvancePc(cursor.u16(order)?),
        DW_LNS_SET_PROLOGUE_END => Instruction::SetPrologueEnd,
        DW_LNS_SET_EPILOGUE_BEGIN => Instruction::SetEpilogueBegin,
        DW_LNS_SET_ISA => Instruction::SetIsa(cursor.uleb()?),
        _ => {
            pass_operands(count, cursor)?;
            Instruction::UnknownStandard(opcode)
        }
    })
}

/// Reads an opcode and its operands.
#[tactic(auto, unfolding(crate::specs::Instructions::operands_from, dwarf_abbrev::specs::Reads::num_from))]
fn opcode_and_operands(
    cursor: &mut Cursor,
    encoding: &LineEncoding,
    lengths: &[u8],
) -> Result<Instruction, BadFile>
    requires { HasLengths encoding.now lengths.now }
    ensures { Reads (λ i. i) result cursor.new
        (opcode_and_operands encoding.now lengths.now cursor.old) }
{
    let opcode = cursor.u8()?;
    if opcode >= encoding.opcode_base {
        return Ok(Instruction::Special(opcode - encoding.opcode_base));
    }
    if opcode == EXTENDED_OPCODE {
        return extended_from(cursor, encoding.order);
    }
    standard_from(cursor, encoding.order, opcode, lengths[opcode as usize - 1])
}

/// Reads an instruction. BadLine at its file offset if none can be read.
#[tactic(auto, unfolding(crate::specs::Instructions::instruction_from))]
pub fn instruction_from(
    cursor: &mut Cursor,
    encoding: &LineEncoding,
    lengths: &[u8],
) -> Result<Instruction, BadFile>
    requires { HasLengths encoding.now lengths.now }
    ensures { Reads (λ i. i) result cursor.new
        (instruction_from encoding.now lengths.now cursor.old) }
{
    let place = cursor.place();
    match opcode_and_operands(cursor, encoding, lengths) {
        Ok(instruction) => Ok(instruction),
        Err(_) => bad_line(place),
    }
}
