//! The state machine of a line program.

ghost use Rattle.std.specs.Prelude.{◌≡◌, ◌*◌, ◌^◌, ◌≤◌};
ghost use Rattle.dwarf_line_header.specs.Header.{IsUsable};
ghost use Rattle.dwarf_lines.specs.Machine.{row_of, after, line_plus, address_plus, advance, row, start};

use crate::instruction::Instruction;
use crate::registers::{LineRow, Registers};
use dwarf_line_header::{AddressSize, LineEncoding};

/// The line number `by` lines further on, modulo 2^32.
fn line_plus(line: u32, by: i64) -> u32
    ensures { result ≡ line_plus line by }
{
    (line as i128 + by as i128).rem_euclid(1 << 32) as u32
}

/// The address `count` units further on, modulo the number of addresses.
fn address_plus(encoding: &LineEncoding, address: u64, unit: u8, count: u128) -> u64
    requires { count ≤ 2 ^ 65 }
    ensures { result ≡ address_plus encoding.now address (unit * count) }
{
    let sum = address as u128 + unit as u128 * count;
    match encoding.address_size {
        AddressSize::Two => (sum % (1 << 16)) as u64,
        AddressSize::Four => (sum % (1 << 32)) as u64,
        AddressSize::Eight => (sum % (1 << 64)) as u64,
    }
}

/// The registers at the start of a sequence.
pub fn start() -> Registers
    ensures { result ≡ start }
{
    Registers {
        address: 0,
        op_index: 0,
        file: 1,
        line: 1,
    }
}

/// The row that the registers describe.
fn row(registers: &Registers, end: bool) -> LineRow
    ensures { result ≡ row registers.now end }
{
    LineRow {
        address: registers.address,
        file: registers.file,
        line: registers.line,
        end,
    }
}

/// Advances the address and the operation index by `by` operations.
#[tactic(auto, unfolding(crate::specs::Machine::advance))]
fn advance(encoding: &LineEncoding, registers: &mut Registers, by: u64)
    requires { IsUsable encoding.now }
    ensures { registers.new ≡ advance encoding.now registers.old by }
{
    let sum = registers.op_index as u128 + by as u128;
    let (count, index) = if encoding.max_ops == 1 {
        (sum, 0)
    } else {
        let ops = encoding.max_ops as u128;
        (sum / ops, (sum % ops) as u8)
    };
    registers.address = address_plus(encoding, registers.address, encoding.min_inst, count);
    registers.op_index = index;
}

/// Sets the address, with operation index 0.
fn jump(registers: &mut Registers, address: u64)
    ensures { registers.new ≡ record registers.old { address = address; op_index = 0 } }
{
    registers.address = address;
    registers.op_index = 0;
}

/// Runs an instruction. Returns the row that it emits, if it emits one.
#[tactic(auto, unfolding(crate::specs::Machine::advance, crate::specs::Machine::after, crate::specs::Machine::row_of))]
pub fn apply(
    encoding: &LineEncoding,
    registers: &mut Registers,
    instruction: Instruction,
) -> Option<LineRow>
    requires { IsUsable encoding.now }
    ensures row { result ≡ row_of encoding.now registers.old instruction }
    ensures after { registers.new ≡ after encoding.now registers.old instruction }
{
    match instruction {
        Instruction::Special(adj) => {
            advance(encoding, registers, (adj / encoding.line_range) as u64);
            let step = encoding.line_base as i64 + (adj % encoding.line_range) as i64;
            registers.line = line_plus(registers.line, step);
            Some(row(registers, false))
        }
        Instruction::CopyRow => Some(row(registers, false)),
        Instruction::AdvancePc(n) => {
            advance(encoding, registers, n);
            None
        }
        Instruction::AdvanceLine(n) => {
            registers.line = line_plus(registers.line, n);
            None
        }
        Instruction::SetFile(n) => {
            registers.file = n;
            None
        }
        Instruction::ConstAddPc => {
            advance(
                encoding,
                registers,
                ((255 - encoding.opcode_base) / encoding.line_range) as u64,
            );
            None
        }
        Instruction::FixedAdvancePc(n) => {
            jump(
                registers,
                address_plus(encoding, registers.address, 1, n as u128),
            );
            None
        }
        Instruction::EndSequence => {
            let made = row(registers, true);
            *registers = start();
            Some(made)
        }
        Instruction::SetAddress(n) => {
            jump(registers, address_plus(encoding, 0, 1, n as u128));
            None
        }
        Instruction::SetColumn(_)
        | Instruction::NegateStatement
        | Instruction::SetBasicBlock
        | Instruction::SetPrologueEnd
        | Instruction::SetEpilogueBegin
        | Instruction::SetIsa(_)
        | Instruction::UnknownStandard(_)
        | Instruction::OtherExtended(_) => None,
    }
}
