//! Line programs (DWARF 5, section 6.2).

use crate::numbers::{Class, Numbers, Order};
use std::alloc::Global;

/// An instruction, whose operands are below 64.
#[derive(Clone, Copy)]
pub enum Step {
    /// DW_LNE_set_address.
    SetAddress(u64),
    /// DW_LNS_copy.
    Copy,
    /// DW_LNS_advance_pc.
    AdvancePc(u8),
    /// DW_LNS_advance_line.
    AdvanceLine(u8),
    /// DW_LNS_set_file.
    SetFile(u8),
    /// DW_LNS_const_add_pc.
    ConstAddPc,
    /// A special opcode, from 13 on.
    Special(u8),
    /// DW_LNE_end_sequence.
    EndSequence,
    /// DW_LNS_fixed_advance_pc with the first byte of its operand alone.
    CutAdvance,
}

/// A line program whose opcodes from 13 on are special.
#[derive(Clone, Copy)]
pub struct Program<'a> {
    /// The version of DWARF.
    pub version: u16,
    /// minimum_instruction_length, in bytes.
    pub min_inst: u8,
    /// maximum_operations_per_instruction.
    pub max_ops: u8,
    /// line_base, a signed number.
    pub line_base: u8,
    /// line_range.
    pub line_range: u8,
    /// From DWARF 5 on the first is the folder of the compilation. Before DWARF 5 that folder isn't among them.
    pub folders: &'a [&'a [u8]],
    /// Names with the numbers of their folders. The first file has number 0 from DWARF 5 on, and 1 before.
    pub files: &'a [(&'a [u8], u8)],
    /// The instructions.
    pub steps: &'a [Step],
}

/// A program whose instructions have one byte and one operation each.
pub const PLAIN: Program<'static> = Program {
    version: 4,
    min_inst: 1,
    max_ops: 1,
    line_base: 0xfb,
    line_range: 14,
    folders: &[],
    files: &[(b"a.c", 0)],
    steps: &[],
};

fn count<T>(items: &[T]) -> u8 {
    u8::try_from(items.len()).unwrap_or(u8::MAX)
}

fn put_step(numbers: &mut Numbers, class: Class, step: Step) {
    match step {
        Step::SetAddress(address) => {
            numbers.text(&[0, class.address_size().wrapping_add(1), 2]);
            numbers.address(address);
        }
        Step::EndSequence => numbers.text(&[0, 1, 1]),
        Step::Copy => numbers.text(&[1]),
        Step::AdvancePc(count) => numbers.text(&[2, count]),
        Step::AdvanceLine(count) => numbers.text(&[3, count]),
        Step::SetFile(file) => numbers.text(&[4, file]),
        Step::ConstAddPc => numbers.text(&[8]),
        Step::CutAdvance => numbers.text(&[9, 1]),
        Step::Special(opcode) => numbers.text(&[opcode]),
    }
}

fn put_folders(numbers: &mut Numbers, folders: &[&[u8]]) {
    for folder in folders {
        numbers.name(folder);
    }
}

impl Program<'_> {
    // Folders and files, each list up to an empty name.
    fn put_names(&self, numbers: &mut Numbers) {
        put_folders(numbers, self.folders);
        numbers.text(&[0]);
        for (name, folder) in self.files {
            numbers.name(name);
            numbers.text(&[*folder, 0, 0]);
        }
        numbers.text(&[0]);
    }

    // Folders by their path, and files by their path and folder, in DW_FORM_string and DW_FORM_data1.
    fn put_tables(&self, numbers: &mut Numbers) {
        numbers.text(&[1, 1, 0x08, count(self.folders)]);
        put_folders(numbers, self.folders);
        numbers.text(&[2, 1, 0x08, 2, 0x0b, count(self.files)]);
        for (name, folder) in self.files {
            numbers.name(name);
            numbers.text(&[*folder]);
        }
    }

    // What is between the length of the header and the instructions.
    fn header(&self, alloc: Global, class: Class) -> Numbers {
        let mut header = Numbers::new(alloc, class, Order::Little);
        header.text(&[self.min_inst]);
        if self.version >= 4 {
            header.text(&[self.max_ops]);
        }
        header.text(&[1, self.line_base, self.line_range, 13]);
        header.text(&[0, 1, 1, 1, 1, 0, 0, 0, 1, 0, 0, 1]);
        if self.version < 5 {
            self.put_names(&mut header);
        } else {
            self.put_tables(&mut header);
        }
        header
    }

    /// The program after its length.
    pub fn numbers(&self, alloc: Global, class: Class) -> Numbers {
        let mut program = Numbers::new(alloc, class, Order::Little);
        program.half(self.version);
        if self.version >= 5 {
            program.text(&[class.address_size(), 0]);
        }
        program.counted(&self.header(alloc, class));
        for step in self.steps {
            put_step(&mut program, class, *step);
        }
        program
    }
}
