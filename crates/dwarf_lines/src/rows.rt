//! The rows of a line program (DWARF 5, section 6.2).

ghost use Rattle.std.specs.Prelude.{◌≡◌, [], ◌∷◌, MatchOption};
ghost use Rattle.std.specs.Iterator.{YieldsFirst, item_count};
ghost use Rattle.dwarf_line_header.specs.Header.{HasLengths, IsUsable};
ghost use Rattle.dwarf_lines.specs.Instructions.{program};
ghost use Rattle.dwarf_lines.specs.Machine.{start};
ghost use Rattle.dwarf_lines.specs.Rows.{rows_of, to_come};

use crate::instructions::instruction_from;
use crate::machine::{apply, start};
use crate::registers::{LineRow, Registers};
use byte_cursor::Cursor;
use dwarf_line_header::LineEncoding;
use size_core::BadFile;
use std::marker::Model;

/// The next row or fault. After a fault nothing follows.
#[tactic(auto, using(crate::proofs::RowLemmas::comes_none, crate::proofs::RowLemmas::comes_fault, crate::proofs::RowLemmas::comes_row, crate::proofs::RowLemmas::comes_same, crate::proofs::RowLemmas::instruction_less))]
fn next_row(
    encoding: &LineEncoding,
    lengths: &[u8],
    registers: &mut Registers,
    cursor: &mut Cursor,
) -> Option<Result<LineRow, BadFile>>
    requires usable { IsUsable encoding.now }
    requires lengths { HasLengths encoding.now lengths.now }
    ensures { MatchOption result
        ((to_come encoding.now lengths.now registers.old cursor.old ≡ [])
        × (to_come encoding.now lengths.now registers.new cursor.new ≡ []))
        (λ x. to_come encoding.now lengths.now registers.old cursor.old
        ≡ x ∷ to_come encoding.now lengths.now registers.new cursor.new) }
{
    while cursor.left() > 0 {
        match instruction_from(cursor, encoding, lengths) {
            Ok(instruction) => {
                if let Some(row) = apply(encoding, registers, instruction) {
                    return Some(Ok(row));
                }
            }
            Err(fault) => {
                let _ = cursor.skip(cursor.left());
                return Some(Err(fault));
            }
        }
    }
    None
}

/// The rows of a line program in order, and then its fault, if there is one.
#[derive(Drop)]
pub struct LineRows<'a> {
    encoding: LineEncoding,
    lengths: &'a [u8],
    registers: Registers,
    cursor: Cursor<'a>,
}

impl<'a> Model for LineRows<'a> {
    ghost use Rattle.std.specs.Prelude.{List, Result};
    ghost use Rattle.size_core.specs.declared.fault.BadFile.{BadFile};
    ghost use Rattle.dwarf_line_header.specs.Header.{HasLengths, IsUsable};
    ghost use Rattle.dwarf_lines.specs.declared.registers.LineRow.{LineRow};
    ghost use Rattle.dwarf_lines.specs.Rows.{to_come};

    ghost Value = { List (Result LineRow BadFile) };

    ghost view = { λ r. to_come r.encoding r.lengths.now r.registers r.cursor };

    ghost invariant = { λ r. IsUsable r.encoding × HasLengths r.encoding r.lengths.now };
}

impl<'a> LineRows<'a> {
    /// The rows of the instructions from the cursor on.
    #[tactic(auto, unfolding(crate::specs::Rows::to_come))]
    pub fn new(encoding: LineEncoding, lengths: &'a [u8], cursor: Cursor<'a>) -> LineRows<'a>
        requires usable { IsUsable encoding }
        requires lengths { HasLengths encoding lengths.now }
        ensures { result ≡ rows_of encoding start (program encoding lengths.now cursor.entry) }
    {
        LineRows {
            encoding,
            lengths,
            registers: start(),
            cursor,
        }
    }
}

impl<'a> Iterator for LineRows<'a> {
    type Item = Result<LineRow, BadFile>;

    ghost next_gives = { YieldsFirst (λ s. s) };

    ghost remaining = { item_count (λ s. s) };

    fn next(&mut self) -> Option<Result<LineRow, BadFile>> {
        next_row(
            &self.encoding,
            self.lengths,
            &mut self.registers,
            &mut self.cursor,
        )
    }
}
