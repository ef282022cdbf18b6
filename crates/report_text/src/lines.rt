//! The lines of a report.

ghost use Rattle.std.specs.Prelude.{◌≡◌, ◌++◌, IfOk, OnOk};
ghost use Rattle.report_text.specs.Lines.{column, title, titles, title_line, row_line, lines};

use crate::labels::push_label;
use crate::pieces::{push, push_right, push_spaces};
use crate::rows::{ReportRow, ReportTree};
use size_core::{Domain, NoMemory};
use std::alloc::Global;

/// The widths of the two parts of a column.
#[derive(Clone, Copy)]
pub struct ColumnWidths {
    /// The width of the percentage.
    pub part: usize,
    /// The width of the size.
    pub amount: usize,
}

impl ColumnWidths {
    /// Appends a column: a percentage and a size, each right-aligned.
    #[tactic(auto, unfolding(crate::specs::Lines::column))]
    pub fn push_column(self, out: &mut Vec<u8>, part: &[u8], amount: &[u8]) -> Result<(), NoMemory>
        ensures { OnOk result (out.new.items
            ≡ out.old.items ++ column self.part part.now self.amount amount.now) }
    {
        push_right(out, self.part, part)?;
        push(out, b" ")?;
        push_right(out, self.amount, amount)?;
        push(out, b"  ")
    }
}

// Appends a column's title.
#[tactic(auto, unfolding(crate::specs::Lines::title))]
fn push_title(out: &mut Vec<u8>, places: usize, name: &[u8]) -> Result<(), NoMemory>
    ensures { OnOk result (out.new.items ≡ out.old.items ++ title places name.now) }
{
    push_right(out, places, name)?;
    push(out, b"  ")
}

// Appends the titles of the shown sizes.
fn push_titles(out: &mut Vec<u8>, places: usize, domain: Domain) -> Result<(), NoMemory>
    ensures { OnOk result (out.new.items ≡ out.old.items ++ titles places domain) }
{
    match domain {
        Domain::File => push_title(out, places, b"FILE SIZE"),
        Domain::Vm => push_title(out, places, b"VM SIZE"),
        Domain::Both => {
            push_title(out, places, b"FILE SIZE")?;
            push_title(out, places, b"VM SIZE")
        }
    }
}

// Appends the title line.
#[tactic(auto, unfolding(crate::specs::Lines::title_line))]
fn push_title_line(out: &mut Vec<u8>, places: usize, domain: Domain) -> Result<(), NoMemory>
    ensures { OnOk result (out.new.items ≡ out.old.items ++ title_line places domain) }
{
    push_titles(out, places, domain)?;
    push(out, b"LABEL\n")
}

/// A tree of rows to write as lines.
#[derive(Drop)]
pub struct TreeLines<'t, T> {
    /// The allocator.
    pub alloc: Global,
    /// The tree.
    pub tree: &'t T,
    /// The sizes that have a column.
    pub domain: Domain,
    /// Whether long labels are written whole.
    pub wide: bool,
}

impl<'t, T: ReportTree> TreeLines<'t, T> {
    // Appends a row's line.
    #[tactic(auto, unfolding(crate::specs::Lines::row_line))]
    fn push_row(&self, out: &mut Vec<u8>, row: &T::Entry) -> Result<(), NoMemory>
        ensures { let columns = T.columns self.now.domain self.now.tree.now in
            OnOk result (out.new.items
            ≡ out.old.items ++ row_line T.Entry.as_row columns self.now.wide row.now) }
    {
        self.tree.push_columns(self.alloc, out, self.domain, row)?;
        push_spaces(out, 2 * row.level() as usize)?;
        push_label(self.alloc, out, row.name(), self.wide)?;
        push(out, b"\n")
    }

    /// The lines of the tree.
    #[tactic(auto, unfolding(crate::specs::Lines::lines, crate::specs::Lines::total_line))]
    pub fn text(&self) -> Result<Vec<u8>, NoMemory>
        ensures { let tree = self.now.tree.now in let domain = self.now.domain in
            IfOk result (λ v. v.items ≡ lines T.PLACES domain T.Entry.as_row
            (T.columns domain tree) self.now.wide (T.rows tree) (T.total domain tree)) }
    {
        let mut text = Vec::new(self.alloc);
        push_title_line(&mut text, T::PLACES, self.domain)?;
        let rows = self.tree.rows();
        for i in 0..rows.len() {
            self.push_row(&mut text, rows.get(i))?;
        }
        self.tree.push_total(self.alloc, &mut text, self.domain)?;
        push(&mut text, b"TOTAL\n")?;
        Ok(text)
    }
}
