//! The report of growth.

ghost use Rattle.std.specs.Prelude.{◌≡◌, ◌++◌, length, OnOk, OnErr};
ghost use Rattle.size_growth.specs.Trees.{IsGrowthTree, new_row};
ghost use Rattle.report_text.specs.Growth.{sign, growth_text, change_text, growth_column, growth_columns, growth_report_text, growth, growth_fields, growth_csv_text, growth_tsv_text};

use crate::fields::{Fields, push_shown};
use crate::lines::{ColumnWidths, TreeLines};
use crate::numbers::{push_percent, push_size};
use crate::pieces::{push, push_text};
use crate::records::table;
use crate::rows::{Name, ReportRow, ReportTree};
use itoa::Buffer;
use size_core::{Domain, Names, NoMemory};
use size_growth::{GrowthKind, GrowthRow, GrowthRows, GrowthSizes, GrowthTree};
use std::alloc::Global;

// The width of a change in a column.
const CHANGE_WIDTH: usize = 9;

// The width of a growth in a column.
const GROWTH_WIDTH: usize = 9;

impl ReportRow for GrowthRow {
    ghost as_row = { new_row };

    ghost sizes = { growth_fields };

    fn level(&self) -> u32 {
        self.level
    }

    fn name(&self) -> Name<'_> {
        match &self.kind {
            GrowthKind::Label(label) => Name::Label(label.as_slice()),
            GrowthKind::Others(count) => Name::Others(*count),
        }
    }

    fn push_sizes<'b>(
        &self,
        fields: &mut Fields<'b>,
        domain: Domain,
        vm: &'b mut Buffer,
        file: &'b mut Buffer,
    ) -> Result<(), NoMemory> {
        let sizes = self.sizes;
        let vm = vm.format(growth(sizes.new_vm, sizes.base_vm)).as_bytes();
        let file = file
            .format(growth(sizes.new_file, sizes.base_file))
            .as_bytes();
        push_shown(fields, domain, vm, file)
    }
}

// The new size minus the base size.
fn growth(new: u64, base: u64) -> i128
    ensures { result ≡ growth new base }
{
    new as i128 - base as i128
}

// Appends the sign of a growth that isn't 0.
fn push_sign(out: &mut Vec<u8>, new: u64, base: u64) -> Result<(), NoMemory>
    ensures { OnOk result (out.new.items ≡ out.old.items ++ sign new base) }
{
    if new < base {
        return push(out, b"-");
    }
    push(out, b"+")
}

// Appends the absolute difference of a new size and a base size, with the sign of the growth.
#[tactic(auto, unfolding(crate::specs::Growth::growth_text))]
fn push_growth(out: &mut Vec<u8>, new: u64, base: u64) -> Result<(), NoMemory>
    ensures { OnOk result (out.new.items ≡ out.old.items ++ growth_text new base) }
{
    if new == base {
        return push(out, b"0");
    }
    push_sign(out, new, base)?;
    push_size(out, new.abs_diff(base))
}

// Appends the change from a base size to a new size.
#[tactic(auto, unfolding(crate::specs::Growth::change_text))]
fn push_change(out: &mut Vec<u8>, new: u64, base: u64) -> Result<(), NoMemory>
    ensures { OnOk result (out.new.items ≡ out.old.items ++ change_text new base) }
{
    if new == base {
        return push(out, b"[ = ]");
    }
    if base == 0 {
        return push(out, b"[NEW]");
    }
    if new == 0 {
        return push(out, b"[DEL]");
    }
    push_sign(out, new, base)?;
    push_percent(out, new.abs_diff(base), base)
}

// Appends the column of a new size and a base size.
#[tactic(auto, unfolding(crate::specs::Growth::growth_column))]
fn push_growth_column(alloc: Global, out: &mut Vec<u8>, new: u64, base: u64) -> Result<(), NoMemory>
    ensures { OnOk result (out.new.items ≡ out.old.items ++ growth_column new base) }
{
    let mut change = Vec::new(alloc);
    push_change(&mut change, new, base)?;
    let mut amount = Vec::new(alloc);
    push_growth(&mut amount, new, base)?;
    let widths = ColumnWidths {
        part: CHANGE_WIDTH,
        amount: GROWTH_WIDTH,
    };
    widths.push_column(out, change.as_slice(), amount.as_slice())
}

// Appends the columns of the shown sizes.
#[tactic(auto, unfolding(crate::specs::Growth::growth_columns))]
fn push_columns(
    alloc: Global,
    out: &mut Vec<u8>,
    domain: Domain,
    sizes: &GrowthSizes,
) -> Result<(), NoMemory>
    ensures { OnOk result (out.new.items ≡ out.old.items ++ growth_columns domain sizes.now) }
{
    match domain {
        Domain::File => push_growth_column(alloc, out, sizes.new_file, sizes.base_file),
        Domain::Vm => push_growth_column(alloc, out, sizes.new_vm, sizes.base_vm),
        Domain::Both => {
            push_growth_column(alloc, out, sizes.new_file, sizes.base_file)?;
            push_growth_column(alloc, out, sizes.new_vm, sizes.base_vm)
        }
    }
}

impl ReportTree for GrowthTree {
    type Entry = GrowthRow;

    const PLACES: usize = CHANGE_WIDTH + 1 + GROWTH_WIDTH;

    ghost PLACES = { 19 };

    ghost depth = { λ t. t.depth };

    ghost rows = { λ t. t.rows };

    ghost columns = { λ domain t r. growth_columns domain r.sizes };

    ghost total = { λ domain t. growth_columns domain t.sizes };

    fn depth(&self) -> u32 {
        self.depth
    }

    fn rows(&self) -> &GrowthRows {
        &self.rows
    }

    fn push_columns(
        &self,
        alloc: Global,
        out: &mut Vec<u8>,
        domain: Domain,
        row: &GrowthRow,
    ) -> Result<(), NoMemory> {
        push_columns(alloc, out, domain, &row.sizes)
    }

    fn push_total(&self, alloc: Global, out: &mut Vec<u8>, domain: Domain) -> Result<(), NoMemory> {
        push_columns(alloc, out, domain, &self.sizes)
    }
}

/// Appends the text report of a growth tree: a title line, a line for each row, and a line for the total. Each size of
/// `domain` has a column with the change and the growth. The change is in percent of the base size. It is `[NEW]` or
/// `[DEL]` if only the new size or only the base size exists, and `[ = ]` if they are equal. A label of more than 60
/// bytes is shortened unless `wide`. If memory runs out, `out` is unchanged.
#[tactic(auto, unfolding(crate::specs::Growth::growth_report_text))]
pub fn growth_text(
    alloc: Global,
    tree: &GrowthTree,
    domain: Domain,
    wide: bool,
    out: &mut Vec<u8>,
) -> Result<(), NoMemory>
    ensures ok { OnOk result (out.new.items
        ≡ out.old.items ++ growth_report_text tree.now domain wide) }
    ensures err { OnErr result (out.new.items ≡ out.old.items) }
{
    let lines = TreeLines {
        alloc,
        tree,
        domain,
        wide,
    };
    push_text(out, lines.text()?)
}

/// Appends the CSV records of a growth tree. A header has the names of the data sources and of the shown sizes. Each
/// row without children has a record with the labels of its path and its shown growths in bytes. If memory runs out,
/// `out` is unchanged.
#[tactic(auto, unfolding(crate::specs::Growth::growth_csv_text))]
pub fn growth_csv(
    alloc: Global,
    tree: &GrowthTree,
    domain: Domain,
    sources: &Names,
    out: &mut Vec<u8>,
) -> Result<(), NoMemory>
    requires names { length sources.now ≡ tree.now.depth }
    requires levels { IsGrowthTree tree.now.depth tree.now.rows }
    ensures ok { OnOk result (out.new.items
        ≡ out.old.items ++ growth_csv_text tree.now domain sources.now) }
    ensures err { OnErr result (out.new.items ≡ out.old.items) }
{
    let text = table(alloc, b',', tree, domain, sources)?;
    push_text(out, text)
}

/// Appends the same records as `growth_csv`, separated by tabs instead of commas.
#[tactic(auto, unfolding(crate::specs::Growth::growth_tsv_text))]
pub fn growth_tsv(
    alloc: Global,
    tree: &GrowthTree,
    domain: Domain,
    sources: &Names,
    out: &mut Vec<u8>,
) -> Result<(), NoMemory>
    requires names { length sources.now ≡ tree.now.depth }
    requires levels { IsGrowthTree tree.now.depth tree.now.rows }
    ensures ok { OnOk result (out.new.items
        ≡ out.old.items ++ growth_tsv_text tree.now domain sources.now) }
    ensures err { OnErr result (out.new.items ≡ out.old.items) }
{
    let text = table(alloc, b'\t', tree, domain, sources)?;
    push_text(out, text)
}
