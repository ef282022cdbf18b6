//! The records of a report (RFC 4180). Each ends in a line feed.

ghost use Rattle.std.specs.Prelude.{◌≡◌, ◌<◌, ◌+◌, ◌++◌, ℕ, List, [], Some, length, map, drop, slice_get, IfOk, OnOk};
ghost use Rattle.std.specs.List.{flat_map};
ghost use Rattle.csv.specs.Writing.{row_text};
ghost use Rattle.report_rows.specs.Trees.{IsTree, has_children};
ghost use Rattle.report_text.specs.Between.{IsReady, HasCome, entered};
ghost use Rattle.report_text.specs.Labels.{kind_of};
ghost use Rattle.report_text.specs.Records.{delimited, leaf_record, table_text};

use crate::fields::{header, kind_text, labels, others_text, push, push_empty};
use crate::rows::{Name, ReportRow, ReportTree};
use csv::{Writer, WriterBuilder};
use itoa::Buffer;
use size_core::{Domain, List, Names, NoMemory};
use std::alloc::Global;

// How the records of a tree are written: with this byte between fields, for paths of up to `depth` labels, and with a
// field for each size of `domain`.
#[derive(Clone, Copy)]
struct RecordFormat {
    alloc: Global,
    delimiter: u8,
    depth: u32,
    domain: Domain,
}

// A writer of records with this byte between fields.
fn new_writer(alloc: Global, delimiter: u8) -> Writer<Vec<u8>>
    ensures { IsReady (λ v. Some v.items) delimiter result [] }
{
    WriterBuilder::new()
        .delimiter(delimiter)
        .from_writer(Vec::new(alloc))
}

// Writes a record.
fn put(writer: &mut Writer<Vec<u8>>, delimiter: u8, fields: &[&[u8]]) -> Result<(), NoMemory>
    ensures { OnOk result ((text : List ℕ) → IsReady (λ v. Some v.items) delimiter writer.old text
        → IsReady (λ v. Some v.items) delimiter writer.new
        (text ++ row_text (delimited delimiter) (map (λ f. f.now) fields.now))) }
{
    match writer.write_fields(fields) {
        Ok(()) => Ok(()),
        Err(_) => Err(NoMemory),
    }
}

/// Whether a row has children: the next row has a greater level.
pub fn has_children<R: ReportRow>(rows: &List<R>, i: usize) -> bool
    requires { i < length rows.now }
    ensures { (row : R) → slice_get rows.now i ≡ Some row
        → result ≡ has_children (R.as_row row) (map R.as_row (drop (i + 1) rows.now)) }
{
    if i == rows.len() - 1 {
        return false;
    }
    rows.get(i).level() < rows.get(i + 1).level()
}

// Writes the record of a row, if it has no children. `above` has the labels of the rows above it.
fn put_leaf<'a, R: ReportRow>(
    format: RecordFormat,
    writer: &mut Writer<Vec<u8>>,
    rows: &'a List<R>,
    above: &[&'a [u8]],
    i: usize,
) -> Result<(), NoMemory>
    requires { i < length rows.now }
    ensures { OnOk result ((text : List ℕ) (row : R) → slice_get rows.now i ≡ Some row
        → IsReady (λ v. Some v.items) format.delimiter writer.old text
        → IsReady (λ v. Some v.items) format.delimiter writer.new
        (text ++ flat_map (row_text (delimited format.delimiter))
        (leaf_record format.depth (map (λ f. f.now) above.now) (R.as_row row)
        (R.sizes format.domain row) (map R.as_row (drop (i + 1) rows.now))))) }
{
    if has_children(rows, i) {
        return Ok(());
    }
    let row = rows.get(i);
    let mut vm = Buffer::new();
    let mut file = Buffer::new();
    let others = others_text(format.alloc, row.name())?;
    let mut fields = labels(format.alloc, above)?;
    push(&mut fields, kind_text(row.name(), others.as_slice()))?;
    let filled = row.level() as usize + 1;
    push_empty(&mut fields, (format.depth as usize).saturating_sub(filled))?;
    row.push_sizes(&mut fields, format.domain, &mut vm, &mut file)?;
    put(writer, format.delimiter, fields.as_slice())?;
    Ok(())
}

// Appends the label of a row to a path. An Others row has no label, and no rows are under it.
fn enter<'a>(path: &mut Vec<&'a [u8]>, name: Name<'a>) -> Result<(), NoMemory>
    ensures { OnOk result (map (λ f. f.now) path.new.items
        ≡ entered (map (λ f. f.now) path.old.items) (kind_of name.entry)) }
{
    match name {
        Name::Label(label) => push(path, label),
        Name::Others(_) => Ok(()),
    }
}

// Writes the record of one row, if it has no children, and adds the row's label to `path`. Before that, `path` has the
// labels of the rows that the row can be under.
fn step<'a, R: ReportRow>(
    format: RecordFormat,
    writer: &mut Writer<Vec<u8>>,
    rows: &'a List<R>,
    path: &mut Vec<&'a [u8]>,
    i: usize,
) -> Result<(), NoMemory>
    requires { i < length rows.now }
    ensures { OnOk result ((whole : List ℕ)
        → HasCome (λ v. Some v.items) format.delimiter R.as_row (R.sizes format.domain) format.depth
        rows.now whole i (map (λ f. f.now) path.old.items) writer.old
        → HasCome (λ v. Some v.items) format.delimiter R.as_row (R.sizes format.domain) format.depth
        rows.now whole (i + 1) (map (λ f. f.now) path.new.items) writer.new) }
{
    let row = rows.get(i);
    path.truncate(row.level() as usize);
    put_leaf(format, writer, rows, path.as_slice(), i)?;
    enter(path, row.name())?;
    Ok(())
}

/// The records of a tree, as text.
pub fn table<T: ReportTree>(
    alloc: Global,
    delimiter: u8,
    tree: &T,
    domain: Domain,
    sources: &Names,
) -> Result<Vec<u8>, NoMemory>
    requires { IsTree (T.depth tree.now) (map T.Entry.as_row (T.rows tree.now)) }
    ensures { IfOk result (λ v. v.items ≡ table_text delimiter T.Entry.as_row (T.Entry.sizes domain)
        (T.depth tree.now) domain sources.now (T.rows tree.now)) }
{
    let mut writer = new_writer(alloc, delimiter);
    let fields = header(alloc, sources, domain)?;
    put(&mut writer, delimiter, fields.as_slice())?;
    let format = RecordFormat {
        alloc,
        delimiter,
        depth: tree.depth(),
        domain,
    };
    let mut path = Vec::new(alloc);
    let rows = tree.rows();
    for i in 0..rows.len() {
        step(format, &mut writer, rows, &mut path, i)?;
    }
    match writer.into_inner() {
        Ok(text) => Ok(text),
        Err(_) => Err(NoMemory),
    }
}
