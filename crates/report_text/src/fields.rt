//! The fields of a report's records.

ghost use Rattle.std.specs.Prelude.{◌≡◌, ◌++◌, ◌∷◌, [], map, replicate, IfOk, OnOk};
ghost use Rattle.report_text.specs.Between.{HasText};
ghost use Rattle.report_text.specs.Labels.{kind_of, kind_text};
ghost use Rattle.report_text.specs.Records.{header_fields, vm_first};

use crate::labels::push_others;
use crate::rows::Name;
use size_core::{Domain, Names, NoMemory};
use std::alloc::Global;

/// The fields of a record.
pub type Fields<'a> = Vec<&'a [u8]>;

/// Appends a field.
pub fn push<'a>(fields: &mut Fields<'a>, field: &'a [u8]) -> Result<(), NoMemory>
    ensures { OnOk result (map (λ f. f.now) fields.new.items
        ≡ map (λ f. f.now) fields.old.items ++ field.now ∷ []) }
{
    fields.push(field)?;
    Ok(())
}

/// Appends a field for each shown size.
pub fn push_shown<'a>(
    fields: &mut Fields<'a>,
    domain: Domain,
    vm: &'a [u8],
    file: &'a [u8],
) -> Result<(), NoMemory>
    ensures { OnOk result (map (λ f. f.now) fields.new.items
        ≡ map (λ f. f.now) fields.old.items ++ vm_first domain vm.now file.now) }
{
    match domain {
        Domain::Vm => push(fields, vm),
        Domain::File => push(fields, file),
        Domain::Both => {
            push(fields, vm)?;
            push(fields, file)
        }
    }
}

// The names of data sources, as fields.
fn names<'a>(alloc: Global, sources: &'a Names) -> Result<Fields<'a>, NoMemory>
    ensures { IfOk result (λ v. map (λ f. f.now) v.items ≡ sources.now) }
{
    let mut fields = Vec::new(alloc);
    for i in 0..sources.len() {
        push(&mut fields, sources.get(i).as_slice())?;
    }
    Ok(fields)
}

/// The fields of the header record.
#[tactic(auto, unfolding(crate::specs::Records::header_fields))]
pub fn header<'a>(alloc: Global, sources: &'a Names, domain: Domain) -> Result<Fields<'a>, NoMemory>
    ensures { IfOk result (λ v. map (λ f. f.now) v.items ≡ header_fields sources.now domain) }
{
    let mut fields = names(alloc, sources)?;
    push_shown(&mut fields, domain, b"vmsize", b"filesize")?;
    Ok(fields)
}

/// The text of an Others row. It is empty for a label.
pub fn others_text(alloc: Global, name: Name) -> Result<Vec<u8>, NoMemory>
    ensures { IfOk result (λ v. HasText (kind_of name.entry) v.items) }
{
    let mut text = Vec::new(alloc);
    if let Name::Others(count) = name {
        push_others(&mut text, count)?;
    }
    Ok(text)
}

/// The text of a row. `others` is the text of an Others row.
pub fn kind_text<'a>(name: Name<'a>, others: &'a [u8]) -> &'a [u8]
    requires { HasText (kind_of name) others.now }
    ensures { result.now ≡ kind_text (kind_of name.entry) }
{
    match name {
        Name::Label(label) => label,
        Name::Others(_) => others,
    }
}

/// Appends `count` empty fields.
pub fn push_empty<'a>(fields: &mut Fields<'a>, count: usize) -> Result<(), NoMemory>
    ensures { OnOk result (map (λ f. f.now) fields.new.items
        ≡ map (λ f. f.now) fields.old.items ++ replicate count []) }
{
    for _field in 0..count {
        push(fields, b"")?;
    }
    Ok(())
}

/// The labels of a path, as fields.
pub fn labels<'a, 'p: 'a>(alloc: Global, path: &[&'p [u8]]) -> Result<Fields<'a>, NoMemory>
    ensures { IfOk result (λ v. map (λ f. f.now) v.items ≡ map (λ f. f.now) path.now) }
{
    let mut fields = Vec::new(alloc);
    for label in path {
        push(&mut fields, *label)?;
    }
    Ok(fields)
}
