//! Abbreviation declarations (DWARF 5, section 7.5.3).

ghost use Rattle.std.specs.Prelude.{◌≡◌, ◌≤◌, OnOk, ◌∷◌, []};
ghost use Rattle.dwarf_abbrev.specs.Reads.{Reads};
ghost use Rattle.dwarf_abbrev.specs.Listing.{Reaches, left};
ghost use Rattle.dwarf_abbrev.specs.Declarations.{constant_from, rest_of_spec, spec_from, specs_from, rest_of_head, head_from};

use crate::constants::DW_FORM_IMPLICIT_CONST;
use crate::spec::Spec;
use byte_cursor::Cursor;
use size_core::BadFile;

/// The fields of a declaration before its attributes.
#[derive(Clone, Copy, Debug)]
pub struct Head {
    /// The code that entries use to refer to the declaration.
    pub code: u64,
    /// The tag of the entries, `DW_TAG_*`.
    pub tag: u64,
}

/// The constant after a form. Only `DW_FORM_implicit_const` has one; it is 0 for any other form.
#[tactic(auto, unfolding(crate::specs::Declarations::constant_from, crate::specs::Reads::sleb_from))]
fn constant_from(cursor: &mut Cursor, form: u64) -> Result<i64, BadFile>
    ensures { Reads (λ x. x) result cursor.new (constant_from form cursor.old) }
{
    if form == DW_FORM_IMPLICIT_CONST {
        cursor.sleb()
    } else {
        Ok(0)
    }
}

/// The rest of an attribute specification, after its number and its form. `None` at the end of the list.
#[tactic(auto, unfolding(crate::specs::Declarations::rest_of_spec))]
fn rest_of_spec(cursor: &mut Cursor, attribute: u64, form: u64) -> Result<Option<Spec>, BadFile>
    ensures { Reads (λ x. x) result cursor.new (rest_of_spec attribute form cursor.old) }
{
    if attribute == 0 && form == 0 {
        return Ok(None);
    }
    let constant = constant_from(cursor, form)?;
    Ok(Some(Spec {
        attribute,
        form,
        constant,
    }))
}

/// Reads an attribute specification. `None` at the end of the list. Truncated or BadLeb at a number that can't be
/// read.
#[tactic(auto, unfolding(crate::specs::Declarations::spec_from, crate::specs::Reads::uleb_from))]
pub fn spec_from(cursor: &mut Cursor) -> Result<Option<Spec>, BadFile>
    ensures { Reads (λ x. x) result cursor.new (spec_from cursor.old) }
{
    let attribute = cursor.uleb()?;
    let form = cursor.uleb()?;
    rest_of_spec(cursor, attribute, form)
}

/// Skips the attribute specifications of a declaration.
#[tactic(auto, using(crate::proofs::Specs::specs_more, crate::proofs::Specs::specs_less, crate::proofs::Specs::specs_done, crate::proofs::Specs::specs_bad))]
pub fn pass_specs(cursor: &mut Cursor) -> Result<(), BadFile>
    ensures { Reaches result cursor.new (specs_from cursor.old) }
{
    while let Some(_) = spec_from(cursor)? {}
    Ok(())
}

/// The rest of a declaration's head, after its code: the tag, and the byte `DW_CHILDREN_*`, which is skipped. `None`
/// if the code is 0, the end of the table.
#[tactic(auto, unfolding(crate::specs::Declarations::rest_of_head, crate::specs::Reads::uleb_from, crate::specs::Reads::num_from))]
fn rest_of_head(cursor: &mut Cursor, code: u64) -> Result<Option<Head>, BadFile>
    ensures { Reads (λ x. x) result cursor.new (rest_of_head code cursor.old) }
{
    if code == 0 {
        return Ok(None);
    }
    let tag = cursor.uleb()?;
    cursor.u8()?;
    Ok(Some(Head { code, tag }))
}

/// Reads the head of a declaration. `None` at the end of the table: a code of 0, or the end of the section. Truncated
/// or BadLeb at a number that can't be read.
#[tactic(auto, unfolding(crate::specs::Declarations::head_from, crate::specs::Reads::uleb_from))]
pub fn head_from(cursor: &mut Cursor) -> Result<Option<Head>, BadFile>
    ensures { Reads (λ x. x) result cursor.new (head_from cursor.old) }
{
    if cursor.left() == 0 {
        return Ok(None);
    }
    let code = cursor.uleb()?;
    rest_of_head(cursor, code)
}
