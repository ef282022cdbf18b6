//! The values of attributes (DWARF 5, sections 7.5.5 and 7.5.6).

ghost use Rattle.std.specs.Prelude.{◌≡◌, pos};
ghost use Rattle.size_core.specs.Checks.{bad};
ghost use Rattle.size_core.specs.declared.fault.Fault.TheVariants.{UnknownForm};
ghost use Rattle.byte_cursor.specs.Window.{place_of};
ghost use Rattle.dwarf_abbrev.specs.declared.form.Layout.TheVariants.{Indirect};
ghost use Rattle.dwarf_abbrev.specs.Reads.{Reads, Takes};
ghost use Rattle.dwarf_abbrev.specs.Values.{meaning, number_content, shown, plain_from, known_from, layout_of_number, content_by, value_from};

use crate::form::{Layout, Sense, form_of, layout_of};
use crate::reads::number_from;
use crate::shape::UnitShape;
use crate::spec::Spec;
use byte_cursor::{Cursor, Order};
use size_core::{BadFile, Fault};

/// The content of an attribute's value.
#[derive(Clone, Copy, Debug, PartialEq, Eq)]
pub enum Content<'a> {
    /// An address.
    Address(u64),
    /// An index into `.debug_addr`, counted from the unit's base.
    AddrIndex(u64),
    /// A constant.
    Constant(u64),
    /// A signed constant.
    Signed(i64),
    /// A string, without its null byte.
    Text(&'a [u8]),
    /// The offset of a string in `.debug_str`.
    StrOffset(u64),
    /// The offset of a string in `.debug_line_str`.
    LineStrOffset(u64),
    /// An index into `.debug_str_offsets`, counted from the unit's base.
    StrIndex(u64),
    /// An offset into another section. The attribute decides which.
    SecOffset(u64),
    /// An index of a range list in `.debug_rnglists`, counted from the unit's base.
    ListIndex(u64),
    /// A value that no caller needs, such as a block, an expression, a reference or a flag.
    Other,
}

/// A value of an attribute.
#[derive(Clone, Copy, Debug, PartialEq, Eq)]
pub struct Value<'a> {
    /// The value's file offset.
    pub place: u64,
    /// The value's content.
    pub content: Content<'a>,
}

/// The content that a number encodes.
fn number_content<'a>(sense: Sense, number: u64) -> Content<'a>
    ensures { meaning result ≡ number_content sense number }
{
    match sense {
        Sense::Address => Content::Address(number),
        Sense::AddrIndex => Content::AddrIndex(number),
        Sense::Constant => Content::Constant(number),
        Sense::StrOffset => Content::StrOffset(number),
        Sense::LineStrOffset => Content::LineStrOffset(number),
        Sense::StrIndex => Content::StrIndex(number),
        Sense::SectionOffset => Content::SecOffset(number),
        Sense::ListIndex => Content::ListIndex(number),
        Sense::Other => Content::Other,
    }
}

/// The fault for a form that isn't allowed at the cursor.
fn unknown_form<'a>(cursor: &Cursor) -> Result<Content<'a>, BadFile>
    ensures { result ≡ bad UnknownForm (place_of cursor.now) }
{
    Err(BadFile {
        fault: Fault::UnknownForm,
        offset: cursor.place(),
    })
}

/// Reads a value in this encoding. UnknownForm for an implicit or indirect one.
#[tactic(auto, unfolding(crate::specs::Values::plain_from, crate::specs::Reads::sleb_from, crate::specs::Reads::text_from, crate::specs::Reads::skip_from))]
fn plain_content<'a>(
    cursor: &mut Cursor<'a>,
    order: Order,
    layout: Layout,
) -> Result<Content<'a>, BadFile>
    ensures { Reads meaning result cursor.new (plain_from order layout cursor.old) }
{
    match layout {
        Layout::Number(digits, sense) => {
            let number = number_from(cursor, order, digits)?;
            Ok(number_content(sense, number))
        }
        Layout::Signed => {
            let number = cursor.sleb()?;
            Ok(Content::Signed(number))
        }
        Layout::Text => {
            let text = cursor.cstr()?;
            Ok(Content::Text(text))
        }
        Layout::Counted(digits) => {
            let count = number_from(cursor, order, digits)?;
            cursor.skip(count)?;
            Ok(Content::Other)
        }
        Layout::Bytes(count) => {
            cursor.skip(count)?;
            Ok(Content::Other)
        }
        Layout::Implicit | Layout::Indirect => unknown_form(cursor),
    }
}

/// The encoding of the form with this number. `None` if there is no such form.
fn layout_of_number(shape: &UnitShape, number: u64) -> Option<Layout>
    ensures { result ≡ layout_of_number shape.now number }
{
    match form_of(number) {
        Some(form) => Some(layout_of(form, shape)),
        None => None,
    }
}

impl UnitShape {
    /// Reads an indirect value: the number of a form, and then a value of that form.
    #[tactic(auto, unfolding(crate::specs::Values::content_by, crate::specs::Reads::uleb_from))]
    fn indirect_content<'a>(&self, cursor: &mut Cursor<'a>) -> Result<Content<'a>, BadFile>
        ensures { Reads meaning result cursor.new
            (content_by self.now (pos 0) (Some Indirect) cursor.old) }
    {
        let form = cursor.uleb()?;
        match layout_of_number(self, form) {
            Some(layout) => plain_content(cursor, self.order, layout),
            None => unknown_form(cursor),
        }
    }

    /// Reads the content of an attribute's value.
    #[tactic(auto, unfolding(crate::specs::Values::content_by))]
    fn content<'a>(&self, cursor: &mut Cursor<'a>, spec: &Spec) -> Result<Content<'a>, BadFile>
        ensures { Reads meaning result cursor.new
            (content_by self.now spec.now.constant (layout_of_number self.now spec.now.form)
            cursor.old) }
    {
        match layout_of_number(self, spec.form) {
            None => unknown_form(cursor),
            Some(Layout::Implicit) => Ok(Content::Signed(spec.constant)),
            Some(Layout::Indirect) => self.indirect_content(cursor),
            Some(layout) => plain_content(cursor, self.order, layout),
        }
    }
}

/// Reads the value of an attribute. UnknownForm if the form is unknown, or if an indirect form names an
/// implicit or another indirect one. Truncated if the value reaches past the end of the window. BadLeb if
/// a number in it is too large. Each fault has the value's file offset.
#[tactic(auto, unfolding(crate::specs::Values::value_from))]
pub fn read_form<'a>(
    cursor: &mut Cursor<'a>,
    spec: &Spec,
    shape: &UnitShape,
) -> Result<Value<'a>, BadFile>
    ensures { Takes shown result cursor.old cursor.new (value_from shape.now spec.now cursor.old) }
{
    let place = cursor.place();
    let mut ahead = cursor.fork();
    match shape.content(&mut ahead, spec) {
        Ok(content) => {
            *cursor = ahead;
            Ok(Value { place, content })
        }
        Err(bad) => Err(BadFile {
            fault: bad.fault,
            offset: place,
        }),
    }
}
