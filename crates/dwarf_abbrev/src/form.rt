//! The forms of attribute values and their encodings (DWARF 5, sections 7.5.5 and 7.5.6).

ghost use Rattle.std.specs.Prelude.{◌≡◌};
ghost use Rattle.dwarf_abbrev.specs.Forms.{form_of, layout_of};
ghost use Rattle.dwarf_abbrev.specs.Reads.{address_digits, offset_digits};

use crate::constants::{
    DW_FORM_ADDR, DW_FORM_ADDRX, DW_FORM_ADDRX1, DW_FORM_ADDRX2, DW_FORM_ADDRX3, DW_FORM_ADDRX4,
    DW_FORM_BLOCK, DW_FORM_BLOCK1, DW_FORM_BLOCK2, DW_FORM_BLOCK4, DW_FORM_DATA1, DW_FORM_DATA2,
    DW_FORM_DATA4, DW_FORM_DATA8, DW_FORM_DATA16, DW_FORM_EXPRLOC, DW_FORM_FLAG,
    DW_FORM_FLAG_PRESENT, DW_FORM_GNU_ADDR_INDEX, DW_FORM_GNU_REF_ALT, DW_FORM_GNU_STR_INDEX,
    DW_FORM_GNU_STRP_ALT, DW_FORM_IMPLICIT_CONST, DW_FORM_INDIRECT, DW_FORM_LINE_STRP,
    DW_FORM_LOCLISTX, DW_FORM_REF_ADDR, DW_FORM_REF_SIG8, DW_FORM_REF_SUP4, DW_FORM_REF_SUP8,
    DW_FORM_REF_UDATA, DW_FORM_REF1, DW_FORM_REF2, DW_FORM_REF4, DW_FORM_REF8, DW_FORM_RNGLISTX,
    DW_FORM_SDATA, DW_FORM_SEC_OFFSET, DW_FORM_STRING, DW_FORM_STRP, DW_FORM_STRP_SUP,
    DW_FORM_STRX, DW_FORM_STRX1, DW_FORM_STRX2, DW_FORM_STRX3, DW_FORM_STRX4, DW_FORM_UDATA,
};
use crate::shape::UnitShape;

/// A form of attribute values (DWARF 5, section 7.5.6). Each variant is named after its constant `DW_FORM_*`.
#[derive(Clone, Copy, Debug, PartialEq, Eq)]
pub enum Form {
    Addr,
    Block2,
    Block4,
    Data2,
    Data4,
    Data8,
    String,
    Block,
    Block1,
    Data1,
    Flag,
    Sdata,
    Strp,
    Udata,
    RefAddr,
    Ref1,
    Ref2,
    Ref4,
    Ref8,
    RefUdata,
    Indirect,
    SecOffset,
    Exprloc,
    FlagPresent,
    Strx,
    Addrx,
    RefSup4,
    StrpSup,
    Data16,
    LineStrp,
    RefSig8,
    ImplicitConst,
    Loclistx,
    Rnglistx,
    RefSup8,
    Strx1,
    Strx2,
    Strx3,
    Strx4,
    Addrx1,
    Addrx2,
    Addrx3,
    Addrx4,
    GnuAddrIndex,
    GnuStrIndex,
    GnuRefAlt,
    GnuStrpAlt,
}

/// The encoding of an unsigned number: a fixed number of bytes, or unsigned LEB128.
#[derive(Clone, Copy, Debug, PartialEq, Eq)]
pub enum Digits {
    /// One byte.
    One,
    /// Two bytes.
    Two,
    /// Three bytes.
    Three,
    /// Four bytes.
    Four,
    /// Eight bytes.
    Eight,
    /// Unsigned LEB128.
    Uleb,
}

/// What a number means as the value of an attribute.
#[derive(Clone, Copy, Debug, PartialEq, Eq)]
pub enum Sense {
    /// An address.
    Address,
    /// An index into `.debug_addr`.
    AddrIndex,
    /// A constant.
    Constant,
    /// The offset of a string in `.debug_str`.
    StrOffset,
    /// The offset of a string in `.debug_line_str`.
    LineStrOffset,
    /// An index into `.debug_str_offsets`.
    StrIndex,
    /// An offset into another section.
    SectionOffset,
    /// An index of a range list in `.debug_rnglists`.
    ListIndex,
    /// A number that no caller needs.
    Other,
}

/// The encoding of a value.
#[derive(Clone, Copy, Debug, PartialEq, Eq)]
pub enum Layout {
    /// A number.
    Number(Digits, Sense),
    /// A signed LEB128 number.
    Signed,
    /// A string with a terminating null byte.
    Text,
    /// A byte count, and then that many bytes.
    Counted(Digits),
    /// A fixed number of bytes.
    Bytes(u64),
    /// No bytes. The declaration holds the value.
    Implicit,
    /// The number of another form, and then a value of that form.
    Indirect,
}

/// The form with this number. `None` if it is unknown.
#[tactic(auto, unfolding(crate::specs::Forms::form_of))]
pub fn form_of(number: u64) -> Option<Form>
    ensures { result ≡ form_of number }
{
    match number {
        DW_FORM_ADDR => Some(Form::Addr),
        DW_FORM_BLOCK2 => Some(Form::Block2),
        DW_FORM_BLOCK4 => Some(Form::Block4),
        DW_FORM_DATA2 => Some(Form::Data2),
        DW_FORM_DATA4 => Some(Form::Data4),
        DW_FORM_DATA8 => Some(Form::Data8),
        DW_FORM_STRING => Some(Form::String),
        DW_FORM_BLOCK => Some(Form::Block),
        DW_FORM_BLOCK1 => Some(Form::Block1),
        DW_FORM_DATA1 => Some(Form::Data1),
        DW_FORM_FLAG => Some(Form::Flag),
        DW_FORM_SDATA => Some(Form::Sdata),
        DW_FORM_STRP => Some(Form::Strp),
        DW_FORM_UDATA => Some(Form::Udata),
        DW_FORM_REF_ADDR => Some(Form::RefAddr),
        DW_FORM_REF1 => Some(Form::Ref1),
        DW_FORM_REF2 => Some(Form::Ref2),
        DW_FORM_REF4 => Some(Form::Ref4),
        DW_FORM_REF8 => Some(Form::Ref8),
        DW_FORM_REF_UDATA => Some(Form::RefUdata),
        DW_FORM_INDIRECT => Some(Form::Indirect),
        DW_FORM_SEC_OFFSET => Some(Form::SecOffset),
        DW_FORM_EXPRLOC => Some(Form::Exprloc),
        DW_FORM_FLAG_PRESENT => Some(Form::FlagPresent),
        DW_FORM_STRX => Some(Form::Strx),
        DW_FORM_ADDRX => Some(Form::Addrx),
        DW_FORM_REF_SUP4 => Some(Form::RefSup4),
        DW_FORM_STRP_SUP => Some(Form::StrpSup),
        DW_FORM_DATA16 => Some(Form::Data16),
        DW_FORM_LINE_STRP => Some(Form::LineStrp),
        DW_FORM_REF_SIG8 => Some(Form::RefSig8),
        DW_FORM_IMPLICIT_CONST => Some(Form::ImplicitConst),
        DW_FORM_LOCLISTX => Some(Form::Loclistx),
        DW_FORM_RNGLISTX => Some(Form::Rnglistx),
        DW_FORM_REF_SUP8 => Some(Form::RefSup8),
        DW_FORM_STRX1 => Some(Form::Strx1),
        DW_FORM_STRX2 => Some(Form::Strx2),
        DW_FORM_STRX3 => Some(Form::Strx3),
        DW_FORM_STRX4 => Some(Form::Strx4),
        DW_FORM_ADDRX1 => Some(Form::Addrx1),
        DW_FORM_ADDRX2 => Some(Form::Addrx2),
        DW_FORM_ADDRX3 => Some(Form::Addrx3),
        DW_FORM_ADDRX4 => Some(Form::Addrx4),
        DW_FORM_GNU_ADDR_INDEX => Some(Form::GnuAddrIndex),
        DW_FORM_GNU_STR_INDEX => Some(Form::GnuStrIndex),
        DW_FORM_GNU_REF_ALT => Some(Form::GnuRefAlt),
        DW_FORM_GNU_STRP_ALT => Some(Form::GnuStrpAlt),
        _ => None,
    }
}

/// The encoding of an address of `size` bytes. A size other than 2 and 4 is read as 8.
pub fn address_digits(size: u8) -> Digits
    ensures { result ≡ address_digits size }
{
    match size {
        2 => Digits::Two,
        4 => Digits::Four,
        _ => Digits::Eight,
    }
}

/// The encoding of an offset into a section, in the 64-bit format (`wide`) or the 32-bit format.
pub fn offset_digits(wide: bool) -> Digits
    ensures { result ≡ offset_digits wide }
{
    if wide { Digits::Eight } else { Digits::Four }
}

/// The encoding of a form's values in a unit of this shape.
#[tactic(auto, unfolding(crate::specs::Forms::layout_of))]
pub fn layout_of(form: Form, shape: &UnitShape) -> Layout
    ensures { result ≡ layout_of shape.now form }
{
    match form {
        Form::Addr => Layout::Number(address_digits(shape.address), Sense::Address),
        Form::Data1 => Layout::Number(Digits::One, Sense::Constant),
        Form::Data2 => Layout::Number(Digits::Two, Sense::Constant),
        Form::Data4 => Layout::Number(Digits::Four, Sense::Constant),
        Form::Data8 => Layout::Number(Digits::Eight, Sense::Constant),
        Form::Udata => Layout::Number(Digits::Uleb, Sense::Constant),
        Form::Sdata => Layout::Signed,
        Form::String => Layout::Text,
        Form::Strp => Layout::Number(offset_digits(shape.wide), Sense::StrOffset),
        Form::LineStrp => Layout::Number(offset_digits(shape.wide), Sense::LineStrOffset),
        Form::SecOffset => Layout::Number(offset_digits(shape.wide), Sense::SectionOffset),
        Form::Strx => Layout::Number(Digits::Uleb, Sense::StrIndex),
        Form::Strx1 => Layout::Number(Digits::One, Sense::StrIndex),
        Form::Strx2 => Layout::Number(Digits::Two, Sense::StrIndex),
        Form::Strx3 => Layout::Number(Digits::Three, Sense::StrIndex),
        Form::Strx4 => Layout::Number(Digits::Four, Sense::StrIndex),
        Form::Addrx => Layout::Number(Digits::Uleb, Sense::AddrIndex),
        Form::Addrx1 => Layout::Number(Digits::One, Sense::AddrIndex),
        Form::Addrx2 => Layout::Number(Digits::Two, Sense::AddrIndex),
        Form::Addrx3 => Layout::Number(Digits::Three, Sense::AddrIndex),
        Form::Addrx4 => Layout::Number(Digits::Four, Sense::AddrIndex),
        Form::Rnglistx => Layout::Number(Digits::Uleb, Sense::ListIndex),
        Form::Block1 => Layout::Counted(Digits::One),
        Form::Block2 => Layout::Counted(Digits::Two),
        Form::Block4 => Layout::Counted(Digits::Four),
        Form::Block | Form::Exprloc => Layout::Counted(Digits::Uleb),
        Form::Flag | Form::Ref1 => Layout::Number(Digits::One, Sense::Other),
        Form::Ref2 => Layout::Number(Digits::Two, Sense::Other),
        Form::Ref4 | Form::RefSup4 => Layout::Number(Digits::Four, Sense::Other),
        Form::Ref8 | Form::RefSig8 | Form::RefSup8 => Layout::Number(Digits::Eight, Sense::Other),
        Form::Data16 => Layout::Bytes(16),
        Form::FlagPresent => Layout::Bytes(0),
        Form::RefUdata | Form::Loclistx | Form::GnuAddrIndex | Form::GnuStrIndex => {
            Layout::Number(Digits::Uleb, Sense::Other)
        }
        Form::StrpSup | Form::GnuRefAlt | Form::GnuStrpAlt => {
            Layout::Number(offset_digits(shape.wide), Sense::Other)
        }
        Form::RefAddr if shape.version == 2 => Layout::Number(
            address_digits(shape.address),
            Sense::Other,
        ),
        Form::RefAddr => Layout::Number(offset_digits(shape.wide), Sense::Other),
        Form::ImplicitConst => Layout::Implicit,
        Form::Indirect => Layout::Indirect,
    }
}
