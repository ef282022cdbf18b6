//! The names that values of DWARF 5 give (section 6.2.4.1).

ghost use Rattle.std.specs.Prelude.{◌≡◌};
ghost use Rattle.std.specs.Option.{option_map};
ghost use Rattle.size_core.specs.Checks.{Gives};
ghost use Rattle.dwarf_abbrev.specs.Values.{shown};
ghost use Rattle.dwarf_line_header.specs.Names.{name_of};

use dwarf_abbrev::{UnitShape, Value};
use dwarf_units::{Sections, TABLE_HEADER_LEN, text_of};
use size_core::BadFile;

/// A copy of the sections' cursors.
pub fn copy_sections<'a>(sections: &Sections<'a>) -> Sections<'a>
    ensures { result ≡ sections.now }
{
    Sections {
        order: sections.order,
        info: sections.info.fork(),
        abbrev: sections.abbrev.fork(),
        strings: sections.strings.fork(),
        line_strings: sections.line_strings.fork(),
        str_offsets: sections.str_offsets.fork(),
        addresses: sections.addresses.fork(),
        ranges: sections.ranges.fork(),
        rnglists: sections.rnglists.fork(),
        aranges: sections.aranges.fork(),
        lines: sections.lines.fork(),
    }
}

/// The string that a value refers to. It is empty if the value is absent or refers to no string.
#[tactic(auto, unfolding(crate::specs::Names::name_of))]
pub fn name_of<'a>(
    sections: &Sections<'a>,
    shape: &UnitShape,
    value: Option<Value<'a>>,
) -> Result<&'a [u8], BadFile>
    ensures { Gives (λ t. t.now) result
        (name_of sections.now shape.now (option_map shown value.entry)) }
{
    let Some(value) = value else {
        return Ok(&[]);
    };
    let base = TABLE_HEADER_LEN.pick(shape.wide);
    match text_of(&value, shape.wide, base, sections)? {
        Some(name) => Ok(name),
        None => Ok(&[]),
    }
}
