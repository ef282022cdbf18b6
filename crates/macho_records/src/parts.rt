//! The ranges that one load command locates in the link-edit data.

ghost use Rattle.std.specs.Prelude.{◌≡◌, ◌+◌, ◌≤◌, ◌<◌, ◌^◌, length, slice_get};
ghost use Rattle.byte_cursor.specs.Encoding.{pick};
ghost use Rattle.macho_records.specs.Layout.{encoding_of};
ghost use Rattle.macho_records.specs.Header.{HasHeader};
ghost use Rattle.macho_records.specs.Kinds.{least_by_kind};
ghost use Rattle.macho_records.specs.LinkEdit.{dyld_parts, part_at, parts_at, table_parts};

use crate::constants::{LC_DYSYMTAB, LC_SYMTAB};
use crate::kinds::is_dyld_info;
use crate::layout::{
    DYLD_INFO_BIND_OFF, DYLD_INFO_COMMAND_LEN, DYLD_INFO_EXPORT_OFF, DYLD_INFO_LAZY_BIND_OFF,
    DYLD_INFO_REBASE_OFF, DYLD_INFO_WEAK_BIND_OFF, DYSYMTAB_INDIRECTSYMOFF, LINKEDIT_DATAOFF,
    NLIST_LEN, SYMTAB_COMMAND_LEN, SYMTAB_STROFF, SYMTAB_SYMOFF,
};
use crate::link_edit::{LinkEdit, LinkEditPart, data_kind};
use byte_cursor::{ByClass, Encoding};

/// A load command in its file: its file offset, and the class and the byte order of the file.
#[derive(Clone, Copy)]
struct FileCommand<'f> {
    file: &'f [u8],
    encoding: Encoding,
    place: u64,
}

/// Returns the range whose file offset is a field of the command. The next field is its length, in units of
/// `unit` bytes.
#[tactic(auto, unfolding(crate::specs::LinkEdit::part_at))]
fn part_at(at: FileCommand<'_>, kind: LinkEdit, field: ByClass, unit: u64) -> LinkEditPart
    requires encoding { at.encoding ≡ encoding_of at.file.now }
    requires within { at.place + pick at.encoding field + 8 ≤ length at.file.now }
    requires small { length at.file.now < 2 ^ 32 }
    requires unit { unit ≤ 16 }
    ensures { result ≡ part_at at.entry.file.now at.entry.place kind field unit }
{
    LinkEditPart {
        kind,
        offset: at.encoding.four(at.file, at.place, field) as u64,
        len: at.encoding.four(at.file, at.place + 4, field) as u64 * unit,
    }
}

/// Returns range `i` of a `symtab_command`.
fn table_part(at: FileCommand<'_>, i: u32) -> Option<LinkEditPart>
    requires encoding { at.encoding ≡ encoding_of at.file.now }
    requires within { at.place + SYMTAB_COMMAND_LEN ≤ length at.file.now }
    requires small { length at.file.now < 2 ^ 32 }
    ensures { result ≡ slice_get (table_parts at.entry.file.now at.entry.place) i }
{
    let unit = at.encoding.pick(NLIST_LEN);
    match i {
        0 => Some(part_at(at, LinkEdit::SymbolTable, SYMTAB_SYMOFF, unit)),
        1 => Some(part_at(at, LinkEdit::StringTable, SYMTAB_STROFF, 1)),
        _ => None,
    }
}

/// Returns range `i` of a `dyld_info_command`.
fn dyld_part(at: FileCommand<'_>, i: u32) -> Option<LinkEditPart>
    requires encoding { at.encoding ≡ encoding_of at.file.now }
    requires within { at.place + DYLD_INFO_COMMAND_LEN ≤ length at.file.now }
    requires small { length at.file.now < 2 ^ 32 }
    ensures { result ≡ slice_get (dyld_parts at.entry.file.now at.entry.place) i }
{
    match i {
        0 => Some(part_at(at, LinkEdit::RebaseInfo, DYLD_INFO_REBASE_OFF, 1)),
        1 => Some(part_at(at, LinkEdit::BindingInfo, DYLD_INFO_BIND_OFF, 1)),
        2 => Some(part_at(at, LinkEdit::WeakBindingInfo, DYLD_INFO_WEAK_BIND_OFF, 1)),
        3 => Some(part_at(at, LinkEdit::LazyBindingInfo, DYLD_INFO_LAZY_BIND_OFF, 1)),
        4 => Some(part_at(at, LinkEdit::ExportInfo, DYLD_INFO_EXPORT_OFF, 1)),
        _ => None,
    }
}

/// Returns range `i`, counted from 0, that the command of this kind at file offset `place` locates. `None` if it
/// locates fewer. The bytes of the command up to the minimum size of its kind lie in the file.
#[tactic(auto, unfolding(crate::specs::LinkEdit::parts_at, crate::specs::Kinds::least_by_kind))]
pub fn part_of(
    file: &[u8],
    encoding: Encoding,
    place: u64,
    kind: u32,
    i: u32,
) -> Option<LinkEditPart>
    requires header { HasHeader file.now encoding }
    requires within { place + least_by_kind kind ≤ length file.now }
    ensures { result ≡ slice_get (parts_at file.now place kind) i }
{
    let at = FileCommand {
        file,
        encoding,
        place,
    };
    if kind == LC_SYMTAB {
        return table_part(at, i);
    }
    if is_dyld_info(kind) {
        return dyld_part(at, i);
    }
    if i != 0 {
        return None;
    }
    if kind == LC_DYSYMTAB {
        return Some(part_at(at, LinkEdit::IndirectSymbols, DYSYMTAB_INDIRECTSYMOFF, 4));
    }
    let data = data_kind(kind)?;
    Some(part_at(at, data, LINKEDIT_DATAOFF, 1))
}
