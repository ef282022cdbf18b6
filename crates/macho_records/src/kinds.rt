//! The kinds of load commands and of sections.

ghost use Rattle.std.specs.Prelude.{◌≡◌};
ghost use Rattle.macho_records.specs.Kinds.{is_dyld_info, is_zero_filled, least_by_kind};

use crate::constants::{
    LC_DYLD_INFO, LC_DYLD_INFO_ONLY, LC_DYSYMTAB, LC_SYMTAB, LC_UUID, S_GB_ZEROFILL,
    S_THREAD_LOCAL_ZEROFILL, S_ZEROFILL, SECTION_TYPE,
};
use crate::layout::{
    DYLD_INFO_COMMAND_LEN, DYSYMTAB_COMMAND_LEN, LINKEDIT_DATA_COMMAND_LEN, LOAD_COMMAND_LEN,
    SYMTAB_COMMAND_LEN, UUID_COMMAND_LEN,
};
use crate::link_edit::data_kind;

/// Returns whether a command of this kind is a `dyld_info_command`.
pub fn is_dyld_info(kind: u32) -> bool
    ensures { result ≡ is_dyld_info kind }
{
    kind == LC_DYLD_INFO || kind == LC_DYLD_INFO_ONLY
}

/// Returns the minimum size in bytes of a command that isn't a segment, by its kind (`cmd`).
#[tactic(auto, unfolding(crate::specs::Kinds::least_by_kind))]
pub fn least_by_kind(kind: u32) -> u64
    ensures { result ≡ least_by_kind kind }
{
    if kind == LC_SYMTAB {
        SYMTAB_COMMAND_LEN
    } else if kind == LC_DYSYMTAB {
        DYSYMTAB_COMMAND_LEN
    } else if kind == LC_UUID {
        UUID_COMMAND_LEN
    } else if is_dyld_info(kind) {
        DYLD_INFO_COMMAND_LEN
    } else if data_kind(kind).is_some() {
        LINKEDIT_DATA_COMMAND_LEN
    } else {
        LOAD_COMMAND_LEN
    }
}

/// Returns whether the section type in `flags` is one of the zero-filled types.
pub fn is_zero_filled(flags: u32) -> bool
    ensures { result ≡ is_zero_filled flags }
{
    let kind = flags & SECTION_TYPE;
    kind == S_ZEROFILL || kind == S_GB_ZEROFILL || kind == S_THREAD_LOCAL_ZEROFILL
}
