//! The build ID of an ELF file.

ghost use Rattle.std.specs.Prelude.{◌≡◌, ◌<◌};
ghost use Rattle.std.specs.Option.{option_copied};
ghost use Rattle.elf_file.specs.Layout.{encoding_of};
ghost use Rattle.elf_file.specs.Tables.{section_count, segment_count};
ghost use Rattle.debug_pair.specs.Areas.{Finds, HasNoId};
ghost use Rattle.debug_pair.specs.Identities.{build_id, elf_identity, section_area, section_areas, segment_area, segment_areas};

use crate::searched::Searched;
use elf_file::{ElfFile, PT_NOTE, SHT_NOTE};

/// Returns the build ID in section `i`, if it has notes.
#[tactic(auto, unfolding(crate::specs::Identities::section_area), using(crate::proofs::IdentityLemmas::no_area, crate::proofs::AreaLemmas::section_is_area))]
fn section_build_id<'a>(file: &ElfFile<'a>, i: u32, last: &mut Searched) -> Option<&'a [u8]>
    requires index { i < section_count file.now }
    requires last { HasNoId file.now last.old }
    ensures { Finds file.now (section_area file.now i) (option_copied result) last.new }
{
    let section = file.section(i);
    if section.kind != SHT_NOTE {
        return None;
    }
    last.find(file, section.offset, file.section_bytes(i))
}

/// Returns the build ID in segment `i`, if it has notes.
#[tactic(auto, unfolding(crate::specs::Identities::segment_area), using(crate::proofs::IdentityLemmas::no_area, crate::proofs::AreaLemmas::segment_is_area))]
fn segment_build_id<'a>(file: &ElfFile<'a>, i: u32, last: &mut Searched) -> Option<&'a [u8]>
    requires index { i < segment_count file.now }
    requires last { HasNoId file.now last.old }
    ensures { Finds file.now (segment_area file.now i) (option_copied result) last.new }
{
    let segment = file.segment(i);
    if segment.kind != PT_NOTE {
        return None;
    }
    last.find(file, segment.offset, file.segment_bytes(i))
}

/// Returns the first build ID in the notes of sections.
#[tactic(auto, using(crate::proofs::IdentityLemmas::area_here, crate::proofs::IdentityLemmas::area_later, crate::proofs::IdentityLemmas::area_end))]
fn build_id_in_sections<'a>(file: &ElfFile<'a>) -> Option<&'a [u8]>
    ensures { option_copied result
        ≡ build_id (encoding_of file.now).order (section_areas file.now) }
{
    let mut last = Searched::nothing();
    for i in 0..file.header().sections {
        if let Some(id) = section_build_id(file, i, &mut last) {
            return Some(id);
        }
    }
    None
}

/// Returns the first build ID in the notes of segments.
#[tactic(auto, using(crate::proofs::IdentityLemmas::area_here, crate::proofs::IdentityLemmas::area_later, crate::proofs::IdentityLemmas::area_end))]
fn build_id_in_segments<'a>(file: &ElfFile<'a>) -> Option<&'a [u8]>
    ensures { option_copied result
        ≡ build_id (encoding_of file.now).order (segment_areas file.now) }
{
    let mut last = Searched::nothing();
    for i in 0..file.header().segments {
        if let Some(id) = segment_build_id(file, i, &mut last) {
            return Some(id);
        }
    }
    None
}

/// Returns the build ID of an ELF file: the descriptor of the first note with the name `GNU`, the type
/// NT_GNU_BUILD_ID and a descriptor that isn't empty. The notes of sections come first, and then those of
/// segments, each in file order (ELF gABI, Note Section). `None` exactly if there is no such note.
#[tactic(auto, unfolding(crate::specs::Identities::elf_identity), using(crate::proofs::IdentityLemmas::build_id_append))]
pub fn elf_identity<'a>(file: &ElfFile<'a>) -> Option<&'a [u8]>
    ensures { option_copied result ≡ elf_identity file.now }
{
    match build_id_in_sections(file) {
        Some(id) => Some(id),
        None => build_id_in_segments(file),
    }
}
