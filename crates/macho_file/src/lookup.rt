//! Finds a command, a segment or a section by its number.

ghost use Rattle.std.specs.Prelude.{◌≡◌, ◌+◌, ◌*◌, ◌≤◌, ◌<◌, ◌^◌, length, slice_get, Some, Ok};
ghost use Rattle.std.specs.List.{flat_map};
ghost use Rattle.macho_file.specs.Tables.{sections_of};
ghost use Rattle.macho_file.specs.Checks.{section_fits};
ghost use Rattle.macho_file.specs.Known.{IsInside};
ghost use Rattle.macho_file.specs.Shown.{section_shown, segment_shown};

use crate::command::Command;
use crate::section::{MachoSection, section_at};
use crate::segment::{MachoSegment, section_count_of};
use crate::segments::{Segments, next_segment};
use crate::walk::Walk;
use macho_records::{SECTION_LEN, SEGMENT_COMMAND_LEN};

/// Returns command `k` of the remaining ones.
#[tactic(auto, using(crate::proofs::LookupLemmas::first_is, crate::proofs::LookupLemmas::next_is))]
pub fn command_of(mut walk: Walk<'_>, k: u32) -> Command
    requires { k < length walk.rest }
    ensures value { slice_get walk.entry.rest k ≡ Some result }
    ensures inside { IsInside walk.entry.file result }
{
    let mut left = k;
    'rows: while let Some(command) = walk.next() {
        if left == 0 {
            return command;
        }
        left -= 1;
    }
    unreachable!()
}

/// Returns segment `k` of the remaining ones.
#[tactic(auto, using(crate::proofs::LookupLemmas::first_is, crate::proofs::LookupLemmas::next_is))]
pub fn segment_of<'a>(mut segments: Segments<'a>, k: u32) -> MachoSegment<'a>
    requires { k < length segments }
    ensures { slice_get segments.entry k ≡ Some (segment_shown result) }
{
    let mut left = k;
    'rows: while let Some(segment) = segments.next() {
        if left == 0 {
            return segment;
        }
        left -= 1;
    }
    unreachable!()
}

/// Returns section `k` of the remaining commands. It skips whole segments, and doesn't visit each section.
#[tactic(auto, using(crate::proofs::LookupLemmas::section_here, crate::proofs::LookupLemmas::section_fits_here, crate::proofs::LookupLemmas::section_later, crate::proofs::LookupLemmas::section_left, crate::proofs::LookupLemmas::section_within, crate::proofs::TableLemmas::segment_within))]
pub fn section_of<'a>(mut walk: Walk<'a>, k: u32) -> MachoSection<'a>
    requires { k < length (flat_map (sections_of walk.file) walk.rest) }
    ensures value { slice_get (flat_map (sections_of walk.entry.file) walk.entry.rest) k
        ≡ Some (section_shown result) }
    ensures fits { section_fits walk.entry.file (section_shown result) ≡ Ok tt }
{
    let file = walk.bytes();
    let encoding = walk.encoding();
    let mut left = k;
    'rows: while let Some(command) = next_segment(&mut walk) {
        let count = section_count_of(file, encoding, command);
        if left < count {
            let form = command.form(encoding);
            let first = command.place + form.pick(SEGMENT_COMMAND_LEN);
            let place = first + left as u64 * form.pick(SECTION_LEN);
            return section_at(file, encoding, form, place);
        }
        left -= count;
    }
    unreachable!()
}
