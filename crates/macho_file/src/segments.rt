//! The segments, as an iterator.

ghost use Rattle.std.specs.Prelude.{◌≡◌, ◌+◌, ◌<◌, ◌^◌, [], ◌∷◌, MatchOption, IfSome, Ok, length, true};
ghost use Rattle.std.specs.Iterator.{YieldsFirstBy, item_count};
ghost use Rattle.std.specs.List.{flat_map};
ghost use Rattle.size_core.specs.Checks.{first_of};
ghost use Rattle.macho_file.specs.Commands.{is_segment};
ghost use Rattle.macho_file.specs.Checks.{command_checks};
ghost use Rattle.macho_file.specs.Tables.{sections_of, segments_from};
ghost use Rattle.macho_file.specs.Known.{IsInside, SameSegments};
ghost use Rattle.macho_file.specs.Shown.{segment_shown};

use crate::command::Command;
use crate::segment::{MachoSegment, segment_at};
use crate::walk::Walk;
use std::marker::Model;

/// Returns the next segment command, or `None` after the last.
#[tactic(auto, using(crate::proofs::SegmentLemmas::same_segments, crate::proofs::SegmentLemmas::same_at, crate::proofs::SegmentLemmas::skip_command))]
pub fn next_segment(walk: &mut Walk<'_>) -> Option<Command>
    ensures file { walk.new.file ≡ walk.old.file }
    ensures step { MatchOption result
        (SameSegments walk.old.file walk.old.rest [] × (walk.new.rest ≡ []))
        (λ c. SameSegments walk.old.file walk.old.rest (c ∷ walk.new.rest)) }
    ensures inside { IfSome result (λ c. IsInside walk.old.file c) }
    ensures kind { IfSome result (λ c. is_segment c ≡ true) }
    ensures fits { IfSome result (λ c. first_of (command_checks walk.old.file c) ≡ Ok tt) }
    ensures shorter { IfSome result (λ _. length walk.new.rest < length walk.old.rest) }
{
    'rows: while let Some(command) = walk.next() {
        if command.is_segment() {
            return Some(command);
        }
    }
    None
}

/// The segments that `next` has not returned yet, in file order.
#[derive(Drop)]
pub struct Segments<'a> {
    pub(crate) walk: Walk<'a>,
    pub(crate) first: u32,
}

impl<'a> Model for Segments<'a> {
    ghost use Rattle.std.specs.Prelude.{List, length, ◌+◌, ◌<◌, ◌^◌};
    ghost use Rattle.std.specs.List.{flat_map};
    ghost use Rattle.macho_file.specs.Tables.{SegmentRecord, sections_of, segments_from};

    ghost Value = { List SegmentRecord };

    ghost view = { λ s. segments_from s.walk.file s.first s.walk.rest };

    ghost invariant = { λ s.
        s.first + length (flat_map (sections_of s.walk.file) s.walk.rest) < 2 ^ 32 };
}

impl<'a> Iterator for Segments<'a> {
    type Item = MachoSegment<'a>;

    ghost next_gives = { YieldsFirstBy segment_shown (λ s. s) };

    ghost remaining = { item_count (λ s. s) };

    #[tactic(auto, using(crate::proofs::TableLemmas::segment_within, crate::proofs::SegmentLemmas::segments_next, crate::proofs::SegmentLemmas::segments_none, crate::proofs::SegmentLemmas::sections_counted))]
    fn next(&mut self) -> Option<MachoSegment<'a>> {
        let command = next_segment(&mut self.walk)?;
        let encoding = self.walk.encoding();
        let segment = segment_at(self.walk.bytes(), encoding, command, self.first);
        self.first += segment.count;
        Some(segment)
    }
}
