//! The sections, as an iterator.

ghost use Rattle.std.specs.Prelude.{◌≡◌, ◌+◌, ◌*◌, ◌≤◌, ◌<◌, ◌++◌, length};
ghost use Rattle.std.specs.Iterator.{YieldsFirstBy, item_count};
ghost use Rattle.std.specs.List.{flat_map};
ghost use Rattle.macho_file.specs.Tables.{sections_of};
ghost use Rattle.macho_file.specs.Shown.{section_shown};

use crate::section::{MachoSection, section_at};
use crate::segment::section_count_of;
use crate::segments::next_segment;
use crate::walk::Walk;
use byte_cursor::Encoding;
use macho_records::{SECTION_LEN, SEGMENT_COMMAND_LEN};
use std::marker::Model;

/// The sections of all segments that `next` has not returned yet, in file order.
#[derive(Drop)]
pub struct Sections<'a> {
    pub(crate) walk: Walk<'a>,
    pub(crate) form: Encoding,
    pub(crate) place: u64,
    pub(crate) left: u32,
}

impl<'a> Model for Sections<'a> {
    ghost use Rattle.std.specs.Prelude.{List, length, ◌++◌, ◌+◌, ◌*◌, ◌≤◌};
    ghost use Rattle.std.specs.List.{flat_map};
    ghost use Rattle.macho_file.specs.Commands.{section_len};
    ghost use Rattle.macho_file.specs.Tables.{SectionRecord, sections_from, sections_of};

    ghost Value = { List SectionRecord };

    ghost view = { λ s. sections_from s.walk.file s.form s.place s.left
        ++ flat_map (sections_of s.walk.file) s.walk.rest };

    ghost invariant = { λ s. s.place + s.left * section_len s.form ≤ length s.walk.file };
}

impl<'a> Iterator for Sections<'a> {
    type Item = MachoSection<'a>;

    ghost next_gives = { YieldsFirstBy section_shown (λ s. s) };

    ghost remaining = { item_count (λ s. s) };

    #[tactic(auto, using(crate::proofs::SectionLemmas::section_next, crate::proofs::SectionLemmas::sections_begin, crate::proofs::SectionLemmas::sections_none, crate::proofs::TableLemmas::segment_within, crate::proofs::TableLemmas::segment_inside))]
    fn next(&mut self) -> Option<MachoSection<'a>> {
        let file = self.walk.bytes();
        let encoding = self.walk.encoding();
        'rows: while self.left == 0 {
            let command = next_segment(&mut self.walk)?;
            self.form = command.form(encoding);
            self.place = command.place + self.form.pick(SEGMENT_COMMAND_LEN);
            self.left = section_count_of(file, encoding, command);
        }
        let section = section_at(file, encoding, self.form, self.place);
        self.place += self.form.pick(SECTION_LEN);
        self.left -= 1;
        Some(section)
    }
}
