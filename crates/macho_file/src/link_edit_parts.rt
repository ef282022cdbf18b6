//! The ranges of the link-edit data, as an iterator.

ghost use Rattle.std.specs.Prelude.{◌≡◌, slice_get};
ghost use Rattle.std.specs.Iterator.{YieldsFirst, item_count};
ghost use Rattle.std.specs.List.{flat_map};
ghost use Rattle.macho_records.specs.Header.{HasHeader};
ghost use Rattle.macho_file.specs.LinkEdit.{parts_of, parts_of_some};
ghost use Rattle.macho_file.specs.Known.{IsSomeInside};

use crate::command::Command;
use crate::walk::Walk;
use byte_cursor::Encoding;
use macho_records::{LinkEditPart, part_of};
use std::marker::Model;

/// The ranges of the link-edit data that `next` has not returned yet, in the order of the commands.
#[derive(Drop)]
pub struct LinkEditParts<'a> {
    pub(crate) walk: Walk<'a>,
    pub(crate) command: Option<Command>,
    pub(crate) next: u32,
}

impl<'a> Model for LinkEditParts<'a> {
    ghost use Rattle.std.specs.Prelude.{List, ◌++◌, drop};
    ghost use Rattle.std.specs.List.{flat_map};
    ghost use Rattle.macho_records.specs.declared.link_edit.LinkEditPart.{LinkEditPart};
    ghost use Rattle.macho_file.specs.LinkEdit.{parts_of, parts_of_some};
    ghost use Rattle.macho_file.specs.Known.{IsSomeInside};

    ghost Value = { List LinkEditPart };

    ghost view = { λ p. drop p.next (parts_of_some p.walk.file p.command)
        ++ flat_map (parts_of p.walk.file) p.walk.rest };

    ghost invariant = { λ p. IsSomeInside p.walk.file p.command };
}

/// Returns range `i` of a command, and none if there is no command.
#[tactic(auto, unfolding(crate::specs::LinkEdit::parts_of), using(crate::proofs::PartLemmas::kind_within))]
fn part_of_some(
    file: &[u8],
    encoding: Encoding,
    command: Option<Command>,
    i: u32,
) -> Option<LinkEditPart>
    requires header { HasHeader file.now encoding }
    requires inside { IsSomeInside file.now command }
    ensures { result ≡ slice_get (parts_of_some file.now command) i }
{
    match command {
        Some(command) => part_of(file, encoding, command.place, command.kind, i),
        None => None,
    }
}

impl<'a> Iterator for LinkEditParts<'a> {
    type Item = LinkEditPart;

    ghost next_gives = { YieldsFirst (λ s. s) };

    ghost remaining = { item_count (λ s. s) };

    #[tactic(auto, using(crate::proofs::PartLemmas::part_next, crate::proofs::PartLemmas::part_begins, crate::proofs::PartLemmas::parts_over, crate::proofs::PartLemmas::few_parts))]
    fn next(&mut self) -> Option<LinkEditPart> {
        let file = self.walk.bytes();
        let encoding = self.walk.encoding();
        'rows: loop {
            if let Some(part) = part_of_some(file, encoding, self.command, self.next) {
                self.next += 1;
                return Some(part);
            }
            let command = self.walk.next()?;
            self.command = Some(command);
            self.next = 0;
        }
    }
}
