//! The load commands, as an iterator.

ghost use Rattle.std.specs.Iterator.{YieldsFirst, item_count};

use crate::command::Command;
use crate::walk::Walk;
use std::marker::Model;

/// The load commands that `next` has not returned yet, in file order.
#[derive(Drop)]
pub struct Commands<'a> {
    pub(crate) walk: Walk<'a>,
}

impl<'a> Model for Commands<'a> {
    ghost use Rattle.std.specs.Prelude.{List};
    ghost use Rattle.macho_file.specs.declared.command.Command.{Command};

    ghost Value = { List Command };

    ghost view = { λ c. c.walk.rest };
}

impl<'a> Iterator for Commands<'a> {
    type Item = Command;

    ghost next_gives = { YieldsFirst (λ s. s) };

    ghost remaining = { item_count (λ s. s) };

    fn next(&mut self) -> Option<Command> {
        self.walk.next()
    }
}
