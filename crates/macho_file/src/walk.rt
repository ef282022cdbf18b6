//! Walks over the load commands of a file.

ghost use Rattle.std.specs.Prelude.{◌≡◌, [], ◌∷◌, MatchOption, IfSome, Ok};
ghost use Rattle.size_core.specs.Checks.{first_of};
ghost use Rattle.macho_records.specs.Header.{HasHeader};
ghost use Rattle.macho_records.specs.Layout.{encoding_of, header_len, command_count};
ghost use Rattle.macho_file.specs.Commands.{commands};
ghost use Rattle.macho_file.specs.Checks.{command_checks};
ghost use Rattle.macho_file.specs.Known.{HasCommands, IsInside};

use crate::command::{Command, command_at};
use byte_cursor::Encoding;
use macho_records::{HEADER_NCMDS, MACH_HEADER_LEN};
use std::marker::Model;

/// A file, and its commands that `next` has not returned yet. All of them are checked.
#[derive(Drop)]
pub struct Walk<'a> {
    file: &'a [u8],
    encoding: Encoding,
    place: u64,
    left: u32,
}

impl<'a> Model for Walk<'a> {
    ghost use Rattle.macho_file.specs.Commands.{commands_from};
    ghost use Rattle.macho_file.specs.Known.{HasCommands, Listing};

    ghost Value = { Listing };

    ghost view = { λ w.
        record { file = w.file.now; rest = commands_from w.file.now w.place w.left } };

    ghost invariant = { λ w. HasCommands w.file.now w.encoding w.place w.left };
}

impl<'a> Walk<'a> {
    /// Returns a walk over all commands of a file.
    pub fn new(file: &'a [u8], encoding: Encoding) -> Walk<'a>
        requires { HasCommands file.now encoding (header_len file.now) (command_count file.now) }
        ensures file { result.file ≡ file.entry.now }
        ensures rest { result.rest ≡ commands file.entry.now }
    {
        Walk {
            file,
            encoding,
            place: encoding.pick(MACH_HEADER_LEN),
            left: encoding.four(file, 0, HEADER_NCMDS),
        }
    }

    /// Returns the bytes of the whole file.
    pub fn bytes(&self) -> &'a [u8]
        ensures value { result.now ≡ self.now.file }
        ensures header { HasHeader self.now.file (encoding_of self.now.file) }
    {
        self.file
    }

    /// Returns the class and the byte order of the file.
    pub fn encoding(&self) -> Encoding
        ensures { result ≡ encoding_of self.now.file }
    {
        self.encoding
    }

    /// Returns the next command, or `None` after the last.
    #[tactic(auto, using(crate::proofs::WalkLemmas::is_inside, crate::proofs::WalkLemmas::has_load_command, crate::proofs::WalkLemmas::fits_here, crate::proofs::WalkLemmas::goes_on, crate::proofs::WalkLemmas::comes, crate::proofs::WalkLemmas::is_over))]
    pub fn next(&mut self) -> Option<Command>
        ensures file { self.new.file ≡ self.old.file }
        ensures step { MatchOption result
            ((self.old.rest ≡ []) × (self.new.rest ≡ []))
            (λ c. self.old.rest ≡ c ∷ self.new.rest) }
        ensures inside { IfSome result (λ c. IsInside self.old.file c) }
        ensures fits { IfSome result (λ c. first_of (command_checks self.old.file c) ≡ Ok tt) }
    {
        if self.left == 0 {
            return None;
        }
        let command = command_at(self.file, self.encoding, self.place);
        self.place += command.size as u64;
        self.left -= 1;
        Some(command)
    }
}
