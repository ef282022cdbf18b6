//! Parsing the arguments before `--` with `clap`.

ghost use Rattle.std.specs.Prelude.{◌≡◌, [], IfErr, IfOk, map, string_bytes};
ghost use Rattle.clap.specs.Words.{found_of, rows_of};
ghost use Rattle.size_options.specs.Answers.{IsUnreadAnswer};
ghost use Rattle.size_options.specs.Command.{errors_of, rows_by};

use crate::command::profile_command;
use crate::errors::{OptionAnswer, UsageKind};
use clap::ArgMatches;
use clap::error::ErrorKind;
use std::alloc::Global;

/// The matches of these arguments.
pub fn matches_of<'a>(alloc: Global, words: &'a [String]) -> Result<ArgMatches<'a>, OptionAnswer>
    ensures rows { IfOk result (λ m.
        rows_of (found_of m) ≡ rows_by (map string_bytes words.entry.now)) }
    ensures read { IfOk result (λ _. errors_of (map string_bytes words.entry.now) ≡ []) }
    ensures unread { IfErr result (IsUnreadAnswer (map string_bytes words.entry.now)) }
{
    let command = profile_command(alloc)?;
    match command.try_get_matches_from(words) {
        Ok(matches) => Ok(matches),
        Err(error) => match error.kind() {
            ErrorKind::OutOfMemory => Err(OptionAnswer::NoMemory),
            _ => Err(OptionAnswer::Usage(UsageKind::Words)),
        },
    }
}
