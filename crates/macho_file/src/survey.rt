//! Counts the tables of a file once.

ghost use Rattle.std.specs.Prelude.{◌≡◌, ◌+◌, ◌<◌, ◌^◌, ◌==◌, None, Some, length, true, if◌then◌else◌};
ghost use Rattle.macho_records.specs.Header.{HasHeader};
ghost use Rattle.macho_records.specs.Layout.{encoding_of, header_len, command_count};
ghost use Rattle.macho_file.specs.Commands.{is_segment};
ghost use Rattle.macho_file.specs.Tables.{sections, sections_of, segments};
ghost use Rattle.macho_file.specs.Symbols.{symbol_table};
ghost use Rattle.macho_file.specs.Known.{HasCommands, IsInside, IsSomeTable, or_else};

use crate::command::Command;
use crate::segment::section_count_of;
use crate::walk::Walk;
use byte_cursor::Encoding;
use macho_records::LC_SYMTAB;

/// What one walk over the load commands finds.
#[derive(Clone, Copy)]
pub struct Survey {
    /// The number of segments.
    pub segments: u32,
    /// The number of sections in all segments.
    pub sections: u32,
    /// The first LC_SYMTAB command, if there is one.
    pub symtab: Option<Command>,
}

/// Returns the number of sections of a command.
#[tactic(auto, using(crate::proofs::TableLemmas::sections_of_segment, crate::proofs::TableLemmas::sections_of_other, crate::proofs::TableLemmas::segment_within))]
fn sections_in(file: &[u8], encoding: Encoding, command: Command) -> u32
    requires header { HasHeader file.now encoding }
    requires inside { IsInside file.now command }
    ensures { result ≡ length (sections_of file.now command) }
{
    if command.is_segment() {
        section_count_of(file, encoding, command)
    } else {
        0
    }
}

impl Survey {
    /// Returns the survey with one more command.
    #[tactic(auto, using(crate::proofs::TableLemmas::table_inside))]
    fn add_command(self, file: &[u8], encoding: Encoding, command: Command) -> Survey
        requires header { HasHeader file.now encoding }
        requires inside { IsInside file.now command }
        requires segments { self.segments + 1 < 2 ^ 32 }
        requires sections { self.sections + length (sections_of file.now command) < 2 ^ 32 }
        ensures segments { result.segments ≡ self.segments + (if is_segment command then 1 else 0) }
        ensures sections { result.sections ≡ self.sections + length (sections_of file.now command) }
        ensures symtab { result.symtab
            ≡ or_else self.symtab (if command.kind == LC_SYMTAB then Some command else None) }
        ensures table { IsSomeTable file.now self.symtab → IsSomeTable file.now result.symtab }
    {
        let segments = if command.is_segment() { 1 } else { 0 };
        let symtab = if command.kind == LC_SYMTAB {
            Some(command)
        } else {
            None
        };
        Survey {
            segments: self.segments + segments,
            sections: self.sections + sections_in(file, encoding, command),
            symtab: match self.symtab {
                Some(first) => Some(first),
                None => symtab,
            },
        }
    }
}

/// Surveys the commands of a file.
#[tactic(auto, using(crate::proofs::TableLemmas::sections_small, crate::proofs::TableLemmas::commands_small, crate::proofs::TableLemmas::sections_begin, crate::proofs::TableLemmas::segments_begin, crate::proofs::TableLemmas::table_begins, crate::proofs::TableLemmas::segments_more, crate::proofs::TableLemmas::sections_more, crate::proofs::TableLemmas::found_more))]
pub fn count_tables(file: &[u8], encoding: Encoding) -> Survey
    requires { HasCommands file.now encoding (header_len file.now) (command_count file.now) }
    ensures segments { result.segments ≡ length (segments file.now) }
    ensures sections { result.sections ≡ length (sections file.now) }
    ensures symtab { result.symtab ≡ symbol_table file.now }
    ensures table { IsSomeTable file.now result.symtab }
{
    let mut walk = Walk::new(file, encoding);
    let mut found = Survey {
        segments: 0,
        sections: 0,
        symtab: None,
    };
    'rows: while let Some(command) = walk.next() {
        found = found.add_command(file, encoding, command);
    }
    found
}
