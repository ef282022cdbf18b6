//! The checks of load commands, segments and sections.

ghost use Rattle.std.specs.Prelude.{◌≡◌, ◌+◌, ◌*◌, ◌≤◌, [], length, map, true, if◌then◌else◌, IfOk};
ghost use Rattle.size_core.specs.Checks.{first_of};
ghost use Rattle.macho_records.specs.Header.{HasHeader};
ghost use Rattle.macho_records.specs.Layout.{header_len, command_count, commands_end};
ghost use Rattle.macho_file.specs.Commands.{command_at, is_segment, section_count_of, section_len};
ghost use Rattle.macho_file.specs.Tables.{sections_of};
ghost use Rattle.macho_file.specs.Checks.{section_fits, segment_checks};
ghost use Rattle.macho_file.specs.Known.{IsInside, checked_command, commands_fit, sections_fit};
ghost use Rattle.macho_file.specs.Shown.{section_shown};

use crate::command::{Command, command_at};
use crate::section::{MachoSection, section_at};
use crate::segment::segment_at;
use crate::sizes::has_least_size;
use byte_cursor::Encoding;
use macho_records::{
    HEADER_NCMDS, HEADER_SIZEOFCMDS, LOAD_COMMAND_LEN, MACH_HEADER_LEN, SECTION_LEN,
    SEGMENT_COMMAND_LEN,
};
use size_core::{BadFile, Fault};

/// Checks that the addresses of a section end by 2^64 (RangeOverflow), and that its bytes lie in the file
/// (SectionPastEnd). A fault is at the section header.
#[tactic(auto, unfolding(crate::specs::Checks::section_fits))]
fn section_fits(file: &[u8], section: &MachoSection<'_>) -> Result<(), BadFile>
    ensures { result ≡ section_fits file.now (section_shown section.now) }
{
    if section.addr as u128 + section.size as u128 > 1 << 64 {
        return Err(BadFile {
            fault: Fault::RangeOverflow,
            offset: section.place,
        });
    }
    let len = file.len() as u64;
    let missing = section.offset > len || len - section.offset < section.size;
    if section.in_file && section.size != 0 && missing {
        return Err(BadFile {
            fault: Fault::SectionPastEnd,
            offset: section.place,
        });
    }
    Ok(())
}

/// Checks `count` sections, whose headers follow one another from a file offset on.
#[tactic(auto, using(crate::proofs::CheckLemmas::sections_next, crate::proofs::CheckLemmas::sections_bad, crate::proofs::CheckLemmas::sections_end))]
fn sections_fit(
    file: &[u8],
    encoding: Encoding,
    form: Encoding,
    place: u64,
    count: u32,
) -> Result<(), BadFile>
    requires header { HasHeader file.now encoding }
    requires within { place + count * section_len form ≤ length file.now }
    ensures { result ≡ sections_fit file.now form place count }
{
    let mut at = place;
    'rows: for i in 0..count {
        section_fits(file, &section_at(file, encoding, form, at))?;
        at += form.pick(SECTION_LEN);
    }
    Ok(())
}

/// Checks each section of a segment.
#[tactic(auto, unfolding(crate::specs::Tables::sections_of, crate::specs::Commands::least_size))]
fn segment_sections_fit(
    file: &[u8],
    encoding: Encoding,
    command: Command,
    count: u32,
) -> Result<(), BadFile>
    requires header { HasHeader file.now encoding }
    requires kind { is_segment command ≡ true }
    requires inside { IsInside file.now command }
    requires count { count ≡ section_count_of file.now command }
    ensures { result ≡ first_of (map (section_fits file.now) (sections_of file.now command)) }
{
    let form = command.form(encoding);
    let first = command.place + form.pick(SEGMENT_COMMAND_LEN);
    sections_fit(file, encoding, form, first, count)
}

/// If a command is a segment, checks that its addresses end by 2^64, and checks each of its sections.
#[tactic(auto, unfolding(crate::specs::Checks::segment_checks, crate::specs::Tables::segment_at, crate::specs::Commands::least_size))]
fn segment_fits(file: &[u8], encoding: Encoding, command: Command) -> Result<(), BadFile>
    requires header { HasHeader file.now encoding }
    requires inside { IsInside file.now command }
    ensures { result
        ≡ first_of (if is_segment command then segment_checks file.now command else []) }
{
    if !command.is_segment() {
        return Ok(());
    }
    let segment = segment_at(file, encoding, command, 0);
    if segment.vaddr as u128 + segment.memsz as u128 > 1 << 64 {
        return Err(BadFile {
            fault: Fault::RangeOverflow,
            offset: command.place,
        });
    }
    segment_sections_fit(file, encoding, command, segment.count)
}

/// Returns the command at file offset `place`. BadCommand if it isn't as long as its kind needs, or ends
/// after the load commands.
#[tactic(auto, unfolding(crate::specs::Commands::is_whole, crate::specs::Commands::command_at))]
fn checked_command(
    file: &[u8],
    encoding: Encoding,
    end: u64,
    place: u64,
) -> Result<Command, BadFile>
    requires header { HasHeader file.now encoding }
    requires end { end ≡ commands_end file.now }
    requires place { place ≤ end }
    ensures value { result ≡ checked_command file.now (command_at file.now place) }
    ensures inside { IfOk result (λ c. IsInside file.now c) }
{
    let wrong = BadFile {
        fault: Fault::BadCommand,
        offset: place,
    };
    if end - place < LOAD_COMMAND_LEN {
        return Err(wrong);
    }
    let command = command_at(file, encoding, place);
    if end - place < command.size as u64 {
        return Err(wrong);
    }
    if !has_least_size(file, encoding, command) {
        return Err(wrong);
    }
    Ok(command)
}

/// Checks each command and each segment.
#[tactic(auto, using(crate::proofs::CheckLemmas::commands_next, crate::proofs::CheckLemmas::commands_bad, crate::proofs::CheckLemmas::commands_end_here), unfolding(crate::specs::Checks::command_checks, crate::specs::Commands::command_at))]
pub fn commands_fit(file: &[u8], encoding: Encoding) -> Result<(), BadFile>
    requires { HasHeader file.now encoding }
    ensures { result ≡ commands_fit file.now (header_len file.now) (command_count file.now) }
{
    let count = encoding.four(file, 0, HEADER_NCMDS);
    let mut place = encoding.pick(MACH_HEADER_LEN);
    let end = place + encoding.four(file, 0, HEADER_SIZEOFCMDS) as u64;
    'rows: for i in 0..count {
        let command = checked_command(file, encoding, end, place)?;
        segment_fits(file, encoding, command)?;
        place += command.size as u64;
    }
    Ok(())
}
