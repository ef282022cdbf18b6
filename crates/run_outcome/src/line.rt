//! The line that reports how a run ended.

ghost use Rattle.std.specs.Prelude.{◌≡◌, ◌≤◌, ◌<◌, ◌++◌, [], List, ℕ, Ok, Err, codes, decimal, slice_get, unwrap_or, OnOk, OnErr};
ghost use Rattle.outside.specs.Writes.{Writes};
ghost use Rattle.size_options.specs.declared.errors.UsageKind.{UsageKind as UsageKindSpec};
ghost use Rattle.run_outcome.specs.Line.{config_fault, file_line, line_of, pattern_line, usage_text};
ghost use Rattle.run_outcome.specs.Names.{file_name, other_names, source_name};
ghost use Rattle.run_outcome.specs.declared.outcome.Outcome.TheVariants.{Done, Usage, NoMemory as OutOfMemory};

use crate::outcome::Outcome;
use config_text::ConfigKind;
use itoa::Buffer;
use outside::{Failed, Sink, write_pieces};
use size_options::{Options, UsageKind};

// The text of a usage error.
fn usage_text(kind: UsageKind) -> &'static str
    ensures { result.now ≡ usage_text kind }
{
    match kind {
        UsageKind::Words => "unreadable words",
        UsageKind::BadNumber => "bad number",
        UsageKind::BadSort => "bad sort order",
        UsageKind::BadDomain => "bad domain",
        UsageKind::TwoFormats => "--csv with --tsv",
        UsageKind::BadSourceList => "bad source list",
        UsageKind::NoFile => "no file",
        UsageKind::SynthWithFile => "--synth with a file",
        UsageKind::NoBase => "no base file",
        UsageKind::DebugFile => "--debug-file needs one file",
        UsageKind::BadPlace => "bad place",
        UsageKind::TwoPlaces => "two places",
        UsageKind::PlaceFile => "a place needs one file",
    }
}

// The text of a fault of the configuration, with the number of its kind.
fn config_fault(kind: ConfigKind) -> &'static [u8]
    ensures { result.now ≡ config_fault kind }
{
    match kind {
        ConfigKind::Syntax => b"config fault 1",
        ConfigKind::BadString => b"config fault 2",
        ConfigKind::NotUtf8 => b"config fault 3",
        ConfigKind::UnknownField => b"config fault 4",
        ConfigKind::RepeatedField => b"config fault 5",
        ConfigKind::MissingField => b"config fault 6",
        ConfigKind::BadName => b"config fault 7",
        ConfigKind::BadBase => b"config fault 8",
        ConfigKind::BadReplacement => b"config fault 9",
        ConfigKind::TooMany => b"config fault 10",
    }
}

// The name of the base file at this index, counted from 0. Empty if there is none.
fn base_name(options: &Options, place: usize) -> &[u8]
    ensures { result.now ≡ unwrap_or (slice_get options.now.bases place) [] }
{
    if place < options.bases.len() {
        return options.bases.get(place).as_slice();
    }
    &[]
}

// The name at this index among the debug file and the base files, which follow the files. Empty if there is none.
fn other_name(options: &Options, place: usize) -> &[u8]
    ensures { result.now ≡ unwrap_or (slice_get (other_names options.now) place) [] }
{
    match &options.debug {
        Some(name) if place == 0 => name.as_slice(),
        Some(_) => base_name(options, place - 1),
        None => base_name(options, place),
    }
}

// The name of the file with this number. Empty if there is none.
fn file_name(options: &Options, number: usize) -> &[u8]
    ensures { result.now ≡ file_name (Ok options.now) number }
{
    if number == 0 {
        return match &options.config {
            Some(name) => name.as_slice(),
            None => &[],
        };
    }
    match options.synth {
        Some(_) if number == 1 => b"synth",
        Some(_) => other_name(options, number - 2),
        None if number <= options.files.len() => options.files.get(number - 1).as_slice(),
        None => other_name(options, number - 1 - options.files.len()),
    }
}

// The name of the data source with this number, counted from 1. Empty if there is none.
fn source_name(options: &Options, number: usize) -> &[u8]
    ensures { result.now ≡ source_name (Ok options.now) number }
{
    if number == 0 || number > options.sources.len() {
        return &[];
    }
    options.sources.get(number - 1).as_slice()
}

// Writes the line for a file: its name, and what is wrong with it.
fn tell_file<E: Sink>(err: &mut E, options: &Options, file: usize, why: &[u8]) -> Result<(), Failed>
    ensures { Writes E.Sink result (file_line (Ok options.now) file why.now) err.old err.new }
{
    let name = file_name(options, file);
    write_pieces(err, &[b"bloaty: ", name, b": ", why, b"\n"])
}

// Writes the line for a fault of a file, with the file offset of the fault.
fn tell_fault<E: Sink>(err: &mut E, name: &[u8], offset: u64, fault: &[u8]) -> Result<(), Failed>
    ensures writes { let line = codes "bloaty: " ++ name.now ++ codes ": offset " ++ decimal offset
        ++ codes ": " ++ fault.now ++ codes "\n" in
        Writes E.Sink result line err.old err.new }
{
    let mut digits = Buffer::new();
    let offset = digits.format(offset).as_bytes();
    write_pieces(
        err,
        &[b"bloaty: ", name, b": offset ", offset, b": ", fault, b"\n"],
    )
}

// Writes the line for a pattern that is refused.
fn tell_pattern<E: Sink>(err: &mut E, number: usize, text: &[u8]) -> Result<(), Failed>
    ensures writes { Writes E.Sink result (pattern_line number text.now) err.old err.new }
{
    let mut digits = Buffer::new();
    let number = digits.format(number).as_bytes();
    write_pieces(err, &[b"bloaty: pattern ", number, b": ", text, b"\n"])
}

/// Writes the line for arguments that are misused. Returns `Failed` if a write failed.
pub fn tell_usage<E: Sink>(err: &mut E, kind: UsageKind) -> Result<(), Failed>
    ensures writes { let line = codes "bloaty: usage: " ++ usage_text kind ++ codes "\n" in
        Writes E.Sink result line err.old err.new }
{
    write_pieces(
        err,
        &[b"bloaty: usage: ", usage_text(kind).as_bytes(), b"\n"],
    )
}

/// Writes the line for running out of memory. Returns `Failed` if a write failed.
pub fn tell_no_memory<E: Sink>(err: &mut E) -> Result<(), Failed>
    ensures writes { Writes E.Sink result (codes "bloaty: out of memory\n") err.old err.new }
{
    write_pieces(err, &[b"bloaty: out of memory\n"])
}

/// Writes the line for an outcome of a run with these options, and nothing if the run is done. Returns `Failed` if a
/// write failed. It allocates no memory.
pub fn tell<E: Sink>(err: &mut E, options: &Options, outcome: &Outcome) -> Result<(), Failed>
    ensures writes { Writes E.Sink result (line_of (Ok options.now) outcome.now) err.old err.new }
    ensures silent { outcome.now ≡ Done → E.written err.new ≡ E.written err.old }
{
    match *outcome {
        Outcome::Done => Ok(()),
        Outcome::Usage(kind) => tell_usage(err, kind),
        Outcome::ReadFailed(i) => tell_file(err, options, i, b"cannot be read"),
        Outcome::TooLong(i) => tell_file(err, options, i, b"too long"),
        Outcome::Config(kind, offset) => {
            tell_fault(err, file_name(options, 0), offset, config_fault(kind))
        }
        Outcome::UnknownSource(i) => write_pieces(
            err,
            &[b"bloaty: unknown source: ", source_name(options, i), b"\n"],
        ),
        Outcome::PatternSyntax(i) => tell_pattern(err, i, b"bad syntax"),
        Outcome::PatternTooBig(i) => tell_pattern(err, i, b"too big"),
        Outcome::Bad {
            file,
            fault,
            offset,
        } => tell_fault(
            err,
            file_name(options, file),
            offset,
            fault.name().as_bytes(),
        ),
        Outcome::TooManyClaims(i) => tell_file(err, options, i, b"too many claims"),
        Outcome::MappedTooLarge => write_pieces(err, &[b"bloaty: mapped size too large\n"]),
        Outcome::NoMatch => tell_file(err, options, 2, b"no match"),
        Outcome::PlaceOutside => write_pieces(err, &[b"bloaty: place outside the file\n"]),
        Outcome::WriteFailed => write_pieces(err, &[b"bloaty: output failed\n"]),
        Outcome::NoMemory => tell_no_memory(err),
    }
}
