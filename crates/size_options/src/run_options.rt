//! The options of a run.

ghost use Rattle.std.specs.Prelude.{◌≡◌, IfOk, map, option_map, string_bytes};
ghost use Rattle.size_core.specs.declared.choices.Domain.TheVariants as domain;
ghost use Rattle.size_core.specs.declared.choices.Sort.TheVariants as sort;
ghost use Rattle.size_options.specs.Asked.{format_of, options_in};
ghost use Rattle.size_options.specs.Given.{texts_of};
ghost use Rattle.size_options.specs.Values.{address_of, domain_of, names_in, number_of, offset_of, place_of, small_number_of, sort_of, value_or};

use crate::given::Given;
use crate::values::{address_of, domain_of, number_of, offset_of, small_number_of, sort_of};
use size_core::{Domain, Format, Names, NoMemory, Place, Sort, Text};
use std::alloc::Global;

/// The number of rows under one parent that are kept if `-n` isn't given.
const LIMIT: u32 = 20;

/// The data sources if `-d` isn't given.
pub const SOURCES: &str = "sections";

/// The options that the command line gives.
#[derive(Debug, Drop)]
pub struct Options {
    /// The names of the data sources: one to eight, none empty. They may be unknown; a later step checks that.
    pub sources: Names,
    /// The number of rows under one parent that are kept. 0 means no limit.
    pub limit: u32,
    /// The size that rows are sorted by.
    pub sort: Sort,
    /// The sizes that are shown.
    pub domain: Domain,
    /// Whether the text report prints labels in full.
    pub wide: bool,
    /// The format of the report.
    pub format: Format,
    /// The pattern that labels are filtered by.
    pub filter: Option<Text>,
    /// The name of the configuration file.
    pub config: Option<Text>,
    /// The name of the debug file. It has the symbols and the debug information for the one file.
    pub debug: Option<Text>,
    /// The location to explain instead of writing a report. There is then one file.
    pub place: Option<Place>,
    /// The number of functions of the synthetic file that is profiled instead of files, at most 1,000,000.
    pub synth: Option<u32>,
    /// The names of the files, in order. There is at least one, or none if `synth` is given.
    pub files: Names,
    /// The names of the base files that the files are compared with, in order. There are none if no
    /// comparison is requested.
    pub bases: Names,
}

// The value of `-n`, or the default.
fn limit_of(value: Option<&str>) -> u32
    ensures { result ≡ value_or number_of 20 (option_map (λ s. s.now) value.entry) }
{
    value.and_then(number_of).unwrap_or(LIMIT)
}

// The value of `-s`, or the default.
fn order_of(value: Option<&str>) -> Sort
    ensures { result ≡ value_or sort_of sort.Both (option_map (λ s. s.now) value.entry) }
{
    value.and_then(sort_of).unwrap_or(Sort::Both)
}

// The value of `--domain`, or the default.
fn shown_sizes_of(value: Option<&str>) -> Domain
    ensures { result ≡ value_or domain_of domain.Both (option_map (λ s. s.now) value.entry) }
{
    value.and_then(domain_of).unwrap_or(Domain::Both)
}

// The location to explain: that of `--debug-fileoff`, or else that of `--debug-vmaddr`.
fn place_of(offset: Option<&str>, address: Option<&str>) -> Option<Place>
    ensures { result
        ≡ place_of (option_map (λ s. s.now) offset.entry) (option_map (λ s. s.now) address.entry) }
{
    match offset {
        Some(text) => offset_of(text),
        None => address.and_then(address_of),
    }
}

// The format: CSV, TSV, or text if neither is given.
fn format_of(given: &Given<'_, '_>) -> Format
    ensures { result ≡ format_of (texts_of given.now) }
{
    if given.csv {
        Format::Csv
    } else if given.tsv {
        Format::Tsv
    } else {
        Format::Text
    }
}

// A copy of the value of an option.
fn text_of(alloc: Global, value: Option<&str>) -> Result<Option<Text>, NoMemory>
    ensures { IfOk result (λ t. t ≡ option_map (λ s. s.now) value.entry) }
{
    match value {
        Some(text) => Ok(Some(Text::of(alloc, text)?)),
        None => Ok(None),
    }
}

// Copies of these names.
fn names_of(alloc: Global, texts: &[&str]) -> Result<Names, NoMemory>
    ensures { IfOk result (λ n. n ≡ map (λ s. s.now) texts.entry.now) }
{
    let mut names = Names::new(alloc);
    for text in texts {
        names.push(Text::of(alloc, text)?)?;
    }
    Ok(names)
}

// These arguments, as names.
fn names_by(alloc: Global, words: &[String]) -> Result<Names, NoMemory>
    ensures { IfOk result (λ n. n ≡ map string_bytes words.entry.now) }
{
    let mut names = Names::new(alloc);
    for word in words {
        names.push(Text::of(alloc, word.as_str())?)?;
    }
    Ok(names)
}

// The comma-separated names.
fn names_in(alloc: Global, list: &str) -> Result<Names, NoMemory>
    ensures { IfOk result (λ n. n ≡ names_in list.entry.now) }
{
    let mut names = Names::new(alloc);
    let mut left = list;
    'names: while let Some((name, rest)) = left.split_once(',') {
        names.push(Text::of(alloc, name)?)?;
        left = rest;
    }
    names.push(Text::of(alloc, left)?)?;
    Ok(names)
}

/// The given options, with defaults for the others. `bases` are the arguments that name base files.
pub fn options_of(
    alloc: Global,
    given: &Given<'_, '_>,
    bases: &[String],
) -> Result<Options, NoMemory>
    ensures { IfOk result (λ o. o
        ≡ options_in (texts_of given.entry.now) (map string_bytes bases.entry.now)) }
{
    let sources = names_in(alloc, given.sources.unwrap_or(SOURCES))?;
    let filter = text_of(alloc, given.filter)?;
    let config = text_of(alloc, given.config)?;
    let debug = text_of(alloc, given.debug)?;
    let files = match given.files {
        Some(files) => names_of(alloc, files)?,
        None => Names::new(alloc),
    };
    Ok(Options {
        sources,
        limit: limit_of(given.limit),
        sort: order_of(given.sort),
        domain: shown_sizes_of(given.domain),
        wide: given.wide,
        format: format_of(given),
        filter,
        config,
        debug,
        place: place_of(given.offset, given.address),
        synth: given.synth.and_then(small_number_of),
        files,
        bases: names_by(alloc, bases)?,
    })
}
