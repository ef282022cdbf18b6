//! Parsing the command line.

ghost use Rattle.std.specs.Prelude.{◌≡◌, ◌≤◌, [], None, Ok, IfErr, IfOk, length, option_map};
ghost use Rattle.size_options.specs.Answers.{IsRefusalOf, KeepsLimits, word_errors};
ghost use Rattle.size_options.specs.Asked.{asked, debug_tests, first_usage, usage_tests};
ghost use Rattle.size_options.specs.Given.{texts_of};
ghost use Rattle.size_options.specs.Values.{address_of, domain_of, is_bad, number_of, offset_of, small_number_of, sort_of};
ghost use Rattle.size_options.specs.Words.{mark_at, seen_words};

use crate::errors::{OptionAnswer, UsageKind};
use crate::given::{Given, given_of};
use crate::matches::matches_of;
use crate::run_options::{Options, SOURCES, options_of};
use crate::values::{
    address_of, domain_of, is_bad_list, number_of, offset_of, small_number_of, sort_of,
};
use std::alloc::Global;

// Whether a value is given that isn't a number.
fn is_bad_number(value: Option<&str>) -> bool
    ensures { result ≡ is_bad number_of (option_map (λ s. s.now) value.entry) }
{
    match value {
        Some(text) => number_of(text).is_none(),
        None => false,
    }
}

// Whether a value is given that `--synth` doesn't accept.
fn is_bad_small_number(value: Option<&str>) -> bool
    ensures { result ≡ is_bad small_number_of (option_map (λ s. s.now) value.entry) }
{
    match value {
        Some(text) => small_number_of(text).is_none(),
        None => false,
    }
}

// Whether a value is given that isn't a sort order.
fn is_bad_sort(value: Option<&str>) -> bool
    ensures { result ≡ is_bad sort_of (option_map (λ s. s.now) value.entry) }
{
    match value {
        Some(text) => sort_of(text).is_none(),
        None => false,
    }
}

// Whether a value is given that isn't a domain.
fn is_bad_domain(value: Option<&str>) -> bool
    ensures { result ≡ is_bad domain_of (option_map (λ s. s.now) value.entry) }
{
    match value {
        Some(text) => domain_of(text).is_none(),
        None => false,
    }
}

// Whether a value is given that isn't a file offset.
fn is_bad_offset(value: Option<&str>) -> bool
    ensures { result ≡ is_bad offset_of (option_map (λ s. s.now) value.entry) }
{
    match value {
        Some(text) => offset_of(text).is_none(),
        None => false,
    }
}

// Whether a value is given that isn't an address.
fn is_bad_address(value: Option<&str>) -> bool
    ensures { result ≡ is_bad address_of (option_map (λ s. s.now) value.entry) }
{
    match value {
        Some(text) => address_of(text).is_none(),
        None => false,
    }
}

// The number of files.
fn file_count(given: &Given<'_, '_>) -> usize
    ensures { result ≡ length (texts_of given.now).files }
{
    match given.files {
        Some(files) => files.len(),
        None => 0,
    }
}

// The first error in the use of a debug file or of a location.
fn debug_usage_of(given: &Given<'_, '_>, has_mark: bool) -> Option<UsageKind>
    ensures { result ≡ first_usage (debug_tests (texts_of given.now) has_mark) }
{
    let files = file_count(given);
    let has_place = given.offset.is_some() || given.address.is_some();
    if given.debug.is_some() && (files != 1 || has_mark) {
        Some(UsageKind::DebugFile)
    } else if is_bad_offset(given.offset) || is_bad_address(given.address) {
        Some(UsageKind::BadPlace)
    } else if given.offset.is_some() && given.address.is_some() {
        Some(UsageKind::TwoPlaces)
    } else if has_place && (given.debug.is_some() || has_mark || files > 1) {
        Some(UsageKind::PlaceFile)
    } else {
        None
    }
}

// The first error in the given options.
fn usage_of(given: &Given<'_, '_>, has_no_base: bool, has_mark: bool) -> Option<UsageKind>
    ensures { result ≡ first_usage (usage_tests (texts_of given.now) has_no_base has_mark) }
{
    let has_no_file = file_count(given) == 0;
    if is_bad_number(given.limit) || is_bad_small_number(given.synth) {
        Some(UsageKind::BadNumber)
    } else if is_bad_sort(given.sort) {
        Some(UsageKind::BadSort)
    } else if is_bad_domain(given.domain) {
        Some(UsageKind::BadDomain)
    } else if given.csv && given.tsv {
        Some(UsageKind::TwoFormats)
    } else if is_bad_list(given.sources.unwrap_or(SOURCES)) {
        Some(UsageKind::BadSourceList)
    } else if has_no_file && given.synth.is_none() {
        Some(UsageKind::NoFile)
    } else if !has_no_file && given.synth.is_some() {
        Some(UsageKind::SynthWithFile)
    } else if has_no_base {
        Some(UsageKind::NoBase)
    } else {
        debug_usage_of(given, has_mark)
    }
}

// The number of arguments before the first `--`, or of all arguments if there is none.
fn mark_at(words: &[String]) -> usize
    ensures at { result ≡ mark_at (seen_words words.now) }
    ensures within { result ≤ length words.now }
{
    words
        .iter()
        .position(|word| word.as_str() == "--")
        .unwrap_or(words.len())
}

/// Parses the command line. `words` are the arguments after the program's name. The first argument `--` ends
/// the arguments that clap parses. Those after it name base files, whatever they look like.
///
/// `Usage` has the first error. It is `Words` only if clap can't parse the arguments before `--`, and any
/// other kind exactly if that kind is the first that applies. `NoMemory` is possible for any arguments.
pub fn options(alloc: Global, words: &[String]) -> Result<Options, OptionAnswer>
    ensures asked { IfOk result (λ options. asked (seen_words words.entry.now) ≡ Ok options) }
    ensures read { IfOk result (λ _. word_errors (seen_words words.entry.now) ≡ []) }
    ensures limits { IfOk result KeepsLimits }
    ensures refused { IfErr result (IsRefusalOf (seen_words words.entry.now)) }
{
    let end = mark_at(words);
    let matches = matches_of(alloc, &words[..end])?;
    let given = given_of(&matches);
    let bases = &words[(end + 1).min(words.len())..];
    match usage_of(&given, end + 1 == words.len(), end < words.len()) {
        Some(kind) => Err(OptionAnswer::Usage(kind)),
        None => Ok(options_of(alloc, &given, bases)?),
    }
}
