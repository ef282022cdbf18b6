//! Parsing the values of options.

ghost use Rattle.std.specs.Prelude.{◌≡◌};
ghost use Rattle.std.specs.List.{list_all};
ghost use Rattle.std.specs.Char.{is_ascii_digit, is_ascii_hexdigit};
ghost use Rattle.size_options.specs.Values.{address_in, address_of, decimal_of, domain_of, hexadecimal_of, is_bad_list};
ghost use Rattle.size_options.specs.Values.{names_in, number_of, offset_of, small_number_of, sort_of, wide_number_of};

use size_core::{Domain, Place, Sort};

/// The greatest number that `--synth` accepts.
const MOST_FUNCTIONS: u32 = 1_000_000;

/// The maximum number of data sources.
const MOST_SOURCES: usize = 8;

// Whether each byte of the text is a decimal digit.
fn is_digits(text: &str) -> bool
    ensures { result ≡ list_all is_ascii_digit text.now }
{
    text.as_bytes().iter().all(|b| b.is_ascii_digit())
}

// Whether each byte of the text is a hexadecimal digit.
fn is_hexadecimal(text: &str) -> bool
    ensures { result ≡ list_all is_ascii_hexdigit text.now }
{
    text.as_bytes().iter().all(|b| b.is_ascii_hexdigit())
}

/// A number below 2^32 of one to ten digits. The digits are checked first, because `parse` accepts a sign.
pub fn number_of(text: &str) -> Option<u32>
    ensures { result ≡ number_of text.now }
{
    if text.is_empty() || text.len() > 10 || !is_digits(text) {
        return None;
    }
    text.parse::<u32>().ok()
}

/// A number that `--synth` accepts.
pub fn small_number_of(text: &str) -> Option<u32>
    ensures { result ≡ small_number_of text.now }
{
    number_of(text).filter(|n| *n <= MOST_FUNCTIONS)
}

// A number below 2^64 of one to twenty decimal digits.
fn decimal_of(text: &str) -> Option<u64>
    ensures { result ≡ decimal_of text.now }
{
    if text.is_empty() || text.len() > 20 || !is_digits(text) {
        return None;
    }
    text.parse::<u64>().ok()
}

// The value of one to sixteen hexadecimal digits. It always fits in 64 bits.
fn hexadecimal_of(text: &str) -> Option<u64>
    ensures { result ≡ hexadecimal_of text.now }
{
    if text.is_empty() || text.len() > 16 || !is_hexadecimal(text) {
        return None;
    }
    u64::from_str_radix(text, 16).ok()
}

// A number below 2^64: `0x` and hexadecimal digits, or decimal digits.
fn wide_number_of(text: &str) -> Option<u64>
    ensures { result ≡ wide_number_of text.entry.now }
{
    match text.strip_prefix("0x") {
        Some(digits) => hexadecimal_of(digits),
        None => decimal_of(text),
    }
}

/// The file offset in the value of `--debug-fileoff`.
pub fn offset_of(text: &str) -> Option<Place>
    ensures { result ≡ offset_of text.now }
{
    wide_number_of(text).map(Place::Offset)
}

// The address in this address space, if both were parsed.
fn address_in(space: Option<u32>, address: Option<u64>) -> Option<Place>
    ensures { result ≡ address_in space address }
{
    match (space, address) {
        (Some(space), Some(address)) => Some(Place::Address(space, address)),
        _ => None,
    }
}

/// The address in the value of `--debug-vmaddr`.
pub fn address_of(text: &str) -> Option<Place>
    ensures { result ≡ address_of text.entry.now }
{
    match text.split_once(':') {
        Some((space, address)) => address_in(number_of(space), wide_number_of(address)),
        None => address_in(Some(0), wide_number_of(text)),
    }
}

/// The sort order in the value of `-s`.
pub fn sort_of(text: &str) -> Option<Sort>
    ensures { result ≡ sort_of text.now }
{
    match text {
        "vm" => Some(Sort::Vm),
        "file" => Some(Sort::File),
        "both" => Some(Sort::Both),
        _ => None,
    }
}

/// The sizes in the value of `--domain`.
pub fn domain_of(text: &str) -> Option<Domain>
    ensures { result ≡ domain_of text.now }
{
    match text {
        "vm" => Some(Domain::Vm),
        "file" => Some(Domain::File),
        "both" => Some(Domain::Both),
        _ => None,
    }
}

/// Whether a name in the list is empty, or there are too many names.
pub fn is_bad_list(list: &str) -> bool
    ensures { result ≡ is_bad_list (names_in list.entry.now) }
{
    let mut left = list;
    let mut room = MOST_SOURCES;
    'names: while let Some((name, rest)) = left.split_once(',') {
        if name.is_empty() || room == 1 {
            return true;
        }
        room -= 1;
        left = rest;
    }
    left.is_empty()
}
