//! The checks of a field's value.

ghost use Rattle.std.specs.Prelude.{◌≡◌, ◌==◌};
ghost use Rattle.std.specs.List.{list_any};
ghost use Rattle.std.specs.Str.{bytes_eq};
ghost use Rattle.config_text.specs.Grammar.{is_free, is_replacement, text_read, name_read, base_read, replacement_read};
ghost use Rattle.config_text.specs.Outcomes.{Gives};

use crate::config::{ConfigAnswer, ConfigKind, CustomSource};
use crate::reader::Value;
use size_core::{Bytes, Source, Text};
use std::alloc::Global;
use std::str;

/// Returns the value as text. NotUtf8 if it isn't UTF-8.
fn utf8(value: &Value) -> Result<&str, ConfigAnswer>
    ensures { Gives (λ s. s.now) result (text_read value.now.at value.now.bytes.items) }
{
    match str::from_utf8(value.bytes.as_slice()) {
        Ok(text) => Ok(text),
        Err(_) => Err(ConfigAnswer::Bad(ConfigKind::NotUtf8, value.at)),
    }
}

/// Returns a copy of the value as text. NotUtf8 if it isn't UTF-8.
pub(crate) fn text_of(alloc: Global, value: &Value) -> Result<Text, ConfigAnswer>
    ensures { Gives (λ t. t) result (text_read value.now.at value.now.bytes.items) }
{
    let text = Text::of(alloc, utf8(value)?)?;
    Ok(text)
}

/// Returns whether one of the sources has the name.
fn is_used(sources: &[CustomSource], name: &[u8]) -> bool
    ensures { result ≡ list_any (λ s. bytes_eq s.name name.now) sources.now }
{
    sources.iter().any(|source| source.name.as_slice() == name)
}

/// Returns whether the name can be used: it isn't empty, has no comma, and is the name of no built-in
/// source and of none of these.
fn is_free(sources: &[CustomSource], name: &[u8]) -> bool
    ensures { result ≡ is_free sources.now name.now }
{
    if name.is_empty() || name.contains(&b',') {
        return false;
    }
    if Source::named(name).is_some() {
        return false;
    }
    !is_used(sources, name)
}

/// Returns the name of a source that comes after these. NotUtf8 if it isn't UTF-8, and BadName if it
/// can't be used.
pub(crate) fn name_of(
    alloc: Global,
    sources: &[CustomSource],
    value: &Value,
) -> Result<Text, ConfigAnswer>
    ensures { Gives (λ t. t) result (name_read sources.now value.now.at value.now.bytes.items) }
{
    let name = utf8(value)?;
    if !is_free(sources, name.as_bytes()) {
        return Err(ConfigAnswer::Bad(ConfigKind::BadName, value.at));
    }
    let name = Text::of(alloc, name)?;
    Ok(name)
}

/// Returns the built-in source with this name. NotUtf8 if it isn't UTF-8, and BadBase if there is no
/// such source.
pub(crate) fn base_of(value: &Value) -> Result<Source, ConfigAnswer>
    ensures { Gives (λ s. s) result (base_read value.now.at value.now.bytes.items) }
{
    let name = utf8(value)?;
    match Source::named(name.as_bytes()) {
        Some(base) => Ok(base),
        None => Err(ConfigAnswer::Bad(ConfigKind::BadBase, value.at)),
    }
}

/// Returns whether each backslash is followed by a digit or a backslash.
fn is_replacement(bytes: &[u8]) -> bool
    ensures { result ≡ is_replacement bytes.now }
{
    let mut left = bytes;
    'bytes: loop {
        match left {
            [] => return true,
            [b'\\', b'0'..=b'9' | b'\\', rest @ ..] => left = rest,
            [b'\\', ..] => return false,
            [_, rest @ ..] => left = rest,
        }
    }
}

/// Returns the bytes of a replacement. NotUtf8 if they aren't UTF-8, and BadReplacement if a
/// backslash is followed by another byte.
pub(crate) fn replacement_of(alloc: Global, value: &Value) -> Result<Bytes, ConfigAnswer>
    ensures { Gives (λ b. b) result (replacement_read value.now.at value.now.bytes.items) }
{
    let text = utf8(value)?;
    if !is_replacement(text.as_bytes()) {
        return Err(ConfigAnswer::Bad(ConfigKind::BadReplacement, value.at));
    }
    let bytes = Bytes::of(alloc, text.as_bytes())?;
    Ok(bytes)
}
