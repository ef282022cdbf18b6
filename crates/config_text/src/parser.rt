//! Parses a configuration.

ghost use Rattle.std.specs.Prelude.{◌≤◌, ◌∷◌, ◌++◌, [], ℕ, List, length, IfOk, OnOk};
ghost use Rattle.config_text.specs.declared.config.CustomSource.{CustomSource as Source};
ghost use Rattle.config_text.specs.Tokens.{ahead};
ghost use Rattle.config_text.specs.Grammar.{Draft, Separated, Item, Opening, InFile, InSource, InRewrite, field_begun, rewrite_begun, part_begun, no_rewrite, rewrite_closed};
ghost use Rattle.config_text.specs.Config.{config, sources_from};
ghost use Rattle.config_text.specs.Sources.{AreSources};
ghost use Rattle.config_text.specs.Drafts.{in_file, in_source, in_rewrite, goes_on, PassesName, ReadsField};
ghost use Rattle.config_text.specs.Outcomes.{Gives, Carries};

use crate::config::{ConfigAnswer, ConfigKind, CustomSource, Rewrite};
use crate::draft::{RewriteParts, SourceParts, close_rewrite, close_source, no_rewrite, no_source};
use crate::reader::{NameAt, Next, Reader};
use crate::values::{base_of, name_of, replacement_of, text_of};
use std::alloc::Global;

/// The maximum number of custom sources in a configuration.
const MOST_SOURCES: usize = 64;

/// The maximum number of rewrites in a configuration, over all sources.
const MOST_REWRITES: usize = 64;

impl RewriteParts {
    /// Reads a field of a rewrite, after its name.
    fn read_part(&mut self, reader: &mut Reader<'_>, field: NameAt<'_>) -> Result<(), ConfigAnswer>
        ensures carries { (d : Draft) → ReadsField result reader.old reader.new
            (part_begun (in_rewrite d self.old) field.entry.at field.entry.name.now)
            InRewrite (in_rewrite d self.new) }
        ensures left { OnOk result (length reader.new.rest ≤ length reader.old.rest) }
    {
        if field.name == b"pattern".as_slice() {
            let value = reader.value(field.at, self.pattern.is_some())?;
            self.pattern = Some(text_of(reader.alloc(), &value)?);
            return Ok(());
        }
        if field.name == b"replacement".as_slice() {
            let value = reader.value(field.at, self.replacement.is_some())?;
            self.replacement = Some(replacement_of(reader.alloc(), &value)?);
            return Ok(());
        }
        Err(ConfigAnswer::Bad(ConfigKind::UnknownField, field.at))
    }
}

/// Reads the block of a rewrite.
fn read_rewrite(reader: &mut Reader<'_>) -> Result<Rewrite, ConfigAnswer>
    ensures carries { (d : Draft) → Carries result
        (sources_from (ahead reader.old) (Opening InRewrite) (in_rewrite d no_rewrite))
        (λ made. sources_from (ahead reader.new) (Separated InSource) (rewrite_closed d made)) }
    ensures left { OnOk result (length reader.new.rest ≤ length reader.old.rest) }
{
    reader.open_block()?;
    let mut parts = no_rewrite();
    'parts: loop {
        match reader.next() {
            Next::Word(field) => parts.read_part(reader, field)?,
            Next::Mark(at, b'}') => return close_rewrite(parts, at),
            Next::Mark(at, _) | Next::End(at) | Next::Other(at) => {
                return Err(ConfigAnswer::Bad(ConfigKind::Syntax, at));
            }
        }
        reader.skip_separator();
    }
}

impl SourceParts {
    /// Reads a rewrite of a source, after its name at offset `at`.
    fn add_rewrite(
        &mut self,
        reader: &mut Reader<'_>,
        at: u64,
        begun: &mut usize,
    ) -> Result<(), ConfigAnswer>
        ensures carries { (sources : List Source) → ReadsField result reader.old reader.new
            (rewrite_begun (in_source sources begun.old self.old) at)
            InSource (in_source sources begun.new self.new) }
        ensures left { OnOk result (length reader.new.rest ≤ length reader.old.rest) }
    {
        if *begun >= MOST_REWRITES {
            return Err(ConfigAnswer::Bad(ConfigKind::TooMany, at));
        }
        *begun += 1;
        let made = read_rewrite(reader)?;
        self.rewrites.push(made)?;
        Ok(())
    }

    /// Reads a field of a source, after its name.
    fn read_field(
        &mut self,
        reader: &mut Reader<'_>,
        field: NameAt<'_>,
        sources: &[CustomSource],
        begun: &mut usize,
    ) -> Result<(), ConfigAnswer>
        ensures carries { ReadsField result reader.old reader.new
            (field_begun (in_source sources.now begun.old self.old)
            field.entry.at field.entry.name.now)
            InSource (in_source sources.now begun.new self.new) }
        ensures left { OnOk result (length reader.new.rest ≤ length reader.old.rest) }
    {
        if field.name == b"name".as_slice() {
            let value = reader.value(field.at, self.name.is_some())?;
            self.name = Some(name_of(reader.alloc(), sources, &value)?);
            return Ok(());
        }
        if field.name == b"base_data_source".as_slice() {
            let value = reader.value(field.at, self.base.is_some())?;
            self.base = Some(base_of(&value)?);
            return Ok(());
        }
        if field.name == b"rewrite".as_slice() {
            return self.add_rewrite(reader, field.at, begun);
        }
        Err(ConfigAnswer::Bad(ConfigKind::UnknownField, field.at))
    }
}

/// Reads the block of a source.
fn read_source(
    reader: &mut Reader<'_>,
    sources: &[CustomSource],
    begun: &mut usize,
) -> Result<CustomSource, ConfigAnswer>
    ensures carries { Carries result
        (sources_from (ahead reader.old) (Opening InSource) (in_file sources.now begun.old))
        (λ made. sources_from (ahead reader.new) (Separated InFile)
        (in_file (sources.now ++ made ∷ []) begun.new)) }
    ensures left { OnOk result (length reader.new.rest ≤ length reader.old.rest) }
{
    reader.open_block()?;
    let mut parts = no_source(reader.alloc());
    'fields: loop {
        match reader.next() {
            Next::Word(field) => parts.read_field(reader, field, sources, begun)?,
            Next::Mark(at, b'}') => return close_source(parts, at),
            Next::Mark(at, _) | Next::End(at) | Next::Other(at) => {
                return Err(ConfigAnswer::Bad(ConfigKind::Syntax, at));
            }
        }
        reader.skip_separator();
    }
}

/// Returns true if another source begins, and false at the end of the text.
fn begins_source(reader: &mut Reader<'_>, sources: &[CustomSource]) -> Result<bool, ConfigAnswer>
    ensures carries { (begun : ℕ) → Carries result
        (sources_from (ahead reader.old) (Item InFile) (in_file sources.now begun))
        (goes_on (ahead reader.new) (in_file sources.now begun)) }
    ensures left { PassesName result reader.old reader.new }
{
    match reader.next() {
        Next::Word(word) if word.name == b"custom_data_source".as_slice() => {
            if sources.len() >= MOST_SOURCES {
                return Err(ConfigAnswer::Bad(ConfigKind::TooMany, word.at));
            }
            Ok(true)
        }
        Next::Word(word) => Err(ConfigAnswer::Bad(ConfigKind::UnknownField, word.at)),
        Next::End(_) => Ok(false),
        Next::Mark(at, _) | Next::Other(at) => Err(ConfigAnswer::Bad(ConfigKind::Syntax, at)),
    }
}

/// Returns the custom sources of a configuration, in text order.
///
/// # Errors
///
/// Bad has the first fault of the text, and the fault's offset in bytes. A name is
/// checked for UnknownField, RepeatedField and TooMany, in this order. A value is checked when its last
/// string is read, for NotUtf8 before the faults of its field. NoMemory if memory runs out.
#[tactic(auto, unfolding(crate::specs::Config::config), using(crate::proofs::SourceLemmas::config_sound))]
pub fn parse(alloc: Global, text: &[u8]) -> Result<Vec<CustomSource>, ConfigAnswer>
    ensures read { Gives (λ v. v.items) result (config text.now) }
    ensures rules { IfOk result (λ v. AreSources v.items) }
{
    let mut reader = Reader::new(alloc, text);
    let mut sources = Vec::new(alloc);
    let mut begun = 0;
    'sources: while begins_source(&mut reader, sources.as_slice())? {
        let made = read_source(&mut reader, sources.as_slice(), &mut begun)?;
        sources.push(made)?;
        reader.skip_separator();
    }
    Ok(sources)
}
