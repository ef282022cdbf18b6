//! The fields of a source and of a rewrite that were read so far.

ghost use Rattle.std.specs.Prelude.{◌≡◌};
ghost use Rattle.config_text.specs.Grammar.{source_made, rewrite_made, no_source, no_rewrite};
ghost use Rattle.config_text.specs.Outcomes.{Gives};

use crate::config::{ConfigAnswer, ConfigKind, CustomSource, Rewrite, RewriteList};
use size_core::{Bytes, Source, Text};
use std::alloc::Global;

/// The fields of a source that were read so far.
#[derive(Drop)]
pub(crate) struct SourceParts {
    pub(crate) name: Option<Text>,
    pub(crate) base: Option<Source>,
    pub(crate) rewrites: RewriteList,
}

/// The fields of a rewrite that were read so far.
#[derive(Drop)]
pub(crate) struct RewriteParts {
    pub(crate) pattern: Option<Text>,
    pub(crate) replacement: Option<Bytes>,
}

/// Returns a source without fields.
pub(crate) fn no_source(alloc: Global) -> SourceParts
    ensures { result ≡ no_source }
{
    SourceParts {
        name: None,
        base: None,
        rewrites: RewriteList::new(alloc),
    }
}

/// Returns a rewrite without fields.
pub(crate) fn no_rewrite() -> RewriteParts
    ensures { result ≡ no_rewrite }
{
    RewriteParts {
        pattern: None,
        replacement: None,
    }
}

/// Returns the source whose closing brace is at offset `at`. MissingField if a field is missing.
pub(crate) fn close_source(parts: SourceParts, at: u64) -> Result<CustomSource, ConfigAnswer>
    ensures { Gives (λ s. s) result (source_made at parts.name parts.base parts.rewrites) }
{
    let SourceParts {
        name,
        base,
        rewrites,
    } = parts;
    match (name, base) {
        (Some(name), Some(base)) => Ok(CustomSource {
            name,
            base,
            rewrites,
        }),
        _ => Err(ConfigAnswer::Bad(ConfigKind::MissingField, at)),
    }
}

/// Returns the rewrite whose closing brace is at offset `at`. MissingField if a field is missing.
pub(crate) fn close_rewrite(parts: RewriteParts, at: u64) -> Result<Rewrite, ConfigAnswer>
    ensures { Gives (λ r. r) result (rewrite_made at parts.pattern parts.replacement) }
{
    let RewriteParts {
        pattern,
        replacement,
    } = parts;
    match (pattern, replacement) {
        (Some(pattern), Some(replacement)) => Ok(Rewrite {
            pattern,
            replacement,
        }),
        _ => Err(ConfigAnswer::Bad(ConfigKind::MissingField, at)),
    }
}
