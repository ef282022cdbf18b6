//! A configuration, and the faults of its text.

ghost use Rattle.config_text.specs.declared.config.ConfigAnswer.TheVariants.{NoMemory as OutOfMemory};
ghost use Rattle.std.specs.Prelude.{◌≡◌};

use size_core::{Bytes, List, Source, Text};
use std::alloc::{AllocError, AllocFailed};
use thiserror::Error;

/// A custom data source: the claims of its base, with each label rewritten.
#[derive(Debug, Drop)]
pub struct CustomSource {
    /// Its name. It isn't empty, has no comma, and is the name of no other data source.
    pub name: Text,
    /// The built-in data source whose claims it has.
    pub base: Source,
    /// Its rewrites. The first one that applies decides.
    pub rewrites: RewriteList,
}

/// A rewrite. It applies to the labels that its pattern is found in.
#[derive(Debug, Drop)]
pub struct Rewrite {
    /// A regular expression.
    pub pattern: Text,
    /// The new label. `\0` to `\9` are replaced by a group of the match, and `\\` by a backslash.
    pub replacement: Bytes,
}

/// Rewrites in text order.
pub type RewriteList = List<Rewrite>;

/// What is wrong with a configuration.
#[derive(Clone, Copy, Debug, PartialEq, Eq, Hash)]
pub enum ConfigKind {
    /// A token that the grammar doesn't allow here, or the end of the text. At the token, or at the text's
    /// length.
    Syntax,
    /// A string that doesn't end on its line, or has an unknown escape. At its opening quote.
    BadString,
    /// A value that isn't UTF-8. At its first quote.
    NotUtf8,
    /// A name that is no field's name. At the name.
    UnknownField,
    /// A field that can be given once is given again. At the name.
    RepeatedField,
    /// A source or a rewrite ends without one of its fields. At the `}`.
    MissingField,
    /// The name of a source is empty, has a comma, is that of a built-in source, or was used before. At its
    /// first quote.
    BadName,
    /// The base isn't a built-in data source. At its first quote.
    BadBase,
    /// A backslash of a replacement isn't followed by a digit or a backslash. At its first quote.
    BadReplacement,
    /// A 65th source begins, or a 65th rewrite of the whole text. At the name.
    TooMany,
}

/// Why no configuration is returned.
#[derive(Clone, Copy, Debug, PartialEq, Eq, Hash, Error)]
pub enum ConfigAnswer {
    /// The first fault of the text, and its offset in bytes.
    #[error("offset {1}: {0:?}")]
    Bad(ConfigKind, u64),
    /// There was not enough memory.
    #[error("out of memory")]
    NoMemory,
}

impl From<size_core::NoMemory> for ConfigAnswer {
    ghost from_gives = { λ _ e. e ≡ OutOfMemory };

    fn from(_: size_core::NoMemory) -> ConfigAnswer {
        ConfigAnswer::NoMemory
    }
}

impl From<AllocError> for ConfigAnswer {
    ghost from_gives = { λ _ e. e ≡ OutOfMemory };

    fn from(_: AllocError) -> ConfigAnswer {
        ConfigAnswer::NoMemory
    }
}

impl<T: Drop> From<AllocFailed<T>> for ConfigAnswer {
    ghost from_gives = { λ _ e. e ≡ OutOfMemory };

    fn from(_: AllocFailed<T>) -> ConfigAnswer {
        ConfigAnswer::NoMemory
    }
}
