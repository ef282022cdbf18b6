//! Compiled patterns, and the trait that compiles them.

ghost use Rattle.std.specs.Prelude.{◌≡◌, ◌≢◌, ◌<◌, ◌≤◌, ◌++◌, ◌∷◌, [], Err, IfOk, option_map};
ghost use Rattle.custom_rewrites.specs.Pattern.{is_found, IsPattern, IsNoPattern};
ghost use Rattle.custom_rewrites.specs.Expand.{replaced};

use crate::expand::expansion_of;
use regex::Error;
use regex::bytes::{Matcher, Regex};
use size_core::NoMemory;
use std::alloc::Global;
use std::marker::Model;
use thiserror::Error;

/// Why a pattern wasn't compiled.
#[derive(Clone, Copy, Debug, PartialEq, Eq, Hash, Error)]
pub enum PatternAnswer {
    /// It is no regular expression, or it is nested too deeply.
    #[error("bad syntax")]
    Syntax,
    /// It was refused for its size.
    #[error("too big")]
    TooBig,
    /// An allocation failed.
    #[error("out of memory")]
    NoMemory,
}

/// A regular expression for searching in labels. Only `Patterns::build` makes one.
#[derive(Drop)]
pub struct LabelPattern {
    regex: Regex,
}

impl Model for LabelPattern {
    ghost use Rattle.std.specs.Prelude.{List, ℕ, ◌≡◌};
    ghost use Rattle.regex.specs.Bytes.{regex_source, regex_config, IsReadFromSource};
    ghost use Rattle.custom_rewrites.specs.Pattern.{bytes_config};

    ghost Value = { List ℕ };

    ghost view = { λ p. regex_source p.regex };

    ghost invariant = { λ p. (regex_config p.regex ≡ bytes_config) × IsReadFromSource p.regex };
}

impl LabelPattern {
    /// Compiles a pattern.
    pub(crate) fn of(alloc: Global, pattern: &str) -> Result<LabelPattern, PatternAnswer>
        ensures ok { IfOk result (λ p. (p ≡ pattern.now) × IsPattern pattern.now) }
        ensures syntax { result ≡ Err PatternAnswer.Syntax → IsNoPattern pattern.now }
    {
        match Regex::new(alloc, pattern) {
            Ok(regex) => Ok(LabelPattern { regex }),
            Err(Error::Syntax(_)) => Err(PatternAnswer::Syntax),
            Err(Error::OutOfMemory) => Err(PatternAnswer::NoMemory),
            Err(_) => Err(PatternAnswer::TooBig),
        }
    }

    /// A finder for searching in many labels.
    pub fn finder(&self, alloc: Global) -> Result<LabelFinder<'_>, NoMemory>
        ensures { IfOk result (λ finder. finder ≡ self.now) }
    {
        let matcher = self.regex.matcher(alloc)?;
        Ok(LabelFinder {
            pattern: self,
            matcher,
        })
    }

    /// Whether the pattern is found in the label. For many labels a `finder` is faster.
    pub fn finds(&self, alloc: Global, label: &[u8]) -> Result<bool, NoMemory>
        ensures { IfOk result (λ found. found ≡ is_found self.now label.now) }
    {
        let mut finder = self.finder(alloc)?;
        Ok(finder.finds(label))
    }

    /// The rewritten label, if the pattern is found in it.
    pub(crate) fn replaced(
        &self,
        alloc: Global,
        label: &[u8],
        replacement: &[u8],
    ) -> Result<Option<Vec<u8>>, NoMemory>
        ensures { IfOk result (λ out. option_map (λ v. v.items) out
            ≡ replaced self.now replacement.now label.now) }
    {
        let mut matcher = self.regex.matcher(alloc)?;
        match matcher.captures(label) {
            Some(captures) => Ok(Some(expansion_of(alloc, &captures, replacement)?)),
            None => Ok(None),
        }
    }
}

/// A finder for one pattern. Contracts see the pattern's text. It caches what earlier searches computed, so
/// later ones are fast.
#[derive(Drop)]
pub struct LabelFinder<'a> {
    pattern: &'a LabelPattern,
    matcher: Matcher<'a>,
}

impl<'a> Model for LabelFinder<'a> {
    ghost use Rattle.std.specs.Prelude.{List, ℕ};
    ghost use Rattle.regex.specs.Bytes.{matcher_pattern};
    ghost use Rattle.custom_rewrites.specs.Pattern.{FindsAs};

    ghost Value = { List ℕ };

    ghost view = { λ f. f.pattern.now };

    ghost invariant = { λ f. FindsAs (matcher_pattern f.matcher) f.pattern.now };
}

impl<'a> LabelFinder<'a> {
    /// Whether the pattern is found in the label.
    pub fn finds(&mut self, label: &[u8]) -> bool
        ensures found { result ≡ is_found self.old label.now }
        ensures same { self.new ≡ self.old }
    {
        self.matcher.is_match(label)
    }

    /// The rewritten label, if the pattern is found in it.
    #[tactic(auto, using(crate::proofs::GroupLemmas::not_replaced))]
    pub(crate) fn replaced(
        &mut self,
        alloc: Global,
        label: &[u8],
        replacement: &[u8],
    ) -> Result<Option<Vec<u8>>, NoMemory>
        ensures text { IfOk result (λ out. option_map (λ v. v.items) out
            ≡ replaced self.old replacement.now label.now) }
        ensures same { self.new ≡ self.old }
    {
        if !self.finds(label) {
            return Ok(None);
        }
        self.pattern.replaced(alloc, label, replacement)
    }
}

/// Compiles patterns. An implementation may refuse a pattern for its size, and counts such refusals.
pub trait Patterns {
    ghost use Rattle.std.specs.Prelude.{ℕ, List};

    /// The number of patterns that were refused for their size.
    ghost refused: { Self → ℕ };

    /// The last pattern that was refused for its size. Empty if there was none.
    ghost last_refused: { Self → List ℕ };

    /// The patterns that `build` was called with, in order, whatever it returned.
    ghost built: { Self → List (List ℕ) };

    /// Compiles a pattern. The error is `Syntax` only if the text is no regular expression or is nested too deeply,
    /// and `TooBig` only if this call adds to the refusals.
    fn build(&mut self, alloc: Global, pattern: &str) -> Result<LabelPattern, PatternAnswer>
        ensures built { built self.new ≡ built self.old ++ pattern.now ∷ [] }
        ensures ok { IfOk result (λ p. (p ≡ pattern.now) × IsPattern pattern.now) }
        ensures syntax { result ≡ Err PatternAnswer.Syntax → IsNoPattern pattern.now }
        ensures too_big { result ≡ Err PatternAnswer.TooBig →
            (refused self.old < refused self.new) × (last_refused self.new ≡ pattern.now) }
        ensures kept { result ≢ Err PatternAnswer.TooBig
            → last_refused self.new ≡ last_refused self.old }
        ensures uncounted { result ≢ Err PatternAnswer.TooBig
            → refused self.new ≡ refused self.old }
        ensures rises { refused self.old ≤ refused self.new };
}
