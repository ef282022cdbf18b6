//! The rewrites of a custom data source.

ghost use Rattle.std.specs.Prelude.{true, ◌≡◌, ◌≤◌, ◌++◌, ◌∷◌, [], All, IfOk, IfErr, OnOk, OnErr, map, option_map};
ghost use Rattle.custom_rewrites.specs.Pattern.{IsPattern};
ghost use Rattle.custom_rewrites.specs.Expand.{replaced};
ghost use Rattle.custom_rewrites.specs.Rewriting.{rewritten, without_refusal, HasBuilt, HasCause, HasOneCause};
ghost use Rattle.custom_rewrites.specs.Shown.{shown_compiled, shown_finder};

use crate::pattern::{LabelFinder, LabelPattern, PatternAnswer, Patterns};
use config_text::{CustomSource, Rewrite};
use size_core::{Bytes, NoMemory};
use std::alloc::Global;
use std::marker::Model;
use thiserror::Error;

/// Why the rewrites of a data source weren't compiled. The number is the rewrite's index in the data source,
/// counted from 0.
#[derive(Clone, Copy, Debug, PartialEq, Eq, Hash, Error)]
pub enum RewriteAnswer {
    /// Its pattern is no regular expression, or is nested too deeply.
    #[error("rewrite {0}: bad syntax")]
    PatternSyntax(usize),
    /// Its pattern was refused for its size.
    #[error("rewrite {0}: too big")]
    PatternTooBig(usize),
    /// An allocation failed.
    #[error("out of memory")]
    NoMemory,
}

/// A compiled pattern and the replacement for the labels that it is found in.
#[derive(Drop)]
struct CompiledRewrite {
    pattern: LabelPattern,
    replacement: Bytes,
}

/// The rewrites of a data source, with compiled patterns.
#[derive(Drop)]
pub struct Rewrites {
    made: Vec<CompiledRewrite>,
    alloc: Global,
}

impl Model for Rewrites {
    ghost use Rattle.std.specs.Prelude.{List, map};
    ghost use Rattle.config_text.specs.declared.config.Rewrite.{Rewrite};

    ghost Value = { List Rewrite };

    ghost view = { λ r.
        map (λ m. record { pattern = m.pattern; replacement = m.replacement }) r.made.items };
}

/// Compiles the rewrite at this index.
fn build_one<P: Patterns>(
    alloc: Global,
    rewrite: &Rewrite,
    place: usize,
    patterns: &mut P,
) -> Result<CompiledRewrite, RewriteAnswer>
    ensures ok { IfOk result (λ m.
        (record { pattern = m.pattern; replacement = m.replacement } ≡ rewrite.now)
        × IsPattern rewrite.now.pattern
        × (P.last_refused patterns.new ≡ P.last_refused patterns.old)) }
    ensures uncounted { without_refusal result ≡ true
        → P.refused patterns.new ≡ P.refused patterns.old }
    ensures answer { IfErr result (HasOneCause rewrite.now.pattern place (P.refused patterns.old)
        (P.refused patterns.new) (P.last_refused patterns.old) (P.last_refused patterns.new)) }
    ensures rises { P.refused patterns.old ≤ P.refused patterns.new }
    ensures built { P.built patterns.new ≡ P.built patterns.old ++ rewrite.now.pattern ∷ [] }
{
    match patterns.build(alloc, rewrite.pattern.as_str()) {
        Ok(pattern) => match rewrite.replacement.copy() {
            Ok(replacement) => Ok(CompiledRewrite {
                pattern,
                replacement,
            }),
            Err(_) => Err(RewriteAnswer::NoMemory),
        },
        Err(PatternAnswer::Syntax) => Err(RewriteAnswer::PatternSyntax(place)),
        Err(PatternAnswer::TooBig) => Err(RewriteAnswer::PatternTooBig(place)),
        Err(PatternAnswer::NoMemory) => Err(RewriteAnswer::NoMemory),
    }
}

impl Rewrites {
    /// Compiles the pattern of each rewrite in turn, up to the first that fails.
    pub fn build<P: Patterns>(
        alloc: Global,
        source: &CustomSource,
        patterns: &mut P,
    ) -> Result<Rewrites, RewriteAnswer>
        ensures ok { IfOk result (λ r. (r ≡ source.now.rewrites)
            × All (λ q. IsPattern q.pattern) source.now.rewrites
            × (P.last_refused patterns.new ≡ P.last_refused patterns.old)) }
        ensures uncounted { without_refusal result ≡ true
            → P.refused patterns.new ≡ P.refused patterns.old }
        ensures answer { IfErr result (HasCause source.now.rewrites (P.refused patterns.old)
            (P.refused patterns.new) (P.last_refused patterns.old) (P.last_refused patterns.new)) }
        ensures rises { P.refused patterns.old ≤ P.refused patterns.new }
        ensures built { HasBuilt source.now.rewrites result
            (P.built patterns.old) (P.built patterns.new) }
    {
        let rewrites = &source.rewrites;
        let mut made = Vec::new(alloc);
        let mut place = 0;
        'rewrites: while place < rewrites.len() {
            let built = build_one(alloc, rewrites.get(place), place, patterns)?;
            made.push(built).map_err(|_| RewriteAnswer::NoMemory)?;
            place += 1;
        }
        Ok(Rewrites { made, alloc })
    }

    /// A rewriter for many labels.
    pub fn rewriter(&self) -> Result<Rewriter<'_>, NoMemory>
        ensures { IfOk result (λ r. r ≡ self.now) }
    {
        let mut ready = Vec::new(self.alloc);
        for made in &self.made {
            ready.push(rewrite_finder(self.alloc, made)?)?;
        }
        Ok(Rewriter {
            ready,
            alloc: self.alloc,
        })
    }

    /// Appends the rewritten label: the expanded replacement of the first rewrite whose pattern is found in the
    /// label, or else the label itself. On an error `out` is unchanged. For many labels a `rewriter` is faster.
    pub fn rewrite(&self, label: &[u8], out: &mut Vec<u8>) -> Result<(), NoMemory>
        ensures ok { OnOk result (out.new.items ≡ out.old.items ++ rewritten label.now self.now) }
        ensures err { OnErr result (out.new.items ≡ out.old.items) }
    {
        let mut rewriter = self.rewriter()?;
        rewriter.rewrite(label, out)
    }
}

/// A replacement, and a finder for its pattern.
#[derive(Drop)]
struct RewriteFinder<'a> {
    finder: LabelFinder<'a>,
    replacement: &'a Bytes,
}

/// A finder and the replacement of this rewrite.
fn rewrite_finder(alloc: Global, made: &CompiledRewrite) -> Result<RewriteFinder<'_>, NoMemory>
    ensures { IfOk result (λ r. shown_finder r ≡ shown_compiled made.now) }
{
    let finder = made.pattern.finder(alloc)?;
    Ok(RewriteFinder {
        finder,
        replacement: &made.replacement,
    })
}

/// The rewrites of a data source, each with a finder. Contracts see them as the data source's rewrites.
#[derive(Drop)]
pub struct Rewriter<'a> {
    ready: Vec<RewriteFinder<'a>>,
    alloc: Global,
}

impl<'a> Model for Rewriter<'a> {
    ghost use Rattle.std.specs.Prelude.{List, map};
    ghost use Rattle.config_text.specs.declared.config.Rewrite.{Rewrite};
    ghost use Rattle.custom_rewrites.specs.Shown.{shown_finder};

    ghost Value = { List Rewrite };

    ghost view = { λ r. map shown_finder r.ready.items };
}

/// The label after one rewrite. `None` if the pattern of the rewrite isn't found in the label.
fn replaced_by(
    ready: &mut RewriteFinder<'_>,
    alloc: Global,
    label: &[u8],
) -> Result<Option<Vec<u8>>, NoMemory>
    ensures text { IfOk result (λ out. option_map (λ v. v.items) out
        ≡ replaced (shown_finder ready.old).pattern (shown_finder ready.old).replacement
        label.now) }
    ensures same { ready.new ≡ ready.old }
{
    ready
        .finder
        .replaced(alloc, label, ready.replacement.as_slice())
}

/// Appends the label after the first rewrite whose pattern is found in it, or else the label itself.
fn rewrite_by(
    ready: &mut Vec<RewriteFinder<'_>>,
    alloc: Global,
    label: &[u8],
    out: &mut Vec<u8>,
) -> Result<(), NoMemory>
    ensures ok { OnOk result (out.new.items
        ≡ out.old.items ++ rewritten label.now (map shown_finder ready.old.items)) }
    ensures err { OnErr result (out.new.items ≡ out.old.items) }
    ensures same { ready.new.items ≡ ready.old.items }
{
    let mut i = 0;
    'rewrites: while i < ready.len() {
        if let Some(text) = replaced_by(&mut ready[i], alloc, label)? {
            out.extend_from_slice(text.as_slice())?;
            return Ok(());
        }
        i += 1;
    }
    out.extend_from_slice(label)?;
    Ok(())
}

impl<'a> Rewriter<'a> {
    /// Appends the rewritten label: the expanded replacement of the first rewrite whose pattern is found in the
    /// label, or else the label itself. On an error `out` is unchanged.
    pub fn rewrite(&mut self, label: &[u8], out: &mut Vec<u8>) -> Result<(), NoMemory>
        ensures ok { OnOk result (out.new.items ≡ out.old.items ++ rewritten label.now self.old) }
        ensures err { OnErr result (out.new.items ≡ out.old.items) }
        ensures same { self.new ≡ self.old }
    {
        rewrite_by(&mut self.ready, self.alloc, label, out)
    }
}
