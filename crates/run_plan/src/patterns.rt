//! The compiled patterns of a run: the filter and the rewrites of the custom data sources.

ghost use Rattle.std.specs.Prelude.{◌≡◌, ◌<◌, ◌+◌, ◌^◌, length, IfSome};
ghost use Rattle.std.specs.Option.{option_copied};
ghost use Rattle.custom_rewrites.specs.Pattern.{IsPattern};
ghost use Rattle.file_profile.specs.Choices.{rewrite_lists};
ghost use Rattle.file_profile.specs.Patterns.{AreRead, rewrites_of};
ghost use Rattle.file_profile.specs.Plans.{HasFilterCause, HasRewriteCause};
ghost use Rattle.run_plan.specs.PatternLists.{filter_patterns, rewrite_patterns};
ghost use Rattle.run_plan.specs.Planning.{Compiles};

use config_text::CustomSource;
use custom_rewrites::{LabelPattern, PatternAnswer, Patterns, RewriteAnswer, Rewrites};
use file_profile::PlanAnswer;
use size_core::Text;
use std::alloc::Global;

/// Compiles the filter, if there is one. It is pattern 0.
///
/// # Errors
///
/// `PatternSyntax` or `PatternTooBig` with number 0 if the filter isn't a regular expression or was refused for its size,
/// or `NoMemory`.
pub fn filter_of<P: Patterns>(
    alloc: Global,
    filter: Option<&Text>,
    patterns: &mut P,
) -> Result<Option<LabelPattern>, PlanAnswer>
    ensures { let text = option_copied filter.entry in
        Compiles P.Patterns (filter_patterns text) result (λ made. made ≡ text)
        (IfSome text IsPattern) (HasFilterCause text) patterns.old patterns.new }
{
    let Some(text) = filter else {
        return Ok(None);
    };
    match patterns.build(alloc, text.as_str()) {
        Ok(pattern) => Ok(Some(pattern)),
        Err(PatternAnswer::Syntax) => Err(PlanAnswer::PatternSyntax(0)),
        Err(PatternAnswer::TooBig) => Err(PlanAnswer::PatternTooBig(0)),
        Err(PatternAnswer::NoMemory) => Err(PlanAnswer::NoMemory),
    }
}

// Compiles the rewrites of a custom data source. The first of its patterns has number `first`.
fn rewrites_from<P: Patterns>(
    alloc: Global,
    source: &CustomSource,
    first: usize,
    patterns: &mut P,
) -> Result<Rewrites, PlanAnswer>
    requires { first + length source.now.rewrites < 2 ^ 64 }
    ensures { let rewrites = source.now.rewrites in
        Compiles P.Patterns (rewrite_patterns first rewrites) result (λ made. made ≡ rewrites)
        (AreRead rewrites) (HasRewriteCause first rewrites) patterns.old patterns.new }
{
    match Rewrites::build(alloc, source, patterns) {
        Ok(made) => Ok(made),
        Err(RewriteAnswer::PatternSyntax(place)) => Err(PlanAnswer::PatternSyntax(first + place)),
        Err(RewriteAnswer::PatternTooBig(place)) => Err(PlanAnswer::PatternTooBig(first + place)),
        Err(RewriteAnswer::NoMemory) => Err(PlanAnswer::NoMemory),
    }
}

/// Compiles the rewrites of each custom data source, whether `-d` names it or not. Their patterns are numbered from 1.
///
/// # Errors
///
/// `PatternSyntax` or `PatternTooBig` with the number of the first pattern that isn't a regular expression or that was
/// refused for its size, or `NoMemory`.
pub fn rewrites_of<P: Patterns>(
    alloc: Global,
    custom: &[CustomSource],
    patterns: &mut P,
) -> Result<Vec<Rewrites>, PlanAnswer>
    ensures { let rewrites = rewrites_of custom.now in
        Compiles P.Patterns (rewrite_patterns 1 rewrites) result
        (λ made. made.items ≡ rewrite_lists custom.now)
        (AreRead rewrites) (HasRewriteCause 1 rewrites) patterns.old patterns.new }
{
    let mut all = Vec::new(alloc);
    let mut first = 1usize;
    for source in custom {
        let Some(next) = first.checked_add(source.rewrites.len()) else {
            return Err(PlanAnswer::NoMemory);
        };
        let made = rewrites_from(alloc, source, first, patterns)?;
        all.push(made)?;
        first = next;
    }
    Ok(all)
}
