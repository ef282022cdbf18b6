//! The plan of a run: its data sources and its filter.

ghost use Rattle.std.specs.Prelude.{◌≡◌, ◌<◌, ◌≤◌, All, Some, length, map, slice_get};
ghost use Rattle.file_profile.specs.Choices.{IsChoice, chosen_in, chosen_of};

use custom_rewrites::{LabelPattern, Rewrites};
use size_core::Source;
use std::alloc::AllocFailed;
use std::marker::Model;
use thiserror::Error;

/// Why there is no plan of a run.
#[derive(Clone, Copy, Debug, PartialEq, Eq, Hash, Error)]
pub enum PlanAnswer {
    /// A name in `-d` is not the name of a data source. The names are numbered from 1.
    #[error("unknown source {0}")]
    UnknownSource(usize),
    /// The pattern with this number isn't a regular expression, or it is nested too deeply. The filter is pattern 0,
    /// and the rewrites are numbered from 1.
    #[error("pattern {0}: bad syntax")]
    PatternSyntax(usize),
    /// The pattern with this number was refused for its size.
    #[error("pattern {0}: too big")]
    PatternTooBig(usize),
    /// There was not enough memory.
    #[error("out of memory")]
    NoMemory,
}

impl<T: Drop> From<AllocFailed<T>> for PlanAnswer {
    ghost use Rattle.file_profile.specs.declared.plan.PlanAnswer.TheVariants.{NoMemory as OutOfMemory};

    ghost from_gives = { λ _ e. e ≡ OutOfMemory };

    fn from(_: AllocFailed<T>) -> PlanAnswer {
        PlanAnswer::NoMemory
    }
}

/// A data source of a run.
#[derive(Clone, Copy, Debug)]
pub struct Choice {
    /// The built-in data source that makes its claims.
    pub base: Source,
    /// The index of its rewrites in the plan's list. `None` for a built-in data source.
    pub rewrites: Option<usize>,
}

/// A data source of a plan.
#[derive(Clone, Copy)]
pub struct PlanSource<'p> {
    /// The built-in data source that makes its claims.
    pub base: Source,
    /// Its rewrites, if it is a custom one.
    pub rewrites: Option<&'p Rewrites>,
}

/// What a run counts in each file. Contracts see the data sources, each with its rewrites, the rewrites of all custom
/// data sources, and the filter's pattern.
#[derive(Drop)]
pub struct Plan {
    choices: Vec<Choice>,
    rewrites: Vec<Rewrites>,
    pub(crate) filter: Option<LabelPattern>,
}

impl Model for Plan {
    ghost use Rattle.std.specs.Prelude.{map, All, length};
    ghost use Rattle.file_profile.specs.Plans.{Plans};
    ghost use Rattle.file_profile.specs.Choices.{chosen_in, IsChoice};

    ghost Value = { Plans };

    ghost view = { λ p. record {
      sources = map (chosen_in p.rewrites.items) p.choices.items;
      customs = p.rewrites.items;
      filter = p.filter;
    } };

    ghost invariant = { λ p. All (IsChoice (length p.rewrites.items)) p.choices.items };
}

impl Plan {
    /// The plan with these data sources. `rewrites` are those of all custom data sources.
    pub fn of(choices: Vec<Choice>, rewrites: Vec<Rewrites>, filter: Option<LabelPattern>) -> Plan
        requires { All (IsChoice (length rewrites.items)) choices.items }
        ensures { result ≡ record {
          sources = map (chosen_in rewrites.items) choices.items;
          customs = rewrites.items;
          filter = filter;
        } }
    {
        Plan {
            choices,
            rewrites,
            filter,
        }
    }

    /// The number of data sources in `-d`.
    pub fn len(&self) -> usize
        ensures { result ≡ length self.now.sources }
    {
        self.choices.len()
    }

    /// The number of labels in a path, which is the depth of the rollup.
    pub fn depth(&self) -> u32
        requires { length self.now.sources ≤ 8 }
        ensures { result ≡ length self.now.sources }
    {
        self.choices.len() as u32
    }

    // Data source `i`.
    pub(crate) fn source(&self, i: usize) -> PlanSource<'_>
        requires { i < length self.now.sources }
        ensures { slice_get self.now.sources i ≡ Some (chosen_of result) }
    {
        let base = self.choices[i].base;
        match self.choices[i].rewrites {
            None => PlanSource {
                base,
                rewrites: None,
            },
            Some(k) => PlanSource {
                base,
                rewrites: Some(&self.rewrites[k]),
            },
        }
    }
}
