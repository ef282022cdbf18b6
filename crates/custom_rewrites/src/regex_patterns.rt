//! Patterns, compiled with the crate `regex`.

ghost use Rattle.std.specs.Prelude.{◌≡◌, ◌≢◌, ◌<◌, ◌≤◌, ◌⊎◌, ◌↔◌, ◌++◌, ◌∷◌, [], Err, IfOk, IsTrue};
ghost use Rattle.custom_rewrites.specs.Pattern.{IsPattern, IsNoPattern};
ghost use Rattle.custom_rewrites.specs.Refusals.{IsListed, with_built, with_call, with_refused};

use crate::pattern::{LabelPattern, PatternAnswer, Patterns};
use outside::Notes;
use size_core::Text;
use std::alloc::Global;
use std::marker::Model;

/// Compiles patterns with the crate `regex`. For tests, it refuses the calls with the given numbers.
#[derive(Drop)]
pub struct RegexPatterns {
    refusing: Vec<u64>,
    calls: u64,
    refused: u64,
    last: Option<Text>,
    built: Notes,
}

impl Model for RegexPatterns {
    ghost use Rattle.custom_rewrites.specs.Refusals.{Refusals, text_of};

    ghost Value = { Refusals };

    ghost view = { λ p. record {
      refusing = p.refusing.items;
      calls = p.calls;
      refused = p.refused;
      last = text_of p.last;
      built = p.built.items;
    } };
}

impl RegexPatterns {
    /// Patterns that refuse the calls with these numbers, counted from 1, for their size.
    pub fn new(refusing: Vec<u64>) -> RegexPatterns
        ensures { result ≡
            record { refusing = refusing.items; calls = 0; refused = 0; last = []; built = [] } }
    {
        RegexPatterns {
            refusing,
            calls: 0,
            refused: 0,
            last: None,
            built: Notes::new(),
        }
    }

    /// Counts a call. Returns whether it is one to refuse.
    fn count_call(&mut self) -> bool
        ensures after { self.new ≡ with_call self.old }
        ensures listed { IsTrue result ↔ IsListed self.old }
    {
        let Some(calls) = self.calls.checked_add(1) else {
            return false;
        };
        self.calls = calls;
        self.refusing.contains(&calls)
    }

    /// Counts a refusal and saves its pattern.
    fn refuse(&mut self, alloc: Global, pattern: &str) -> PatternAnswer
        ensures too_big { result ≡ PatternAnswer.TooBig
            → self.new ≡ with_refused self.old pattern.now }
        ensures kept { result ≢ PatternAnswer.TooBig → self.new ≡ self.old }
        ensures kind { result ≢ PatternAnswer.Syntax }
    {
        let Some(refused) = self.refused.checked_add(1) else {
            return PatternAnswer::NoMemory;
        };
        match Text::of(alloc, pattern) {
            Ok(last) => {
                self.last = Some(last);
                self.refused = refused;
                PatternAnswer::TooBig
            }
            Err(_) => PatternAnswer::NoMemory,
        }
    }
}

impl Patterns for RegexPatterns {
    ghost refused = { λ p. p.refused };

    ghost last_refused = { λ p. p.last };

    ghost built = { λ p. p.built };

    fn build(&mut self, alloc: Global, pattern: &str) -> Result<LabelPattern, PatternAnswer>
        ensures built { self.new.built ≡ self.old.built ++ pattern.now ∷ [] }
        ensures ok { IfOk result (λ p. (p ≡ pattern.now) × IsPattern pattern.now) }
        ensures syntax { result ≡ Err PatternAnswer.Syntax → IsNoPattern pattern.now }
        ensures too_big { result ≡ Err PatternAnswer.TooBig →
            (self.old.refused < self.new.refused) × (self.new.last ≡ pattern.now) }
        ensures kept { result ≢ Err PatternAnswer.TooBig → self.new.last ≡ self.old.last }
        ensures uncounted { result ≢ Err PatternAnswer.TooBig
            → self.new.refused ≡ self.old.refused }
        ensures rises { self.old.refused ≤ self.new.refused }

        // A call whose number is in the list is refused. Each call counts once, until the count reaches the
        // maximum of its type. After that no call is in the list.
        ensures listed { IsListed self.old →
            (result ≡ Err PatternAnswer.TooBig) ⊎ (result ≡ Err PatternAnswer.NoMemory) }
        ensures called { result ≢ Err PatternAnswer.TooBig →
            self.new ≡ with_call (with_built self.old pattern.now) }
        ensures counted { result ≡ Err PatternAnswer.TooBig →
            self.new ≡ with_refused (with_call (with_built self.old pattern.now)) pattern.now }
    {
        self.built.add(pattern.as_bytes());
        if self.count_call() {
            return Err(self.refuse(alloc, pattern));
        }
        match LabelPattern::of(alloc, pattern) {
            Ok(made) => Ok(made),
            Err(PatternAnswer::TooBig) => Err(self.refuse(alloc, pattern)),
            Err(answer) => Err(answer),
        }
    }
}
