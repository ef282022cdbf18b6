//! A law of patterns. It holds of all texts.

ghost use Rattle.std.specs.Prelude.{ℕ, List};
ghost use Rattle.custom_rewrites.specs.Pattern.{IsPattern, IsNoPattern};

/// No text is a pattern and also no pattern. So the texts decide whether a run compiles its patterns, or which of them
/// it refuses.
pub fn no_text_is_both()
    ensures { (source : List ℕ) → IsPattern source → IsNoPattern source → ⊥ }
{}
