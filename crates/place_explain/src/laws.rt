//! Laws of explanations. Each is the contract of a function with an empty body.

ghost use Rattle.place_explain.specs.Laws.{FirstHasLabel, RewritesTheLabelAlone};

/// The label of a byte is that of the first claim that covers it, or the label for uncovered bytes. It is rewritten by
/// the data source's rewrites.
pub fn first_has_label()
    ensures { FirstHasLabel }
{}

/// Rewriting changes only the label of an explanation.
pub fn rewrites_the_label_alone()
    ensures { RewritesTheLabelAlone }
{}
