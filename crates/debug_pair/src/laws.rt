//! Laws of the definitions. Each law is the contract of a function with an empty body.

ghost use Rattle.debug_pair.specs.Laws.{NotesEnd, NotesGoOn};

/// A law: each note begins where the one before it ends, and the list ends at the first that doesn't fit.
pub fn notes_follow_one_another()
    ensures more { NotesGoOn }
    ensures end { NotesEnd }
{}
