//! Items that share their label at a level.

ghost use Rattle.std.specs.Prelude.{◌≡◌, ◌≢◌, ◌<◌, ◌≤◌, [], ℕ, List, All, length, get_or};
ghost use Rattle.report_rows.specs.Levels.{level_labels};

use size_core::Path;

/// An item with a path of labels.
pub trait HasPath {
    /// The path of labels.
    ghost path: { Self → List (List ℕ) };

    /// The path of labels.
    fn path(&self) -> &Path
        ensures { result.now ≡ path self.now };
}

/// How many items at the front share their label at a level.
pub fn run_len<T: HasPath>(items: &[T], level: usize) -> usize
    requires some { 0 < length items.now }
    requires deep { All (λ x. level < length (T.path x)) items.now }
    ensures some { 0 < result }
    ensures within { result ≤ length items.now }
    ensures same { let labels = level_labels T.path level items.now in
        (k : ℕ) → k < result → get_or labels k [] ≡ get_or labels 0 [] }
    ensures next { let labels = level_labels T.path level items.now in
        result < length items.now → get_or labels result [] ≢ get_or labels 0 [] }
{
    let label = items[0].path().get(level).as_slice();
    for (i, item) in items.iter().enumerate() {
        if item.path().get(level).as_slice() != label {
            return i;
        }
    }
    items.len()
}
