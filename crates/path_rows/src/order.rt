//! Labels and paths in order.

ghost use Rattle.std.specs.Prelude.{◌≡◌};
ghost use Rattle.path_rows.specs.Paths.{path_cmp};

use size_core::Path;
use std::cmp::Ordering;

/// Compares two paths label by label, and labels byte by byte.
pub fn compare_paths(a: &Path, b: &Path) -> Ordering
    ensures { result ≡ path_cmp a.now b.now }
{
    let count = a.len().min(b.len());
    for i in 0..count {
        match a.get(i).as_slice().cmp(&b.get(i).as_slice()) {
            Ordering::Equal => {}
            order => return order,
        }
    }
    a.len().cmp(&b.len())
}
