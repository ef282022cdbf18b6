//! Groups within a limit, and one group for the others.

ghost use Rattle.std.specs.Prelude.{◌≡◌, ◌<◌, ◌≤◌, ℕ, true, false, List, OnOk, drop, nat_le};
ghost use Rattle.std.specs.List.{position_or_len};
ghost use Rattle.std.specs.Ordering.{nat_cmp};
ghost use Rattle.report_rows.specs.declared.row.RowOptions.{RowOptions};
ghost use Rattle.report_rows.specs.Order.{placed, within};

use crate::row::RowOptions;
use size_core::NoMemory;

/// An item of a level: a label, or labels that are left out. The larger key comes first.
pub trait Grouped: Copy {
    /// The sort key.
    ghost key: { Self → ℕ };

    /// The sums of the sizes of these groups fit their types.
    ghost fits: { List Self → Type 0 };

    /// One group for these groups, which a limit leaves out.
    ghost together: { RowOptions → List Self → Self };

    /// The sort key: the shown size that rows are sorted by.
    fn key(&self) -> u64
        ensures { result ≡ key self.now };

    /// One group for these groups, which a limit leaves out.
    fn together(options: &RowOptions, left: &[Self]) -> Self
        requires { fits left.now }
        ensures { result ≡ together options.now left.now };
}

// The index for a group of others: that of the first group whose key isn't larger.
fn position<G: Grouped>(groups: &[G], others: &G) -> usize
    ensures { result ≡ position_or_len (λ g. nat_le (G.key g) (G.key others.now)) groups.now }
{
    for (i, group) in groups.iter().enumerate() {
        if group.key() <= others.key() {
            return i;
        }
    }
    groups.len()
}

/// Inserts a group before the first one whose key isn't larger.
pub fn place<G: Grouped>(groups: &mut Vec<G>, others: G) -> Result<(), NoMemory>
    ensures { OnOk result (groups.new.items
        ≡ placed (λ a b. nat_cmp (G.key b) (G.key a)) others groups.old.items) }
{
    let index = position(groups.as_slice(), &others);
    groups.insert(index, others)?;
    Ok(())
}

/// Whether the limit leaves out some of this many groups. A limit of 0 means no limit.
pub fn leaves_out(options: &RowOptions, count: usize) -> bool
    ensures some { result ≡ true → 0 < options.now.limit }
    ensures more { result ≡ true → options.now.limit < count }
    ensures few { result ≡ false → 0 < options.now.limit → count ≤ options.now.limit }
{
    if options.limit == 0 {
        return false;
    }
    (options.limit as usize) < count
}

/// Keeps the groups within the limit, and replaces the others by one group. A limit of 0 means no limit.
pub fn limit<G: Grouped>(options: &RowOptions, groups: &mut Vec<G>) -> Result<(), NoMemory>
    requires { G.fits (drop options.now.limit groups.old.items) }
    ensures { OnOk result (groups.new.items
        ≡ within options.now.limit (λ a b. nat_cmp (G.key b) (G.key a)) (G.together options.now)
        groups.old.items) }
{
    let kept = options.limit as usize;
    if kept == 0 || groups.len() <= kept {
        return Ok(());
    }
    let others = G::together(options, &groups[kept..]);
    groups.truncate(kept);
    place(groups, others)?;
    Ok(())
}
