//! Worked growths, and one run of the public calls.

ghost use Rattle.size_growth.specs.Worked.{WorkedGrowthOrders, WorkedGrowths};

use rollup::Rollup;
use size_core::{Domain, Sort};
use size_growth::{Growth, growth_rows};

// The definitions on worked tables: two rollups side by side, rows ordered without the sign of their growths, an Others
// row that didn't grow and one before a label of its key, a growth that is not shown,
// a label under which growths cancel.
fn worked_growths()
    ensures { WorkedGrowths }
{}

// The relation of the order on worked growths: an Others row before a label of its key and not after it, and no label
// left out without a limit.
fn worked_growth_orders()
    ensures { WorkedGrowthOrders }
{}

#[test]
fn growth_of_nothing(rt: HostRuntime) {
    worked_growths();
    worked_growth_orders();
    let new = Rollup::new(rt.alloc(), 2);
    let base = Rollup::new(rt.alloc(), 2);
    let growth = Growth::between(rt.alloc(), &new, &base).expect(&rt, "memory");
    assert_eq!(rt; growth.len(), 0);
    let tree = growth_rows(rt.alloc(), &growth, 20, Sort::Both, Domain::Both).expect(&rt, "memory");
    assert_eq!(rt; tree.depth, 2);
    assert_eq!(rt; tree.sizes.new_vm, 0);
    assert_eq!(rt; tree.sizes.base_file, 0);
    assert_eq!(rt; tree.rows.len(), 0);
}
