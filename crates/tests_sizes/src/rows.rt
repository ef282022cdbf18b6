//! Worked tables, and one run of the public call.

ghost use Rattle.report_rows.specs.Worked.{WorkedOrders, WorkedTables};

use report_rows::{RowOptions, rows};
use rollup::Rollup;
use size_core::{Domain, Sort};

// The definition of the rows on worked tables: an Others row before a label of its key and before a larger number
// of labels, limits that cut and that do not, sizes that are not shown, an Others row below a label, three levels.
fn worked_tables()
    ensures { WorkedTables }
{}

// The relation of the order on worked rows: an Others row before a label of its key and not after it, and no label
// left out without a limit.
fn worked_orders()
    ensures { WorkedOrders }
{}

#[test]
fn rows_of_nothing(rt: HostRuntime) {
    worked_tables();
    worked_orders();
    let options = RowOptions {
        limit: 20,
        sort: Sort::Both,
        domain: Domain::Both,
    };
    let rollup = Rollup::new(rt.alloc(), 2);
    let tree = rows(rt.alloc(), &rollup, &options).expect(&rt, "memory");
    assert_eq!(rt; tree.depth, 2);
    assert_eq!(rt; tree.vm, 0);
    assert_eq!(rt; tree.file, 0);
    assert_eq!(rt; tree.rows.len(), 0);
}
