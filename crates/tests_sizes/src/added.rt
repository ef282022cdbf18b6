//! What the tests over rollups share: the map of a data source, and a file that is added to a rollup.

ghost use Rattle.std.specs.Prelude.{◌≡◌, ◌<◌, IfOk, All, length};
ghost use Rattle.std.specs.Option.{ForSome, option_copied};
ghost use Rattle.dual_map.specs.Layout.{IsOver, LabelsBelow};

use dual_map::{Base, DualMap};
use rollup::{Rollup, RollupAnswer};
use size_core::{Claim, LabelPool, Steps};
use std::alloc::Global;
use std::process::Abort;
use std::sync::ledger::{Blank, Ledger};
use std::test::Fail;

fn all_below(rt: &impl Abort, claims: &[Claim], labels: usize)
    ensures { All (λ c. c.label < labels) claims.now }
{
    for claim in claims {
        assert!(rt; claim.label < labels);
    }
}

/// The map of a data source, whose labels are numbers below `labels`.
pub fn map_of(
    rt: &impl Abort,
    alloc: Global,
    base: &Base,
    labels: usize,
    claims: &[Claim],
) -> Result<DualMap, Fail>
    requires { 0 < labels }
    ensures over { IfOk result (λ map. IsOver base.now map) }
    ensures labels { IfOk result (λ map. LabelsBelow labels map) }
{
    all_below(rt, claims, labels);
    Ok(DualMap::build(alloc, base, base.len(), claims, 0)?)
}

/// The labels of a file, and those that a filter passes.
#[derive(Clone, Copy)]
pub struct Labels<'p, 'm> {
    pub pool: &'p LabelPool,
    pub marks: Option<&'m [bool]>,
}

/// Adds a file with these maps. `blank` opens a counter of steps.
pub fn add<L: Ledger>(
    rollup: &mut Rollup,
    base: &Base,
    maps: &[DualMap],
    labels: Labels<'_, '_>,
    blank: Blank,
) -> Result<(), RollupAnswer>
    requires name { blank.name ≡ L.name }
    requires parts { blank.parts ≡ L.parts }
    requires some { 0 < blank.parts }
    requires depth { length maps.now ≡ rollup.old.depth }
    requires over { All (IsOver base.now) maps.now }
    requires labels { All (LabelsBelow (length labels.pool.now)) maps.now }
    requires marks { ForSome (option_copied labels.marks)
        (λ m. length m ≡ length labels.pool.now) }
    ensures depth { rollup.new.depth ≡ rollup.old.depth }
{
    let mut steps = Steps::<L>::begin(blank);
    rollup.add_file(
        base,
        base.len(),
        maps,
        labels.pool,
        labels.marks,
        &mut steps,
    )
}
