//! The maps of the data sources of a plan over a file.

ghost use Rattle.std.specs.Prelude.{◌≡◌, length};
ghost use Rattle.file_profile.specs.Choices.{chosen_of};
ghost use Rattle.file_profile.specs.Claims.{claims_within, layout_of};
ghost use Rattle.file_profile.specs.Results.{Makes, Yields};
ghost use Rattle.file_profile.specs.MapLabels.{AreMapped, IsMapped};
ghost use Rattle.file_profile.specs.Views.{views_of};

use crate::answer::Made;
use crate::claims::claims_of_source;
use crate::plan::{Plan, PlanSource};
use crate::subject::Subject;
use dual_map::DualMap;
use size_core::LabelPool;

/// The two maps of a data source, and the number of claims that they are made of.
#[derive(Drop)]
pub struct Mapped {
    /// The map of file offsets and the map of addresses.
    pub maps: DualMap,
    /// The number of claims.
    pub claims: u64,
}

/// The maps of the data sources of a plan over a file.
#[derive(Drop)]
pub struct FileMaps {
    /// The two maps of each data source, in the order of the data sources. Labels are numbers of `pool`.
    pub maps: Vec<DualMap>,
    /// The pool of the labels of all maps.
    pub pool: LabelPool,
}

// The maps of a data source. Its claims are dropped here.
fn map_source(chosen: &PlanSource, file: &Subject, pool: &mut LabelPool, limit: u64) -> Made<Mapped>
    ensures { Makes (IsMapped (layout_of file.now.binary) (chosen_of chosen.now)) result
        pool.old pool.new (claims_within limit file.now chosen.now.base) }
{
    let made = claims_of_source(chosen, file, pool, limit)?;
    let alloc = file.alloc;
    let base = file.base();
    let maps = DualMap::build(alloc, base, base.len(), &made.claims, made.unmapped)?;
    let claims = made.claims.len() as u64;
    Ok(Mapped { maps, claims })
}

/// The maps of the data sources of the plan over a file. The claims of a data source are dropped before those of the
/// next are made. All claims together are at most `limit`.
pub fn maps_of(plan: &Plan, file: &Subject, limit: u64) -> Made<FileMaps>
    ensures { Yields (AreMapped (layout_of file.now.binary) (length plan.now.sources))
        (views_of limit file.now plan.now.sources) result }
{
    let mut maps = Vec::new(file.alloc);
    let mut pool = LabelPool::new(file.alloc);
    let mut left = limit;
    for i in 0..plan.len() {
        let chosen = plan.source(i);
        let mapped = map_source(&chosen, file, &mut pool, left)?;
        left -= mapped.claims;
        maps.push(mapped.maps)?;
    }
    Ok(FileMaps { maps, pool })
}
