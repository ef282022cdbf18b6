//! The address ranges of sections.

ghost use Rattle.std.specs.Prelude.{◌≡◌, IfOk, map};
ghost use Rattle.macho_file.specs.Spans.{extent_of};

use crate::sections::Sections;
use macho_symbols::Extent;
use size_core::NoMemory;
use std::alloc::Global;

/// Returns the address ranges of the remaining sections.
#[tactic(auto, using(crate::proofs::SpanLemmas::one_more, crate::proofs::SpanLemmas::no_more))]
pub fn extents_of(alloc: Global, mut sections: Sections<'_>) -> Result<Vec<Extent>, NoMemory>
    ensures { IfOk result (λ v. v.items ≡ map extent_of sections.entry) }
{
    let mut extents = Vec::new(alloc);
    'rows: while let Some(section) = sections.next() {
        extents.push(Extent {
            addr: section.addr,
            size: section.size,
        })?;
    }
    Ok(extents)
}
