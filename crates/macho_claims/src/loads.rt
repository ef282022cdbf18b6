//! The loads of a file: the parts that are mapped at virtual addresses.

ghost use Rattle.std.specs.Prelude.{◌≡◌, ◌+◌, ◌^◌, ◌≤◌, ◌<◌, All, IfOk, IfSome};
ghost use Rattle.size_model.specs.Loads.{IsLoad};
ghost use Rattle.macho_file.specs.Shown.{segment_shown};
ghost use Rattle.macho_claims.specs.Loads.{loads_of, segment_load, slot_count, slot_load};

use claim_sheet::push_load;
use macho_file::{MachoFile, MachoSegment};
use size_core::{Load, NoMemory};
use std::alloc::Global;

/// Returns the load of a segment, or None if its memory can never be accessed (`maxprot` is 0).
#[tactic(auto, unfolding(crate::specs::Loads::segment_load))]
pub fn segment_load(segment: &MachoSegment<'_>) -> Option<Load>
    ensures load { result ≡ segment_load (segment_shown segment.now) }
    ensures fits { segment.now.vaddr + segment.now.memsz ≤ 2 ^ 64 → IfSome result IsLoad }
{
    if segment.maxprot == 0 {
        return None;
    }
    Some(Load {
        space: 0,
        vaddr: segment.vaddr,
        memsz: segment.memsz,
        offset: segment.offset,
        filesz: segment.filesz,
    })
}

/// Returns the number of slots: the segments. Each may be a load.
#[tactic(auto, unfolding(crate::specs::Loads::slot_count))]
pub fn load_slots(file: &MachoFile<'_>) -> u32
    ensures { result ≡ slot_count file.now }
{
    file.segment_count()
}

/// Returns the load of a slot, or None if the segment is no load. It walks the load commands up to the segment.
#[tactic(auto, unfolding(crate::specs::Loads::slot_count, crate::specs::Loads::slot_load))]
pub fn load_at(file: &MachoFile<'_>, i: u32) -> Option<Load>
    requires { i < slot_count file.now }
    ensures load { result ≡ slot_load file.now i }
    ensures fits { IfSome result IsLoad }
{
    segment_load(&file.segment(i))
}

/// Returns all loads, in the order of the slots. It walks the load commands once.
#[tactic(auto, using(crate::proofs::SegmentLemmas::loads_begin, crate::proofs::SegmentLemmas::loads_go, crate::proofs::SegmentLemmas::loads_end))]
pub fn loads_of(alloc: Global, file: &MachoFile<'_>) -> Result<Vec<Load>, NoMemory>
    ensures are { IfOk result (λ v. v.items ≡ loads_of file.now) }
    ensures fit { IfOk result (λ v. All IsLoad v.items) }
{
    let mut loads = Vec::new(alloc);
    for segment in file.segments() {
        push_load(&mut loads, segment_load(&segment))?;
    }
    Ok(loads)
}
