//! The explanation of a location.

ghost use Rattle.std.specs.Prelude.{◌≡◌, IfOk};
ghost use Rattle.report_text.specs.Places.{place_report_text};

use place_explain::PlaceSource;
use report_text::place_text;
use size_core::{NoMemory, Place};
use std::alloc::Global;

/// The text of the explanations of a location. Labels aren't cut to the width of a column if `wide` is true.
pub fn report_of_location(
    alloc: Global,
    place: &Place,
    sources: &[PlaceSource],
    wide: bool,
) -> Result<Vec<u8>, NoMemory>
    ensures { IfOk result (λ v. v.items ≡ place_report_text place.now sources.now wide) }
{
    let mut out = Vec::new(alloc);
    place_text(alloc, place, sources, wide, &mut out)?;
    Ok(out)
}
