//! The report of growth from base files.

ghost use Rattle.std.specs.Prelude.{◌≡◌, IfOk};
ghost use Rattle.file_reports.specs.GrowthReport.{PrintsGrowth};
ghost use Rattle.file_reports.specs.SizeReport.{depth_of};

use report_text::{growth_csv, growth_text, growth_tsv};
use rollup::Rollup;
use size_core::{Format, NoMemory};
use size_growth::{Growth, growth_rows};
use size_options::Options;
use std::alloc::Global;

/// The report of the growth from the sizes in `base` to those in `total`. The options give the format, the limit, the order,
/// the sizes that are shown, and the name of the data source of each label of a path.
pub fn report_of_growth(
    alloc: Global,
    options: &Options,
    total: &Rollup,
    base: &Rollup,
) -> Result<Vec<u8>, NoMemory>
    requires depth { depth_of options.now ≡ total.now.depth }
    requires base { base.now.depth ≡ total.now.depth }
    ensures { IfOk result (λ v. PrintsGrowth options.now total.now base.now v.items) }
{
    let growth = Growth::between(alloc, total, base)?;
    let tree = growth_rows(alloc, &growth, options.limit, options.sort, options.domain)?;
    let mut out = Vec::new(alloc);
    match options.format {
        Format::Text => growth_text(alloc, &tree, options.domain, options.wide, &mut out),
        Format::Csv => growth_csv(alloc, &tree, options.domain, &options.sources, &mut out),
        Format::Tsv => growth_tsv(alloc, &tree, options.domain, &options.sources, &mut out),
    }?;
    Ok(out)
}
