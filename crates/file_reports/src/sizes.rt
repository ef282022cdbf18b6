//! The report of sizes.

ghost use Rattle.std.specs.Prelude.{◌≡◌, IfOk};
ghost use Rattle.file_reports.specs.SizeReport.{PrintsSizes, depth_of};

use report_rows::{RowOptions, rows};
use report_text::{csv, text, tsv};
use rollup::Rollup;
use size_core::{Format, NoMemory};
use size_options::Options;
use std::alloc::Global;

/// The report of the sizes in `total`. The options give the format, the limit, the order, the sizes that are shown, and the
/// name of the data source of each label of a path.
pub fn report_of_sizes(
    alloc: Global,
    options: &Options,
    total: &Rollup,
) -> Result<Vec<u8>, NoMemory>
    requires { depth_of options.now ≡ total.now.depth }
    ensures { IfOk result (λ v. PrintsSizes options.now total.now v.items) }
{
    let options_of_rows = RowOptions {
        limit: options.limit,
        sort: options.sort,
        domain: options.domain,
    };
    let tree = rows(alloc, total, &options_of_rows)?;
    let mut out = Vec::new(alloc);
    match options.format {
        Format::Text => text(alloc, &tree, options.domain, options.wide, &mut out),
        Format::Csv => csv(alloc, &tree, options.domain, &options.sources, &mut out),
        Format::Tsv => tsv(alloc, &tree, options.domain, &options.sources, &mut out),
    }?;
    Ok(out)
}
