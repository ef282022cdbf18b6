//! Sort keys, and which rows are shown.

ghost use Rattle.std.specs.Prelude.{◌≡◌};
ghost use Rattle.report_rows.specs.Keys.{key_of, is_shown};

use crate::row::RowOptions;
use size_core::{Domain, Sort};

/// The sort key: the shown size that rows are sorted by.
pub fn key(options: &RowOptions, vm: u64, file: u64) -> u64
    ensures { result ≡ key_of options.now vm file }
{
    let vm = if options.domain == Domain::File {
        0
    } else {
        vm
    };
    let file = if options.domain == Domain::Vm {
        0
    } else {
        file
    };
    match options.sort {
        Sort::Vm => vm,
        Sort::File => file,
        Sort::Both => vm.max(file),
    }
}

/// Whether a shown size is above 0.
pub fn is_shown(options: &RowOptions, vm: u64, file: u64) -> bool
    ensures { result ≡ is_shown options.now vm file }
{
    match options.domain {
        Domain::Vm => vm > 0,
        Domain::File => file > 0,
        Domain::Both => vm > 0 || file > 0,
    }
}
