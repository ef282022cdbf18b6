//! The spans of symbols.

ghost use Rattle.std.specs.Prelude.{◌≡◌, IfOk, map};
ghost use Rattle.macho_symbols.specs.Shown.{named_shown};
ghost use Rattle.macho_file.specs.Shown.{span_shown};

use macho_symbols::NamedSpan;
use size_core::NoMemory;
use std::alloc::Global;

/// The address range of a symbol, which starts at its value.
#[derive(Clone, Copy, Debug)]
pub struct SymbolSpan<'a> {
    /// The symbol's name.
    pub name: &'a [u8],
    /// Its value, which is a virtual address.
    pub start: u64,
    /// Its size in bytes.
    pub len: u64,
}

impl<'a> SymbolSpan<'a> {
    /// Returns the span without the offset of its name.
    fn of(named: &NamedSpan<'a>) -> SymbolSpan<'a>
        ensures { span_shown result ≡ named_shown named.now }
    {
        SymbolSpan {
            name: named.name,
            start: named.start,
            len: named.len,
        }
    }
}

/// Returns the spans without the offsets of their names.
pub fn without_offsets<'a>(
    alloc: Global,
    named: &[NamedSpan<'a>],
) -> Result<Vec<SymbolSpan<'a>>, NoMemory>
    ensures { IfOk result (λ v. map span_shown v.items ≡ map named_shown named.now) }
{
    let mut spans = Vec::with_capacity(alloc, named.len())?;
    for item in named {
        spans.push(SymbolSpan::of(item))?;
    }
    Ok(spans)
}
