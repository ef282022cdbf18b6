//! The built-in data sources.

ghost use Rattle.std.specs.Prelude.{◌≡◌};

/// A built-in data source: it labels the bytes of a file.
#[derive(Clone, Copy, Debug, PartialEq, Eq, Hash)]
pub enum Source {
    /// `segments`: the parts of the file that are loaded, or the sections of a WebAssembly module.
    Segments,
    /// `sections`: the sections.
    Sections,
    /// `symbols`: the symbols, or the functions of a WebAssembly module.
    Symbols,
    /// `rawsymbols`: the same as `symbols`.
    RawSymbols,
    /// `compileunits`: the compile units of the debug information.
    CompileUnits,
    /// `inlines`: the source lines of the debug information.
    Inlines,
    /// `inputfiles`: the name of the file.
    InputFiles,
}

impl Source {
    ghost use Rattle.size_core.specs.SourceNames.{source_named};

    /// The data source with this name, as `-d` and configuration files write it. `None` if no built-in one has it.
    pub fn named(name: &[u8]) -> Option<Source>
        ensures { result ≡ source_named name.now }
    {
        if name == b"segments".as_slice() {
            Some(Source::Segments)
        } else if name == b"sections".as_slice() {
            Some(Source::Sections)
        } else if name == b"symbols".as_slice() {
            Some(Source::Symbols)
        } else if name == b"rawsymbols".as_slice() {
            Some(Source::RawSymbols)
        } else if name == b"compileunits".as_slice() {
            Some(Source::CompileUnits)
        } else if name == b"inlines".as_slice() {
            Some(Source::Inlines)
        } else if name == b"inputfiles".as_slice() {
            Some(Source::InputFiles)
        } else {
            None
        }
    }
}
