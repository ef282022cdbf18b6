//! The ranges of a file that load commands locate in the link-edit data.

ghost use Rattle.std.specs.Prelude.{◌≡◌};
ghost use Rattle.macho_records.specs.Kinds.{data_kind};

use crate::constants::{
    LC_CODE_SIGNATURE, LC_DATA_IN_CODE, LC_DYLD_CHAINED_FIXUPS, LC_DYLD_EXPORTS_TRIE,
    LC_DYLIB_CODE_SIGN_DRS, LC_FUNCTION_STARTS, LC_LINKER_OPTIMIZATION_HINT, LC_SEGMENT_SPLIT_INFO,
};

/// What a range of the link-edit data contains.
#[derive(Clone, Copy, Debug, PartialEq, Eq, Hash)]
pub enum LinkEdit {
    /// The symbols (LC_SYMTAB).
    SymbolTable,
    /// The string table of the symbols (LC_SYMTAB).
    StringTable,
    /// The indirect symbol table (LC_DYSYMTAB).
    IndirectSymbols,
    /// The rebase information (LC_DYLD_INFO, LC_DYLD_INFO_ONLY).
    RebaseInfo,
    /// The binding information (LC_DYLD_INFO, LC_DYLD_INFO_ONLY).
    BindingInfo,
    /// The weak binding information (LC_DYLD_INFO, LC_DYLD_INFO_ONLY).
    WeakBindingInfo,
    /// The lazy binding information (LC_DYLD_INFO, LC_DYLD_INFO_ONLY).
    LazyBindingInfo,
    /// The export information (LC_DYLD_INFO, LC_DYLD_INFO_ONLY).
    ExportInfo,
    /// The code signature (LC_CODE_SIGNATURE).
    CodeSignature,
    /// The split segment information (LC_SEGMENT_SPLIT_INFO).
    SegmentSplitInfo,
    /// The start addresses of functions (LC_FUNCTION_STARTS).
    FunctionStarts,
    /// The ranges of data in code (LC_DATA_IN_CODE).
    DataInCode,
    /// The code signing requirements of linked libraries (LC_DYLIB_CODE_SIGN_DRS).
    CodeSignDrs,
    /// The linker optimization hints (LC_LINKER_OPTIMIZATION_HINT).
    OptimizationHints,
    /// The export trie (LC_DYLD_EXPORTS_TRIE).
    ExportTrie,
    /// The chained fixups (LC_DYLD_CHAINED_FIXUPS).
    ChainedFixups,
}

/// Returns what a `linkedit_data_command` of this kind (`cmd`) locates. `None` for another kind of command.
#[tactic(auto, unfolding(crate::specs::Kinds::data_kind))]
pub fn data_kind(kind: u32) -> Option<LinkEdit>
    ensures { result ≡ data_kind kind }
{
    if kind == LC_CODE_SIGNATURE {
        Some(LinkEdit::CodeSignature)
    } else if kind == LC_SEGMENT_SPLIT_INFO {
        Some(LinkEdit::SegmentSplitInfo)
    } else if kind == LC_FUNCTION_STARTS {
        Some(LinkEdit::FunctionStarts)
    } else if kind == LC_DATA_IN_CODE {
        Some(LinkEdit::DataInCode)
    } else if kind == LC_DYLIB_CODE_SIGN_DRS {
        Some(LinkEdit::CodeSignDrs)
    } else if kind == LC_LINKER_OPTIMIZATION_HINT {
        Some(LinkEdit::OptimizationHints)
    } else if kind == LC_DYLD_EXPORTS_TRIE {
        Some(LinkEdit::ExportTrie)
    } else if kind == LC_DYLD_CHAINED_FIXUPS {
        Some(LinkEdit::ChainedFixups)
    } else {
        None
    }
}

/// A range of the link-edit data, as a load command has it. It may end after the file.
#[derive(Clone, Copy, Debug, PartialEq, Eq, Hash)]
pub struct LinkEditPart {
    /// What the range contains.
    pub kind: LinkEdit,
    /// Its file offset.
    pub offset: u64,
    /// Its size in bytes.
    pub len: u64,
}
