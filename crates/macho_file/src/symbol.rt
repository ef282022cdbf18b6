//! Symbols.

ghost use Rattle.std.specs.Prelude.{◌≡◌, IfOk};
ghost use Rattle.macho_records.specs.Header.{HasHeader};
ghost use Rattle.macho_symbols.specs.Shown.{placed_shown};
ghost use Rattle.macho_symbols.specs.Symbols.{HasTable};
ghost use Rattle.macho_file.specs.Known.{IsSomeTable};
ghost use Rattle.macho_file.specs.Shown.{symbol_shown};
ghost use Rattle.macho_file.specs.Symbols.{table_of};

use crate::command::Command;
use byte_cursor::Encoding;
use macho_symbols::{PlacedSymbol, SymbolTable, table_at};
use size_core::BadFile;

/// A symbol (`nlist`, `nlist_64`).
#[derive(Clone, Copy, Debug)]
pub struct MachoSymbol<'a> {
    /// Its file offset.
    pub place: u64,
    /// Its name. Empty if `n_strx` is 0.
    pub name: &'a [u8],
    /// `n_type`.
    pub kind: u8,
    /// `n_sect`, the number of its section from 1 on, or 0 if it has none.
    pub sect: u8,
    /// `n_value`, in most files a virtual address.
    pub value: u64,
}

impl<'a> MachoSymbol<'a> {
    /// Returns the symbol without the file offset of its name.
    pub(crate) fn of(symbol: PlacedSymbol<'a>) -> MachoSymbol<'a>
        ensures { symbol_shown result ≡ placed_shown symbol.entry }
    {
        MachoSymbol {
            place: symbol.place,
            name: symbol.name,
            kind: symbol.kind,
            sect: symbol.sect,
            value: symbol.value,
        }
    }
}

/// Returns the symbol table of a command, and an empty one if there is no command. TablePastEnd if the symbols or the
/// string table end after the file.
#[tactic(auto, unfolding(crate::specs::Symbols::table_of))]
pub fn table_of(
    file: &[u8],
    encoding: Encoding,
    symtab: Option<Command>,
) -> Result<SymbolTable, BadFile>
    requires header { HasHeader file.now encoding }
    requires inside { IsSomeTable file.now symtab }
    ensures value { result ≡ table_of file.now symtab }
    ensures known { IfOk result (λ t. HasTable file.now t) }
{
    match symtab {
        Some(command) => table_at(file, encoding, command.place),
        None => Ok(SymbolTable {
            symoff: 0,
            nsyms: 0,
            stroff: 0,
            strsize: 0,
        }),
    }
}
