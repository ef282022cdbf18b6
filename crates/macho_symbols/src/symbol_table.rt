//! The symbol table.

ghost use Rattle.std.specs.Prelude.{◌≡◌, ◌+◌, ◌≤◌, ◌<◌, ◌^◌, IfOk, length};
ghost use Rattle.macho_records.specs.Header.{HasHeader};
ghost use Rattle.macho_records.specs.Layout.{encoding_of};
ghost use Rattle.macho_symbols.specs.Symbols.{HasTable, table_at, table_fields};

use byte_cursor::Encoding;
use macho_records::{
    NLIST_LEN, SYMTAB_COMMAND_LEN, SYMTAB_NSYMS, SYMTAB_STROFF, SYMTAB_STRSIZE, SYMTAB_SYMOFF,
};
use size_core::{BadFile, Fault};

/// The file ranges of the symbols and of their string table (`symtab_command`).
#[derive(Clone, Copy)]
pub struct SymbolTable {
    /// The file offset of the symbols.
    pub symoff: u32,
    /// The number of symbols.
    pub nsyms: u32,
    /// The file offset of the string table.
    pub stroff: u32,
    /// The size of the string table in bytes.
    pub strsize: u32,
}

/// Returns the fields of the `symtab_command` at file offset `place`.
#[tactic(auto, unfolding(crate::specs::Symbols::table_fields))]
fn table_fields(file: &[u8], encoding: Encoding, place: u64) -> SymbolTable
    requires encoding { encoding ≡ encoding_of file.now }
    requires within { place + SYMTAB_COMMAND_LEN ≤ length file.now }
    requires small { length file.now < 2 ^ 32 }
    ensures { result ≡ table_fields file.now place }
{
    SymbolTable {
        symoff: encoding.four(file, place, SYMTAB_SYMOFF),
        nsyms: encoding.four(file, place, SYMTAB_NSYMS),
        stroff: encoding.four(file, place, SYMTAB_STROFF),
        strsize: encoding.four(file, place, SYMTAB_STRSIZE),
    }
}

/// Returns the symbol table of the `symtab_command` at file offset `place`. TablePastEnd at the command if the symbols or
/// the string table end after the file.
#[tactic(auto, unfolding(crate::specs::Symbols::table_at))]
pub fn table_at(file: &[u8], encoding: Encoding, place: u64) -> Result<SymbolTable, BadFile>
    requires header { HasHeader file.now encoding }
    requires within { place + SYMTAB_COMMAND_LEN ≤ length file.now }
    ensures value { result ≡ table_at file.now place }
    ensures known { IfOk result (λ t. HasTable file.now t) }
{
    let table = table_fields(file, encoding, place);
    let len = file.len() as u64;
    let symbols_end = table.symoff as u64 + table.nsyms as u64 * encoding.pick(NLIST_LEN);
    let names_end = table.stroff as u64 + table.strsize as u64;
    if symbols_end > len || names_end > len {
        return Err(BadFile {
            fault: Fault::TablePastEnd,
            offset: place,
        });
    }
    Ok(table)
}
