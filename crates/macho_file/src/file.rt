//! An opened Mach-O file.

ghost use Rattle.std.specs.Prelude.{◌≡◌, ◌<◌, ◌^◌, All, length, map, MatchResult, OnOk, IfOk, IsOkAnd, Some, slice_get};
ghost use Rattle.size_core.specs.Checks.{AllHold, Gives, IsFirstFault};
ghost use Rattle.macho_records.specs.Layout.{command_count, commands_size, encoding_of, file_type, header_len};
ghost use Rattle.macho_file.specs.Commands.{command_bytes_at, commands};
ghost use Rattle.macho_file.specs.Tables.{section_bytes_at, sections, segments};
ghost use Rattle.macho_file.specs.LinkEdit.{link_edit_parts};
ghost use Rattle.macho_file.specs.Symbols.{symbol_at, symbol_count, table};
ghost use Rattle.macho_file.specs.Checks.{macho_checks, opened};
ghost use Rattle.macho_file.specs.WellFormed.{Fits, HasAddresses, IsWellFormed};
ghost use Rattle.macho_file.specs.Shown.{section_shown, segment_shown, span_shown, symbol_shown};
ghost use Rattle.macho_file.specs.Spans.{spans};
ghost use Rattle.macho_symbols.specs.Names.{AreNamedSpans};
ghost use Rattle.macho_symbols.specs.Shown.{named_shown};
ghost use Rattle.macho_symbols.specs.Taken.{Reads};

use crate::checks::commands_fit;
use crate::command::Command;
use crate::commands::Commands;
use crate::extents::extents_of;
use crate::link_edit_parts::LinkEditParts;
use crate::lookup::{command_of, section_of, segment_of};
use crate::section::MachoSection;
use crate::sections::Sections;
use crate::segment::MachoSegment;
use crate::segments::Segments;
use crate::spans::{SymbolSpan, without_offsets};
use crate::survey::{Survey, count_tables};
use crate::symbol::{MachoSymbol, table_of};
use crate::walk::Walk;
use byte_cursor::{Encoding, Order};
use macho_records::{HEADER_FILETYPE, HEADER_NCMDS, HEADER_SIZEOFCMDS, MACH_HEADER_LEN, encoding};
use macho_symbols::{FileTable, NamedSpan, SpanAnswer, spans_of_table};
use size_core::BadFile;
use std::alloc::Global;
use std::marker::Model;

/// A thin Mach-O file that passed all checks.
#[derive(Drop)]
pub struct MachoFile<'a> {
    file: &'a [u8],
    encoding: Encoding,
    found: Survey,
}

impl<'a> Model for MachoFile<'a> {
    ghost use Rattle.std.specs.Prelude.{ℕ, List};
    ghost use Rattle.macho_file.specs.Known.{IsOpened};

    ghost Value = { List ℕ };

    ghost view = { λ m. m.file.now };

    ghost invariant = { λ m.
        IsOpened m.file.now m.encoding m.found.segments m.found.sections m.found.symtab };
}

impl<'a> MachoFile<'a> {
    /// Opens a file of fewer than 2^32 bytes. The checks come in this order, and the first fault is
    /// returned: the magic number of a thin file, which gives the class and the byte order (UnknownFormat
    /// at 0, also for fewer than four bytes), the header (Truncated at 0), the end of the load commands
    /// (TablePastEnd at the end of the header), and for each command its size (BadCommand), the addresses of a
    /// segment (RangeOverflow) and the addresses and bytes of each of its sections (RangeOverflow,
    /// SectionPastEnd). A fault of a command or its segment is at the command, and that of a section at the
    /// section header.
    #[tactic(auto, using(crate::proofs::OpenedLemmas::opened_is, crate::proofs::OpenedLemmas::means_opened, crate::proofs::WellFormedLemmas::is_well_formed))]
    pub fn parse(file: &'a [u8]) -> Result<MachoFile<'a>, BadFile>
        requires { length file.now < 2 ^ 32 }
        ensures file { result ≡ opened file.now }
        ensures first { MatchResult result
            (λ _. AllHold (macho_checks file.now))
            (IsFirstFault (macho_checks file.now)) }
        ensures well_formed { OnOk result (IsWellFormed file.now) }
    {
        let encoding = encoding(file)?;
        commands_fit(file, encoding)?;
        Ok(MachoFile {
            file,
            encoding,
            found: count_tables(file, encoding),
        })
    }

    /// Returns another view of the same file.
    pub fn fork(&self) -> MachoFile<'a>
        ensures { result ≡ self.now }
    {
        MachoFile {
            file: self.file,
            encoding: self.encoding,
            found: self.found,
        }
    }

    /// Returns the bytes of the whole file.
    #[tactic(auto, using(crate::proofs::WellFormedLemmas::is_well_formed))]
    pub fn bytes(&self) -> &'a [u8]
        ensures value { result.now ≡ self.now }
        ensures small { length self.now < 2 ^ 32 }
        ensures well_formed { IsWellFormed self.now }
    {
        self.file
    }

    /// Returns whether the class of the file is 64 bits.
    pub fn wide(&self) -> bool
        ensures { result ≡ (encoding_of self.now).wide }
    {
        self.encoding.wide
    }

    /// Returns the byte order of the file.
    pub fn order(&self) -> Order
        ensures { result ≡ (encoding_of self.now).order }
    {
        self.encoding.order
    }

    /// Returns `filetype`.
    pub fn kind(&self) -> u32
        ensures { result ≡ file_type self.now }
    {
        self.encoding.four(self.file, 0, HEADER_FILETYPE)
    }

    /// Returns the size of the header in bytes, which depends on the class.
    pub fn header_len(&self) -> u64
        ensures { result ≡ header_len self.now }
    {
        self.encoding.pick(MACH_HEADER_LEN)
    }

    /// Returns `sizeofcmds`, the size in bytes of all load commands. They follow the header.
    pub fn commands_size(&self) -> u32
        ensures { result ≡ commands_size self.now }
    {
        self.encoding.four(self.file, 0, HEADER_SIZEOFCMDS)
    }

    /// Returns the number of load commands.
    #[tactic(auto, using(crate::proofs::TableLemmas::length_commands))]
    pub fn command_count(&self) -> u32
        ensures value { result ≡ command_count self.now }
        ensures commands { result ≡ length (commands self.now) }
    {
        self.encoding.four(self.file, 0, HEADER_NCMDS)
    }

    /// Returns the number of segments.
    pub fn segment_count(&self) -> u32
        ensures { result ≡ length (segments self.now) }
    {
        self.found.segments
    }

    /// Returns the number of sections in all segments.
    pub fn section_count(&self) -> u32
        ensures { result ≡ length (sections self.now) }
    {
        self.found.sections
    }

    /// Returns a walk over all commands. Together they have fewer than 2^32 sections.
    #[tactic(auto, using(crate::proofs::TableLemmas::sections_small, crate::proofs::WellFormedLemmas::is_well_formed))]
    fn walk(&self) -> Walk<'a>
        ensures file { result.file ≡ self.now }
        ensures rest { result.rest ≡ commands self.now }
        ensures few { length (sections self.now) < 2 ^ 32 }
        ensures well_formed { IsWellFormed self.now }
    {
        Walk::new(self.file, self.encoding)
    }

    /// Returns all load commands, in file order.
    pub fn commands(&self) -> Commands<'a>
        ensures { result ≡ commands self.now }
    {
        Commands { walk: self.walk() }
    }

    /// Returns all segments, in file order. The addresses of each end by 2^64.
    #[tactic(auto, unfolding(crate::specs::Tables::segments))]
    pub fn segments(&self) -> Segments<'a>
        ensures segments { result ≡ segments self.now }
        ensures addresses { All HasAddresses result }
    {
        Segments {
            walk: self.walk(),
            first: 0,
        }
    }

    /// Returns the sections of all segments, in file order. The addresses of each end by 2^64, and its bytes are in
    /// the file.
    #[tactic(auto, unfolding(crate::specs::Tables::sections, crate::specs::Tables::sections_from))]
    pub fn sections(&self) -> Sections<'a>
        ensures sections { result ≡ sections self.now }
        ensures fit { All (Fits self.now) result }
    {
        Sections {
            walk: self.walk(),
            form: self.encoding,
            place: 0,
            left: 0,
        }
    }

    /// Returns the ranges of the link-edit data that load commands locate, in the order of the commands.
    #[tactic(auto, unfolding(crate::specs::LinkEdit::link_edit_parts))]
    pub fn link_edit_parts(&self) -> LinkEditParts<'a>
        ensures { result ≡ link_edit_parts self.now }
    {
        LinkEditParts {
            walk: self.walk(),
            command: None,
            next: 0,
        }
    }

    /// Returns load command `k`.
    #[tactic(auto, using(crate::proofs::TableLemmas::length_commands))]
    pub fn command(&self, k: u32) -> Command
        requires { k < command_count self.now }
        ensures { slice_get (commands self.now) k ≡ Some result }
    {
        command_of(self.walk(), k)
    }

    /// Returns the bytes of load command `k`, including `cmd` and `cmdsize`.
    #[tactic(auto, using(crate::proofs::TableLemmas::length_commands))]
    pub fn command_bytes(&self, k: u32) -> &'a [u8]
        requires { k < command_count self.now }
        ensures { result.now ≡ command_bytes_at self.now k }
    {
        let command = command_of(self.walk(), k);
        let place = command.place as usize;
        &self.file[place..place + command.size as usize]
    }

    /// Returns segment `k`. Its addresses end by 2^64.
    #[tactic(auto, using(crate::proofs::WellFormedLemmas::addresses_at))]
    pub fn segment(&self, k: u32) -> MachoSegment<'a>
        requires { k < length (segments self.now) }
        ensures segment { slice_get (segments self.now) k ≡ Some (segment_shown result) }
        ensures addresses { HasAddresses (segment_shown result) }
    {
        segment_of(self.segments(), k)
    }

    /// Returns section `k`. Sections are numbered from 0 over all segments.
    #[tactic(auto, unfolding(crate::specs::Tables::sections))]
    pub fn section(&self, k: u32) -> MachoSection<'a>
        requires { k < length (sections self.now) }
        ensures { slice_get (sections self.now) k ≡ Some (section_shown result) }
    {
        section_of(self.walk(), k)
    }

    /// Returns the bytes of section `k`, and none if they aren't in the file. Sections are numbered from
    /// 0 over all segments.
    #[tactic(auto, unfolding(crate::specs::Tables::sections, crate::specs::Checks::section_fits))]
    pub fn section_bytes(&self, k: u32) -> &'a [u8]
        requires { k < length (sections self.now) }
        ensures { result.now ≡ section_bytes_at self.now k }
    {
        let section = section_of(self.walk(), k);
        if !section.in_file || section.size == 0 {
            return &[];
        }
        &self.file[section.offset as usize..(section.offset + section.size) as usize]
    }

    // Returns the symbol table of the file. TablePastEnd if the symbols or the string table end after the file.
    fn table(&self) -> Result<FileTable<'a>, BadFile>
        ensures fields { Gives (λ t. t.fields) result (table self.now) }
        ensures file { IfOk result (λ t. t.file.now ≡ self.now) }
    {
        let fields = table_of(self.file, self.encoding, self.found.symtab)?;
        Ok(FileTable {
            file: self.file,
            encoding: self.encoding,
            fields,
        })
    }

    /// Returns the number of symbols in the first LC_SYMTAB, and 0 if there is none. TablePastEnd at the
    /// command if the symbols or the string table end after the file.
    #[tactic(auto, unfolding(crate::specs::Symbols::symbol_count))]
    pub fn symbol_count(&self) -> Result<u32, BadFile>
        ensures { result ≡ symbol_count self.now }
    {
        let table = self.table()?;
        Ok(table.fields.nsyms)
    }

    /// Returns symbol `k`. NameOutside at the symbol if its name has no terminating zero byte in the
    /// string table.
    #[tactic(auto, unfolding(crate::specs::Symbols::symbol_count, crate::specs::Symbols::symbol_at))]
    pub fn symbol(&self, k: u32) -> Result<MachoSymbol<'a>, BadFile>
        requires { IsOkAnd (symbol_count self.now) (λ n. k < n) }
        ensures { Gives symbol_shown result (symbol_at self.now k) }
    {
        let table = self.table()?;
        let symbol = table.symbol(k)?;
        Ok(MachoSymbol::of(symbol))
    }

    /// Returns the spans of symbols, in symbol table order. A symbol takes part if it isn't for a debugger,
    /// is defined in a section that contains its value, and has a name. Its span ends at the next greater
    /// value of the symbols that take part in the same section, or at the end of the section. Of several
    /// symbols of one section with one value, the first has the span. Bad is the fault of the table
    /// (TablePastEnd), or otherwise that of the first symbol with one (NameOutside), whether or not it takes
    /// part.
    pub fn spans(&self, alloc: Global) -> Result<Vec<SymbolSpan<'a>>, SpanAnswer>
        ensures { Reads (λ v. map span_shown v.items) result (spans self.now) }
    {
        let named = self.named_spans(alloc)?;
        let spans = without_offsets(alloc, &named)?;
        Ok(spans)
    }

    /// Returns the spans as `spans` does, each with a file offset at which the text is its name.
    #[tactic(auto, unfolding(crate::specs::Spans::spans))]
    pub fn named_spans(&self, alloc: Global) -> Result<Vec<NamedSpan<'a>>, SpanAnswer>
        ensures spans { Reads (λ v. map named_shown v.items) result (spans self.now) }
        ensures names { IfOk result (λ v. AreNamedSpans self.now v.items) }
    {
        let table = self.table()?;
        let extents = extents_of(alloc, self.sections())?;
        let spans = spans_of_table(alloc, table, &extents)?;
        Ok(spans)
    }
}
