//! An opened ELF file.

ghost use Rattle.std.specs.Prelude.{◌≡◌, ◌<◌, ◌^◌, length, MatchResult, OnOk};
ghost use Rattle.size_core.specs.Checks.{AllHold, IsFirstFault};
ghost use Rattle.elf_file.specs.Layout.{encoding_of};
ghost use Rattle.elf_file.specs.Tables.{header_of, section_at, section_bytes, section_count, segment_at, segment_bytes, segment_count};
ghost use Rattle.elf_file.specs.Names.{name_of, section_named};
ghost use Rattle.elf_file.specs.ElfChecks.{elf_checks, opened};
ghost use Rattle.elf_file.specs.WellFormed.{IsWellFormed};
ghost use Rattle.elf_file.specs.Shown.{numbers};

use crate::constants::SHT_NULL;
use crate::header::ElfHeader;
use crate::layout::{E_MACHINE, E_PHOFF, E_SHOFF, E_TYPE};
use crate::names::{NameTable, name_of, name_table, names_of, sections_have_names};
use crate::section::Section;
use crate::sections::{encoding, section_bytes, section_header, section_table, sections_fit};
use crate::segment::Segment;
use crate::segments::{segment_bytes, segment_of_table, segment_table, segments_fit};
use byte_cursor::Encoding;
use size_core::BadFile;
use std::marker::Model;

/// An ELF file that passed all checks.
#[derive(Drop)]
pub struct ElfFile<'a> {
    file: &'a [u8],
    encoding: Encoding,
    sections: u32,
    segments: u32,
    names: NameTable<'a>,
}

impl<'a> Model for ElfFile<'a> {
    ghost use Rattle.std.specs.Prelude.{ℕ, List};
    ghost use Rattle.elf_file.specs.Known.{IsOpened};

    ghost Value = { List ℕ };

    ghost view = { λ e. e.file.now };

    ghost invariant = { λ e.
        IsOpened e.file.now e.encoding e.sections e.segments e.names.index e.names.bytes.now };
}

impl<'a> ElfFile<'a> {
    /// Opens a file of fewer than 2^32 bytes. The checks come in this order, and the first fault is
    /// returned: the file header (Truncated, BadHeader), the section table and then the segment table
    /// (BadHeader, TablePastEnd), the section name table (BadIndex), the bytes of each section, and its
    /// addresses if it is allocated (SectionPastEnd, RangeOverflow), the name of each section (NameOutside),
    /// and the addresses of each load (RangeOverflow). A fault has the file offset of the wrong field, of the
    /// table, or of the header of the wrong section or segment. Truncated is at offset 0.
    #[tactic(auto, using(crate::proofs::OpenedLemmas::opened_is, crate::proofs::OpenedLemmas::means_opened, crate::proofs::OpenedLemmas::is_well_formed))]
    pub fn parse(file: &'a [u8]) -> Result<ElfFile<'a>, BadFile>
        requires { length file.now < 2 ^ 32 }
        ensures file { result ≡ opened file.now }
        ensures first { MatchResult result
            (λ _. AllHold (elf_checks file.now))
            (IsFirstFault (elf_checks file.now)) }
        ensures well_formed { OnOk result (IsWellFormed file.now) }
    {
        let encoding = encoding(file)?;
        let sections = section_table(file, encoding)?;
        let segments = segment_table(file, encoding, sections)?;
        let index = name_table(file, encoding, sections)?;
        sections_fit(file, encoding, sections)?;
        let bytes = names_of(file, encoding, sections, index);
        let names = NameTable { index, bytes };
        sections_have_names(file, encoding, sections, names)?;
        segments_fit(file, encoding, segments)?;
        Ok(ElfFile {
            file,
            encoding,
            sections,
            segments,
            names,
        })
    }

    /// Returns the class and the byte order of the file.
    pub fn encoding(&self) -> Encoding
        ensures { result ≡ encoding_of self.now }
    {
        self.encoding
    }

    /// Returns the bytes of the whole file.
    #[tactic(auto, using(crate::proofs::OpenedLemmas::is_well_formed))]
    pub fn bytes(&self) -> &'a [u8]
        ensures value { result.now ≡ self.now }
        ensures small { length self.now < 2 ^ 32 }
        ensures well_formed { IsWellFormed self.now }
    {
        self.file
    }

    /// Returns the fields of the file header, with the numbers of sections and segments.
    #[tactic(auto, unfolding(crate::specs::Tables::header_of))]
    pub fn header(&self) -> ElfHeader
        ensures value { result ≡ header_of self.now }
        ensures wide { result.wide ≡ (encoding_of self.now).wide }
        ensures order { result.order ≡ (encoding_of self.now).order }
        ensures sections { result.sections ≡ section_count self.now }
        ensures segments { result.segments ≡ segment_count self.now }
    {
        let encoding = self.encoding;
        ElfHeader {
            wide: encoding.wide,
            order: encoding.order,
            kind: encoding.half(self.file, 0, E_TYPE),
            machine: encoding.half(self.file, 0, E_MACHINE),
            phoff: encoding.word(self.file, 0, E_PHOFF),
            shoff: encoding.word(self.file, 0, E_SHOFF),
            segments: self.segments,
            sections: self.sections,
        }
    }

    /// Returns section `i` (ELF gABI, Section Header).
    pub fn section(&self, i: u32) -> Section<'a>
        requires { i < section_count self.now }
        ensures numbers { numbers result ≡ section_at self.now i }
        ensures name { result.name.now ≡ name_of self.now i }
    {
        let header = section_header(self.file, self.encoding, i);
        let name = name_of(self.file, self.encoding, self.names, i, header.kind);
        Section {
            place: header.place,
            name,
            kind: header.kind,
            flags: header.flags,
            addr: header.addr,
            offset: header.offset,
            size: header.size,
            link: header.link,
            info: header.info,
        }
    }

    /// Returns segment `i` (ELF gABI, Program Header).
    pub fn segment(&self, i: u32) -> Segment
        requires { i < segment_count self.now }
        ensures value { result ≡ segment_at self.now i }
        ensures well_formed { IsWellFormed self.now }
    {
        segment_of_table(self.file, self.encoding, self.segments, i)
    }

    /// Returns the bytes of section `i`. Section 0 and sections of type SHT_NULL and SHT_NOBITS have none.
    #[tactic(auto, using(crate::proofs::KnownLemmas::fits_at))]
    pub fn section_bytes(&self, i: u32) -> &'a [u8]
        requires { i < section_count self.now }
        ensures { result.now ≡ section_bytes self.now i }
    {
        section_bytes(self.file, self.encoding, self.sections, i)
    }

    /// Returns the bytes of segment `i`: `p_filesz` bytes from `p_offset` on, cut at the end of the file.
    pub fn segment_bytes(&self, i: u32) -> &'a [u8]
        requires { i < segment_count self.now }
        ensures { result.now ≡ segment_bytes self.now i }
    {
        segment_bytes(self.file, self.encoding, self.segments, i)
    }

    /// Returns the number of the first section with this name. Section 0 and sections of type SHT_NULL
    /// don't count. `None` if no other section has the name.
    #[tactic(auto, using(size_core::proofs::Gathered::first_next, size_core::proofs::Gathered::first_here, size_core::proofs::Gathered::first_end))]
    pub fn find(&self, name: &[u8]) -> Option<u32>
        ensures { result ≡ section_named self.now name.now }
    {
        for i in 1..self.sections {
            let section = self.section(i);
            if section.kind != SHT_NULL && section.name == name {
                return Some(i);
            }
        }
        None
    }
}
