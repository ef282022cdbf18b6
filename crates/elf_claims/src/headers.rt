//! The claims of the ELF header and of the two tables that it points to (ELF gABI, ELF Header).

ghost use Rattle.std.specs.Prelude.{◌≡◌};
ghost use Rattle.claim_sheet.specs.Adds.{Adds};
ghost use Rattle.elf_claims.specs.Claims.{header_claims, section_table_reach, segment_table_reach};

use claim_sheet::{ClaimSheet, Reach, Wrap, span};
use elf_file::{ElfFile, HEADER_LEN, SECTION_LEN, SEGMENT_LEN};
use size_core::NoMemory;

#[tactic(auto, unfolding(elf_file::specs::Tables::header_of))]
fn segment_table_reach(file: &ElfFile<'_>) -> Reach
    ensures { result ≡ segment_table_reach file.now }
{
    let header = file.header();
    let len = u64::from(header.segments) * file.encoding().pick(SEGMENT_LEN);
    Reach::in_file(span(0, header.phoff, len))
}

#[tactic(auto, unfolding(elf_file::specs::Tables::header_of))]
fn section_table_reach(file: &ElfFile<'_>) -> Reach
    ensures { result ≡ section_table_reach file.now }
{
    let header = file.header();
    let len = u64::from(header.sections) * file.encoding().pick(SECTION_LEN);
    Reach::in_file(span(0, header.shoff, len))
}

/// Adds the claims of the ELF header, the program header table and the section header table.
#[tactic(auto, using(claim_sheet::proofs::SheetLemmas::adding_three), unfolding(crate::specs::Claims::header_claims))]
pub fn add_headers(file: &ElfFile<'_>, sheet: &mut ClaimSheet) -> Result<(), NoMemory>
    ensures { Adds result sheet.old sheet.new (header_claims file.now) }
{
    let header = span(0, 0, file.encoding().pick(HEADER_LEN));
    sheet.add(Reach::in_file(header), Wrap::Plain, b"[ELF Header]")?;
    sheet.add(
        segment_table_reach(file),
        Wrap::Plain,
        b"[ELF Program Headers]",
    )?;
    sheet.add(
        section_table_reach(file),
        Wrap::Plain,
        b"[ELF Section Headers]",
    )
}
