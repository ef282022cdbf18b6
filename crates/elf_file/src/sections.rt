//! The section table.

ghost use Rattle.std.specs.Prelude.{◌≡◌, ◌+◌, ◌≤◌, ◌<◌, ◌^◌, length, IfOk, Ok};
ghost use Rattle.elf_file.specs.Layout.{encoding_of};
ghost use Rattle.elf_file.specs.Tables.{section_at, section_bytes, section_count};
ghost use Rattle.elf_file.specs.ElfChecks.{checked, header_checks, section_table_checks, section_fits};
ghost use Rattle.elf_file.specs.Known.{HasHeader, HasSection, HasSections, sections_fit};

use crate::constants::{SHF_ALLOC, SHT_NOBITS, SHT_NULL};
use crate::layout::{
    E_SHENTSIZE, E_SHNUM, E_SHOFF, HEADER_LEN, SECTION_LEN, SH_ADDR, SH_FLAGS, SH_INFO, SH_LINK,
    SH_OFFSET, SH_SIZE, SH_TYPE,
};
use crate::section::SectionHeader;
use byte_cursor::{Encoding, Order};
use size_core::{BadFile, Fault};

/// Returns the class and the byte order. Truncated at 0 if the file header isn't complete, and BadHeader at the byte
/// of an unknown class or byte order.
#[tactic(auto, unfolding(crate::specs::ElfChecks::header_checks, crate::specs::Layout::encoding_of))]
pub fn encoding(file: &[u8]) -> Result<Encoding, BadFile>
    requires { length file.now < 2 ^ 32 }
    ensures value { result ≡ checked (header_checks file.now) (encoding_of file.now) }
    ensures known { IfOk result (λ e. HasHeader file.now e) }
{
    let truncated = BadFile {
        fault: Fault::Truncated,
        offset: 0,
    };
    if file.len() < 16 {
        return Err(truncated);
    }
    let wide = match file[4] {
        1 => false,
        2 => true,
        _ => return Err(BadFile {
            fault: Fault::BadHeader,
            offset: 4,
        }),
    };
    let order = match file[5] {
        1 => Order::Little,
        2 => Order::Big,
        _ => return Err(BadFile {
            fault: Fault::BadHeader,
            offset: 5,
        }),
    };
    let encoding = Encoding { wide, order };
    if (file.len() as u64) < encoding.pick(HEADER_LEN) {
        return Err(truncated);
    }
    Ok(encoding)
}

/// Returns the number of sections. BadHeader at `e_shentsize` if it is wrong, and TablePastEnd at the section table
/// if the table doesn't lie in the file.
#[tactic(auto, unfolding(crate::specs::ElfChecks::section_table_checks, crate::specs::Tables::section_count))]
pub fn section_table(file: &[u8], encoding: Encoding) -> Result<u32, BadFile>
    requires { HasHeader file.now encoding }
    ensures value { result ≡ checked (section_table_checks file.now) (section_count file.now) }
    ensures known { IfOk result (λ n. HasSections file.now encoding n) }
{
    let table = encoding.word(file, 0, E_SHOFF);
    if table == 0 {
        return Ok(0);
    }
    let len = encoding.pick(SECTION_LEN);
    if u64::from(encoding.half(file, 0, E_SHENTSIZE)) != len {
        return Err(BadFile {
            fault: Fault::BadHeader,
            offset: encoding.pick(E_SHENTSIZE),
        });
    }
    let past_end = BadFile {
        fault: Fault::TablePastEnd,
        offset: table,
    };
    let size = file.len() as u64;
    if size < table {
        return Err(past_end);
    }
    let room = size - table;
    let mut count = u64::from(encoding.half(file, 0, E_SHNUM));
    if count == 0 {
        if room < len {
            return Err(past_end);
        }
        count = section_header(file, encoding, 0).size;
    }
    if room / len < count {
        return Err(past_end);
    }
    Ok(count as u32)
}

/// Returns the header of section `i`, which lies in the file.
#[tactic(auto, unfolding(crate::specs::Tables::section_at))]
pub fn section_header(file: &[u8], encoding: Encoding, i: u32) -> SectionHeader
    requires header { HasHeader file.now encoding }
    requires within { HasSection file.now i }
    ensures { result ≡ section_at file.now i }
{
    let place = encoding.word(file, 0, E_SHOFF) + i as u64 * encoding.pick(SECTION_LEN);
    SectionHeader {
        place,
        kind: encoding.four(file, place, SH_TYPE),
        flags: encoding.word(file, place, SH_FLAGS),
        addr: encoding.word(file, place, SH_ADDR),
        offset: encoding.word(file, place, SH_OFFSET),
        size: encoding.word(file, place, SH_SIZE),
        link: encoding.four(file, place, SH_LINK),
        info: encoding.four(file, place, SH_INFO),
    }
}

/// Checks that the bytes of section `i` lie in the file (SectionPastEnd), and that its addresses end by 2^64 if it is
/// allocated (RangeOverflow). A fault is at the section header.
#[tactic(auto, unfolding(crate::specs::ElfChecks::section_fits))]
fn section_fits(file: &[u8], encoding: Encoding, sections: u32, i: u32) -> Result<(), BadFile>
    requires table { HasSections file.now encoding sections }
    requires index { i < sections }
    ensures { result ≡ section_fits file.now i }
{
    let section = section_header(file, encoding, i);
    if i == 0 || section.kind == SHT_NULL {
        return Ok(());
    }
    let len = file.len() as u64;
    let missing = section.offset > len || len - section.offset < section.size;
    if section.kind != SHT_NOBITS && section.size != 0 && missing {
        return Err(BadFile {
            fault: Fault::SectionPastEnd,
            offset: section.place,
        });
    }
    if section.flags & SHF_ALLOC != 0 && section.addr as u128 + section.size as u128 > 1 << 64 {
        return Err(BadFile {
            fault: Fault::RangeOverflow,
            offset: section.place,
        });
    }
    Ok(())
}

/// Checks the bytes and addresses of each section, in order.
#[tactic(auto, using(size_core::proofs::Each::each_next, size_core::proofs::Each::each_bad, size_core::proofs::Each::each_end))]
pub fn sections_fit(file: &[u8], encoding: Encoding, sections: u32) -> Result<(), BadFile>
    requires { HasSections file.now encoding sections }
    ensures { result ≡ sections_fit file.now }
{
    for i in 1..sections {
        section_fits(file, encoding, sections, i)?;
    }
    Ok(())
}

/// Returns the bytes of section `i`, which passed its check.
#[tactic(auto, unfolding(crate::specs::Tables::section_bytes, crate::specs::ElfChecks::section_fits))]
pub fn section_bytes<'a>(file: &'a [u8], encoding: Encoding, sections: u32, i: u32) -> &'a [u8]
    requires table { HasSections file.now encoding sections }
    requires index { i < sections }
    requires fits { 0 < i → section_fits file.now i ≡ Ok tt }
    ensures { result.now ≡ section_bytes file.now i }
{
    let section = section_header(file, encoding, i);
    let empty = section.kind == SHT_NOBITS || section.size == 0;
    if i == 0 || section.kind == SHT_NULL || empty {
        return &[];
    }
    &file[section.offset as usize..(section.offset + section.size) as usize]
}
