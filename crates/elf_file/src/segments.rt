//! The segment table.

ghost use Rattle.std.specs.Prelude.{◌≡◌, ◌+◌, ◌≤◌, ◌<◌, ◌^◌, length, IfOk};
ghost use Rattle.elf_file.specs.Tables.{segment_at, segment_bytes, segment_count};
ghost use Rattle.elf_file.specs.ElfChecks.{checked, segment_table_checks, segment_fits};
ghost use Rattle.elf_file.specs.Known.{HasSections, HasSegment, HasSegments, segments_fit};

use crate::constants::{PN_XNUM, PT_LOAD};
use crate::layout::{
    E_PHENTSIZE, E_PHNUM, E_PHOFF, P_FILESZ, P_FLAGS, P_MEMSZ, P_OFFSET, P_TYPE, P_VADDR,
    SEGMENT_LEN,
};
use crate::sections::section_header;
use crate::segment::Segment;
use byte_cursor::Encoding;
use size_core::{BadFile, Fault};

/// Returns the number of segments, from the file header or from section 0.
#[tactic(auto, unfolding(crate::specs::Tables::segment_count))]
fn segment_count(file: &[u8], encoding: Encoding, sections: u32) -> u32
    requires { HasSections file.now encoding sections }
    ensures { result ≡ segment_count file.now }
{
    let count = encoding.half(file, 0, E_PHNUM);
    if count == PN_XNUM && sections > 0 {
        section_header(file, encoding, 0).info
    } else {
        count as u32
    }
}

/// Returns the number of segments. BadHeader at `e_phentsize` if it is wrong, and TablePastEnd at the segment table
/// if the table doesn't lie in the file.
#[tactic(auto, unfolding(crate::specs::ElfChecks::segment_table_checks))]
pub fn segment_table(file: &[u8], encoding: Encoding, sections: u32) -> Result<u32, BadFile>
    requires { HasSections file.now encoding sections }
    ensures value { result ≡ checked (segment_table_checks file.now) (segment_count file.now) }
    ensures known { IfOk result (λ n. HasSegments file.now encoding n) }
{
    let count = segment_count(file, encoding, sections);
    if count == 0 {
        return Ok(0);
    }
    let len = encoding.pick(SEGMENT_LEN);
    if u64::from(encoding.half(file, 0, E_PHENTSIZE)) != len {
        return Err(BadFile {
            fault: Fault::BadHeader,
            offset: encoding.pick(E_PHENTSIZE),
        });
    }
    let table = encoding.word(file, 0, E_PHOFF);
    let size = file.len() as u64;
    if table > size || (size - table) / len < count as u64 {
        return Err(BadFile {
            fault: Fault::TablePastEnd,
            offset: table,
        });
    }
    Ok(count)
}

/// Returns segment `i` of a segment table that lies in the file.
#[tactic(auto, unfolding(crate::specs::Tables::segment_at))]
pub fn segment_of_table(file: &[u8], encoding: Encoding, segments: u32, i: u32) -> Segment
    requires table { HasSegments file.now encoding segments }
    requires index { i < segments }
    ensures value { result ≡ segment_at file.now i }
    ensures within { HasSegment file.now i }
{
    let place = encoding.word(file, 0, E_PHOFF) + i as u64 * encoding.pick(SEGMENT_LEN);
    Segment {
        place,
        kind: encoding.four(file, place, P_TYPE),
        flags: encoding.four(file, place, P_FLAGS),
        offset: encoding.word(file, place, P_OFFSET),
        vaddr: encoding.word(file, place, P_VADDR),
        filesz: encoding.word(file, place, P_FILESZ),
        memsz: encoding.word(file, place, P_MEMSZ),
    }
}

/// Returns the bytes of segment `i` of a segment table that lies in the file, cut at the end of the file.
#[tactic(auto, unfolding(crate::specs::Tables::segment_bytes))]
pub fn segment_bytes<'a>(file: &'a [u8], encoding: Encoding, segments: u32, i: u32) -> &'a [u8]
    requires table { HasSegments file.now encoding segments }
    requires index { i < segments }
    ensures { result.now ≡ segment_bytes file.now i }
{
    let segment = segment_of_table(file, encoding, segments, i);
    let len = file.len() as u64;
    let start = segment.offset.min(len);
    let size = segment.filesz.min(len - start);
    &file[start as usize..(start + size) as usize]
}

/// Checks that the addresses of segment `i` end by 2^64, if it is loaded. RangeOverflow at its program header if they
/// don't.
#[tactic(auto, unfolding(crate::specs::ElfChecks::segment_fits))]
fn segment_fits(file: &[u8], encoding: Encoding, segments: u32, i: u32) -> Result<(), BadFile>
    requires table { HasSegments file.now encoding segments }
    requires index { i < segments }
    ensures { result ≡ segment_fits file.now i }
{
    let segment = segment_of_table(file, encoding, segments, i);
    if segment.kind == PT_LOAD && segment.vaddr as u128 + segment.memsz as u128 > 1 << 64 {
        return Err(BadFile {
            fault: Fault::RangeOverflow,
            offset: segment.place,
        });
    }
    Ok(())
}

/// Checks the addresses of each loaded segment.
#[tactic(auto, using(size_core::proofs::Each::each_next, size_core::proofs::Each::each_bad, size_core::proofs::Each::each_end))]
pub fn segments_fit(file: &[u8], encoding: Encoding, segments: u32) -> Result<(), BadFile>
    requires { HasSegments file.now encoding segments }
    ensures { result ≡ segments_fit file.now }
{
    for i in 0..segments {
        segment_fits(file, encoding, segments, i)?;
    }
    Ok(())
}
