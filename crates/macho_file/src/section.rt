//! Sections.

ghost use Rattle.std.specs.Prelude.{◌≡◌, ◌+◌, ◌≤◌, ◌<◌, ◌^◌, length};
ghost use Rattle.macho_records.specs.Layout.{encoding_of, header_len};
ghost use Rattle.macho_file.specs.Commands.{section_len};
ghost use Rattle.macho_file.specs.Tables.{is_in_file, section_at};
ghost use Rattle.macho_file.specs.Shown.{section_shown};

use byte_cursor::Encoding;
use macho_records::{
    HEADER_FILETYPE, MH_DSYM, SECTION_ADDR, SECTION_FLAGS, SECTION_OFFSET, SECTION_SECTNAME,
    SECTION_SEGNAME, SECTION_SIZE, is_zero_filled, name_16,
};

/// A section (`section`, `section_64`).
#[derive(Clone, Copy, Debug)]
pub struct MachoSection<'a> {
    /// The file offset of its header.
    pub place: u64,
    /// `segname`, the name of its segment, without trailing zeros.
    pub segment: &'a [u8],
    /// `sectname`, its name, without trailing zeros.
    pub name: &'a [u8],
    /// `addr`, its virtual address.
    pub addr: u64,
    /// `size`, in bytes.
    pub size: u64,
    /// `offset`, the file offset of its bytes.
    pub offset: u64,
    /// `flags`, with the section type in the low byte.
    pub flags: u32,
    /// Whether its bytes are in this file.
    pub in_file: bool,
}

/// Returns whether the bytes of a section are in the file.
#[tactic(auto, unfolding(crate::specs::Tables::is_in_file))]
fn is_in_file(file: &[u8], encoding: Encoding, segment: &[u8], offset: u32, flags: u32) -> bool
    requires encoding { encoding ≡ encoding_of file.now }
    requires header { header_len file.now ≤ length file.now }
    ensures { result ≡ is_in_file file.now segment.now offset flags }
{
    if is_zero_filled(flags) || offset == 0 {
        return false;
    }
    encoding.four(file, 0, HEADER_FILETYPE) != MH_DSYM || segment == b"__DWARF".as_slice()
}

/// Returns the section whose header is at file offset `place`.
#[tactic(auto, unfolding(crate::specs::Tables::section_at))]
pub fn section_at<'a>(
    file: &'a [u8],
    encoding: Encoding,
    form: Encoding,
    place: u64,
) -> MachoSection<'a>
    requires encoding { encoding ≡ encoding_of file.now }
    requires header { header_len file.now ≤ length file.now }
    requires within { place + section_len form ≤ length file.now }
    requires small { length file.now < 2 ^ 32 }
    ensures { section_shown result ≡ section_at file.now form place }
{
    let segment = name_16(file, place + form.pick(SECTION_SEGNAME));
    let offset = form.four(file, place, SECTION_OFFSET);
    let flags = form.four(file, place, SECTION_FLAGS);
    MachoSection {
        place,
        segment,
        name: name_16(file, place + form.pick(SECTION_SECTNAME)),
        addr: form.word(file, place, SECTION_ADDR),
        size: form.word(file, place, SECTION_SIZE),
        offset: offset as u64,
        flags,
        in_file: is_in_file(file, encoding, segment, offset, flags),
    }
}
