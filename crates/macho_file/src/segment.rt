//! Segments.

ghost use Rattle.std.specs.Prelude.{◌≡◌, ◌+◌, ◌≤◌, ◌<◌, ◌^◌, length};
ghost use Rattle.macho_records.specs.Layout.{encoding_of};
ghost use Rattle.macho_file.specs.Commands.{form_of, section_count_of, segment_len};
ghost use Rattle.macho_file.specs.Tables.{segment_at};
ghost use Rattle.macho_file.specs.Shown.{segment_shown};

use crate::command::Command;
use byte_cursor::Encoding;
use macho_records::{
    SEGMENT_FILEOFF, SEGMENT_FILESIZE, SEGMENT_MAXPROT, SEGMENT_NSECTS, SEGMENT_SEGNAME,
    SEGMENT_VMADDR, SEGMENT_VMSIZE, name_16,
};

/// A segment (`segment_command`, `segment_command_64`).
#[derive(Clone, Copy, Debug)]
pub struct MachoSegment<'a> {
    /// The file offset of its command.
    pub place: u64,
    /// `segname`, its name, without trailing zeros.
    pub name: &'a [u8],
    /// `vmaddr`, its virtual address.
    pub vaddr: u64,
    /// `vmsize`, how many bytes it has in memory.
    pub memsz: u64,
    /// `fileoff`, the file offset of its bytes.
    pub offset: u64,
    /// `filesize`, how many bytes it has in the file.
    pub filesz: u64,
    /// `maxprot`, the maximum protection of its memory, 0 if it can't be accessed.
    pub maxprot: u32,
    /// The number of its first section. Sections are numbered over all segments.
    pub first: u32,
    /// `nsects`, the number of its sections.
    pub count: u32,
}

/// Returns the number of sections of a segment command.
#[tactic(auto, unfolding(crate::specs::Commands::section_count_of))]
pub fn section_count_of(file: &[u8], encoding: Encoding, command: Command) -> u32
    requires encoding { encoding ≡ encoding_of file.now }
    requires within { command.place + segment_len (form_of encoding command) ≤ length file.now }
    requires small { length file.now < 2 ^ 32 }
    ensures { result ≡ section_count_of file.now command }
{
    let form = command.form(encoding);
    form.four(file, command.place, SEGMENT_NSECTS)
}

/// Returns the segment of a command. Its sections are numbered from `first` on.
#[tactic(auto, unfolding(crate::specs::Tables::segment_at))]
pub fn segment_at<'a>(
    file: &'a [u8],
    encoding: Encoding,
    command: Command,
    first: u32,
) -> MachoSegment<'a>
    requires encoding { encoding ≡ encoding_of file.now }
    requires within { command.place + segment_len (form_of encoding command) ≤ length file.now }
    requires small { length file.now < 2 ^ 32 }
    ensures value { segment_shown result ≡ segment_at file.now command first }
    ensures count { result.count ≡ section_count_of file.now command }
{
    let form = command.form(encoding);
    let place = command.place;
    MachoSegment {
        place,
        name: name_16(file, place + form.pick(SEGMENT_SEGNAME)),
        vaddr: form.word(file, place, SEGMENT_VMADDR),
        memsz: form.word(file, place, SEGMENT_VMSIZE),
        offset: form.word(file, place, SEGMENT_FILEOFF),
        filesz: form.word(file, place, SEGMENT_FILESIZE),
        maxprot: form.four(file, place, SEGMENT_MAXPROT),
        first,
        count: section_count_of(file, encoding, command),
    }
}
