//! The names of segments and sections.

ghost use Rattle.std.specs.Prelude.{◌≡◌, ◌+◌, ◌≤◌, ◌<◌, ◌^◌, length};
ghost use Rattle.macho_records.specs.Layout.{name_16};

use byte_cursor::text_at;

/// Returns the name in the 16 bytes at file offset `at`. A name of 16 bytes has no terminating zero byte
/// (`segname`, `sectname`).
#[tactic(auto, unfolding(crate::specs::Layout::name_16))]
pub fn name_16(file: &[u8], at: u64) -> &[u8]
    requires within { at + 16 ≤ length file.now }
    requires small { length file.now < 2 ^ 32 }
    ensures { result.now ≡ name_16 file.now at }
{
    let bytes = &file[at as usize..at as usize + 16];
    match text_at(bytes, 0) {
        Some(name) => name,
        None => bytes,
    }
}
