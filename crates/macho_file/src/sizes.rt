//! The minimum sizes of load commands.

ghost use Rattle.std.specs.Prelude.{◌≡◌, ◌+◌, ◌≤◌, ◌<◌, ◌^◌, length, nat_le};
ghost use Rattle.macho_records.specs.Layout.{encoding_of};
ghost use Rattle.macho_file.specs.Commands.{least_size};

use crate::command::Command;
use crate::segment::section_count_of;
use byte_cursor::Encoding;
use macho_records::{SECTION_LEN, SEGMENT_COMMAND_LEN, least_by_kind};

/// Returns whether a command that lies in the file has at least the minimum size of its kind.
#[tactic(auto, unfolding(crate::specs::Commands::least_size))]
pub fn has_least_size(file: &[u8], encoding: Encoding, command: Command) -> bool
    requires encoding { encoding ≡ encoding_of file.now }
    requires within { command.place + command.size ≤ length file.now }
    requires small { length file.now < 2 ^ 32 }
    ensures { result ≡ nat_le (least_size file.now command) command.size }
{
    let size = command.size as u64;
    if !command.is_segment() {
        return least_by_kind(command.kind) <= size;
    }
    let form = command.form(encoding);
    let len = form.pick(SEGMENT_COMMAND_LEN);
    if size < len {
        return false;
    }
    let count = section_count_of(file, encoding, command) as u64;
    len + count * form.pick(SECTION_LEN) <= size
}
