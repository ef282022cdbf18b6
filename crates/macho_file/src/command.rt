//! Load commands.

ghost use Rattle.std.specs.Prelude.{◌≡◌, ◌+◌, ◌≤◌, ◌<◌, ◌^◌, length};
ghost use Rattle.macho_records.specs.Layout.{encoding_of};
ghost use Rattle.macho_file.specs.Commands.{command_at, is_segment, form_of};

use byte_cursor::Encoding;
use macho_records::{COMMAND_CMD, COMMAND_CMDSIZE, LC_SEGMENT, LC_SEGMENT_64, LOAD_COMMAND_LEN};

/// A load command (`load_command`).
#[derive(Clone, Copy, Debug, PartialEq, Eq, Hash)]
pub struct Command {
    /// Its file offset.
    pub place: u64,
    /// `cmd`.
    pub kind: u32,
    /// `cmdsize`, in bytes, including `cmd` and `cmdsize`.
    pub size: u32,
}

/// Returns the command at file offset `place`, whose `cmd` and `cmdsize` lie in the file.
#[tactic(auto, unfolding(crate::specs::Commands::command_at))]
pub fn command_at(file: &[u8], encoding: Encoding, place: u64) -> Command
    requires encoding { encoding ≡ encoding_of file.now }
    requires within { place + LOAD_COMMAND_LEN ≤ length file.now }
    requires small { length file.now < 2 ^ 32 }
    ensures { result ≡ command_at file.now place }
{
    Command {
        place,
        kind: encoding.four(file, place, COMMAND_CMD),
        size: encoding.four(file, place, COMMAND_CMDSIZE),
    }
}

impl Command {
    /// Returns whether it is a segment of either class.
    pub fn is_segment(self) -> bool
        ensures { result ≡ is_segment self }
    {
        self.kind == LC_SEGMENT || self.kind == LC_SEGMENT_64
    }

    /// Returns the class of a segment command, which its sections share, and the byte order of the file.
    pub fn form(self, encoding: Encoding) -> Encoding
        ensures { result ≡ form_of encoding self }
    {
        Encoding {
            wide: self.kind == LC_SEGMENT_64,
            order: encoding.order,
        }
    }
}
