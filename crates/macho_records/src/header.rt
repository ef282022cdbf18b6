//! The class and the byte order of a file, and the checks of its header.

ghost use Rattle.std.specs.Prelude.{◌≡◌, ◌<◌, ◌^◌, length, IfOk};
ghost use Rattle.macho_records.specs.Layout.{encoding_of};
ghost use Rattle.macho_records.specs.Header.{HasHeader, checked, header_checks};

use crate::constants::{MH_MAGIC, MH_MAGIC_64};
use crate::layout::{HEADER_SIZEOFCMDS, MACH_HEADER_LEN};
use byte_cursor::{Encoding, Order, u32_at};
use size_core::{BadFile, Fault};

/// Returns the class and the byte order of a file of fewer than 2^32 bytes. The checks come in this order, and the
/// first fault is returned: the magic number of a thin file (UnknownFormat at 0, also for fewer than four bytes), the
/// header (Truncated at 0), and the end of the load commands (TablePastEnd at the end of the header).
#[tactic(auto, unfolding(crate::specs::Header::header_checks, crate::specs::Layout::encoding_of, crate::specs::Layout::has_magic))]
pub fn encoding(file: &[u8]) -> Result<Encoding, BadFile>
    requires { length file.now < 2 ^ 32 }
    ensures value { result ≡ checked (header_checks file.now) (encoding_of file.now) }
    ensures known { IfOk result (λ e. HasHeader file.now e) }
{
    let unknown = BadFile {
        fault: Fault::UnknownFormat,
        offset: 0,
    };
    if file.len() < 4 {
        return Err(unknown);
    }
    let little = u32_at(file, 0, Order::Little);
    let big = u32_at(file, 0, Order::Big);
    let is_little = little == MH_MAGIC || little == MH_MAGIC_64;
    let is_big = big == MH_MAGIC || big == MH_MAGIC_64;
    if !is_little && !is_big {
        return Err(unknown);
    }
    let encoding = Encoding {
        wide: little == MH_MAGIC_64 || big == MH_MAGIC_64,
        order: if is_big { Order::Big } else { Order::Little },
    };
    let size = file.len() as u64;
    let header = encoding.pick(MACH_HEADER_LEN);
    if size < header {
        return Err(BadFile {
            fault: Fault::Truncated,
            offset: 0,
        });
    }
    if size - header < encoding.four(file, 0, HEADER_SIZEOFCMDS) as u64 {
        return Err(BadFile {
            fault: Fault::TablePastEnd,
            offset: header,
        });
    }
    Ok(encoding)
}
