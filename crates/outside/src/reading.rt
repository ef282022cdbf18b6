//! Reads a file in turns. A turn is one call of `read` on an open file.

ghost use Rattle.std.specs.Prelude.{◌≡◌, ◌≢◌, ◌≤◌, ◌<◌, ◌+◌, ◌++◌, ◌∷◌, [], IfErr, IfOk, OnOk, OnErr, length, take, drop, vec_len};
ghost use Rattle.std.specs.Io.KnownBytes.{Consumes, IsAtEnd, Keeps};
ghost use Rattle.std.specs.IoError.{error_kind};
ghost use Rattle.std.specs.declared.io.ErrorKind.TheVariants.{OutOfMemory};
ghost use Rattle.outside.specs.Causes.{raised};
ghost use Rattle.outside.specs.Turns.{Took, turn_most};

use crate::turns::TurnReader;
use std::alloc::{AllocError, Global};
use std::io;
use std::io::Read;

// The most bytes that one turn takes.
const CHUNK: u64 = 1 << 18;

/// Reads all that a reader has left, up to `most` bytes. Returns the bytes, with the error that ended the
/// reading: that of a turn, which counts as failed, or out of memory. Each turn but the last takes at least
/// one byte, and none takes more than 2^18.
pub fn take_up_to<F: Read + Drop>(
    alloc: Global,
    file: &mut TurnReader<F>,
    most: u64,
) -> (Vec<u8>, io::Result<()>)
    ensures within { length result.0.items ≤ most }
    ensures taken { Consumes (F.remaining file.old.file) (F.remaining file.new.file)
        result.0.items }
    ensures all { OnOk result.1
        (length result.0.items < most → IsAtEnd (F.remaining file.new.file)) }
    ensures turns { Took file.old.turns file.new.turns result.0.items }
    ensures failed { IfErr result.1 (λ e. error_kind e ≢ OutOfMemory
        → file.new.failures ≡ raised file.old.failures) }
    ensures unfailed { OnOk result.1 (file.new.failures ≡ file.old.failures) }
{
    let mut bytes = Vec::new(alloc);
    let mut filled = 0;
    while (filled as u64) < most {
        match read_more(file, &mut bytes, filled, CHUNK.min(most - filled as u64)) {
            Ok(0) => break,
            Ok(count) => filled += count,
            Err(e) => {
                bytes.truncate(filled);
                return (bytes, Err(e));
            }
        }
    }
    bytes.truncate(filled);
    (bytes, Ok(()))
}

// Reads at most `most` bytes into a vector, after its first `filled` bytes. If the vector is full, it
// first grows by zeros. Zeros that an earlier read didn't fill are used again.
fn read_more<F: Read + Drop>(
    file: &mut TurnReader<F>,
    bytes: &mut Vec<u8>,
    filled: usize,
    most: u64,
) -> io::Result<usize>
    requires filled { filled ≤ vec_len bytes.old }
    requires some { 0 < most }
    requires chunk { most ≤ turn_most }
    requires room { vec_len bytes.old ≤ filled + most }
    ensures room { vec_len bytes.new ≤ filled + most }
    ensures front { take filled bytes.new.items ≡ take filled bytes.old.items }
    ensures fits { IfOk result (λ n. filled + n ≤ vec_len bytes.new) }
    ensures ok { IfOk result (λ n. Consumes (F.remaining file.old.file) (F.remaining file.new.file)
        (take n (drop filled bytes.new.items))) }
    ensures err { OnErr result (Keeps (F.remaining file.old.file) (F.remaining file.new.file)) }
    ensures end { IfOk result (λ n. n ≡ 0 → IsAtEnd (F.remaining file.new.file)) }
    ensures turn { IfOk result (λ n. file.new.turns
        ≡ file.old.turns ++ take n (drop filled bytes.new.items) ∷ []) }
    ensures turn_of_none { OnErr result (Took file.old.turns file.new.turns []) }
    ensures failed { IfErr result (λ e. error_kind e ≢ OutOfMemory
        → file.new.failures ≡ raised file.old.failures) }
    ensures unfailed { OnOk result (file.new.failures ≡ file.old.failures) }
{
    make_room(bytes, filled, most)?;
    file.read(&mut bytes[filled..])
}

// Makes a vector longer than `filled`, by at most `most` bytes.
fn make_room(bytes: &mut Vec<u8>, filled: usize, most: u64) -> Result<(), AllocError>
    requires filled { filled ≤ vec_len bytes.old }
    requires some { 0 < most }
    requires chunk { most ≤ turn_most }
    requires room { vec_len bytes.old ≤ filled + most }
    ensures room { vec_len bytes.new ≤ filled + most }
    ensures front { take filled bytes.new.items ≡ take filled bytes.old.items }
    ensures within { filled ≤ vec_len bytes.new }
    ensures some { OnOk result (filled < vec_len bytes.new) }
{
    if filled == bytes.len() {
        bytes.resize(filled + most as usize, 0)?;
    }
    Ok(())
}
