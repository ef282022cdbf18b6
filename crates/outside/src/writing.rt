//! Writes whole byte strings to a sink, which may take them in parts.

ghost use Rattle.std.specs.Prelude.{◌≡◌};
ghost use Rattle.outside.specs.Pieces.{joined};
ghost use Rattle.outside.specs.Writes.{Writes};

use crate::sink::{Failed, Sink};

/// Writes all the bytes. After a write that fails, no other is tried, and some of the first bytes may have been
/// written.
pub fn write_whole<S: Sink>(sink: &mut S, bytes: &[u8]) -> Result<(), Failed>
    ensures writes { Writes S.Sink result bytes.now sink.old sink.new }
{
    let mut done = 0;
    while done < bytes.len() {
        done += sink.write(&bytes[done..])?;
    }
    Ok(())
}

/// Writes the pieces in order, each completely. After a write that fails, no other is tried, and some of the first
/// bytes may have been written.
pub fn write_pieces<S: Sink>(sink: &mut S, pieces: &[&[u8]]) -> Result<(), Failed>
    ensures writes { Writes S.Sink result (joined pieces.now) sink.old sink.new }
{
    for piece in pieces {
        write_whole(sink, piece)?;
    }
    Ok(())
}
