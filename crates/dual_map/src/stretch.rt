//! Stretches: runs of offsets or positions that a load translates in order.

ghost use Rattle.std.specs.Prelude.{◌≡◌, ◌+◌, ◌^◌, ◌<◌, ◌≤◌};
ghost use Rattle.dual_map.specs.Way.{gap_of, stretch_of, LiesIn, IsSmall, ToFile, ToMemory};

use crate::position::position;
use range_map::Piece;
use size_core::Load;

/// A run of numbers, translated in order to other numbers.
#[derive(Clone, Copy, Debug)]
pub struct Stretch {
    /// The first number.
    pub source: u128,
    /// The number to which the first one is translated.
    pub target: u128,
    /// How many numbers there are.
    pub len: u128,
}

impl Stretch {
    /// The targets from `from` up to `to`. Their source is 0 and isn't used.
    pub fn gap(from: u128, to: u128) -> Stretch
        requires { from ≤ to }
        ensures { result ≡ gap_of from to }
    {
        Stretch {
            source: 0,
            target: from,
            len: to - from,
        }
    }
}

/// From positions to a piece of the offsets that a load covers.
pub fn to_file(load: &Load, piece: &Piece) -> Stretch
    requires load_fits { load.now.vaddr + load.now.memsz ≤ 2 ^ 64 }
    requires lies { LiesIn ToFile load.now piece.now }
    requires len_fits { piece.now.len < 2 ^ 64 }
    ensures value { result ≡ stretch_of ToFile 0 load.now piece.now }
    ensures small { IsSmall result }
{
    Stretch {
        source: position(load.space, load.vaddr) + (piece.start - u128::from(load.offset)),
        target: piece.start,
        len: piece.len,
    }
}

/// From the offsets of a file of `file_len` bytes to a piece of the positions that a load covers. It ends where
/// the load's part of the file does.
pub fn to_memory(file_len: u64, load: &Load, piece: &Piece) -> Stretch
    requires load_fits { load.now.vaddr + load.now.memsz ≤ 2 ^ 64 }
    requires lies { LiesIn ToMemory load.now piece.now }
    ensures value { result ≡ stretch_of ToMemory file_len load.now piece.now }
    ensures small { IsSmall result }
    ensures len_fits { piece.now.len < 2 ^ 64 }
{
    let past = piece.start - position(load.space, load.vaddr);
    let in_file = file_len.saturating_sub(load.offset);
    let held = u128::from(load.filesz.min(load.memsz).min(in_file));
    Stretch {
        source: u128::from(load.offset) + past,
        target: piece.start,
        len: piece.len.min(held.saturating_sub(past)),
    }
}
