//! The sizes of one file.

use crate::sizes::PathSizes;
use std::marker::Model;

/// The sizes of a file by the numbers of its labels, counted and not yet added to a rollup. Contracts see them with the
/// length of the file and its mapped size.
#[derive(Drop)]
pub struct FileSizes {
    pub(crate) sizes: PathSizes,
    pub(crate) len: u64,
    pub(crate) mapped: u64,
}

impl Model for FileSizes {
    ghost use Rattle.rollup.specs.Files.{CountedFile, IsWithin};

    ghost Value = { CountedFile };

    ghost view = { λ f. record { entries = f.sizes; len = f.len; mapped = f.mapped } };

    ghost invariant = { λ f. IsWithin f.sizes f.len f.mapped };
}
