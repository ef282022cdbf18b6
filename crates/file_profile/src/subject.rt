//! An opened file, and its debug file if there is one.

ghost use Rattle.std.specs.Prelude.{◌≡◌, ◌<◌, ◌^◌, length, IfOk};
ghost use Rattle.data_sources.specs.Groups.{bytes_of};
ghost use Rattle.file_profile.specs.Claims.{layout_of};

use data_sources::{Binary, loads_of};
use dual_map::Base;
use size_core::NoMemory;
use std::alloc::Global;
use std::marker::Model;

/// An opened file whose bytes and addresses are counted, with its name and its debug file, if it has one. Contracts see
/// these three. The loads are those of the file, never of the debug file.
#[derive(Drop)]
pub struct Subject<'n, 'a, 'd> {
    pub(crate) alloc: Global,
    pub(crate) name: &'n [u8],
    pub(crate) binary: Binary<'a>,
    pub(crate) debug: Option<Binary<'d>>,
    base: Base,
}

impl<'n, 'a, 'd> Model for Subject<'n, 'a, 'd> {
    ghost use Rattle.std.specs.Prelude.{◌≡◌};
    ghost use Rattle.file_profile.specs.Claims.{OpenedFile, layout_of};

    ghost Value = { OpenedFile };

    ghost view = { λ s. record { name = s.name.now; binary = s.binary; debug = s.debug } };

    ghost invariant = { λ s. s.base ≡ layout_of s.binary };
}

impl<'n, 'a, 'd> Subject<'n, 'a, 'd> {
    /// The file `binary` with this name and this debug file.
    pub fn new(
        alloc: Global,
        name: &'n [u8],
        binary: Binary<'a>,
        debug: Option<Binary<'d>>,
    ) -> Result<Subject<'n, 'a, 'd>, NoMemory>
        requires { length (bytes_of binary) < 2 ^ 32 }
        ensures { IfOk result (λ s. s
            ≡ record { name = name.now; binary = binary.entry; debug = debug.entry }) }
    {
        let loads = loads_of(alloc, &binary)?;
        let file_len = binary.bytes().len() as u64;
        let base = Base::from_loads(alloc, file_len, &loads)?;
        Ok(Subject {
            alloc,
            name,
            binary,
            debug,
            base,
        })
    }

    /// The length and the loads of the file, prepared for the translation between offsets and addresses.
    pub fn base(&self) -> &Base
        ensures { result.now ≡ layout_of self.now.binary }
    {
        &self.base
    }
}
