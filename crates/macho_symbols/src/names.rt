//! The names in a string table. A long name that several symbols have is read once.

ghost use Rattle.std.specs.Prelude.{◌≡◌, Some, IfOk, IfSome, OnOk};
ghost use Rattle.std.specs.Option.{option_copied};
ghost use Rattle.byte_cursor.specs.Numbers.{text};

use byte_cursor::text_at;
use size_core::NoMemory;
use std::alloc::Global;
use std::collections::BTreeMap;
use std::marker::Model;

/// The size in bytes from which on a name is long. Reading a shorter one takes less time than finding its offset among
/// the kept ones.
const LONG_NAME: usize = 1024;

/// A string table, and the long names in it that were read, by their offsets. Without long names, no memory is
/// allocated.
#[derive(Drop)]
pub struct Names<'a> {
    strings: &'a [u8],
    long: BTreeMap<u32, &'a [u8]>,
}

impl<'a> Model for Names<'a> {
    ghost use Rattle.std.specs.Prelude.{ℕ, List};
    ghost use Rattle.macho_symbols.specs.Names.{AreNamesIn};

    ghost Value = { List ℕ };

    ghost view = { λ n. n.strings.now };

    ghost invariant = { λ n. AreNamesIn n.strings.now n.long };
}

impl<'a> Names<'a> {
    /// Returns the names in a string table. None is read yet.
    #[tactic(auto, using(crate::proofs::NameLemmas::no_names))]
    pub fn of(alloc: Global, strings: &'a [u8]) -> Names<'a>
        ensures { result ≡ strings.now }
    {
        Names {
            strings,
            long: BTreeMap::new(alloc),
        }
    }

    // Returns the name at an offset, if it is kept.
    #[tactic(auto, using(crate::proofs::NameLemmas::found_name))]
    fn kept(&self, at: u32) -> Option<&'a [u8]>
        ensures { IfSome result (λ name. text self.now at ≡ Some name.now) }
    {
        // Most files have no long name, and pay for no look-up.
        if self.long.is_empty() {
            return None;
        }
        self.long.get(&at).copied()
    }

    // Keeps the name at an offset, if it is long.
    #[tactic(auto, using(crate::proofs::NameLemmas::names_same, crate::proofs::NameLemmas::names_put))]
    fn keep(&mut self, at: u32, name: &'a [u8]) -> Result<(), NoMemory>
        requires { text self.old at ≡ Some name.now }
        ensures { self.new ≡ self.old }
    {
        if name.len() < LONG_NAME {
            return Ok(());
        }
        self.long.insert(at, name)?;
        Ok(())
    }

    /// Returns the name at an offset: the bytes from there up to the next zero byte. None if there is no zero byte.
    pub fn read(&mut self, at: u32) -> Result<Option<&'a [u8]>, NoMemory>
        ensures name { IfOk result (λ name. option_copied name ≡ text self.old at) }
        ensures same { self.new ≡ self.old }
    {
        if let Some(name) = self.kept(at) {
            return Ok(Some(name));
        }
        match text_at(self.strings, at as usize) {
            Some(name) => {
                self.keep(at, name)?;
                Ok(Some(name))
            }
            None => Ok(None),
        }
    }
}
