//! The labels of the long names of a file. Symbols or sections may share a name, which may take as long as the file to
//! read and to look up. A long name is known by its file offset, so that it is read and looked up once.

ghost use Rattle.std.specs.Prelude.{◌≡◌, ◌<◌, ◌≤◌, List, Some, IfSome, OnOk, length};
ghost use Rattle.size_model.specs.declared.view.LabelledClaim.{LabelledClaim};
ghost use Rattle.byte_cursor.specs.Numbers.{text};
ghost use Rattle.claim_sheet.specs.Known.{IsKnown};
ghost use Rattle.claim_sheet.specs.LongNames.{AreKnownNames, AreNames, label_at};

use crate::known::KnownLabel;
use size_core::NoMemory;
use std::alloc::Global;
use std::collections::BTreeMap;

/// The size in bytes from which on a name is long. Reading and looking up a shorter one takes less time than finding its
/// offset among the kept ones.
pub const LONG_NAME: usize = 1024;

/// The labels of the long names of a file that have occurred so far. Without long names, no memory is allocated.
#[derive(Drop)]
pub struct LongNames<'a> {
    /// The bytes of the file.
    pub file: &'a [u8],
    /// The labels, by the file offsets of their names.
    pub labels: BTreeMap<u64, KnownLabel<'a>>,
}

impl<'a> LongNames<'a> {
    /// Returns an empty set of names of a file.
    #[tactic(auto, using(crate::proofs::LongNameLemmas::no_names, crate::proofs::LongNameLemmas::none_known))]
    pub fn new(alloc: Global, file: &'a [u8]) -> LongNames<'a>
        ensures file { result.file.now ≡ file.now }
        ensures names { AreNames result }
        ensures known { (made : List LabelledClaim) → AreKnownNames made result }
    {
        LongNames {
            file,
            labels: BTreeMap::new(alloc),
        }
    }

    /// Returns the label of the name at a file offset, if it is kept.
    #[tactic(auto, using(crate::proofs::LongNameLemmas::empty_at, crate::proofs::LongNameLemmas::found_name))]
    pub fn label_at(&self, offset: u64) -> Option<KnownLabel<'a>>
        ensures label { result ≡ label_at self.now offset }
        ensures name { AreNames self.now
            → IfSome result (λ l. text self.now.file.now offset ≡ Some l.text.now) }
    {
        // Most files have no long name, and pay for no look-up.
        if self.labels.is_empty() {
            return None;
        }
        self.labels.get(&offset).copied()
    }

    /// Keeps the label of the name at a file offset, if the name is long.
    #[tactic(auto, using(crate::proofs::LongNameLemmas::names_same, crate::proofs::LongNameLemmas::names_put, crate::proofs::LongNameLemmas::known_put))]
    pub fn keep(&mut self, offset: u64, label: KnownLabel<'a>) -> Result<(), NoMemory>
        requires names { AreNames self.old }
        requires name { 0 < length label.text.now
            → text self.old.file.now offset ≡ Some label.text.now }
        ensures names { OnOk result (AreNames self.new) }
        ensures file { self.new.file ≡ self.old.file }
        ensures kept { LONG_NAME ≤ length label.entry.text.now
            → OnOk result (label_at self.new offset ≡ Some label.entry) }
        ensures known { (made : List LabelledClaim) → AreKnownNames made self.old
            → IsKnown made label.entry → OnOk result (AreKnownNames made self.new) }
    {
        if label.text.len() < LONG_NAME {
            return Ok(());
        }
        self.labels.insert(offset, label)?;
        Ok(())
    }
}
