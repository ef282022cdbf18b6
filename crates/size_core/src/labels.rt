//! A pool of labels, each with a number.

ghost use Rattle.std.specs.Prelude.{◌≡◌, ◌<◌, [], Some, IfOk, OnErr, length, slice_get};
ghost use Rattle.indexmap.specs.IndexSet.{IsUnchanged, IsUnique};
ghost use Rattle.std.specs.List.{IsDistinct};
ghost use Rattle.std.specs.Str.{bytes_eq};
ghost use Rattle.size_core.specs.Labels.{with_label};

use crate::label_hasher::LabelHasher;
use crate::memory::NoMemory;
use indexmap::IndexSet;
use std::alloc::{AllocError, Global};
use std::hash::BuildHasherDefault;
use std::marker::Model;

type Labels = IndexSet<Vec<u8>, BuildHasherDefault<LabelHasher>>;

// A full set of fewer labels than this gets room for four times as many, so that labels are seldom hashed again. A larger
// set doubles by itself.
const FEW_LABELS: usize = 1 << 20;

// Makes room in a full set of few labels.
fn make_room(labels: &mut Labels) -> Result<(), AllocError>
    ensures same { IsUnchanged labels.old labels.new }
    ensures unique { IsUnique (λ x y. bytes_eq x.items y.items) labels.new }
{
    let len = labels.len();
    if len < labels.capacity() || len >= FEW_LABELS {
        return Ok(());
    }
    labels.reserve(3 * len + 1)
}

/// Distinct labels and their numbers, in the order of insertion.
#[derive(Drop)]
pub struct LabelPool {
    labels: Labels,
    alloc: Global,
}

impl Model for LabelPool {
    ghost use Rattle.std.specs.Prelude.{List, ℕ, map};
    ghost use Rattle.std.specs.Str.{bytes_eq};
    ghost use Rattle.indexmap.specs.IndexSet.{IsUnique};

    ghost Value = { List (List ℕ) };

    ghost view = { λ p. map (λ v. v.items) p.labels.keys };

    ghost invariant = { λ p. IsUnique (λ x y. bytes_eq x.items y.items) p.labels };
}

impl LabelPool {
    /// An empty pool.
    pub fn new(alloc: Global) -> LabelPool
        ensures { result ≡ [] }
    {
        LabelPool {
            labels: IndexSet::with_hasher(alloc, BuildHasherDefault::new()),
            alloc,
        }
    }

    /// The number of labels. No two labels are equal.
    pub fn len(&self) -> usize
        ensures count { result ≡ length self.now }
        ensures distinct { IsDistinct bytes_eq self.now }
    {
        self.labels.len()
    }

    /// Returns the label's number. A new label is copied and gets the next number. A label that the pool has
    /// already is not copied. On an error the pool is unchanged.
    pub fn intern(&mut self, label: &[u8]) -> Result<usize, NoMemory>
        ensures pool { IfOk result (λ i. self.new ≡ with_label self.old label.now) }
        ensures number { IfOk result (λ i. slice_get self.new i ≡ Some label.now) }
        ensures err { OnErr result (self.new ≡ self.old) }
    {
        make_room(&mut self.labels)?;
        if let Some((index, _)) = self.labels.get_full(label) {
            return Ok(index);
        }
        let owned = label.to_vec(self.alloc)?;
        let (index, _) = self.labels.insert_full(owned)?;
        Ok(index)
    }

    /// The label with this number.
    pub fn get(&self, id: usize) -> &[u8]
        requires { id < length self.now }
        ensures { slice_get self.now id ≡ Some result.now }
    {
        self.labels[id].as_slice()
    }
}
