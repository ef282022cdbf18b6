//! Sizes by the numbers of labels.

ghost use Rattle.std.specs.Prelude.{◌≡◌, ◌+◌, ◌^◌, ◌<◌, ℕ, [], ◌∷◌, ◌++◌, Some, IsTrue, OnOk, length, slice_get, slice_index_or, slice_set};
ghost use Rattle.std.specs.Option.{ForSome};
ghost use Rattle.rollup.specs.Sizes.{IsGrown, IsIndexOf, entry_of, no_entry, part_of, sizes_of, grown, grown_sizes, size_in};

use crate::cursor::Part;
use crate::hints::{Hints, PROBES, hash_of};
use size_core::NoMemory;
use std::alloc::Global;
use std::marker::Model;
use std::slice::from_ref;

/// The two sizes of a list of labels.
#[derive(Clone, Copy, Debug)]
pub struct Sizes {
    /// How many mapped positions have these labels.
    pub vm: u128,
    /// How many file offsets have these labels.
    pub file: u128,
}

impl Sizes {
    fn of(part: Part, size: u128) -> Sizes
        ensures { result ≡ sizes_of part size }
    {
        match part {
            Part::File => Sizes { vm: 0, file: size },
            Part::Vm => Sizes { vm: size, file: 0 },
        }
    }

    // Makes one of the sizes larger.
    fn grow(&mut self, part: Part, size: u128)
        requires { part_of part self.old + size < 2 ^ 128 }
        ensures { self.new ≡ grown_sizes part size self.old }
    {
        match part {
            Part::File => self.file += size,
            Part::Vm => self.vm += size,
        }
    }
}

// The sizes of a list of one number.
#[derive(Clone, Copy)]
struct LabelSize {
    label: usize,
    sizes: Sizes,
}

// The sizes of lists of one number, in the order in which the numbers came. `indices` has, for each number, the index
// at which its sizes may be found: they are those of the number only if the item at that index has it.
#[derive(Drop)]
struct LabelSizes {
    items: Vec<LabelSize>,
    indices: Vec<usize>,
}

impl Model for LabelSizes {
    ghost use Rattle.std.specs.Prelude.{List, map};
    ghost use Rattle.rollup.specs.Sizes.{Entry};

    ghost Value = { List Entry };

    ghost use Rattle.rollup.specs.Sizes.{entry_of_label};

    ghost view = { λ p. map entry_of_label p.items.items };
}

impl LabelSizes {
    fn new(alloc: Global) -> LabelSizes
        ensures { result ≡ [] }
    {
        LabelSizes {
            items: Vec::new(alloc),
            indices: Vec::new(alloc),
        }
    }

    // The list at an index, and its sizes.
    fn get(&self, i: usize) -> (&[usize], Sizes)
        requires { i < length self.now }
        ensures { slice_get self.now i ≡ Some (entry_of result.0.now result.1) }
    {
        let item = &self.items[i];
        (from_ref(&item.label), item.sizes)
    }

    // The index of the sizes of a number, if they are there.
    fn find(&self, label: usize) -> Option<usize>
        ensures { ForSome result (IsIndexOf (label ∷ []) self.now) }
    {
        let index = *self.indices.get(label)?;
        let item = self.items.get(index)?;
        if item.label == label {
            Some(index)
        } else {
            None
        }
    }

    fn grow(&mut self, i: usize, part: Part, size: u128)
        requires within { i < length self.old }
        requires fits { size_in part (slice_index_or self.old i no_entry) + size < 2 ^ 128 }
        ensures { self.new
            ≡ slice_set self.old i (grown part size (slice_index_or self.old i no_entry)) }
    {
        self.items[i].sizes.grow(part, size);
    }

    fn push(&mut self, label: usize, sizes: Sizes) -> Result<(), NoMemory>
        ensures { OnOk result (self.new ≡ self.old ++ entry_of (label ∷ []) sizes ∷ []) }
    {
        self.note(label)?;
        self.items.push(LabelSize { label, sizes })?;
        Ok(())
    }

    // Notes that the sizes of a number will be the next item.
    fn note(&mut self, label: usize) -> Result<(), NoMemory>
        ensures { self.new ≡ self.old }
    {
        let next = self.items.len();
        if label >= self.indices.len() {
            let double = self.indices.len().saturating_mul(2);
            self.indices.resize(label.saturating_add(1).max(double), 0)?;
        }
        if let Some(index) = self.indices.get_mut(label) {
            *index = next;
        }
        Ok(())
    }
}

// A list of numbers, by its first position and length among the numbers of all lists, and its sizes.
#[derive(Clone, Copy)]
struct ListSize {
    first: usize,
    len: usize,
    sizes: Sizes,
}

// The sizes of lists of label numbers, in the order in which the lists came.
#[derive(Drop)]
struct ListSizes {
    items: Vec<ListSize>,
    numbers: Vec<usize>,
    hints: Hints,
}

impl Model for ListSizes {
    ghost use Rattle.std.specs.Prelude.{List, ◌+◌, ◌≤◌, All, length, map};
    ghost use Rattle.rollup.specs.declared.sizes.ListSize.{ListSize};
    ghost use Rattle.rollup.specs.Sizes.{Entry, entry_of_list};

    ghost Value = { List Entry };

    ghost view = { λ p. map (entry_of_list p.numbers.items) p.items.items };

    ghost invariant = { λ p.
        All (λ (i : ListSize). i.first + i.len ≤ length p.numbers.items) p.items.items };
}

impl ListSizes {
    // No sizes.
    fn new(alloc: Global) -> ListSizes
        ensures { result ≡ [] }
    {
        ListSizes {
            items: Vec::new(alloc),
            numbers: Vec::new(alloc),
            hints: Hints::new(alloc),
        }
    }

    // How many lists there are.
    fn len(&self) -> usize
        ensures { result ≡ length self.now }
    {
        self.items.len()
    }

    // The list at an index, and its sizes.
    fn get(&self, i: usize) -> (&[usize], Sizes)
        requires { i < length self.now }
        ensures { slice_get self.now i ≡ Some (entry_of result.0.now result.1) }
    {
        let item = self.items[i];
        let end = item.first + item.len;
        (&self.numbers[item.first..end], item.sizes)
    }

    // True only if the list at an index is this one.
    fn is_at(&self, i: usize, numbers: &[usize]) -> bool
        ensures { IsTrue result → IsIndexOf numbers.now self.now i }
    {
        if i >= self.len() {
            return false;
        }
        let (there, _) = self.get(i);
        there == numbers
    }

    // The index of a list, if a hint leads to it.
    fn find(&self, numbers: &[usize], hash: usize) -> Option<usize>
        ensures { ForSome result (IsIndexOf numbers.now self.now) }
    {
        let next = self.hints.likely();
        if self.is_at(next, numbers) {
            return Some(next);
        }
        for probe in 0..PROBES {
            let i = self.hints.get(hash, probe)?;
            if self.is_at(i, numbers) {
                return Some(i);
            }
        }
        None
    }

    fn grow(&mut self, i: usize, part: Part, size: u128)
        requires within { i < length self.old }
        requires fits { size_in part (slice_index_or self.old i no_entry) + size < 2 ^ 128 }
        ensures { self.new
            ≡ slice_set self.old i (grown part size (slice_index_or self.old i no_entry)) }
    {
        self.items[i].sizes.grow(part, size);
        self.hints.pass(i);
    }

    fn push(&mut self, numbers: &[usize], hash: usize, sizes: Sizes) -> Result<(), NoMemory>
        ensures { OnOk result (self.new ≡ self.old ++ entry_of numbers.now sizes ∷ []) }
    {
        self.hints.push(hash)?;
        let first = self.numbers.len();
        let len = numbers.len();
        self.numbers.extend_from_slice(numbers)?;
        self.items.push(ListSize { first, len, sizes })?;
        Ok(())
    }

    // Adds to one of the sizes of a list of numbers. A new list becomes the last one.
    fn add(&mut self, part: Part, numbers: &[usize], size: u128) -> Result<(), NoMemory>
        requires { (i : ℕ) → size_in part (slice_index_or self.old i no_entry) + size < 2 ^ 128 }
        ensures { OnOk result (IsGrown part numbers.now size self.old self.new) }
    {
        let hash = hash_of(numbers);
        if let Some(i) = self.find(numbers, hash) {
            self.grow(i, part, size);
            return Ok(());
        }
        self.push(numbers, hash, Sizes::of(part, size))
    }
}

/// The sizes of lists of label numbers, in the order in which the lists came. Contracts see each list with its
/// sizes.
#[derive(Drop)]
pub struct PathSizes {
    labels: LabelSizes,
    lists: ListSizes,
}

impl Model for PathSizes {
    ghost use Rattle.std.specs.Prelude.{List, ◌++◌};
    ghost use Rattle.rollup.specs.Sizes.{Entry};

    ghost Value = { List Entry };

    ghost view = { λ p. p.labels ++ p.lists };
}

impl PathSizes {
    /// No sizes.
    pub fn new(alloc: Global) -> PathSizes
        ensures { result ≡ [] }
    {
        PathSizes {
            labels: LabelSizes::new(alloc),
            lists: ListSizes::new(alloc),
        }
    }

    /// The sizes without what only `add` needs, once the last size was added.
    pub fn without_hints(self, alloc: Global) -> PathSizes
        ensures { result ≡ self }
    {
        let PathSizes { labels, lists } = self;
        PathSizes {
            labels: LabelSizes {
                items: labels.items,
                indices: Vec::new(alloc),
            },
            lists: ListSizes {
                items: lists.items,
                numbers: lists.numbers,
                hints: Hints::new(alloc),
            },
        }
    }

    /// How many lists there are.
    pub fn len(&self) -> usize
        ensures { result ≡ length self.now }
    {
        self.labels.items.len() + self.lists.items.len()
    }

    /// The list at an index, and its sizes.
    pub fn get(&self, i: usize) -> (&[usize], Sizes)
        requires { i < length self.now }
        ensures { slice_get self.now i ≡ Some (entry_of result.0.now result.1) }
    {
        let count = self.labels.items.len();
        if i < count {
            return self.labels.get(i);
        }
        self.lists.get(i - count)
    }

    /// Adds to one of the sizes of a list of numbers. A list that isn't found becomes the last one.
    pub fn add(&mut self, part: Part, numbers: &[usize], size: u128) -> Result<(), NoMemory>
        requires { (i : ℕ) → size_in part (slice_index_or self.old i no_entry) + size < 2 ^ 128 }
        ensures { OnOk result (IsGrown part numbers.now size self.old self.new) }
    {
        if numbers.len() == 1 {
            return self.add_label(part, numbers[0], size);
        }
        self.lists.add(part, numbers, size)
    }

    // The same for a list of one number.
    fn add_label(&mut self, part: Part, label: usize, size: u128) -> Result<(), NoMemory>
        requires { (i : ℕ) → size_in part (slice_index_or self.old i no_entry) + size < 2 ^ 128 }
        ensures { OnOk result (IsGrown part (label ∷ []) size self.old self.new) }
    {
        if let Some(i) = self.labels.find(label) {
            self.labels.grow(i, part, size);
            return Ok(());
        }
        if self.lists.len() == 0 {
            return self.labels.push(label, Sizes::of(part, size));
        }
        self.lists.add(part, from_ref(&label), size)
    }
}
