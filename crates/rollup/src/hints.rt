//! Where the sizes of a list of numbers may be: a hash table of indices.

use size_core::NoMemory;
use std::alloc::Global;

/// How many slots are read for a list. If none of them leads to the list, it counts as missing. So lists of a hostile
/// file that all have one hash take no more time than others. Such a list may have several entries, whose sizes are
/// added up later, when rows are merged.
pub const PROBES: usize = 16;

const MULTIPLIER: usize = 0x9e37_79b9_7f4a_7c15;

/// A hash of a list of numbers.
pub fn hash_of(numbers: &[usize]) -> usize {
    let mut hash = numbers.len();
    for number in numbers {
        let mixed = (hash ^ *number).wrapping_mul(MULTIPLIER);
        hash = mixed ^ (mixed >> 29);
    }
    hash
}

/// The indices of lists by their hashes. Contracts say nothing of them: an index may be wrong or missing, and a caller
/// compares what is at it.
#[derive(Drop)]
pub struct Hints {
    // Each slot is 0 if it is empty, or else one more than an index. The number of slots is a power of two.
    slots: Vec<usize>,
    hashes: Vec<usize>,
    next: usize,
}

impl Hints {
    /// No hints.
    pub fn new(alloc: Global) -> Hints {
        Hints {
            slots: Vec::new(alloc),
            hashes: Vec::new(alloc),
            next: 0,
        }
    }

    /// The index after the one that was found last: lists often come again in the same order.
    pub fn likely(&self) -> usize {
        self.next
    }

    /// Remembers an index that was found.
    pub fn pass(&mut self, found: usize) {
        self.next = found.saturating_add(1);
    }

    // The number of the slot that is read for a hash after `probe` others. The distances from the first one are
    // triangular numbers.
    fn slot(&self, hash: usize, probe: usize) -> usize {
        let distance = probe.wrapping_mul(probe.wrapping_add(1)) / 2;
        hash.wrapping_add(distance) & self.slots.len().saturating_sub(1)
    }

    /// The index in the slot that is read for a hash after `probe` others. `None` if the slot is empty.
    pub fn get(&self, hash: usize, probe: usize) -> Option<usize> {
        let slot = *self.slots.get(self.slot(hash, probe))?;
        slot.checked_sub(1)
    }

    // The first empty slot of a hash, or the last one.
    fn free_slot(&self, hash: usize) -> usize {
        for probe in 0..PROBES {
            if self.get(hash, probe).is_none() {
                return self.slot(hash, probe);
            }
        }
        self.slot(hash, PROBES - 1)
    }

    fn set(&mut self, hash: usize, index: usize) {
        let number = self.free_slot(hash);
        if let Some(slot) = self.slots.get_mut(number) {
            *slot = index.saturating_add(1);
        }
    }

    // Doubles the number of slots, and fills them again.
    fn enlarge(&mut self) -> Result<(), NoMemory> {
        let count = self.slots.len().saturating_mul(2).max(64);
        self.slots.clear();
        self.slots.resize(count, 0)?;
        for index in 0..self.hashes.len() {
            let hash = self.hashes.get(index).copied();
            self.set(hash.unwrap_or(0), index);
        }
        Ok(())
    }

    /// Adds a hint for the next list, which has this hash.
    pub fn push(&mut self, hash: usize) -> Result<(), NoMemory> {
        let index = self.hashes.len();
        if index >= self.slots.len() / 2 {
            self.enlarge()?;
        }
        self.hashes.push(hash)?;
        self.set(hash, index);
        self.pass(index);
        Ok(())
    }
}
