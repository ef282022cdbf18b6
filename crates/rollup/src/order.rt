//! The ranks of labels, by their bytes.

ghost use Rattle.std.specs.Prelude.{◌≡◌, IfOk, All, length, map};
ghost use Rattle.std.specs.List.{IsDistinct, range_with_len};
ghost use Rattle.std.specs.Str.{bytes_eq};
ghost use Rattle.std.specs.List.Sorted.{IsPermutation, IsStrictlySortedBy};
ghost use Rattle.size_model.specs.Numbered.{text_of};
ghost use Rattle.rollup.specs.Order.{AreIndices, IsWorded, RankLabels, label_cmp, worded_cmp};

use path_rows::word_of_label;
use size_core::{LabelPool, NoMemory};
use std::alloc::Global;
use std::cmp::Ordering;

// The label of a number, and no bytes if there is none.
fn label_of(pool: &LabelPool, number: usize) -> &[u8]
    ensures { result.now ≡ text_of pool.now number }
{
    if number < pool.len() {
        pool.get(number)
    } else {
        &[]
    }
}

/// The number of a label, and its first bytes.
#[derive(Clone, Copy)]
pub struct WordedLabel {
    /// The first eight bytes of the label as a number.
    pub word: u64,
    /// The label's number in the pool.
    pub number: usize,
}

// Compares two labels, by their first bytes if these differ.
fn compare_worded(pool: &LabelPool, a: WordedLabel, b: WordedLabel) -> Ordering
    ensures { result ≡ worded_cmp pool.now a b }
{
    match a.word.cmp(&b.word) {
        Ordering::Equal => label_of(pool, a.number).cmp(&label_of(pool, b.number)),
        order => order,
    }
}

// All labels in the order of their numbers.
fn worded_labels(alloc: Global, pool: &LabelPool) -> Result<Vec<WordedLabel>, NoMemory>
    ensures numbers { IfOk result (λ v. map (λ (w : WordedLabel). w.number) v.items
        ≡ range_with_len 0 (length pool.now)) }
    ensures words { IfOk result (λ v. All (IsWorded pool.now) v.items) }
    ensures distinct { IfOk result (λ v. IsDistinct bytes_eq pool.now) }
{
    let mut labels = Vec::with_capacity(alloc, pool.len())?;
    for number in 0..pool.len() {
        let word = word_of_label(pool.get(number));
        labels.push(WordedLabel { word, number })?;
    }
    Ok(labels)
}

fn numbers_of(alloc: Global, labels: &[WordedLabel]) -> Result<Vec<usize>, NoMemory>
    ensures { IfOk result (λ v. v.items ≡ map (λ (w : WordedLabel). w.number) labels.now) }
{
    let mut numbers = Vec::with_capacity(alloc, labels.len())?;
    for label in labels {
        numbers.push(label.number)?;
    }
    Ok(numbers)
}

// The numbers of the labels, the least label first.
fn numbers_in_order(alloc: Global, pool: &LabelPool) -> Result<Vec<usize>, NoMemory>
    ensures all { IfOk result (λ v. IsPermutation (range_with_len 0 (length pool.now)) v.items) }
    ensures ascend { IfOk result (λ v. IsStrictlySortedBy (label_cmp pool.now) v.items) }
{
    let mut labels = worded_labels(alloc, pool)?;

    // Most labels come in ascending runs, which a stable sort merges.
    labels.sort_by(|a, b| compare_worded(pool, *a, *b))?;
    numbers_of(alloc, labels.as_slice())
}

// The index of each number in this list.
fn indices_of(alloc: Global, numbers: &[usize]) -> Result<Vec<usize>, NoMemory>
    requires { IsPermutation (range_with_len 0 (length numbers.now)) numbers.now }
    ensures { IfOk result (λ v. AreIndices numbers.now v.items) }
{
    let mut indices = Vec::from_elem(alloc, 0, numbers.len())?;
    for (index, number) in numbers.iter().enumerate() {
        indices[*number] = index;
    }
    Ok(indices)
}

/// The rank of each label in a pool, in the order of their bytes.
pub fn ranks_of(alloc: Global, pool: &LabelPool) -> Result<Vec<usize>, NoMemory>
    ensures { IfOk result (λ v. RankLabels pool.now v.items) }
{
    let numbers = numbers_in_order(alloc, pool)?;
    indices_of(alloc, numbers.as_slice())
}
