//! The first bytes of a path as a number, which decides most comparisons.

ghost use Rattle.std.specs.Prelude.{◌≡◌, ◌-◌, ◌^◌, ◌<◌, ◌≤◌, [], ◌∷◌};
ghost use Rattle.path_rows.specs.Words.{IsLessByWord, word_after, word_of};

use size_core::Path;

// A number, followed by `count` bytes as digits to the base 256. Missing bytes are zeros.
fn word_after(word: u64, bytes: &[u8], count: usize) -> u64
    requires few { count ≤ 8 }
    requires fits { word < 256 ^ (8 - count) }
    ensures { result ≡ word_after word count bytes.now }
{
    if count == 0 {
        return word;
    }
    let Some((first, rest)) = bytes.split_first() else {
        return word_after(word * 256, bytes, count - 1);
    };
    if *first < 255 {
        word_after(word * 256 + u64::from(*first), rest, count - 1)
    } else {
        word_after(word * 256 + 255, &[], count - 1)
    }
}

/// The first eight bytes of a label as a big-endian number, with zeros after a byte of 255. A label with a lesser
/// number is less.
pub fn word_of_label(label: &[u8]) -> u64
    ensures word { result ≡ word_after 0 8 label.now }
    ensures less { IsLessByWord result label.now }
{
    word_after(0, label, 8)
}

/// The word of the first label of a path.
pub fn word_of(path: &Path) -> u64
    ensures { result ≡ word_of path.now }
{
    if path.len() == 0 {
        return 0;
    }
    word_of_label(path.get(0).as_slice())
}
