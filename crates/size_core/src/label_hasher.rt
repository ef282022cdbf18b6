//! The hasher of labels. No result depends on the hashes, only the time that it takes to find a label.

ghost use Rattle.std.specs.Prelude.{◌≡◌, ◌<◌, ◌*◌, ◌+◌, ◌^◌};
ghost use Rattle.size_core.specs.LabelHash.{add_byte, add_bytes, folded_product, hash_of, mixed};

use std::hash::Hasher;

const MULTIPLIER: u64 = 0x9e37_79b9_7f4a_7c15;

/// A fast hasher of bytes that come one by one, as those of a slice do. It mixes seven bytes at a time. It isn't
/// cryptographic: whoever picks the labels can make their hashes collide.
#[derive(Clone, Copy)]
pub struct LabelHasher {
    // The hash of all full words.
    state: u64,
    // The bytes since the last full word, after a bit that shows where they begin.
    word: u64,
}

impl Default for LabelHasher {
    ghost is_default = { λ h. h ≡ record { state = 0; word = 1 } };

    fn default() -> LabelHasher {
        LabelHasher { state: 0, word: 1 }
    }
}

// The two halves of the product, joined by `xor`.
#[tactic(auto, unfolding(crate::specs::LabelHash::folded_product))]
fn folded_product(a: u64, b: u64) -> u64
    ensures { result ≡ folded_product a b }
{
    let product = a as u128 * b as u128;
    (product % (1 << 64)) as u64 ^ (product >> 64) as u64
}

// The hash of the words so far and one more word.
#[tactic(auto, unfolding(crate::specs::LabelHash::mixed))]
fn mixed(state: u64, word: u64) -> u64
    ensures { result ≡ mixed state word }
{
    folded_product(state ^ word, MULTIPLIER)
}

impl LabelHasher {
    #[tactic(auto, unfolding(crate::specs::LabelHash::add_byte))]
    fn add(&mut self, byte: u8)
        ensures { self.new ≡ add_byte self.old byte }
    {
        if self.word < 1 << 56 {
            self.word = self.word * 256 + byte as u64;
        } else {
            self.state = mixed(self.state, self.word);
            self.word = 256 + byte as u64;
        }
    }
}

impl Hasher for LabelHasher {
    ghost write = { add_bytes };

    ghost finish = { hash_of };

    fn finish(&self) -> u64 {
        mixed(self.state, self.word)
    }

    fn write(&mut self, bytes: &[u8]) {
        for byte in bytes {
            self.add(*byte);
        }
    }

    fn write_u8(&mut self, i: u8) {
        self.add(i);
    }
}
