//! Sets of small numbers, as bits of words. Nothing here takes memory.

ghost use Rattle.std.specs.Prelude.{◌≡◌, ◌<◌, ◌*◌, ◌==◌, ◌||◌, ◌&&◌, ◌↔◌, ℕ, not, false, IsTrue};
ghost use Rattle.bop_bits.specs.BitSets.{is_in, Meet};

/// A set of the numbers below 64 times the number of words.
#[derive(Clone, Copy)]
pub struct BitSet<const WORDS: usize> {
    words: [u64; WORDS],
}

/// Some bytes of a page, by their places in it.
pub type ByteMask = BitSet<64>;

/// Some pages, by their numbers.
pub type PageSet = BitSet<12>;

impl<const WORDS: usize> BitSet<WORDS> {
    /// The empty set.
    pub fn new() -> BitSet<WORDS>
        ensures { (j : ℕ) → is_in result.words j ≡ false }
    {
        BitSet { words: [0; WORDS] }
    }

    /// Adds a number.
    pub fn set(&mut self, at: u32)
        requires { at < WORDS * 64 }
        ensures { (j : ℕ) → is_in self.new.words j ≡ (is_in self.old.words j || (j == at)) }
    {
        self.words[(at / 64) as usize] |= 1 << (at % 64);
    }

    /// Whether a number is in the set.
    pub fn has(&self, at: u32) -> bool
        requires { at < WORDS * 64 }
        ensures { result ≡ is_in self.now.words at }
    {
        self.words[(at / 64) as usize] >> (at % 64) & 1 == 1
    }

    /// Whether a number is in both sets.
    pub fn meets(&self, other: &BitSet<WORDS>) -> bool
        ensures { IsTrue result ↔ Meet self.now.words other.now.words }
    {
        for i in 0..WORDS {
            let (ours, theirs) = (self.words[i], other.words[i]);
            if ours & theirs != 0 {
                return true;
            }
        }
        false
    }
    /// Adds the numbers of another set.
    pub fn union_with(&mut self, other: &BitSet<WORDS>)
        ensures { (j : ℕ) → is_in self.new.words j
            ≡ (is_in self.old.words j || is_in other.now.words j) }
    {
        for i in 0..WORDS {
            self.words[i] |= other.words[i];
        }
    }

    /// Takes out the numbers of another set.
    pub fn difference_with(&mut self, other: &BitSet<WORDS>)
        ensures { (j : ℕ) → is_in self.new.words j
            ≡ (is_in self.old.words j && not (is_in other.now.words j)) }
    {
        for i in 0..WORDS {
            self.words[i] &= !other.words[i];
        }
    }
}
