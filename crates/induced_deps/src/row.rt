//! Sets of vertices of a rule, of which there are at most 1,024.
ghost use Rattle.std.specs.Prelude.{◌≡◌, ◌+◌, ◌-◌, ◌/◌, ◌%◌, ◌<◌, ◌≤◌, ◌↔◌, ◌⊎◌, ℕ, IsTrue, IsBitSet, MatchOption, slice_index};
ghost use Rattle.induced_deps.specs.Rows.{IsIn, IsPart};
ghost use Rattle.induced_deps.specs.Rounds.{room};

use crate::shifts::{moved_down, moved_up};
use flat_grammar::{Bits, words};

/// How many words a row has.
const WORDS: usize = 8;

/// A set of numbers below 1,024, by bits.
#[derive(Clone, Copy, Debug)]
pub struct Row {
    pub words: [u128; WORDS],
}

impl Row {
    /// The set without numbers.
    pub fn new() -> Row
        ensures { (j : ℕ) → IsIn result.words j → ⊥ }
    {
        Row { words: [0; WORDS] }
    }

    /// Whether the number is in the set.
    pub fn has(&self, k: usize) -> bool
        requires { k < 1024 }
        ensures { IsTrue result ↔ IsIn self.now.words k }
    {
        words::has(self.words[k / 128], k % 128)
    }

    /// Puts the number into the set.
    pub fn add(&mut self, k: usize)
        requires { k < 1024 }
        ensures members { (j : ℕ) → IsIn self.new.words j ↔ ((j ≡ k) ⊎ IsIn self.old.words j) }
        ensures less { (IsIn self.old.words k → ⊥) → room self.new.words < room self.old.words }
    {
        self.words[k / 128] = words::with(self.words[k / 128], k % 128);
    }

    /// Puts all numbers of the other set into this one.
    pub fn join(&mut self, other: &Row)
        ensures members { (j : ℕ) → IsIn self.new.words j ↔ (IsIn self.old.words j ⊎ IsIn other.now.words j) }
        ensures lighter { room self.new.words ≤ room self.old.words }
    {
        for k in 0..WORDS {
            self.words[k] = words::union(self.words[k], other.words[k]);
        }
    }

    /// Whether the other set has all numbers of this one.
    pub fn is_within(&self, other: &Row) -> bool
        ensures { IsTrue result ↔ IsPart self.now.words other.now.words }
    {
        for k in 0..WORDS {
            if !words::is_within(self.words[k], other.words[k]) {
                return false;
            }
        }
        true
    }

    /// A number of the set that isn't in the other one, from its last word on.
    pub fn first_beside(&self, other: &Row) -> Option<usize>
        ensures { MatchOption result (IsPart self.now.words other.now.words)
            (λ k. (k < 1024) × IsIn self.now.words k × (IsIn other.now.words k → ⊥)) }
    {
        for k in 0..WORDS {
            let i = WORDS - 1 - k;
            if let Some(bit) = words::first(words::without(self.words[i], other.words[i])) {
                return Some(128 * i + bit);
            }
        }
        None
    }

    /// The word at a place, and one without bits behind the last.
    fn word(&self, i: usize) -> u128
        ensures { result ≡ slice_index self.now.words i }
    {
        self.words.get(i).copied().unwrap_or(0)
    }

    /// Puts the bits of a word in at a place, if there is one.
    fn put(&mut self, i: usize, word: u128)
        ensures { (j : ℕ) → IsIn self.new.words j ↔ (IsIn self.old.words j ⊎ ((j / 128 ≡ i) × (i < 8) × IsBitSet word (j % 128))) }
    {
        if i < WORDS {
            self.words[i] = words::union(self.words[i], word);
        }
    }

    /// The set of the numbers of a word, each so much greater. Those from 1,024 on are left out.
    fn from_word(word: u128, by: usize) -> Row
        ensures { (j : ℕ) → IsIn result.words j ↔ ((j < 1024) × (by ≤ j) × IsBitSet word (j - by)) }
    {
        let mut row = Row::new();
        row.put(by / 128, moved_up(word, by % 128));
        row.put(by / 128 + 1, moved_down(word, 128 - by % 128));
        row
    }

    /// The numbers from this one on, so much smaller, as far as a word goes.
    fn window(&self, from: usize) -> u128
        ensures { (b : ℕ) → IsBitSet result b ↔ ((b < 128) × IsIn self.now.words (from + b)) }
    {
        let low = moved_down(self.word(from / 128), from % 128);
        let high = moved_up(self.word(from / 128 + 1), 128 - from % 128);
        words::union(low, high)
    }

    /// The set of the attributes' numbers, each so much greater. Those from 1,024 on are left out.
    pub fn from_bits(bits: Bits, by: usize) -> Row
        requires { by ≤ 1024 }
        ensures { (j : ℕ) → IsIn result.words j ↔ ((j < 1024) × (by ≤ j) × IsBitSet bits (j - by)) }
    {
        let mut row = Row::from_word(bits.low, by);
        row.join(&Row::from_word(bits.high, by + 128));
        row
    }

    /// The numbers from this one on, so much smaller, below 256.
    pub fn bits_from(&self, from: usize) -> Bits
        requires { from ≤ 1024 }
        ensures { (b : ℕ) → IsBitSet result b ↔ ((b < 256) × IsIn self.now.words (from + b)) }
    {
        Bits {
            low: self.window(from),
            high: self.window(from + 128),
        }
    }
}
