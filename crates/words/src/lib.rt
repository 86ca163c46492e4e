#![tactic(auto)]

// The bits of a word of 64, counted from the lowest: keys, schemes and sets of attributes are such words.
ghost use Rattle.std.specs.Prelude.{◌≡◌, ℕ, ◌-◌, ◌<◌, ◌^◌};
ghost use Rattle.std.specs.Iterator.{at_most};
ghost use Rattle.words.specs.Words.{bit_of, LowestBit, NextBit};

// Is bit d of the word set?
// Schemes are asked for an attribute, and a sought key for the side to turn to.
pub fn bit_of(word: u64, d: usize) -> bool
    requires { d < 64 }
    ensures { result ≡ bit_of word d }
{
    (word >> d) & 1 == 1
}

// The place of the lowest set bit.
// With `without_lowest` it goes through the set bits of a word, and passes over the others at once.
pub fn lowest(word: u64) -> usize
    requires { 0 < word }
    ensures { LowestBit 64 word result }
{
    u64::trailing_zeros(word) as usize
}

// The word without its lowest set bit.
// One mask takes it away, wherever it is; what is left is smaller, so that going through the set bits ends.
pub fn without_lowest(word: u64) -> u64
    requires { 0 < word }
    ensures { (a : ℕ) → LowestBit 64 word a → result ≡ word - 2 ^ a }
{
    word & (word - 1)
}

// The places of the set bits of a word, from the lowest on; `rest` has those that are still to come.
// Schemes and sets of tables are gone through so, and the bits that are not set are passed over at once.
#[derive(Clone, Copy)]
pub struct SetBits {
    pub rest: u64,
}

// The set bits of a word.
// An invariant of `for a in words::bits(..)` speaks of the word of those that are left, `l.a-iterator.rest`.
pub fn bits(word: u64) -> SetBits
    ensures { result.rest ≡ word }
{
    SetBits { rest: word }
}

impl Iterator for SetBits {
    type Item = usize;

    ghost next_gives = { λ s place t. NextBit s.rest place t.rest };

    ghost remaining = { λ s. at_most s.rest };

    #[inline]
    fn next(&mut self) -> Option<usize> {
        if self.rest == 0 {
            return None;
        }
        let place = lowest(self.rest);
        self.rest = without_lowest(self.rest);
        Some(place)
    }
}
