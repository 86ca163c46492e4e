#![tactic(auto)]

// A row set as two words, its key: the row number of each table in bits of its own, tables 0 to 4 in the first word from its lowest bit on, 5 to 7 in
// the second. What is said of a key is said of its number, in which the second word's bits stand above the first's rows.
ghost use Rattle.std.specs.Prelude.{◌≡◌, ◌*◌, ◌<◌, ◌≤◌, ◌^◌, eqb, leb};
ghost use Rattle.words.specs.Words.{bit_of};
ghost use Rattle.keys.specs.Keys.{bits_per_row, most_tables, row_of, with_row};
ghost use Rattle.keys.specs.TwoWords.{tables_in_low, number_of};

// The two words of a key, the first of them low. Two keys are the same where both words are, whole.
#[derive(Clone, Copy, PartialEq, Eq)]
pub struct Key {
    pub low: u64,
    pub high: u64,
}

// How many bits of a key a row number has.
const BITS_PER_ROW: usize = 12;

// The word with all of them set.
const ROW_MASK: u64 = (1 << BITS_PER_ROW) - 1;

// How many tables the first word has, and how many the second.
const TABLES_IN_LOW: usize = 5;

const TABLES_IN_HIGH: usize = 3;

// How many bits of each word belong to a table; those above them are spare.
const BITS_IN_LOW: usize = BITS_PER_ROW * TABLES_IN_LOW;

const BITS_IN_HIGH: usize = BITS_PER_ROW * TABLES_IN_HIGH;

// The row number that stands at place t of a word.
// A key's rows are read by this, whichever word they stand in.
fn row_in(word: u64, t: usize) -> u64
    requires { t < tables_in_low }
    ensures { result ≡ row_of bits_per_row word t }
{
    (word >> (BITS_PER_ROW * t)) & ROW_MASK
}

// The word with row number r at place t.
// A key's rows are written by this, whichever word they stand in.
fn row_put(word: u64, t: usize, r: u64) -> u64
    requires { (t < tables_in_low) × (r < 2 ^ bits_per_row) }
    ensures { result ≡ with_row bits_per_row word t r }
{
    let place = BITS_PER_ROW * t;
    (word & !(ROW_MASK << place)) | (r << place)
}

impl Key {
    // The key of no row.
    // Sets are built up from it, and it is given where no set is handed out.
    pub fn none() -> Key
        ensures { number_of result ≡ 0 }
    {
        Key { low: 0, high: 0 }
    }

    // Whether two keys are the same, both words whole.
    // It is the look of a search, and how a set is known again.
    pub fn same(self, other: Key) -> bool
        ensures { result ≡ eqb (number_of self) (number_of other) }
    {
        self.low == other.low && self.high == other.high
    }

    // The row number of table t, or 0 where the set has no row of it.
    // Everything that looks into a set reads its key by this.
    pub fn row(self, t: usize) -> u64
        requires { t < most_tables }
        ensures { result ≡ row_of bits_per_row (number_of self) t }
    {
        if t < TABLES_IN_LOW {
            row_in(self.low, t)
        } else {
            row_in(self.high, t - TABLES_IN_LOW)
        }
    }

    // The key with row r for table t, and with no row of it where r is 0.
    // A set grows and shrinks by this alone, so that its key is always at hand.
    pub fn with_row(self, t: usize, r: u64) -> Key
        requires { (t < most_tables) × (r < 2 ^ bits_per_row) }
        ensures { number_of result ≡ with_row bits_per_row (number_of self) t r }
    {
        if t < TABLES_IN_LOW {
            Key {
                low: row_put(self.low, t, r),
                ..self
            }
        } else {
            Key {
                high: row_put(self.high, t - TABLES_IN_LOW, r),
                ..self
            }
        }
    }

    // Whether a bit is set that belongs to no table.
    // Such a key names a missing row, whatever its rows are.
    pub fn has_spare(self) -> bool
        ensures { result ≡ leb (2 ^ (bits_per_row * most_tables)) (number_of self) }
    {
        self.low >> BITS_IN_LOW != 0 || self.high >> BITS_IN_HIGH != 0
    }

    // Is bit d set?
    // A search turns by it: it is bit d mod 12 of table d / 12's row.
    pub fn bit(self, d: usize) -> bool
        requires { d < bits_per_row * most_tables }
        ensures { result ≡ bit_of (number_of self) d }
    {
        if d < BITS_IN_LOW {
            words::bit_of(self.low, d)
        } else {
            words::bit_of(self.high, d - BITS_IN_LOW)
        }
    }

    // How many bits the key of a set among n tables has.
    // They tell any two such keys apart, so a search for one never has to go deeper.
    pub fn bits(n: usize) -> usize
        requires { n ≤ most_tables }
        ensures { result ≡ bits_per_row * n }
    {
        BITS_PER_ROW * n
    }
}
