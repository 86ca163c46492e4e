#![tactic(auto)]

// The lines that the programs print, put into lent bytes from a cursor on, and the numbers that they are given.
// Each method that puts leaves the cursor behind what it put; what lies before and behind it stays, so that a buffer is filled line by line and written as one.
ghost use Rattle.std.specs.Prelude.{◌≡◌, ◌∷◌, [], ◌+◌, ◌-◌, ◌*◌, ◌≤◌, cond, length, take};
ghost use Rattle.keys.specs.Keys.{bits_per_row, most_tables, rows_in};
ghost use Rattle.keys.specs.TwoWords.{number_of};
ghost use Rattle.lines.specs.Decimals.{decimal, goes_on, word_of, word_in};
ghost use Rattle.lines.specs.Cursors.{HasRoom, Puts, SameBuffer};
ghost use Rattle.lines.specs.Lines.{most_field, set_room, field, value, fields, values, line, padded_end, set_line};

use itoa::Buffer;
use keys::Key;

// A lent buffer, and the place in it that the next byte goes to.
#[derive(Drop)]
pub struct Cursor<'a> {
    pub out: &'a mut [u8],
    pub at: usize,
}

// How many digits a number has.
// One digit is told without the library: many numbers have no more.
pub fn places(x: u64) -> usize
    ensures { result ≡ length (decimal x) }
{
    if x < 10 {
        return 1;
    }
    let mut buffer = Buffer::new();
    buffer.format(x).len()
}

impl Cursor<'_> {
    // Puts one byte.
    fn byte(&mut self, b: u8)
        requires { HasRoom self.old 1 }
        ensures puts { Puts (b ∷ []) self.old self.new }
        ensures same { SameBuffer self.old self.new }
    {
        self.out[self.at] = b;
        self.at += 1;
    }

    // Puts a word, or any bytes, as they are.
    pub fn word(&mut self, word: &[u8])
        requires { HasRoom self.old (length word.now) }
        ensures puts { Puts word.now self.old self.new }
        ensures same { SameBuffer self.old self.new }
    {
        let behind = self.at + word.len();
        self.out[self.at..behind].copy_from_slice(word);
        self.at = behind;
    }

    // Puts the digits of a number.
    // One digit is put without the library: many numbers have no more.
    pub fn decimal(&mut self, x: u64)
        requires { HasRoom self.old (length (decimal x)) }
        ensures puts { Puts (decimal x) self.old self.new }
        ensures same { SameBuffer self.old self.new }
    {
        if x < 10 {
            self.byte(b'0' + x as u8);
        } else {
            let mut buffer = Buffer::new();
            self.word(buffer.format(x).as_bytes());
        }
    }

    // Puts a field: a space and a number.
    pub fn field(&mut self, x: u64)
        requires { HasRoom self.old most_field }
        ensures puts { Puts (field x) self.old self.new }
        ensures same { SameBuffer self.old self.new }
    {
        self.byte(b' ');
        self.decimal(x);
    }

    // Puts the value of a cell code: a field, or a dash for null.
    fn value(&mut self, code: u64)
        requires { HasRoom self.old most_field }
        ensures puts { Puts (value code) self.old self.new }
        ensures same { SameBuffer self.old self.new }
    {
        if code == 0 {
            self.word(b" -");
        } else {
            self.field(code - 1);
        }
    }

    // Puts numbers as fields, one behind the other.
    fn fields(&mut self, numbers: &[u64])
        requires { HasRoom self.old (most_field * length numbers.now) }
        ensures puts { Puts (fields numbers.now) self.old self.new }
        ensures same { SameBuffer self.old self.new }
    {
        for x in numbers {
            self.field(*x);
        }
    }

    // Puts the row numbers of a set among n tables as fields; a table without a row in it has 0.
    fn rows(&mut self, key: Key, n: usize)
        requires { (n ≤ most_tables) × HasRoom self.old (most_field * n) }
        ensures puts { Puts (fields (rows_in bits_per_row n (number_of key))) self.old self.new }
        ensures same { SameBuffer self.old self.new }
    {
        for t in 0..n {
            self.field(key.row(t));
        }
    }

    // Puts the values of a padded row of m attributes. The lent row may be longer; what lies behind is not its own.
    fn values(&mut self, padded: &[u64], m: usize)
        requires { (m ≤ length padded.now) × HasRoom self.old (most_field * m) }
        ensures puts { Puts (values (take m padded.now)) self.old self.new }
        ensures same { SameBuffer self.old self.new }
    {
        for code in &padded[..m] {
            self.value(*code);
        }
    }

    // Puts a line of a word and as many numbers as are given.
    // The first line, the last one and every refusal are such lines.
    pub fn line(&mut self, word: &[u8], numbers: &[u64])
        requires { HasRoom self.old (length word.now + most_field * length numbers.now + 1) }
        ensures puts { Puts (line word.now numbers.now) self.old self.new }
        ensures same { SameBuffer self.old self.new }
    {
        self.word(word);
        self.fields(numbers);
        self.byte(b'\n');
    }

    // Puts the end of a set's line: the bar, and its padded row.
    fn padded(&mut self, padded: &[u64], m: usize)
        requires { (m ≤ length padded.now) × HasRoom self.old (2 + most_field * m + 1) }
        ensures puts { Puts (padded_end (take m padded.now)) self.old self.new }
        ensures same { SameBuffer self.old self.new }
    {
        self.word(b" |");
        self.values(padded, m);
        self.byte(b'\n');
    }

    // Puts the line of a set: its row numbers, a bar, and its padded row.
    pub fn set(&mut self, key: Key, n: usize, padded: &[u64], m: usize)
        requires { (n ≤ most_tables) × (m ≤ length padded.now) × HasRoom self.old (set_room n m) }
        ensures puts { Puts (set_line (rows_in bits_per_row n (number_of key)) (take m padded.now)) self.old self.new }
        ensures same { SameBuffer self.old self.new }
    {
        self.word(b"set");
        self.rows(key, n);
        self.padded(padded, m);
    }
}

// The number that digits worth v make with one byte more; none where that is no digit, or where no word of the machine holds the number.
fn go_on(v: u64, b: u8) -> Option<u64>
    ensures { result ≡ cond (goes_on v b) (Some (v * 10 + (b - 48))) None }
{
    if !b.is_ascii_digit() {
        return None;
    }
    v.checked_mul(10)?.checked_add(u64::from(b - b'0'))
}

// Reads a number in decimal digits.
// No byte at all, another byte than a digit, and a number that is too large say something else: the library's reading takes a sign in front.
pub fn read_decimal(word: &[u8]) -> Option<u64>
    ensures { word_in result ≡ word_of word.now }
{
    if word.is_empty() {
        return None;
    }
    let mut v = 0;
    for b in word {
        v = go_on(v, *b)?;
    }
    Some(v)
}
