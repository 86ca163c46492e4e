#![tactic(auto)]

// The library's calls for C and Rust: numbers and slices alone, a catalogue as 34 words.
ghost use Rattle.std.specs.Prelude.{◌≡◌, ◌+◌, ◌≤◌, ◌<◌, length, get_or, set, ltb};
ghost use Rattle.laws.specs.Lists.{put, part};
ghost use Rattle.tables.specs.Sizes.{most_tables};
ghost use Rattle.abi.specs.Words.{schemes_at, catalogue_words, words_of, short_in, shorts_in, catalogue_in};
ghost use Rattle.abi.specs.Calls.{make_short, LoadCall, MakeCall, WriteCall};

use tables::Catalogue;
use verdicts::Verdict;

pub mod lists;
pub mod streams;

// The words of a catalogue: m, n, and eight each of schemes, row counts, places and masks.
const CATALOGUE_WORDS: usize = 34;

// How many of them say what the tables are, and where each eight begin.
const TABLE_WORDS: usize = 18;

const SCHEMES_AT: usize = 2;

const COUNTS_AT: usize = 10;

const PLACES_AT: usize = 18;

const MASKS_AT: usize = 26;

// The word of a catalogue at a place: m, n, the eight schemes, the eight row counts, the eight places, the eight masks.
// One function says the order, so that the copy is a single loop.
fn word_of(cat: Catalogue, i: usize) -> u64
    requires { i < catalogue_words }
    ensures { result ≡ get_or (words_of cat) i 0 }
{
    if i < 1 {
        return cat.m as u64;
    }
    if i < 2 {
        return cat.n as u64;
    }
    if i < COUNTS_AT {
        return cat.schemes[i - SCHEMES_AT];
    }
    if i < PLACES_AT {
        return cat.rows[i - COUNTS_AT] as u64;
    }
    if i < MASKS_AT {
        return cat.places[i - PLACES_AT] as u64;
    }
    cat.touching[i - MASKS_AT] as u64
}

// Copies a catalogue into the front of the lent words.
// A caller may lend more; what lies behind the 34 words stays.
fn put_catalogue(cat: Catalogue, words: &mut [u64])
    requires { catalogue_words ≤ length words.old }
    ensures { words.new ≡ put (words_of cat) words.old }
{
    for i in 0..CATALOGUE_WORDS {
        words[i] = word_of(cat, i);
    }
}

// A word as a number of 16 bits.
// One that they do not hold becomes the highest, which is refused as the word would be.
fn short_in(words: &[u64], i: usize) -> u16
    requires { i < length words.now }
    ensures { result ≡ short_in words.now i }
{
    words[i].min(u64::from(u16::MAX)) as u16
}

// Eight words from a place on as numbers of 16 bits: row counts, places or masks.
fn shorts_in(words: &[u64], from: usize) -> [u16; 8]
    requires { from + most_tables ≤ length words.now }
    ensures { result ≡ shorts_in words.now from }
{
    let mut shorts = [0; 8];
    for t in 0..8 {
        shorts[t] = short_in(words, from + t);
    }
    shorts
}

// The eight schemes among the words.
fn schemes_in(words: &[u64]) -> [u64; 8]
    requires { schemes_at + most_tables ≤ length words.now }
    ensures { result ≡ part schemes_at most_tables words.now }
{
    let mut schemes = [0; 8];
    schemes.copy_from_slice(&words[SCHEMES_AT..COUNTS_AT]);
    schemes
}

// The catalogue that the front of the lent words holds.
// Nothing is judged here: each call refuses what is out of range or not as it is worked out.
fn catalogue_in(words: &[u64]) -> Catalogue
    requires { catalogue_words ≤ length words.now }
    ensures { result ≡ catalogue_in words.now }
{
    let schemes = schemes_in(words);
    let rows = shorts_in(words, COUNTS_AT);
    let places = shorts_in(words, PLACES_AT);
    let touching = shorts_in(words, MASKS_AT);
    Catalogue {
        m: words[0] as usize,
        n: words[1] as usize,
        schemes,
        rows,
        places,
        touching,
    }
}

// Whether so many lent words are too few for a catalogue.
// Each call asks it first, so that a short slice changes nothing.
fn too_few(words: usize) -> bool
    ensures { result ≡ ltb words catalogue_words }
{
    words < CATALOGUE_WORDS
}

// Whether the lent words are too few to make a catalogue: those that say what the tables are, or those that it is copied into.
fn make_short(given: &[u64], catalogue: &[u64]) -> bool
    ensures { result ≡ make_short given.now catalogue.now }
{
    if given.len() < TABLE_WORDS {
        return true;
    }
    too_few(catalogue.len())
}

// Puts a count into the first of the lent words, where there is one.
// Who does not ask for the count lends no word.
fn put_count(count: u64, words: &mut [u64])
    ensures { words.new ≡ set words.old 0 count }
{
    if 0 < words.len() {
        words[0] = count;
    }
}

// Loads an image into the lent cells, its catalogue into the lent words, and the count of the bytes looked at into `looked`.
// The answer is the door's number (0 for good, else place x 32 + refusal), or 31 where the words are too few.
pub fn harbour_load(
    image: &[u8],
    cells: &mut [u64],
    catalogue: &mut [u64],
    looked: &mut [u64],
) -> u64
    ensures { LoadCall image.now cells.old catalogue.old looked.old result cells.new catalogue.new looked.new }
{
    if too_few(catalogue.len()) {
        return 31;
    }
    let loaded = loader::load(image, cells);
    put_catalogue(loaded.unwrap_or(tables::no_tables()), catalogue);
    let verdict = Verdict::of(&loaded);
    put_count(verdicts::looked_of(verdict), looked);
    verdicts::number_of(verdict)
}

// Makes the catalogue of tables made by hand, whose m, n, schemes and row counts are the front of the lent words.
// The answer is 0, or the first of 4, 5, 6 and 8 with a catalogue of zeros, or 31 where the words are too few.
pub fn harbour_make_catalogue(given: &[u64], catalogue: &mut [u64]) -> u64
    ensures { MakeCall given.now catalogue.old result catalogue.new }
{
    if make_short(given, catalogue) {
        return 31;
    }
    let schemes = schemes_in(given);
    let rows = shorts_in(given, COUNTS_AT);
    match tables::make_catalogue(given[0] as usize, given[1] as usize, schemes, rows) {
        Ok(cat) => {
            put_catalogue(cat, catalogue);
            0
        }
        Err(refusal) => {
            put_catalogue(tables::no_tables(), catalogue);
            u64::from(refusal)
        }
    }
}

// Writes the image of tables into the lent bytes.
// The answer is the length x 32, or the refusal, or 31 where the words are too few.
pub fn harbour_write(catalogue: &[u64], cells: &[u64], out: &mut [u8]) -> u64
    ensures { WriteCall catalogue.now cells.now out.old result out.new }
{
    if too_few(catalogue.len()) {
        return 31;
    }
    let cat = catalogue_in(catalogue);
    match writer::write(cat, cells, out) {
        Ok(n) => (n as u64) * 32,
        Err(refusal) => u64::from(refusal),
    }
}
