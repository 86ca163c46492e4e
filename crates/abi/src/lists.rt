// The check of a list of keys for C and Rust: the list is two slices of words, and the place or the key that an answer names comes into two lent words.
ghost use Rattle.std.specs.Prelude.{◌≡◌};
ghost use Rattle.hub.specs.Answers.{told_of};
ghost use Rattle.abi.specs.Lists.{verdict_number, named_words, list_short, ListCall};

use hub::ListVerdict;
use refusals::Refusal;

// The words of what an answer names.
const VERDICT_WORDS: usize = 2;

// An answer as a number: a refusal's own, else 32 for a right list, 64 for an entry, 96 for a set that is missing.
// And the words of what it names: the place of an entry, or the two of a missing set's key, and 0 otherwise. No refusal's number is as high as 32.
fn told(answer: Result<ListVerdict, Refusal>) -> (u64, [u64; VERDICT_WORDS])
    ensures { (result.0 ≡ verdict_number (told_of answer)) × (result.1 ≡ named_words (told_of answer)) }
{
    match answer {
        Err(refusal) => (u64::from(refusal), [0, 0]),
        Ok(ListVerdict::Right) => (32, [0, 0]),
        Ok(ListVerdict::Entry(i)) => (64, [i as u64, 0]),
        Ok(ListVerdict::Missing(key)) => (96, [key.low, key.high]),
    }
}

// Whether the lent words are too few: those of a catalogue, or the two for the answer.
// It is asked first, so that a short slice changes nothing.
fn list_short(catalogue: &[u64], res: &[u64]) -> bool
    ensures { result ≡ list_short catalogue.now res.now }
{
    crate::too_few(catalogue.len()) || res.len() < VERDICT_WORDS
}

// Checks a list of keys: whether it holds every maximal set once and nothing else.
// The answer is its number, or 31 where the words are too few; the two words at the front of the result are what it names.
pub fn harbour_check_list(
    catalogue: &[u64],
    cells: &[u64],
    listed_low: &[u64],
    listed_high: &[u64],
    res: &mut [u64],
) -> u64
    ensures { ListCall catalogue.now cells.now listed_low.now listed_high.now res.old result res.new }
{
    if list_short(catalogue, res) {
        return 31;
    }
    let cat = crate::catalogue_in(catalogue);
    let answer = hub::check_list(cat, cells, listed_low, listed_high);
    let (number, named) = told(answer);
    res[..VERDICT_WORDS].copy_from_slice(&named);
    number
}
