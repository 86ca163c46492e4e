// The stream's calls for C and Rust: the store in four slices, a record as 3 words (5 where it names a row), a result as 5, its key first.
ghost use Rattle.std.specs.Prelude.{◌≡◌, ◌≤◌, ◌++◌, false, length};
ghost use Rattle.laws.specs.Lists.{put};
ghost use Rattle.keys.specs.TwoWords.{low_of, high_of, number_of};
ghost use Rattle.machine.specs.Machine.{opening_for, blank, call};
ghost use Rattle.stream.specs.Answers.{zeros, answer_in, key_in};
ghost use Rattle.stream.specs.Promises.{asked_of, state_with, says_of};
ghost use Rattle.abi.specs.Words.{catalogue_words, catalogue_in};
ghost use Rattle.abi.specs.Calls.{CoversCall};
ghost use Rattle.abi.specs.Streams.{record_words, result_words, words_for, words_of_record, words_of_asked, record_in, result_of, answer_number, open_short, next_short, Opening, Calling, OpenCall, NextCall, OpenHoldingCall, NextHoldingCall};

use keys::Key;
use stream::{Answer, Counts, Opened, Scope, StreamRecord};
use tables::Row;

// The words of a stream record, and of one that names a row.
const RECORD_WORDS: usize = 3;

const HOLDING_WORDS: usize = 5;

// The words of a result.
const RESULT_WORDS: usize = 5;

// The stream record that the front of the lent words holds.
// Nothing is judged here: the call refuses a record that does not fit.
fn record_in(words: &[u64]) -> StreamRecord
    requires { record_words ≤ length words.now }
    ensures { result ≡ record_in words.now }
{
    StreamRecord {
        found: words[0] as usize,
        taken: words[1] as usize,
        next_row: words[2] as usize,
    }
}

// Copies a stream record into the front of the lent words, with the row that it names where it names one.
// What lies behind them stays.
fn put_record(stream: StreamRecord, scope: Scope, words: &mut [u64])
    requires { words_for (asked_of scope) ≤ length words.old }
    ensures { words.new ≡ put (words_of_record stream ++ words_of_asked (asked_of scope)) words.old }
{
    words[0] = stream.found as u64;
    words[1] = stream.taken as u64;
    words[2] = stream.next_row as u64;
    if let Scope::With(x) = scope {
        words[3] = x.table as u64;
        words[4] = x.row as u64;
    }
}

// Copies a record of zeros, which a refused open gives: where it names a row, that is row 0 of table 0.
fn put_zeros(scope: Scope, words: &mut [u64])
    requires { words_for (asked_of scope) ≤ length words.old }
    ensures { words.new ≡ put (words_of_record zeros ++ words_of_asked (blank (asked_of scope))) words.old }
{
    let nowhere = match scope {
        Scope::Every => Scope::Every,
        Scope::With(_) => Scope::With(Row { table: 0, row: 0 }),
    };
    let stream = StreamRecord {
        found: 0,
        taken: 0,
        next_row: 0,
    };
    put_record(stream, nowhere, words);
}

// The key of a set, or else that of no row.
fn key_of(answer: Answer) -> Key
    ensures { number_of result ≡ number_of (key_in answer) }
{
    match answer {
        Answer::Set(key) => key,
        Answer::Finished | Answer::Working | Answer::Refused(_) => Key::none(),
    }
}

// Copies a key and the counts of an answer into the front of the lent words.
// What lies behind the 5 words stays.
fn put_result(key: Key, counts: Counts, words: &mut [u64])
    requires { result_words ≤ length words.old }
    ensures { words.new ≡ put (result_of (low_of (number_of key)) (high_of (number_of key)) counts.trials counts.tests counts.looks) words.old }
{
    words[0] = key.low;
    words[1] = key.high;
    words[2] = counts.trials as u64;
    words[3] = counts.tests as u64;
    words[4] = counts.looks as u64;
}

// An answer as a number: a refusal's own, else 32 for a set, 64 for the end, 96 for a spent budget.
// No refusal's number is as high as 32.
fn number_of(answer: Answer) -> u64
    ensures { result ≡ answer_number (says_of (answer_in answer)) }
{
    match answer {
        Answer::Set(_) => 32,
        Answer::Finished => 64,
        Answer::Working => 96,
        Answer::Refused(refusal) => u64::from(refusal),
    }
}

// Whether the lent words are too few to open a stream whose record has so many.
// It is asked first, so that a short slice changes nothing.
fn open_short(catalogue: &[u64], words: &[u64], needed: usize) -> bool
    ensures { result ≡ open_short needed catalogue.now words.now }
{
    crate::too_few(catalogue.len()) || words.len() < needed
}

// Whether the lent words are too few for a call of a stream whose record has so many.
// It is asked first, so that a short slice changes nothing.
fn next_short(catalogue: &[u64], words: &[u64], res: &[u64], needed: usize) -> bool
    ensures { result ≡ next_short needed catalogue.now words.now res.now }
{
    open_short(catalogue, words, needed) || res.len() < RESULT_WORDS
}

// Opens a stream of what is asked for, and copies its record into the lent words: a record of zeros where it is refused.
// The answer is row tests x 32, or the refusal.
fn open_for(
    catalogue: &[u64],
    cells: &[u64],
    low: &mut [u64],
    high: &mut [u64],
    left: &mut [u16],
    right: &mut [u16],
    scope: Scope,
    words: &mut [u64],
) -> u64
    requires { (catalogue_words ≤ length catalogue.now) × (words_for (asked_of scope) ≤ length words.old) }
    ensures { Opening false (opening_for (catalogue_in catalogue.now) cells.now (asked_of scope) low.old high.old left.old right.old) low.old high.old left.old right.old words.old result low.new high.new left.new right.new words.new }
{
    let cat = crate::catalogue_in(catalogue);
    match stream::open_for(cat, cells, low, high, left, right, scope) {
        Ok(Opened { stream, tests }) => {
            put_record(stream, scope, words);
            (tests as u64) * 32
        }
        Err(refusal) => {
            put_zeros(scope, words);
            u64::from(refusal)
        }
    }
}

// One call of a stream of what is asked for, whose record is moved on in the lent words.
// The answer is its number.
fn next_for(
    catalogue: &[u64],
    cells: &[u64],
    low: &mut [u64],
    high: &mut [u64],
    left: &mut [u16],
    right: &mut [u16],
    words: &mut [u64],
    scope: Scope,
    budget: u64,
    padded: &mut [u64],
    res: &mut [u64],
) -> u64
    requires { (catalogue_words ≤ length catalogue.now) × (words_for (asked_of scope) ≤ length words.old) × (result_words ≤ length res.old) }
    ensures { Calling false (call (catalogue_in catalogue.now) cells.now budget (state_with (asked_of scope) (record_in words.old) low.old high.old left.old right.old) padded.old) low.old high.old left.old right.old words.old padded.old res.old result low.new high.new left.new right.new words.new padded.new res.new }
{
    let cat = crate::catalogue_in(catalogue);
    let before = record_in(words);
    let budget = budget as usize;
    let stepped = stream::step_for(
        cat, cells, low, high, left, right, before, scope, budget, padded,
    );
    put_record(stepped.stream, scope, words);
    put_result(key_of(stepped.answer), stepped.counts, res);
    number_of(stepped.answer)
}

// Opens a stream on the tables, and copies its record into the lent words.
// The answer is row tests x 32, or the refusal, or 31 where the words are too few.
pub fn harbour_open(
    catalogue: &[u64],
    cells: &[u64],
    low: &mut [u64],
    high: &mut [u64],
    left: &mut [u16],
    right: &mut [u16],
    words: &mut [u64],
) -> u64
    ensures { OpenCall catalogue.now cells.now low.old high.old left.old right.old words.old result low.new high.new left.new right.new words.new }
{
    if open_short(catalogue, words, RECORD_WORDS) {
        return 31;
    }
    let scope = Scope::Every;
    open_for(catalogue, cells, low, high, left, right, scope, words)
}

// One call of an open stream with a budget of trials; its record is moved on in the lent words.
// The answer is its number, or 31 where the words are too few.
pub fn harbour_next(
    catalogue: &[u64],
    cells: &[u64],
    low: &mut [u64],
    high: &mut [u64],
    left: &mut [u16],
    right: &mut [u16],
    words: &mut [u64],
    budget: u64,
    padded: &mut [u64],
    res: &mut [u64],
) -> u64
    ensures { NextCall catalogue.now cells.now low.old high.old left.old right.old words.old budget padded.old res.old result low.new high.new left.new right.new words.new padded.new res.new }
{
    if next_short(catalogue, words, res, RECORD_WORDS) {
        return 31;
    }
    let scope = Scope::Every;
    next_for(
        catalogue, cells, low, high, left, right, words, scope, budget, padded, res,
    )
}

// Opens a stream of the sets that hold one row of a table, and copies its record into the lent words.
// The answer is row tests x 32, or the refusal, or 31 where the words are too few.
pub fn harbour_open_holding(
    catalogue: &[u64],
    cells: &[u64],
    low: &mut [u64],
    high: &mut [u64],
    left: &mut [u16],
    right: &mut [u16],
    table: u64,
    row: u64,
    words: &mut [u64],
) -> u64
    ensures { OpenHoldingCall catalogue.now cells.now low.old high.old left.old right.old table row words.old result low.new high.new left.new right.new words.new }
{
    if open_short(catalogue, words, HOLDING_WORDS) {
        return 31;
    }
    let scope = Scope::With(Row {
        table: table as usize,
        row: row as usize,
    });
    open_for(catalogue, cells, low, high, left, right, scope, words)
}

// One call of a stream of the sets that hold one row; its record is moved on in the lent words.
// The answer is its number, or 31 where the words are too few.
pub fn harbour_next_holding(
    catalogue: &[u64],
    cells: &[u64],
    low: &mut [u64],
    high: &mut [u64],
    left: &mut [u16],
    right: &mut [u16],
    words: &mut [u64],
    budget: u64,
    padded: &mut [u64],
    res: &mut [u64],
) -> u64
    ensures { NextHoldingCall catalogue.now cells.now low.old high.old left.old right.old words.old budget padded.old res.old result low.new high.new left.new right.new words.new padded.new res.new }
{
    if next_short(catalogue, words, res, HOLDING_WORDS) {
        return 31;
    }
    let scope = Scope::With(Row {
        table: words[3] as usize,
        row: words[4] as usize,
    });
    next_for(
        catalogue, cells, low, high, left, right, words, scope, budget, padded, res,
    )
}

// Whether one padded row covers another: 1 for yes, 0 for no.
// The rows may have any length.
pub fn harbour_covers(first: &[u64], second: &[u64]) -> u64
    ensures { CoversCall first.now second.now result }
{
    u64::from(padding::covers(first, second))
}
