#![tactic(auto)]

// Callers of the public calls, one for each, that promise what they were promised and do nothing else.
// They are here for the check: a public contract that loses its promise, or says less, is not enough for its caller here. Nothing else calls them.
ghost use Rattle.tables.specs.Checks.{made_of, Makes};
ghost use Rattle.loader.specs.Load.{loaded_of, Loads};
ghost use Rattle.writer.specs.Written.{as_written};
ghost use Rattle.writer.specs.Write.{Writes};
ghost use Rattle.padding.specs.Covering.{Covers};
ghost use Rattle.stream.specs.Answers.{open_answer_of, holding_open_answer_of, step_answer_of, holding_step_answer_of};
ghost use Rattle.stream.specs.Promises.{Opens, Steps, OpensHolding, StepsHolding};
ghost use Rattle.harbour.specs.Answers.{next_answer_of, Nexts, NextsHolding};
ghost use Rattle.door.specs.Door.{Checks};
ghost use Rattle.hub.specs.Answers.{told_of};
ghost use Rattle.hub.specs.Promises.{ChecksList};
ghost use Rattle.abi.specs.Lists.{ListCall};
ghost use Rattle.abi.specs.Calls.{LoadCall, MakeCall, WriteCall, CoversCall};
ghost use Rattle.abi.specs.Streams.{OpenCall, NextCall, OpenHoldingCall, NextHoldingCall};

use harbour::{
    Catalogue, Fault, HoldingRecord, ListVerdict, NextAnswer, Opened, Refusal, Stepped,
    StreamRecord,
};

// Calls `harbour::load`.
pub fn load(image: &[u8], cells: &mut [u64]) -> Result<Catalogue, Fault>
    ensures { Loads image.now cells.old (loaded_of result) cells.new }
{
    harbour::load(image, cells)
}

// Calls `harbour::make_catalogue`.
pub fn make_catalogue(
    m: usize,
    n: usize,
    schemes: [u64; 8],
    rows: [u16; 8],
) -> Result<Catalogue, Refusal>
    ensures { Makes m n schemes rows (made_of result) }
{
    harbour::make_catalogue(m, n, schemes, rows)
}

// Calls `harbour::write`.
pub fn write(cat: Catalogue, cells: &[u64], out: &mut [u8]) -> Result<usize, Refusal>
    ensures { Writes cat cells.now out.old (as_written result) out.new }
{
    harbour::write(cat, cells, out)
}

// Calls `harbour::open`.
pub fn open(
    cat: Catalogue,
    cells: &[u64],
    low: &mut [u64],
    high: &mut [u64],
    left: &mut [u16],
    right: &mut [u16],
) -> Result<Opened<StreamRecord>, Refusal>
    ensures { Opens cat cells.now low.old high.old left.old right.old (open_answer_of result) low.new high.new left.new right.new }
{
    harbour::open(cat, cells, low, high, left, right)
}

// Calls `harbour::next`.
pub fn next(
    cat: Catalogue,
    cells: &[u64],
    low: &mut [u64],
    high: &mut [u64],
    left: &mut [u16],
    right: &mut [u16],
    stream: &mut StreamRecord,
    budget: usize,
    padded: &mut [u64],
) -> NextAnswer
    ensures { Nexts cat cells.now low.old high.old left.old right.old stream.old budget padded.old (next_answer_of result) stream.new low.new high.new left.new right.new padded.new }
{
    harbour::next(cat, cells, low, high, left, right, stream, budget, padded)
}

// Calls `harbour::step`.
pub fn step(
    cat: Catalogue,
    cells: &[u64],
    low: &mut [u64],
    high: &mut [u64],
    left: &mut [u16],
    right: &mut [u16],
    stream: StreamRecord,
    budget: usize,
    padded: &mut [u64],
) -> Stepped<StreamRecord>
    ensures { Steps cat cells.now low.old high.old left.old right.old stream budget padded.old (step_answer_of result) low.new high.new left.new right.new padded.new }
{
    harbour::step(cat, cells, low, high, left, right, stream, budget, padded)
}

// Calls `harbour::open_holding`.
pub fn open_holding(
    cat: Catalogue,
    cells: &[u64],
    low: &mut [u64],
    high: &mut [u64],
    left: &mut [u16],
    right: &mut [u16],
    table: usize,
    row: usize,
) -> Result<Opened<HoldingRecord>, Refusal>
    ensures { OpensHolding cat cells.now low.old high.old left.old right.old table row (holding_open_answer_of result) low.new high.new left.new right.new }
{
    harbour::open_holding(cat, cells, low, high, left, right, table, row)
}

// Calls `harbour::next_holding`.
pub fn next_holding(
    cat: Catalogue,
    cells: &[u64],
    low: &mut [u64],
    high: &mut [u64],
    left: &mut [u16],
    right: &mut [u16],
    stream: &mut HoldingRecord,
    budget: usize,
    padded: &mut [u64],
) -> NextAnswer
    ensures { NextsHolding cat cells.now low.old high.old left.old right.old stream.old budget padded.old (next_answer_of result) stream.new low.new high.new left.new right.new padded.new }
{
    harbour::next_holding(cat, cells, low, high, left, right, stream, budget, padded)
}

// Calls `harbour::step_holding`.
pub fn step_holding(
    cat: Catalogue,
    cells: &[u64],
    low: &mut [u64],
    high: &mut [u64],
    left: &mut [u16],
    right: &mut [u16],
    stream: HoldingRecord,
    budget: usize,
    padded: &mut [u64],
) -> Stepped<HoldingRecord>
    ensures { StepsHolding cat cells.now low.old high.old left.old right.old stream budget padded.old (holding_step_answer_of result) low.new high.new left.new right.new padded.new }
{
    harbour::step_holding(cat, cells, low, high, left, right, stream, budget, padded)
}

// Calls `harbour::covers`.
pub fn covers(first: &[u64], second: &[u64]) -> bool
    ensures { Covers first.now second.now result }
{
    harbour::covers(first, second)
}

// Calls `door::harbour_check`.
pub fn check(image: &[u8]) -> u64
    ensures { Checks image.now result }
{
    door::harbour_check(image)
}

// Calls `abi::harbour_load`.
pub fn load_words(image: &[u8], cells: &mut [u64], catalogue: &mut [u64], looked: &mut [u64]) -> u64
    ensures { LoadCall image.now cells.old catalogue.old looked.old result cells.new catalogue.new looked.new }
{
    abi::harbour_load(image, cells, catalogue, looked)
}

// Calls `abi::harbour_make_catalogue`.
pub fn harbour_make_catalogue(given: &[u64], catalogue: &mut [u64]) -> u64
    ensures { MakeCall given.now catalogue.old result catalogue.new }
{
    abi::harbour_make_catalogue(given, catalogue)
}

// Calls `abi::harbour_write`.
pub fn write_words(catalogue: &[u64], cells: &[u64], out: &mut [u8]) -> u64
    ensures { WriteCall catalogue.now cells.now out.old result out.new }
{
    abi::harbour_write(catalogue, cells, out)
}

// Calls `abi::streams::harbour_open`.
pub fn open_words(
    catalogue: &[u64],
    cells: &[u64],
    low: &mut [u64],
    high: &mut [u64],
    left: &mut [u16],
    right: &mut [u16],
    words: &mut [u64],
) -> u64
    ensures { OpenCall catalogue.now cells.now low.old high.old left.old right.old words.old result low.new high.new left.new right.new words.new }
{
    abi::streams::harbour_open(catalogue, cells, low, high, left, right, words)
}

// Calls `abi::streams::harbour_next`.
pub fn next_words(
    catalogue: &[u64],
    cells: &[u64],
    low: &mut [u64],
    high: &mut [u64],
    left: &mut [u16],
    right: &mut [u16],
    words: &mut [u64],
    budget: u64,
    padded: &mut [u64],
    res: &mut [u64],
) -> u64
    ensures { NextCall catalogue.now cells.now low.old high.old left.old right.old words.old budget padded.old res.old result low.new high.new left.new right.new words.new padded.new res.new }
{
    abi::streams::harbour_next(
        catalogue, cells, low, high, left, right, words, budget, padded, res,
    )
}

// Calls `abi::streams::harbour_open_holding`.
pub fn open_holding_words(
    catalogue: &[u64],
    cells: &[u64],
    low: &mut [u64],
    high: &mut [u64],
    left: &mut [u16],
    right: &mut [u16],
    table: u64,
    row: u64,
    words: &mut [u64],
) -> u64
    ensures { OpenHoldingCall catalogue.now cells.now low.old high.old left.old right.old table row words.old result low.new high.new left.new right.new words.new }
{
    abi::streams::harbour_open_holding(catalogue, cells, low, high, left, right, table, row, words)
}

// Calls `abi::streams::harbour_next_holding`.
pub fn next_holding_words(
    catalogue: &[u64],
    cells: &[u64],
    low: &mut [u64],
    high: &mut [u64],
    left: &mut [u16],
    right: &mut [u16],
    words: &mut [u64],
    budget: u64,
    padded: &mut [u64],
    res: &mut [u64],
) -> u64
    ensures { NextHoldingCall catalogue.now cells.now low.old high.old left.old right.old words.old budget padded.old res.old result low.new high.new left.new right.new words.new padded.new res.new }
{
    abi::streams::harbour_next_holding(
        catalogue, cells, low, high, left, right, words, budget, padded, res,
    )
}

// Calls `abi::streams::harbour_covers`.
pub fn covers_words(first: &[u64], second: &[u64]) -> u64
    ensures { CoversCall first.now second.now result }
{
    abi::streams::harbour_covers(first, second)
}

// Calls `harbour::check_list`.
pub fn check_list(
    cat: Catalogue,
    cells: &[u64],
    listed_low: &[u64],
    listed_high: &[u64],
) -> Result<ListVerdict, Refusal>
    ensures { ChecksList cat cells.now listed_low.now listed_high.now (told_of result) }
{
    harbour::check_list(cat, cells, listed_low, listed_high)
}

// Calls `abi::lists::harbour_check_list`.
pub fn check_list_words(
    catalogue: &[u64],
    cells: &[u64],
    listed_low: &[u64],
    listed_high: &[u64],
    res: &mut [u64],
) -> u64
    ensures { ListCall catalogue.now cells.now listed_low.now listed_high.now res.old result res.new }
{
    abi::lists::harbour_check_list(catalogue, cells, listed_low, listed_high, res)
}
