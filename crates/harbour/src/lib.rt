#![tactic(auto)]

// The public calls of the library: load and write an image, make a catalogue, open a stream and move it on, check a list of sets, and ask whether one padded row covers another.
// None asks anything of its caller, and each promise stands here once: one outcome for every input, refusals too.
ghost use Rattle.padding.specs.Covering.{Covers};
ghost use Rattle.tables.specs.Checks.{made_of, Makes};
ghost use Rattle.writer.specs.Written.{as_written};
ghost use Rattle.loader.specs.Load.{loaded_of, Loads};
ghost use Rattle.writer.specs.Write.{Writes};
ghost use Rattle.stream.specs.Answers.{open_answer_of, holding_open_answer_of, step_answer_of, holding_step_answer_of};
ghost use Rattle.stream.specs.Promises.{Opens, Steps, OpensHolding, StepsHolding};
ghost use Rattle.harbour.specs.Answers.{next_answer_of, Nexts, NextsHolding};
ghost use Rattle.hub.specs.Answers.{told_of};
ghost use Rattle.hub.specs.Promises.{ChecksList};

pub use hub::ListVerdict;
pub use keys::Key;
pub use loader::Fault;
pub use refusals::Refusal;
pub use stream::{Answer, Counts, HoldingRecord, Opened, Stepped, StreamRecord};
pub use tables::Catalogue;

// What the thin call answers: the answer, and its counts.
// The record is not in it: the call has moved it on where it lies.
#[derive(Clone, Copy)]
pub struct NextAnswer {
    pub answer: Answer,
    pub counts: Counts,
}

// Loads an image: its catalogue, and its cells into the front of those lent.
// The answer is the first fault in reading order, or none; a refused image leaves the cells as they were.
pub fn load(image: &[u8], cells: &mut [u64]) -> Result<Catalogue, Fault>
    ensures { Loads image.now cells.old (loaded_of result) cells.new }
{
    loader::load(image, cells)
}

// Makes the catalogue of tables made by hand from m, n, schemes and row counts: places and masks are worked out.
// The answer is the first of 4, 5, 6 and 8 (of 8,192 cells), or the catalogue.
pub fn make_catalogue(
    m: usize,
    n: usize,
    schemes: [u64; 8],
    rows: [u16; 8],
) -> Result<Catalogue, Refusal>
    ensures { Makes m n schemes rows (made_of result) }
{
    tables::make_catalogue(m, n, schemes, rows)
}

// Writes the image of the tables into the front of the lent bytes, and gives its length.
// The answer is the first fault in image order, or the length; a refusal writes nothing.
pub fn write(cat: Catalogue, cells: &[u64], out: &mut [u8]) -> Result<usize, Refusal>
    ensures { Writes cat cells.now out.old (as_written result) out.new }
{
    writer::write(cat, cells, out)
}

// Opens a stream on the tables, in the store that the four slices make.
// All that it gives, and all that the slices then hold, is the paper's open.
pub fn open(
    cat: Catalogue,
    cells: &[u64],
    low: &mut [u64],
    high: &mut [u64],
    left: &mut [u16],
    right: &mut [u16],
) -> Result<Opened<StreamRecord>, Refusal>
    ensures { Opens cat cells.now low.old high.old left.old right.old (open_answer_of result) low.new high.new left.new right.new }
{
    stream::open(cat, cells, low, high, left, right)
}

// One call of an open stream with a budget of trials: the thin call, which takes the record by `&mut` and moves it on in place.
// All that it gives, counts too, the record that it leaves, and all that the slices then hold, is the paper's stream call.
pub fn next(
    cat: Catalogue,
    cells: &[u64],
    low: &mut [u64],
    high: &mut [u64],
    left: &mut [u16],
    right: &mut [u16],
    stream: &mut StreamRecord,
    budget: usize,
    padded: &mut [u64],
) -> NextAnswer
    ensures { Nexts cat cells.now low.old high.old left.old right.old stream.old budget padded.old (next_answer_of result) stream.new low.new high.new left.new right.new padded.new }
{
    let Stepped {
        answer,
        counts,
        stream: after,
    } = stream::step(cat, cells, low, high, left, right, *stream, budget, padded);
    *stream = after;
    NextAnswer { answer, counts }
}

// One call of an open stream with a budget of trials; the record goes in by value and comes back moved on.
// All that it gives, counts too, and all that the slices then hold, is the paper's stream call.
pub fn step(
    cat: Catalogue,
    cells: &[u64],
    low: &mut [u64],
    high: &mut [u64],
    left: &mut [u16],
    right: &mut [u16],
    stream: StreamRecord,
    budget: usize,
    padded: &mut [u64],
) -> Stepped<StreamRecord>
    ensures { Steps cat cells.now low.old high.old left.old right.old stream budget padded.old (step_answer_of result) low.new high.new left.new right.new padded.new }
{
    let mut after = stream;
    let NextAnswer { answer, counts } = next(
        cat, cells, low, high, left, right, &mut after, budget, padded,
    );
    Stepped {
        answer,
        counts,
        stream: after,
    }
}

// Opens a stream of the sets that hold one row of a table, in the store that the four slices make.
// All that it gives, and all that the slices then hold, is the paper's open with that row for the first.
pub fn open_holding(
    cat: Catalogue,
    cells: &[u64],
    low: &mut [u64],
    high: &mut [u64],
    left: &mut [u16],
    right: &mut [u16],
    table: usize,
    row: usize,
) -> Result<Opened<HoldingRecord>, Refusal>
    ensures { OpensHolding cat cells.now low.old high.old left.old right.old table row (holding_open_answer_of result) low.new high.new left.new right.new }
{
    stream::open_holding(cat, cells, low, high, left, right, table, row)
}

// One call of a stream of the sets that hold one row: the thin call, which takes its record by `&mut` and moves it on in place.
// All that it gives, counts too, the record that it leaves, and all that the slices then hold, is the paper's stream call.
pub fn next_holding(
    cat: Catalogue,
    cells: &[u64],
    low: &mut [u64],
    high: &mut [u64],
    left: &mut [u16],
    right: &mut [u16],
    stream: &mut HoldingRecord,
    budget: usize,
    padded: &mut [u64],
) -> NextAnswer
    ensures { NextsHolding cat cells.now low.old high.old left.old right.old stream.old budget padded.old (next_answer_of result) stream.new low.new high.new left.new right.new padded.new }
{
    let Stepped {
        answer,
        counts,
        stream: after,
    } = stream::step_holding(cat, cells, low, high, left, right, *stream, budget, padded);
    *stream = after;
    NextAnswer { answer, counts }
}

// The same with the record by value, for callers that a proof covers.
pub fn step_holding(
    cat: Catalogue,
    cells: &[u64],
    low: &mut [u64],
    high: &mut [u64],
    left: &mut [u16],
    right: &mut [u16],
    stream: HoldingRecord,
    budget: usize,
    padded: &mut [u64],
) -> Stepped<HoldingRecord>
    ensures { StepsHolding cat cells.now low.old high.old left.old right.old stream budget padded.old (holding_step_answer_of result) low.new high.new left.new right.new padded.new }
{
    stream::step_holding(cat, cells, low, high, left, right, stream, budget, padded)
}

// Whether one padded row covers another: the same length, and the first has, at each attribute where the second has a value, that same value.
// Rows of any length may be asked about, and any codes.
pub fn covers(first: &[u64], second: &[u64]) -> bool
    ensures { Covers first.now second.now result }
{
    padding::covers(first, second)
}

// Checks a list of keys, as the regional hub sends it, their words in two slices: whether it holds every maximal set once and nothing else, in any order.
// A no names the first entry that is none or a repeat, or else the first set not listed that the trials over the listed sets reach.
// The refusals are those of the catalogue, as in open.
pub fn check_list(
    cat: Catalogue,
    cells: &[u64],
    listed_low: &[u64],
    listed_high: &[u64],
) -> Result<ListVerdict, Refusal>
    ensures { ChecksList cat cells.now listed_low.now listed_high.now (told_of result) }
{
    hub::check_list(cat, cells, listed_low, listed_high)
}
