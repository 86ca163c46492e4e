#![tactic(auto)]

// The stream of row sets: open, and the by-value call with a budget of trials.
// The store lies in four slices that the caller lends; the record goes in by value and comes back moved on.
ghost use Rattle.std.specs.Prelude.{◌≡◌, ◌≤◌, ◌<◌, cond, length, IfOk, IfErr, OnErr};
ghost use Rattle.refusals.specs.Refusals.{number, fault_in};
ghost use Rattle.tables.specs.Catalogues.{total};
ghost use Rattle.tables.specs.Checks.{Lawful};
ghost use Rattle.keys.specs.TwoWords.{number_of};
ghost use Rattle.disjunction.specs.Asked.{first_for};
ghost use Rattle.rows.specs.World.{world_of, place_of};
ghost use Rattle.rows.specs.Named.{There};
ghost use Rattle.store.specs.Lent.{room_for, SameSlices};
ghost use Rattle.machine.specs.Machine.{Askable, Fit, stray, unfit, call_fault, work, call, opening_for, trial_on};
ghost use Rattle.stream.specs.Answers.{open_answer_of, holding_open_answer_of, step_answer_of, holding_step_answer_of};
ghost use Rattle.stream.specs.Promises.{asked_of, state_with, called_with, Opens, Steps, OpensHolding, StepsHolding};
ghost use Rattle.stream.specs.Parts.{Reached, key_wanted, stream_in, called_in, opened_for, refused_by, Did, NoMark, Ends};

use keys::Key;
use refusals::Refusal;
use sets::Layout;
use store::{Offered, Store};
use tables::{Catalogue, Row, Tables};

// "One stream record per open stream": records found, records handed out, and the next row to try.
#[derive(Clone, Copy)]
pub struct StreamRecord {
    pub found: usize,
    pub taken: usize,
    pub next_row: usize,
}

// The record of a stream of the sets that hold one row: it names the row beside found, taken and next row.
#[derive(Clone, Copy)]
pub struct HoldingRecord {
    pub stream: StreamRecord,
    pub table: usize,
    pub row: usize,
}

// What a stream is asked for: every set, or those that hold a row.
#[derive(Clone, Copy)]
pub enum Scope {
    Every,
    With(Row),
}

// What a call answers: a set, by its key; the end; that its budget is spent; or a refusal.
#[derive(Clone, Copy)]
pub enum Answer {
    Set(Key),
    Finished,
    Working,
    Refused(Refusal),
}

// How many trials a call made, and how many row tests and looks these made.
#[derive(Clone, Copy)]
pub struct Counts {
    pub trials: usize,
    pub tests: usize,
    pub looks: usize,
}

// All that a call gives: the answer, the counts, and the record moved on.
#[derive(Clone, Copy)]
pub struct Stepped<R> {
    pub answer: Answer,
    pub counts: Counts,
    pub stream: R,
}

// All that open gives: the record, and its row tests.
#[derive(Clone, Copy)]
pub struct Opened<R> {
    pub stream: R,
    pub tests: usize,
}

// What a trial that is done comes to: the records found after it, its row tests and its looks.
#[derive(Clone, Copy)]
struct Done {
    found: usize,
    tests: usize,
    looks: usize,
}

impl Counts {
    // Those of a call that made no trial.
    pub fn none() -> Counts
        ensures { result ≡ record { trials = 0; tests = 0; looks = 0 } }
    {
        Counts {
            trials: 0,
            tests: 0,
            looks: 0,
        }
    }
}

impl Scope {
    // Whether it asks for a row that is not there (19 at open, 13 in a record).
    fn is_stray(self, tables: &Tables<'_>) -> bool
        ensures { result ≡ stray tables.now.catalogue (asked_of self) }
    {
        match self {
            Scope::Every => false,
            Scope::With(x) => {
                let cat = tables.catalogue;
                x.row == 0 || cat.n <= x.table || (cat.rows[x.table] as usize) < x.row
            }
        }
    }

    // The row that its stream begins with: the first of all, or the one that is asked for.
    fn first(self, tables: &Tables<'_>) -> Row
        requires { Askable tables.now.catalogue (asked_of self) × (0 < total tables.now.catalogue) }
        ensures first { place_of result ≡ first_for (world_of tables.now.catalogue tables.now.cells.now) (asked_of self) }
        ensures there { There tables.now.catalogue result.table result.row }
    {
        match self {
            Scope::Every => tables.row_at(0),
            Scope::With(x) => x,
        }
    }

    // Whether a set, by its key, is asked for.
    fn wants(self, key: Key) -> bool
        requires { Reached (asked_of self) }
        ensures { result ≡ key_wanted (asked_of self) (number_of key) }
    {
        match self {
            Scope::Every => true,
            Scope::With(x) => key.row(x.table) == x.row as u64,
        }
    }
}

// Opens a stream of what is asked for: the first row, or the row asked for, alone and extended, becomes record 0 of the store.
// Everything is checked before that record is written. The tables stay in the layout: see `Layout::new`.
pub fn open_for(
    cat: Catalogue,
    cells: &[u64],
    low: &mut [u64],
    high: &mut [u64],
    left: &mut [u16],
    right: &mut [u16],
    scope: Scope,
) -> Result<Opened<StreamRecord>, Refusal>
    ensures { opened_for (asked_of scope) result low.new high.new left.new right.new ≡ opening_for cat cells.now (asked_of scope) low.old high.old left.old right.old }
{
    tables::check(cat, cells.len())?;
    let layout = Layout::new(
        Tables {
            catalogue: cat,
            cells,
        },
        1,
    );
    let tables = &layout.tables;
    if scope.is_stray(tables) {
        return Err(Refusal::NoSuchRow);
    }
    let mut stream = StreamRecord {
        found: 0,
        taken: 0,
        next_row: tables.total_rows(),
    };
    if stream.next_row == 0 {
        return Ok(Opened { stream, tests: 0 });
    }
    let mut store = Store {
        low,
        high,
        left,
        right,
    };
    if store.room() == 0 {
        return Err(Refusal::FullStore);
    }
    let first = scope.first(tables);
    let alone = Key::none().with_row(first.table, first.row as u64);
    let grown = layout.extend(alone, 0);
    store.file_record(0, grown.key);
    stream.found = 1;
    Ok(Opened {
        stream,
        tests: grown.tests,
    })
}

// Opens a stream of every set.
pub fn open(
    cat: Catalogue,
    cells: &[u64],
    low: &mut [u64],
    high: &mut [u64],
    left: &mut [u16],
    right: &mut [u16],
) -> Result<Opened<StreamRecord>, Refusal>
    ensures { Opens cat cells.now low.old high.old left.old right.old (open_answer_of result) low.new high.new left.new right.new }
{
    open_for(cat, cells, low, high, left, right, Scope::Every)
}

// Opens a stream of the sets that hold one row, which its record names.
pub fn open_holding(
    cat: Catalogue,
    cells: &[u64],
    low: &mut [u64],
    high: &mut [u64],
    left: &mut [u16],
    right: &mut [u16],
    table: usize,
    row: usize,
) -> Result<Opened<HoldingRecord>, Refusal>
    ensures { OpensHolding cat cells.now low.old high.old left.old right.old table row (holding_open_answer_of result) low.new high.new left.new right.new }
{
    let scope = Scope::With(Row { table, row });
    let Opened { stream, tests } = open_for(cat, cells, low, high, left, right, scope)?;
    Ok(Opened {
        stream: HoldingRecord { stream, table, row },
        tests,
    })
}

// 13 where the record does not fit the tables and the store, or asks for a row that is not there.
// Behind this test every place that the record names is there.
fn check_record(
    tables: &Tables<'_>,
    store: &Store<'_>,
    s: StreamRecord,
    scope: Scope,
) -> Result<(), Refusal>
    ensures { fault_in result ≡ cond (unfit tables.now.catalogue (stream_in (asked_of scope) s store.now)) 13 0 }
{
    let total = tables.total_rows();
    if scope.is_stray(tables)
        || store.room() < s.found
        || s.found < s.taken
        || total < s.next_row
        || (s.taken == 0 && s.next_row != total)
        || (s.found == 0 && total != 0)
        || (s.found != 0 && total == 0)
    {
        return Err(Refusal::UnfitRecord);
    }
    Ok(())
}

// The refusal that a call meets before work: 4, 5, 6, 8; 13; 11. Where it meets none, these are tables.
// It does not give them: so large a value, handed back, is a copy by `memcpy` (see `Layout::new`).
fn check_call(
    cat: Catalogue,
    cells: &[u64],
    store: &Store<'_>,
    s: StreamRecord,
    scope: Scope,
    padded: &[u64],
) -> Result<(), Refusal>
    ensures refusal { fault_in result ≡ call_fault cat (length cells.now) (stream_in (asked_of scope) s store.now) padded.now }
    ensures tables { IfOk result (λ done. Lawful cat (length cells.now)) }
{
    let tables = Tables::new(cat, cells)?;
    check_record(&tables, store, s, scope)?;
    if padded.len() < cat.m {
        return Err(Refusal::ShortOutput);
    }
    Ok(())
}

// The trial of the row at place next row on the set in record taken - 1.
// Its end is an offer to the store, so that a refused trial leaves no mark; a set that is not asked for is not searched for.
fn trial(
    layout: &Layout<'_>,
    store: &mut Store<'_>,
    s: StreamRecord,
    scope: Scope,
) -> Result<Done, Refusal>
    requires { Fit layout.now.tables.catalogue (stream_in (asked_of scope) s store.old) × (s.next_row < total layout.now.tables.catalogue) }
    ensures refusal { IfErr result (λ refusal. number refusal ≡ refused_by (trial_on layout.now.tables.catalogue layout.now.tables.cells.now (stream_in (asked_of scope) s store.old))) }
    ensures did { IfOk result (Did layout.now.tables (asked_of scope) s store.old store.new) }
    ensures no_mark { OnErr result (NoMark store.old store.new) }
    ensures same { SameSlices store.old store.new }
{
    let key = store.key_at(s.taken - 1);
    if !rows::named(&layout.tables, key) {
        return Err(Refusal::DamagedStore);
    }
    let row = layout.tables.row_at(s.next_row);
    let grown = layout.trial(key, row);
    let (found, looks) = if scope.wants(grown.key) {
        let deepest = Key::bits(layout.tables.catalogue.n);
        match store.offer(s.found, grown.key, deepest)? {
            Offered::Known { looks } => (s.found, looks),
            Offered::Added { looks } => (s.found + 1, looks),
        }
    } else {
        (s.found, 0)
    };
    Ok(Done {
        found,
        tests: grown.tests,
        looks,
    })
}

// The end of a call where next row is N: hands out record `taken` with its padded row, or says that all are handed out.
fn hand_out(
    tables: &Tables<'_>,
    store: &Store<'_>,
    stream: StreamRecord,
    counts: Counts,
    padded: &mut [u64],
) -> Stepped<StreamRecord>
    requires { (stream.next_row ≡ total tables.now.catalogue) × (stream.taken ≤ stream.found) × (stream.found ≤ room_for store.now) × (tables.now.catalogue.m ≤ length padded.old) }
    ensures { Ends tables.now stream counts store.now padded.old result padded.new }
{
    if stream.taken == stream.found {
        return Stepped {
            answer: Answer::Finished,
            counts,
            stream,
        };
    }
    let key = store.key_at(stream.taken);
    if !rows::named(tables, key) {
        return Stepped {
            answer: Answer::Refused(Refusal::DamagedStore),
            counts,
            stream,
        };
    }
    padding::pad_row(tables, key, padded);
    Stepped {
        answer: Answer::Set(key),
        counts,
        stream: StreamRecord {
            found: stream.found,
            taken: stream.taken + 1,
            next_row: 0,
        },
    }
}

// The trials of a call that meets no refusal before work, and its end.
// A call makes at most N trials, so that none of its counts can wrap.
fn work(
    layout: &Layout<'_>,
    store: &mut Store<'_>,
    from: StreamRecord,
    scope: Scope,
    budget: usize,
    padded: &mut [u64],
) -> Stepped<StreamRecord>
    requires { Fit layout.now.tables.catalogue (stream_in (asked_of scope) from store.old) × (layout.now.tables.catalogue.m ≤ length padded.old) }
    ensures work { called_in (asked_of scope) result store.new padded.new ≡ work layout.now.tables.catalogue layout.now.tables.cells.now budget (stream_in (asked_of scope) from store.old) padded.old }
    ensures same { SameSlices store.old store.new }
{
    let mut stream = from;
    let mut counts = Counts::none();
    for next_row in from.next_row..layout.measures.total {
        if counts.trials == budget {
            return Stepped {
                answer: Answer::Working,
                counts,
                stream,
            };
        }
        match trial(layout, store, stream, scope) {
            Ok(done) => {
                stream.found = done.found;
                stream.next_row = next_row + 1;
                counts.trials += 1;
                counts.tests += done.tests;
                counts.looks += done.looks;
            }
            Err(refusal) => {
                return Stepped {
                    answer: Answer::Refused(refusal),
                    counts,
                    stream,
                };
            }
        }
    }
    hand_out(&layout.tables, store, stream, counts, padded)
}

// One call of a stream of what is asked for, with a budget of trials, the record by value.
// What may be refused before work is refused before anything changes.
pub fn step_for(
    cat: Catalogue,
    cells: &[u64],
    low: &mut [u64],
    high: &mut [u64],
    left: &mut [u16],
    right: &mut [u16],
    stream: StreamRecord,
    scope: Scope,
    budget: usize,
    padded: &mut [u64],
) -> Stepped<StreamRecord>
    ensures { called_with (asked_of scope) (step_answer_of result) low.new high.new left.new right.new padded.new ≡ call cat cells.now budget (state_with (asked_of scope) stream low.old high.old left.old right.old) padded.old }
{
    let mut store = Store {
        low,
        high,
        left,
        right,
    };
    match check_call(cat, cells, &store, stream, scope, padded) {
        Ok(()) => {
            // Behind the check these are tables.
            let layout = Layout::new(
                Tables {
                    catalogue: cat,
                    cells,
                },
                budget,
            );
            work(&layout, &mut store, stream, scope, budget, padded)
        }
        Err(refusal) => Stepped {
            answer: Answer::Refused(refusal),
            counts: Counts::none(),
            stream,
        },
    }
}

// One call of a stream of every set.
pub fn step(
    cat: Catalogue,
    cells: &[u64],
    low: &mut [u64],
    high: &mut [u64],
    left: &mut [u16],
    right: &mut [u16],
    stream: StreamRecord,
    budget: usize,
    padded: &mut [u64],
) -> Stepped<StreamRecord>
    ensures { Steps cat cells.now low.old high.old left.old right.old stream budget padded.old (step_answer_of result) low.new high.new left.new right.new padded.new }
{
    let scope = Scope::Every;
    step_for(
        cat, cells, low, high, left, right, stream, scope, budget, padded,
    )
}

// One call of a stream of the sets that hold one row, which stays the one that its record names.
// Its trials are those of any stream; those whose set lacks the row make no search.
pub fn step_holding(
    cat: Catalogue,
    cells: &[u64],
    low: &mut [u64],
    high: &mut [u64],
    left: &mut [u16],
    right: &mut [u16],
    held: HoldingRecord,
    budget: usize,
    padded: &mut [u64],
) -> Stepped<HoldingRecord>
    ensures { StepsHolding cat cells.now low.old high.old left.old right.old held budget padded.old (holding_step_answer_of result) low.new high.new left.new right.new padded.new }
{
    let HoldingRecord { stream, table, row } = held;
    let scope = Scope::With(Row { table, row });
    let stepped = step_for(
        cat, cells, low, high, left, right, stream, scope, budget, padded,
    );
    Stepped {
        answer: stepped.answer,
        counts: stepped.counts,
        stream: HoldingRecord {
            stream: stepped.stream,
            table,
            row,
        },
    }
}
