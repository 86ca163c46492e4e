// The text of a list, as much of it at a time as a lent buffer holds. Nothing here reads or writes a file: the program writes what it is given.
ghost use Rattle.std.specs.Prelude.{◌≡◌, ◌∷◌, [], ◌++◌, ◌+◌, ◌≤◌, ◌<◌, length, take};
ghost use Rattle.tables.specs.Sizes.{most_attributes, most_cells};
ghost use Rattle.tables.specs.Catalogues.{total};
ghost use Rattle.refusals.specs.Refusals.{number};
ghost use Rattle.stream.specs.Answers.{answer_in, key_in};
ghost use Rattle.stream.specs.declared.Scope.TheVariants.{With};
ghost use Rattle.stream.specs.Promises.{asked_of, says_of};
ghost use Rattle.stream.specs.Parts.{stream_in, called_in, opened_for};
ghost use Rattle.machine.specs.Machine.{call, opening_for};
ghost use Rattle.store.specs.Lent.{SameSlices};
ghost use Rattle.lines.specs.Cursors.{HasRoom, Puts, SameBuffer};
ghost use Rattle.lines.specs.Lines.{tables_line, end_line, refused_line};
ghost use Rattle.keys.specs.TwoWords.{number_of};
ghost use Rattle.lister.specs.Listing.{blank, most_line, line_of, left_of, tables_text, listing_of, Zeros, to_come, calls_in, lines_at, Ready, Gives};

use crate::Standing;
use harbour::{Answer, Counts, HoldingRecord, Opened, Refusal, Stepped, StreamRecord};
use lines::Cursor;
use store::Store;
use stream::Scope;
use tables::{Row, Tables};

// The longest input that is taken for an image.
const MOST_INPUT: usize = 65536;

// The most calls that a list takes: one for each record of the store, and one for the end.
// Each has a budget of N trials, so that none is left at work, and all but the last hand out a set.
const MOST_CALLS: usize = 4097;

// No line is longer.
const MOST_LINE: usize = 1497;

// Puts the line of a refusal: its number, and where it was met.
// For an image that is a place in it, for a full store how many sets were handed out.
fn put_refused(refusal: Refusal, place: usize, to: &mut Cursor<'_>)
    requires { HasRoom to.old most_line }
    ensures puts { Puts (refused_line (number refusal ∷ place ∷ [])) to.old to.new }
    ensures same { SameBuffer to.old to.new }
{
    to.line(b"refused", &[u64::from(refusal), place as u64]);
}

// Puts the last line: the sets, and the trials, row tests and looks of all calls.
fn put_end(sets: usize, counts: Counts, to: &mut Cursor<'_>)
    requires { HasRoom to.old most_line }
    ensures puts { Puts (end_line (sets ∷ counts.trials ∷ counts.tests ∷ counts.looks ∷ [])) to.old to.new }
    ensures same { SameBuffer to.old to.new }
{
    let numbers = [
        sets as u64,
        counts.trials as u64,
        counts.tests as u64,
        counts.looks as u64,
    ];
    to.line(b"end", &numbers);
}

// Puts the line of what a call answered behind what the buffer holds, with the counts of all calls so far.
// The sets handed out are those that the stream's record has taken.
fn put_answer(p: Standing<'_>, answer: Answer, padded: &[u64], to: &mut Cursor<'_>)
    requires { (length padded.now ≡ most_attributes) × HasRoom to.old most_line }
    ensures puts { Puts (line_of p.entry.tables.catalogue (says_of (answer_in answer)) (number_of (key_in answer)) padded.now p.entry.stream.taken p.entry.counts.trials p.entry.counts.tests p.entry.counts.looks) to.old to.new }
    ensures same { SameBuffer to.old to.new }
{
    let cat = p.tables.catalogue;
    let sets = p.stream.taken;
    match answer {
        Answer::Set(key) => to.set(key, cat.n, padded, cat.m),
        Answer::Finished => put_end(sets, p.counts, to),
        Answer::Working => (),
        Answer::Refused(refusal) => put_refused(refusal, sets, to),
    }
}

// How many calls are left behind an answer.
// The end and a refusal end the list.
fn calls_left(answer: Answer, calls: usize) -> usize
    ensures { result ≡ left_of (says_of (answer_in answer)) calls }
{
    match answer {
        Answer::Set(_) | Answer::Working => calls,
        Answer::Finished | Answer::Refused(_) => 0,
    }
}

// Makes the next call of a list of the sets that hold a row, with a budget of N trials.
// Its record names the row: it is made for the call, and taken apart again.
fn step_with(
    p: Standing<'_>,
    asked: Row,
    store: &mut Store<'_>,
    padded: &mut [u64],
) -> Stepped<StreamRecord>
    ensures called { let t = p.entry.tables in called_in (asked_of (With asked)) result store.new padded.new ≡ call t.catalogue t.cells.now (total t.catalogue) (stream_in (asked_of (With asked)) p.entry.stream store.old) padded.old }
    ensures slices { SameSlices store.old store.new }
{
    let before = HoldingRecord {
        stream: p.stream,
        table: asked.table,
        row: asked.row,
    };
    let stepped = harbour::step_holding(
        p.tables.catalogue,
        p.tables.cells,
        store.low,
        store.high,
        store.left,
        store.right,
        before,
        p.tables.total_rows(),
        padded,
    );
    Stepped {
        answer: stepped.answer,
        counts: stepped.counts,
        stream: stepped.stream.stream,
    }
}

// Makes the next call of a list, with a budget of N trials.
// Where every set is asked for, it is a thin call.
fn step(p: Standing<'_>, store: &mut Store<'_>, padded: &mut [u64]) -> Stepped<StreamRecord>
    ensures called { let t = p.entry.tables in called_in (asked_of p.entry.scope) result store.new padded.new ≡ call t.catalogue t.cells.now (total t.catalogue) (stream_in (asked_of p.entry.scope) p.entry.stream store.old) padded.old }
    ensures slices { SameSlices store.old store.new }
{
    match p.scope {
        Scope::Every => harbour::step(
            p.tables.catalogue,
            p.tables.cells,
            store.low,
            store.high,
            store.left,
            store.right,
            p.stream,
            p.tables.total_rows(),
            padded,
        ),
        Scope::With(asked) => step_with(p, asked, store, padded),
    }
}

// Makes one call and puts its line behind what the buffer holds, and says where the list then stands.
// What the buffer holds and what is still to come stay the same text.
fn turn<'a>(
    p: Standing<'a>,
    store: &mut Store<'_>,
    padded: &mut [u64],
    to: &mut Cursor<'_>,
) -> Option<Standing<'a>>
    requires { Ready p padded.old × HasRoom to.old most_line }
    ensures fewer { calls_in result < p.entry.calls }
    ensures gives { Gives (take to.old.at to.old.out.now ++ to_come p.entry store.old padded.old) (lines_at to.new result) store.new padded.new to.new.out.now }
    ensures slices { SameSlices store.old store.new }
    ensures same { SameBuffer to.old to.new }
{
    let stepped = step(p, store, padded);
    let counted = Standing {
        stream: stepped.stream,
        counts: Counts {
            trials: p.counts.trials + stepped.counts.trials,
            tests: p.counts.tests + stepped.counts.tests,
            looks: p.counts.looks + stepped.counts.looks,
        },
        calls: calls_left(stepped.answer, p.calls - 1),
        ..p
    };
    put_answer(counted, stepped.answer, padded, to);
    if counted.calls == 0 {
        None
    } else {
        Some(counted)
    }
}

// Fills the buffer from its start with lines that are still to come, until the next might not fit or the list has ended, and says where it then stands.
// What was in it has been written.
pub fn more_lines<'a>(
    standing: Standing<'a>,
    store: &mut Store<'_>,
    padded: &mut [u64],
    to: &mut Cursor<'_>,
) -> Option<Standing<'a>>
    requires { Ready standing padded.old × (most_line ≤ length to.old.out.now) }
    ensures fewer { calls_in result < standing.entry.calls }
    ensures gives { Gives (to_come standing.entry store.old padded.old) (lines_at to.new result) store.new padded.new to.new.out.now }
    ensures slices { SameSlices store.old store.new }
    ensures same { SameBuffer to.old to.new }
{
    to.at = 0;
    let mut more = turn(standing, store, padded, to);
    while let Some(p) = more {
        if to.out.len() - to.at < MOST_LINE {
            return more;
        }
        more = turn(p, store, padded, to);
    }
    more
}

// Puts the first line: m, n, N and the row tests of open.
fn put_tables(m: usize, n: usize, total: usize, tests: usize, to: &mut Cursor<'_>)
    requires { HasRoom to.old most_line }
    ensures puts { Puts (tables_line m n total tests) to.old to.new }
    ensures same { SameBuffer to.old to.new }
{
    let numbers = [m as u64, n as u64, total as u64, tests as u64];
    to.line(b"tables", &numbers);
}

// Puts the line of an open that is refused: its number alone.
fn put_refusal(refusal: Refusal, to: &mut Cursor<'_>)
    requires { HasRoom to.old most_line }
    ensures puts { Puts (refused_line (number refusal ∷ [])) to.old to.new }
    ensures same { SameBuffer to.old to.new }
{
    to.line(b"refused", &[u64::from(refusal)]);
}

// Opens the stream of the sets that hold a row, and takes its record apart: a list keeps the row beside it.
fn open_with(
    asked: Row,
    tables: Tables<'_>,
    store: &mut Store<'_>,
) -> Result<Opened<StreamRecord>, Refusal>
    ensures opened { let t = tables.entry in opened_for (asked_of (With asked)) result store.new.low.now store.new.high.now store.new.left.now store.new.right.now ≡ opening_for t.catalogue t.cells.now (asked_of (With asked)) store.old.low.now store.old.high.now store.old.left.now store.old.right.now }
    ensures slices { SameSlices store.old store.new }
{
    let opened = harbour::open_holding(
        tables.catalogue,
        tables.cells,
        store.low,
        store.high,
        store.left,
        store.right,
        asked.table,
        asked.row,
    )?;
    Ok(Opened {
        stream: opened.stream.stream,
        tests: opened.tests,
    })
}

// Opens the stream of what is asked for.
fn open_for(
    scope: Scope,
    tables: Tables<'_>,
    store: &mut Store<'_>,
) -> Result<Opened<StreamRecord>, Refusal>
    ensures opened { let t = tables.entry in opened_for (asked_of scope) result store.new.low.now store.new.high.now store.new.left.now store.new.right.now ≡ opening_for t.catalogue t.cells.now (asked_of scope) store.old.low.now store.old.high.now store.old.left.now store.old.right.now }
    ensures slices { SameSlices store.old store.new }
{
    match scope {
        Scope::Every => harbour::open(
            tables.catalogue,
            tables.cells,
            store.low,
            store.high,
            store.left,
            store.right,
        ),
        Scope::With(asked) => open_with(asked, tables, store),
    }
}

// Opens a stream of what is asked for on tables that were loaded, puts the first line into the buffer, and says where the list then stands.
// Where it is refused, its line is all the text.
fn open_list<'a>(
    scope: Scope,
    tables: Tables<'a>,
    store: &mut Store<'_>,
    to: &mut Cursor<'_>,
) -> Option<Standing<'a>>
    requires { Zeros store.old × (to.old.at ≡ 0) × (most_line ≤ length to.old.out.now) }
    ensures gives { Gives (tables_text tables.entry.catalogue tables.entry.cells.now (asked_of scope)) (lines_at to.new result) store.new (blank most_attributes) to.new.out.now }
    ensures slices { SameSlices store.old store.new }
    ensures same { SameBuffer to.old to.new }
{
    let cat = tables.catalogue;
    match open_for(scope, tables, store) {
        Ok(opened) => {
            put_tables(cat.m, cat.n, tables.total_rows(), opened.tests, to);
            Some(Standing {
                tables,
                scope,
                stream: opened.stream,
                counts: Counts::none(),
                calls: MOST_CALLS,
            })
        }
        Err(refusal) => {
            put_refusal(refusal, to);
            None
        }
    }
}

// Loads the input as an image and puts the first line of its list into the buffer, or the line that says why there is no list; and says where the list then stands.
pub fn first_lines<'a>(
    scope: Scope,
    input: &[u8],
    cells: &'a mut [u64],
    store: &mut Store<'_>,
    to: &mut Cursor<'_>,
) -> Option<Standing<'a>>
    requires { (cells.old ≡ blank most_cells) × Zeros store.old × (to.old.at ≡ 0) × (most_line ≤ length to.old.out.now) }
    ensures gives { Gives (listing_of (asked_of scope) input.now) (lines_at to.new result) store.new (blank most_attributes) to.new.out.now }
    ensures slices { SameSlices store.old store.new }
    ensures same { SameBuffer to.old to.new }
{
    if MOST_INPUT < input.len() {
        to.word(b"input too long\n");
        return None;
    }
    match harbour::load(input, cells) {
        Ok(catalogue) => {
            // What was loaded is lawful.
            let tables = Tables::new(catalogue, cells).unwrap();
            open_list(scope, tables, store, to)
        }
        Err(fault) => {
            put_refused(fault.refusal, fault.place, to);
            None
        }
    }
}
