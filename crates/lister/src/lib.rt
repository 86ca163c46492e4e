#![tactic(auto)]

// The list of the row sets of an image, for the programs that print one: what it reads, what it writes, and the text between.
// A program lends it the cells and the store; a read or a write that fails is told on standard error.
ghost use Rattle.std.specs.Prelude.{◌≡◌, ◌+◌, ◌≤◌, length, IfSome};
ghost use Rattle.tables.specs.Sizes.{most_cells};
ghost use Rattle.lister.specs.Listing.{most_input, most_records, blank};

use harbour::{Counts, StreamRecord};
use lines::Cursor;
use std::io::Read;
use store::Store;
pub use stream::Scope;
pub use tables::Row;
use tables::Tables;

mod text;

// Where a list stands that has not ended: its tables, what is asked for and its stream, what all calls have counted, and the calls that are left.
#[derive(Clone, Copy)]
pub struct Standing<'a> {
    pub tables: Tables<'a>,
    pub scope: Scope,
    pub stream: StreamRecord,
    pub counts: Counts,
    pub calls: usize,
}

// Reads once from standard input into the lent part, and says how many bytes came.
// A read that fails is told, and gives None.
fn read_some(rt: &HostRuntime, part: &mut [u8]) -> Option<usize>
    ensures { IfSome result (λ n. n ≤ length part.old) }
{
    match rt.stdin().read(part) {
        Ok(n) => Some(n),
        Err(error) => {
            teller::fail(rt, b"read", &error);
            None
        }
    }
}

// Reads standard input to its end, or as much of it as is lent, and says how many bytes came; None where a read failed.
// One byte more is lent than an image may have, so that longer input is told from it.
// By hand, for std has no method that reads until a buffer is full or a read fails and tells how many bytes came.
pub fn read_input(rt: &HostRuntime, input: &mut [u8]) -> Option<usize>
    requires { length input.old ≡ most_input + 1 }
    ensures { IfSome result (λ n. n ≤ length input.old) }
{
    let mut got = 0;
    while got < input.len() {
        let more = read_some(rt, &mut input[got..])?;
        if more == 0 {
            break;
        }
        got += more;
    }
    Some(got)
}

// Writes what the buffer holds up to the cursor to standard output, and says whether it was taken.
// A write that fails is told.
fn written(rt: &HostRuntime, to: &Cursor<'_>) -> bool
    requires { to.now.at ≤ length to.now.out.now }
{
    match rt.stdout().write_all(&to.out[..to.at]) {
        Ok(()) => true,
        Err(error) => {
            teller::fail(rt, b"write", &error);
            false
        }
    }
}

// Prints the list of what is asked for of the input as an image: writes what is put into the buffer, until nothing is to come or a write fails.
pub fn print(
    rt: &HostRuntime,
    scope: Scope,
    input: &[u8],
    cells: &mut [u64],
    low: &mut [u64],
    high: &mut [u64],
    left: &mut [u16],
    right: &mut [u16],
)
    requires { (cells.old ≡ blank most_cells) × (low.old ≡ blank most_records) × (high.old ≡ blank most_records) × (left.old ≡ blank most_records) × (right.old ≡ blank most_records) }
{
    let mut padded = [0u64; 63];
    let mut buffer = [0u8; 32768];
    let mut to = Cursor {
        out: &mut buffer,
        at: 0,
    };
    let mut store = Store {
        low,
        high,
        left,
        right,
    };
    let mut more = text::first_lines(scope, input, cells, &mut store, &mut to);
    while let Some(standing) = more {
        if !written(rt, &to) {
            return;
        }
        more = text::more_lines(standing, &mut store, &mut padded, &mut to);
    }
    written(rt, &to);
}
