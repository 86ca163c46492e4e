#![tactic(auto)]

// The program `holding TABLE ROW`: reads an image from standard input and prints those of the row sets of its tables that hold one row.
// Tables are numbered from 0, the rows of a table from 1. Wrong arguments are told on standard error, and nothing is read or printed.
use lister::{Row, Scope};

// Lists what is asked for of the input, in cells and a store of its own.
fn list(rt: &HostRuntime, scope: Scope, input: &[u8]) {
    let mut cells = [0u64; 8192];
    let mut low = [0u64; 4096];
    let mut high = [0u64; 4096];
    let mut left = [0u16; 4096];
    let mut right = [0u16; 4096];
    lister::print(
        rt, scope, input, &mut cells, &mut low, &mut high, &mut left, &mut right,
    );
}

// Reads standard input and lists the sets that hold a row of it as an image.
fn list_row(rt: &HostRuntime, asked: Row) {
    let mut input = [0u8; 65537];
    if let Some(n) = lister::read_input(rt, &mut input) {
        list(rt, Scope::With(asked), &input[..n]);
    }
}

// Says on standard error what the arguments are.
fn usage(rt: &HostRuntime) {
    teller::say(rt, b"usage: holding TABLE ROW\n");
}

// An argument as a number, if it says one in decimal digits.
// One that is missing, or longer than any number in decimal digits need be, comes as no byte at all.
fn number(rt: &HostRuntime, i: usize) -> Option<u64> {
    let mut word = [0u8; 64];
    let n = teller::arg(rt, i, &mut word);
    lines::read_decimal(&word[..n])
}

// Lists the sets that hold the row that the two arguments name.
fn main(rt: HostRuntime) {
    if teller::arg_count(&rt) != 3 {
        usage(&rt);
        return;
    }
    match (number(&rt, 1), number(&rt, 2)) {
        (Some(table), Some(row)) => {
            let asked = Row {
                table: table as usize,
                row: row as usize,
            };
            list_row(&rt, asked);
        }
        _ => usage(&rt),
    }
}
