#![tactic(auto)]

// The listing program: reads an image from standard input and prints the row sets of its tables.
// It lends the list all the room that it works in.
use lister::Scope;

// Reads standard input and lists it as an image: every set, in a store that starts as zeros.
fn main(rt: HostRuntime) {
    let mut input = [0u8; 65537];
    if let Some(n) = lister::read_input(&rt, &mut input) {
        list(&rt, &input[..n]);
    }
}

// Lists the input, in cells and a store of its own.
fn list(rt: &HostRuntime, input: &[u8]) {
    let mut cells = [0u64; 8192];
    let mut low = [0u64; 4096];
    let mut high = [0u64; 4096];
    let mut left = [0u16; 4096];
    let mut right = [0u16; 4096];
    lister::print(
        rt,
        Scope::Every,
        input,
        &mut cells,
        &mut low,
        &mut high,
        &mut left,
        &mut right,
    );
}
