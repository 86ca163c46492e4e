#![tactic(auto)]

// What the programs are given and what they say: their arguments and their input, a refusal or a failure on standard error, and the first bytes of a buffer on
// standard output. What the system gives or takes, no contract can say.
ghost use Rattle.std.specs.Prelude.{◌≡◌, ◌≤◌, length, take};
ghost use Rattle.teller.specs.Counts.{IsPrefixLen};

use lines::Cursor;
use std::env::{Env, FillError};
use std::io;
use std::io::{Read, Write};

// So many bytes of a buffer, or all that it has.
// What is written is then just this front, neither less nor more.
fn front(n: usize, buffer: &[u8]) -> &[u8]
    ensures { (result.now ≡ take n buffer.now) × IsPrefixLen (length result.now) buffer.now }
{
    &buffer[..n.min(buffer.len())]
}

// How many arguments the program was started with, its own name among them.
pub fn arg_count(rt: &HostRuntime) -> usize {
    for i in 0..usize::MAX {
        if let Err(FillError::NotPresent) = rt.arg(i, &mut []) {
            return i;
        }
    }
    usize::MAX
}

// Puts an argument into the front of the buffer and gives its length.
// One that is missing, or longer than the buffer, comes as no byte at all.
pub fn arg(rt: &HostRuntime, i: usize, buffer: &mut [u8]) -> usize
    ensures { IsPrefixLen result buffer.new }
{
    rt.arg(i, buffer).unwrap_or(0)
}

// Reads until the buffer is full, the input ends or a read fails, and gives how many bytes came into its front.
// By hand, for std has no method that does so and tells how many bytes came.
pub fn read_full<R: Read>(from: &mut R, buffer: &mut [u8]) -> usize
    ensures { IsPrefixLen result buffer.new }
{
    let mut n = 0;
    while n < buffer.len() {
        match from.read(&mut buffer[n..]) {
            Ok(more) if 0 < more => n += more,
            _ => break,
        }
    }
    n
}

// Writes to standard error.
// Where that fails, nothing is left to tell it to.
pub fn say(rt: &HostRuntime, text: &[u8]) {
    let _ = rt.stderr().write_all(text);
}

// The system's words for why a call failed, without the number that std puts behind them.
// The zeros behind the words of another error are not of them.
fn reason(text: &str) -> &str {
    match text.split_once(" (os error ") {
        Some((words, _)) => words,
        None => text.trim_end_matches('\0'),
    }
}

// Tells a call that failed in one line: what failed, as the caller names it, a colon and why.
pub fn fail(rt: &HostRuntime, what: &[u8], error: &io::Error) {
    let mut text = [0u8; 128];
    let mut room: &mut [u8] = &mut text;
    let _ = write!(room, "{error}");
    say(rt, what);
    say(rt, b": ");
    if let Ok(all) = std::str::from_utf8(&text) {
        say(rt, reason(all).as_bytes());
    }
    say(rt, b"\n");
}

// Tells a refusal: its number, and the numbers that say where it was met.
// It writes, which no contract can say; the line is that of `Cursor::line`.
pub fn tell(rt: &HostRuntime, numbers: &[u64])
    requires { length numbers.now ≤ 3 }
{
    let mut line = [0u8; 128];
    let mut to = Cursor {
        out: &mut line,
        at: 0,
    };
    to.line(b"refused", numbers);
    say(rt, front(to.at, to.out));
}

// Writes the first bytes of a buffer to standard output, which no contract can say.
// A write that fails is told.
pub fn send(rt: &HostRuntime, out: &[u8], n: usize) {
    if let Err(error) = rt.stdout().write_all(front(n, out)) {
        fail(rt, b"write", &error);
    }
}
