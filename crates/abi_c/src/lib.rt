#![tactic(auto)]

// The archive for C over crate `abi`: each call that include/harbour.h declares, but for the door's, with the promise that it has there and nothing of its own.
ghost use Rattle.abi.specs.Calls.{LoadCall, MakeCall, WriteCall, CoversCall};
ghost use Rattle.abi.specs.Streams.{OpenCall, NextCall, OpenHoldingCall, NextHoldingCall};
ghost use Rattle.abi.specs.Lists.{ListCall};

// Exports `abi::harbour_load`.
#[unsafe(no_mangle)]
pub extern "C" fn harbour_load(
    image: &[u8],
    cells: &mut [u64],
    catalogue: &mut [u64],
    looked: &mut [u64],
) -> u64
    ensures { LoadCall image.now cells.old catalogue.old looked.old result cells.new catalogue.new looked.new }
{
    abi::harbour_load(image, cells, catalogue, looked)
}

// Exports `abi::harbour_make_catalogue`.
#[unsafe(no_mangle)]
pub extern "C" fn harbour_make_catalogue(given: &[u64], catalogue: &mut [u64]) -> u64
    ensures { MakeCall given.now catalogue.old result catalogue.new }
{
    abi::harbour_make_catalogue(given, catalogue)
}

// Exports `abi::harbour_write`.
#[unsafe(no_mangle)]
pub extern "C" fn harbour_write(catalogue: &[u64], cells: &[u64], out: &mut [u8]) -> u64
    ensures { WriteCall catalogue.now cells.now out.old result out.new }
{
    abi::harbour_write(catalogue, cells, out)
}

// Exports `abi::streams::harbour_open`.
#[unsafe(no_mangle)]
pub extern "C" fn harbour_open(
    catalogue: &[u64],
    cells: &[u64],
    low: &mut [u64],
    high: &mut [u64],
    left: &mut [u16],
    right: &mut [u16],
    words: &mut [u64],
) -> u64
    ensures { OpenCall catalogue.now cells.now low.old high.old left.old right.old words.old result low.new high.new left.new right.new words.new }
{
    abi::streams::harbour_open(catalogue, cells, low, high, left, right, words)
}

// Exports `abi::streams::harbour_next`.
#[unsafe(no_mangle)]
pub extern "C" fn harbour_next(
    catalogue: &[u64],
    cells: &[u64],
    low: &mut [u64],
    high: &mut [u64],
    left: &mut [u16],
    right: &mut [u16],
    words: &mut [u64],
    budget: u64,
    padded: &mut [u64],
    res: &mut [u64],
) -> u64
    ensures { NextCall catalogue.now cells.now low.old high.old left.old right.old words.old budget padded.old res.old result low.new high.new left.new right.new words.new padded.new res.new }
{
    abi::streams::harbour_next(
        catalogue, cells, low, high, left, right, words, budget, padded, res,
    )
}

// Exports `abi::streams::harbour_open_holding`.
#[unsafe(no_mangle)]
pub extern "C" fn harbour_open_holding(
    catalogue: &[u64],
    cells: &[u64],
    low: &mut [u64],
    high: &mut [u64],
    left: &mut [u16],
    right: &mut [u16],
    table: u64,
    row: u64,
    words: &mut [u64],
) -> u64
    ensures { OpenHoldingCall catalogue.now cells.now low.old high.old left.old right.old table row words.old result low.new high.new left.new right.new words.new }
{
    abi::streams::harbour_open_holding(catalogue, cells, low, high, left, right, table, row, words)
}

// Exports `abi::streams::harbour_next_holding`.
#[unsafe(no_mangle)]
pub extern "C" fn harbour_next_holding(
    catalogue: &[u64],
    cells: &[u64],
    low: &mut [u64],
    high: &mut [u64],
    left: &mut [u16],
    right: &mut [u16],
    words: &mut [u64],
    budget: u64,
    padded: &mut [u64],
    res: &mut [u64],
) -> u64
    ensures { NextHoldingCall catalogue.now cells.now low.old high.old left.old right.old words.old budget padded.old res.old result low.new high.new left.new right.new words.new padded.new res.new }
{
    abi::streams::harbour_next_holding(
        catalogue, cells, low, high, left, right, words, budget, padded, res,
    )
}

// Exports `abi::streams::harbour_covers`.
#[unsafe(no_mangle)]
pub extern "C" fn harbour_covers(first: &[u64], second: &[u64]) -> u64
    ensures { CoversCall first.now second.now result }
{
    abi::streams::harbour_covers(first, second)
}

// Exports `abi::lists::harbour_check_list`.
#[unsafe(no_mangle)]
pub extern "C" fn harbour_check_list(
    catalogue: &[u64],
    cells: &[u64],
    listed_low: &[u64],
    listed_high: &[u64],
    res: &mut [u64],
) -> u64
    ensures { ListCall catalogue.now cells.now listed_low.now listed_high.now res.old result res.new }
{
    abi::lists::harbour_check_list(catalogue, cells, listed_low, listed_high, res)
}
