// The writer's first pass: which refusal the tables meet, and how long their image is. It writes nothing.
ghost use Rattle.std.specs.Prelude.{◌≡◌, true, false, ◌/◌, ◌≤◌, ◌<◌, length, IfOk};
ghost use Rattle.std.specs.Ordering.{nat_cmp, is_lt};
ghost use Rattle.std.specs.Cmp.Lexicographic.{slice_cmp};
ghost use Rattle.refusals.specs.Refusals.{fault_in};
ghost use Rattle.tables.specs.Sizes.{most_cells};
ghost use Rattle.tables.specs.Versions.{blank, version_number};
ghost use Rattle.writer.specs.Write.{encodes, image_of, too_high, rows_fault, write_fault};

use crate::runs;
use refusals::Refusal;
use tables::{Catalogue, Tables, Version};

// The lowest code that an image has no room for.
const TOO_HIGH: u64 = 1 << 63;

// Whether a code of a row is 2^63 or more.
fn code_high(row: &[u64]) -> bool
    ensures { result ≡ too_high row.now }
{
    row.iter().any(|code| TOO_HIGH <= *code)
}

// Whether a row is an all-null one that version 2 would be written with (21).
// Version 1 may hold such rows, and they are not looked for there.
fn blank(row: &[u64], version: Version) -> bool
    ensures { result ≡ blank (version_number version) row.now }
{
    match version {
        Version::One => false,
        Version::Two => row.iter().all(|code| *code == 0),
    }
}

// Whether a row lies strictly above the one before: the first two codes that differ decide, as in the library's order of slices.
// Written out, since that order is made as a value before it is asked, once for each row.
fn rises(before: &[u64], row: &[u64]) -> bool
    ensures { result ≡ is_lt (slice_cmp nat_cmp before.now row.now) }
{
    for i in 0..before.len().min(row.len()) {
        let x = before[i];
        let y = row[i];
        if x != y {
            return x < y;
        }
    }
    before.len() < row.len()
}

// 10, 21 or 7 for the rows of a table, whose cells these are, to be written in this version.
pub fn check_rows(cells: &[u64], width: usize, version: Version) -> Result<(), Refusal>
    requires { 0 < width }
    ensures { fault_in result ≡ rows_fault (length cells.now / width) width cells.now (version_number version) true 0 0 }
{
    // No row stands before the first, and the empty one lies below every other.
    let mut before: &[u64] = &[];
    for row in cells.chunks_exact(width) {
        if code_high(row) {
            return Err(Refusal::HighCode);
        }
        if blank(row, version) {
            return Err(Refusal::NullRow);
        }
        if !rises(before, row) {
            return Err(Refusal::RowNotRising);
        }
        before = row;
    }
    Ok(())
}

// The tables, or the first refusal that they meet (4; 5, 6, 8 table by table; 16; then the rows of all tables, each 10, 21, then 7).
// No cell is looked at before the whole catalogue is known to be lawful.
pub fn check<'a>(cat: Catalogue, cells: &'a [u64]) -> Result<Tables<'a>, Refusal>
    ensures fault { fault_in result ≡ write_fault cat cells.now }
    ensures tables { IfOk result (λ tables. (tables.catalogue ≡ cat) × (tables.cells.now ≡ cells.now)) }
{
    let tables = Tables::new(cat, cells)?;
    let version = cat.version();
    for t in 0..cat.n {
        check_rows(tables.cells_of(t), tables::width(cat.schemes[t]), version)?;
    }
    Ok(tables)
}

// How many bytes a run of numbers takes.
fn run_size(numbers: &[u64]) -> usize
    requires { (length numbers.now ≤ most_cells) × (too_high numbers.now ≡ false) }
    ensures { result ≡ length (encodes numbers.now) }
{
    numbers.iter().map(|x| numbers::size(*x)).sum()
}

// The length of the image of tables that meet no refusal.
pub fn image_length(tables: &Tables<'_>) -> usize
    requires { write_fault tables.now.catalogue tables.now.cells.now ≡ 0 }
    ensures { result ≡ length (image_of tables.now.catalogue tables.now.cells.now) }
{
    let mut sum = run_size(&runs::head(tables));
    for t in 0..tables.catalogue.n {
        sum += run_size(&runs::table_head(tables, t)) + run_size(tables.cells_of(t));
    }
    sum
}
