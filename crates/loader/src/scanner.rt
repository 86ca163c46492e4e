// The loader's first pass: it reads and checks the image, and writes nothing. The C door is this pass alone.
ghost use Rattle.std.specs.Prelude.{◌≡◌, true, replicate, ◌<◌, ◌≤◌};
ghost use Rattle.std.specs.Int.Count.{ones};
ghost use Rattle.refusals.specs.Refusals.{number};
ghost use Rattle.tables.specs.Sizes.{most_cells, most_tables};
ghost use Rattle.tables.specs.Rows.{below, all_null};
ghost use Rattle.tables.specs.Versions.{version_number, blank};
ghost use Rattle.tables.specs.Catalogues.{first_cell};
ghost use Rattle.loader.specs.Reading.{run_end, codes, rows_from};
ghost use Rattle.loader.specs.Faults.{walk_of, field_of, table_of};
ghost use Rattle.loader.specs.Load.{loaded_of, field_at, count_at, table_at, tables_end, tables_from, scan_of};

use super::{Fault, Table, number_at};
use numbers::Number;
use refusals::Refusal;
use tables::{Catalogue, Version};

// The highest m, and the highest n.
const MOST_ATTRIBUTES: u64 = 63;

const MOST_TABLES: u64 = 8;

// An image whose version and m are read, and how many cells are lent for it.
#[derive(Clone, Copy)]
struct Image<'a> {
    bytes: &'a [u8],
    version: Version,
    room: usize,
    m: usize,
    ghost attributes: { m < 64 },
}

// The whole first pass over an image for which `room` cells are lent: version, m, n, and the tables.
pub fn scan(s: &[u8], room: usize) -> Result<Catalogue, Fault>
    ensures { loaded_of result ≡ scan_of s.now room }
{
    let first = number_at(s, 0)?;
    let version = Version::try_from(first.value).map_err(|refusal| Fault::at(refusal, 0))?;
    let m = field_at(s, first.next, MOST_ATTRIBUTES, Refusal::SizesOut)?;
    let n = field_at(s, m.next, MOST_TABLES, Refusal::SizesOut)?;
    let image = Image {
        bytes: s,
        version,
        room,
        m: m.value as usize,
    };
    image.tables(n.value as usize, n.next)
}

// Either number of the head behind the version, which is not 0 and has a highest value, else the refusal.
fn field_at(s: &[u8], at: usize, most: u64, refusal: Refusal) -> Result<Number, Fault>
    ensures { field_of result ≡ field_at s.now at 1 most (number refusal) }
{
    let field = number_at(s, at)?;
    if field.value < 1 || most < field.value {
        return Err(Fault::at(refusal, at));
    }
    Ok(field)
}

impl Image<'_> {
    // The tables from a place on, one after the other, and nothing behind them.
    fn tables(&self, n: usize, at: usize) -> Result<Catalogue, Fault>
        requires { n ≤ most_tables }
        ensures { loaded_of result ≡ tables_from n self.now.bytes.now (version_number self.now.version) self.now.room self.now.m n 0 0 (replicate 8 0) (replicate 8 0) at }
    {
        let mut schemes = [0u64; 8];
        let mut rows = [0u16; 8];
        let mut used: usize = 0;
        let mut i = at;
        for t in 0..n {
            let table = self.table_at(used, i)?;
            schemes[t] = table.scheme;
            rows[t] = table.rows;
            used = table.used;
            i = table.next;
        }
        self.tables_end(tables::given(self.m, n, schemes, rows), i)
    }

    // What is said behind the last table: nothing may follow, and version 2 has to be needed.
    fn tables_end(&self, cat: Catalogue, at: usize) -> Result<Catalogue, Fault>
        requires { (cat.n ≤ most_tables) × (first_cell cat cat.n ≤ most_cells) }
        ensures { loaded_of result ≡ tables_end self.now.bytes.now (version_number self.now.version) cat at }
    {
        if at < self.bytes.len() {
            return Err(Fault::at(Refusal::Surplus, at));
        }
        if self.version.needless(cat) {
            return Err(Fault::at(Refusal::NeedlessVersion, 0));
        }
        Ok(tables::filled(cat))
    }

    // A table from a place on: its scheme, its row count, its rows.
    // Each number is judged as soon as it is read, so that the first fault is the one reported.
    fn table_at(&self, used: usize, at: usize) -> Result<Table, Fault>
        requires { used ≤ most_cells }
        ensures { table_of result ≡ table_at self.now.bytes.now (version_number self.now.version) self.now.room self.now.m used at }
    {
        let scheme = number_at(self.bytes, at)?;
        if tables::scheme_bad(self.m, scheme.value) {
            return Err(Fault::at(Refusal::BadScheme, at));
        }
        self.count_at(scheme.value, used, scheme.next)
    }

    // A table behind its scheme: its row count, which the image's version limits, then its rows.
    fn count_at(&self, scheme: u64, used: usize, at: usize) -> Result<Table, Fault>
        requires { used ≤ most_cells }
        ensures { table_of result ≡ count_at self.now.bytes.now (version_number self.now.version) self.now.room scheme used at }
    {
        let count = number_at(self.bytes, at)?;
        let rows = count.value;
        let most = self.version.most_rows();
        let used = tables::check_count(most, self.room, used, scheme, rows).map_err(
            |refusal| Fault::at(refusal, at),
        )?;
        let next = self.rows_end(count.next, rows as usize, tables::width(scheme))?;
        Ok(Table {
            scheme,
            rows: rows as u16,
            used,
            next,
        })
    }

    // The end of a table's rows: in version 2 each has a value, and each lies strictly above the one before.
    fn rows_end(&self, at: usize, rows: usize, width: usize) -> Result<usize, Fault>
        ensures { walk_of result ≡ rows_from rows width self.now.bytes.now (version_number self.now.version) true 0 at }
    {
        let s = self.bytes;
        let mut before: Option<usize> = None;
        let mut i = at;
        for _ in 0..rows {
            let next = run_end(s, i, width)?;
            if self.blank_at(i, width) {
                return Err(Fault::at(Refusal::NullRow, i));
            }
            if let Some(p) = before
                && !rises(s, p, i, width)
            {
                return Err(Fault::at(Refusal::RowNotRising, i));
            }
            before = Some(i);
            i = next;
        }
        Ok(i)
    }

    // Whether the row at a place is an all-null one in an image of version 2 (21).
    // Version 1 may hold such rows, and they are not looked for there.
    fn blank_at(&self, at: usize, width: usize) -> bool
        ensures { result ≡ blank (version_number self.now.version) (codes width self.now.bytes.now at) }
    {
        match self.version {
            Version::One => false,
            Version::Two => all_null(self.bytes, at, width),
        }
    }
}

// The end of so many numbers from a place on, or the first that is refused.
fn run_end(s: &[u8], at: usize, count: usize) -> Result<usize, Fault>
    ensures { walk_of result ≡ run_end count s.now at }
{
    let mut i = at;
    for _ in 0..count {
        i = number_at(s, i)?.next;
    }
    Ok(i)
}

// Whether the row at place p lies strictly below the row at place q.
// Both are read again, so that no row has to be kept.
fn rises(s: &[u8], p: usize, q: usize, width: usize) -> bool
    ensures { result ≡ below (codes width s.now p) (codes width s.now q) }
{
    let mut i = p;
    let mut j = q;
    for _ in 0..width {
        let Ok(x) = number_at(s, i) else {
            return false;
        };
        let Ok(y) = number_at(s, j) else {
            return false;
        };
        if x.value != y.value {
            return x.value < y.value;
        }
        i = x.next;
        j = y.next;
    }
    false
}

// Whether the row at a place has no value: every code is 0.
fn all_null(s: &[u8], at: usize, width: usize) -> bool
    ensures { result ≡ all_null (codes width s.now at) }
{
    let mut i = at;
    for _ in 0..width {
        let Ok(x) = number_at(s, i) else {
            return true;
        };
        if x.value != 0 {
            return false;
        }
        i = x.next;
    }
    true
}
