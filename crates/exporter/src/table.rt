// A table that meets no refusal.
ghost use Rattle.std.specs.Prelude.{◌≡◌, ◌*◌, ◌^◌, ◌≤◌, ◌<◌, length, take, replicate, IfOk};
ghost use Rattle.std.specs.Int.Count.{ones};
ghost use Rattle.laws.specs.Lists.{put};
ghost use Rattle.refusals.specs.Refusals.{fault_in};
ghost use Rattle.tables.specs.Sizes.{most_attributes, most_cells};
ghost use Rattle.text.specs.Writing.{attribute_codes, write_fault};

use refusals::Refusal;
use tables::Version;

// A table that meets no refusal, with just its own cells.
// What measures its text and what puts it take it so, and ask nothing of it.
#[derive(Clone, Copy)]
pub struct Table<'a> {
    m: usize,
    scheme: u64,
    pub cells: &'a [u64],
    ghost attributes: { m ≤ most_attributes },
    ghost some_scheme: { 0 < scheme },
    ghost low_scheme: { scheme < 2 ^ m },
    ghost few: { length cells.now ≤ most_cells },
}

impl<'a> Table<'a> {
    // The table, or the first refusal that it meets: 4, 5, 6, 8, then row by row 10 and 7.
    // Its rows are refused as the image writer refuses them in version 1, where no row is 21.
    pub fn new(m: usize, scheme: u64, rows: usize, cells: &'a [u64]) -> Result<Table<'a>, Refusal>
        ensures fault { fault_in result ≡ write_fault m scheme rows cells.now }
        ensures table { IfOk result
            (λ table. (table.m ≡ m) × (table.scheme ≡ scheme) × (table.cells.now ≡ take (rows * ones scheme) cells.now)) }
    {
        tables::check_sizes(m, 1)?;
        let count = tables::check_table(m, cells.len(), 0, scheme, rows as u64)?;
        let own = &cells[..count];
        writer::check_rows(own, tables::width(scheme), Version::One)?;
        Ok(Table {
            m,
            scheme,
            cells: own,
        })
    }

    // How many cells a row has.
    pub fn width(&self) -> usize
        ensures { result ≡ ones self.now.scheme }
    {
        tables::width(self.scheme)
    }

    // The header's codes, in front of zeros: the attributes of the scheme, each by its number plus 1, as a row's cells are.
    pub fn header(&self) -> [u64; 64]
        ensures codes { take (ones self.now.scheme) result ≡ attribute_codes self.now.m 0 self.now.scheme }
        ensures whole { result ≡ put (attribute_codes self.now.m 0 self.now.scheme) (replicate 64 0) }
    {
        let mut codes = [0; 64];
        let mut k = 0;
        for a in 0..self.m {
            if self.scheme >> a & 1 == 1 {
                codes[k] = a as u64 + 1;
                k += 1;
            }
        }
        codes
    }
}
