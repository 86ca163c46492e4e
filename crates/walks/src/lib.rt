#![tactic(auto)]

// The merged row of a set, and the walk over a table's rows to the first that has its codes: row by row, or by halving where a column does not fall.
ghost use Rattle.std.specs.Prelude.{◌≡◌, true, false, List, ℕ, ◌+◌, ◌-◌, ◌*◌, ◌%◌, ◌^◌, ◌≤◌, ◌<◌, length, get_or, IfSome, unwrap_or};
ghost use Rattle.std.specs.Int.Bits.{bit_and};
ghost use Rattle.std.specs.Int.Count.{ones};
ghost use Rattle.words.specs.Words.{bit_of};
ghost use Rattle.walks.specs.Merged.{merged_length, Under, Values, matches, joint, Added, row_in, Places, Rising, AtLeast};
ghost use Rattle.walks.specs.Firsts.{FirstIn};

// One column of a table: row 0's cell of it lies at `first`, and each next row's `width` cells further.
#[derive(Clone, Copy)]
struct Column<'a> {
    cells: &'a [u64],
    first: usize,
    width: usize,
    count: usize,
    ghost narrow: { width ≤ merged_length },
    ghost inside: { first + count * width < length cells.now + width },
}

// A column that does not fall from row to row.
#[derive(Clone, Copy)]
struct RisingColumn<'a> {
    column: Column<'a>,
    ghost rising: { Rising column.cells.now column.first column.width column.count },
}

// How a column is walked: row by row, or by halving where it is known not to fall.
#[derive(Clone, Copy)]
enum Way<'a> {
    RowByRow(Column<'a>),
    Halving(RisingColumn<'a>),
}

impl<'a> Column<'a> {
    ghost use Rattle.walks.specs.Columns.{NextIn};

    // Row r's code.
    #[inline]
    fn code(&self, r: usize) -> u64
        requires { r < self.now.count }
        ensures { result ≡ get_or self.now.cells.now (self.now.first + r * self.now.width) 0 }
    {
        self.cells[self.first + r * self.width]
    }

    // The column as one that does not fall, where it does not.
    // A stream takes cells in any order, so this is looked at and never assumed.
    fn rising(&self) -> Option<RisingColumn<'a>>
        ensures { IfSome result (λ c. c.column ≡ self.now) }
    {
        if (1..self.count).all(|r| self.code(r - 1) <= self.code(r)) {
            return Some(RisingColumn { column: *self });
        }
        None
    }

    // The next row, from row `from` on, that has the wanted code.
    // Nearly every row is passed over here, by one comparison.
    fn next_equal(&self, from: usize, wanted: u64) -> Option<usize>
        requires { from ≤ self.now.count }
        ensures { NextIn self.now from wanted result }
    {
        (from..self.count).find(|r| self.code(*r) == wanted)
    }
}

impl<'a> RisingColumn<'a> {
    ghost use Rattle.walks.specs.Columns.{NextIn};

    // The first row whose code is not below the wanted one.
    // By halving, with as many reads as the number of rows has bits, whatever the codes are. The slice's `partition_point` would need the codes side by
    // side, and they lie `width` apart.
    fn first_at_least(&self, wanted: u64) -> Option<usize>
        ensures least { AtLeast self.now.column.cells.now self.now.column.first self.now.column.width 0 self.now.column.count wanted (unwrap_or result self.now.column.count) }
        ensures there { IfSome result (λ r. r < self.now.column.count) }
    {
        let mut from = 0;
        let mut left = self.column.count;
        while left != 0 {
            let rest = left / 2;
            let half = left - rest;
            from = past(self.column.code(from + half - 1), wanted, from, half);
            left = rest;
        }
        if from == self.column.count {
            return None;
        }
        Some(from)
    }

    // Whether row `near` is the first that has the wanted code.
    // Two reads tell; nothing is asked of `near`, which is a guess: tables that share a column often have the same code in the same row.
    fn is_first(&self, wanted: u64, near: usize) -> bool
        ensures { result ≡ true → NextIn self.now.column 0 wanted (Some near) }
    {
        near < self.column.count
            && self.column.code(near) == wanted
            && (near == 0 || self.column.code(near - 1) < wanted)
    }

    // The first row that has the wanted code. It is looked for at `near`, and then by halving.
    fn first_equal(&self, wanted: u64, near: usize) -> Option<usize>
        ensures { NextIn self.now.column 0 wanted result }
    {
        if self.is_first(wanted, near) {
            return Some(near);
        }
        let r = self.first_at_least(wanted)?;
        if self.column.code(r) == wanted {
            return Some(r);
        }
        None
    }

    // The next row, from row `from` on, that has the wanted code, behind a row that has it.
    // Rows with one code lie together, and row `from` is the answer or there is none.
    fn next_equal(&self, from: usize, wanted: u64) -> Option<usize>
        requires reached { from ≤ self.now.column.count }
        requires behind { (0 < from) × (get_or self.now.column.cells.now (self.now.column.first + (from - 1) * self.now.column.width) 0 ≡ wanted) }
        ensures { NextIn self.now.column from wanted result }
    {
        if from < self.column.count && self.column.code(from) == wanted {
            return Some(from);
        }
        None
    }
}

// Where a halving goes on: past `half` rows where the last of them has a code below the wanted one, else where it was.
// A choice between two numbers, which costs no jump.
fn past(code: u64, wanted: u64, from: usize, half: usize) -> usize
    requires { from + half < 2 ^ 64 }
    ensures { (code < wanted → result ≡ from + half) × (wanted ≤ code → result ≡ from) }
{
    if code < wanted { from + half } else { from }
}

impl<'a> Way<'a> {
    ghost use Rattle.walks.specs.Columns.{NextIn, column_of};

    // The first row that has the wanted code; `near` says which one to look at first, where one may choose.
    #[inline]
    fn first(&self, wanted: u64, near: usize) -> Option<usize>
        ensures { NextIn (column_of self.now) 0 wanted result }
    {
        match self {
            Way::RowByRow(column) => column.next_equal(0, wanted),
            Way::Halving(column) => column.first_equal(wanted, near),
        }
    }

    // The next row, from row `from` on, that has the wanted code, behind a row that has it.
    #[inline]
    fn next(&self, from: usize, wanted: u64) -> Option<usize>
        requires reached { from ≤ (column_of self.now).count }
        requires behind { (0 < from) × (get_or (column_of self.now).cells.now ((column_of self.now).first + (from - 1) * (column_of self.now).width) 0 ≡ wanted) }
        ensures { NextIn (column_of self.now) from wanted result }
    {
        match self {
            Way::RowByRow(column) => column.next_equal(from, wanted),
            Way::Halving(column) => column.next_equal(from, wanted),
        }
    }
}

// The rows of a table: their scheme and how wide it makes them, where their cells begin, how many they are, and whether their first column is known not to
// fall. Of the other columns nothing is known. `rises` is a bit of the mask that a call works out once; what it says is the ghost field's.
#[derive(Clone, Copy)]
pub struct Rows<'a> {
    pub cells: &'a [u64],
    pub scheme: u64,
    pub width: usize,
    pub base: usize,
    pub count: usize,
    pub rises: bool,
    ghost wide: { width ≡ ones scheme },
    ghost inside: { row_in base scheme count ≤ length cells.now },
    ghost rising: { rises ≡ true → Rising cells.now base width count },
}

// The merged row of a set: the attributes of its rows, and a code for each of them.
#[derive(Clone, Copy)]
pub struct MergedRow {
    pub attrs: u64,
    pub codes: [u64; 64],
    ghost long: { length codes ≡ merged_length },
}

impl MergedRow {
    // That of a set with no row: what lies at an attribute that no row has is not read.
    #[inline]
    pub fn empty() -> MergedRow
        ensures { result.attrs ≡ 0 }
    {
        MergedRow {
            attrs: 0,
            codes: [0; 64],
        }
    }

    // Whether there is a value at every attribute of the mask.
    // Where there is none no row matches, and where there is one everywhere a row is compared without asking for nulls.
    fn valued(&self, mask: u64) -> bool
        ensures all { result ≡ true → Values mask self.now.codes }
        ensures null { result ≡ false → (cells : List ℕ) (scheme start : ℕ) → matches cells scheme start mask self.now.codes ≡ false }
    {
        words::bits(mask).all(|a| self.codes[a] != 0)
    }

    // Merges row i of a table into it. Every row that a merged row is made of comes in by this.
    // The set's rows are read once in an extension, and not once for each row tested; a row's cells lie by rising attribute, and are read one after the other.
    pub fn add(&mut self, rows: &Rows<'_>, i: usize)
        requires { i < rows.now.count }
        ensures { Added rows.now.cells.now rows.now.scheme (row_in rows.now.base rows.now.scheme i) self.old.attrs self.old.codes self.new.codes self.new.attrs }
    {
        let mut place = rows.start(i);
        for a in words::bits(rows.scheme) {
            let seen = words::bit_of(self.attrs, a);
            self.codes[a] = join_code(seen, self.codes[a], rows.cells[place]);
            place += 1;
        }
        self.attrs |= rows.scheme;
    }
}

// The merged code of an attribute that the new row has.
// Where members disagree it is 0 as for null, and so matches nothing from then on.
fn join_code(seen: bool, old: u64, code: u64) -> u64
    ensures { result ≡ joint seen old code }
{
    if !seen || old == code { code } else { 0 }
}

// Where the cells of a mask's attributes lie in a row of this scheme, by attribute.
// They lie there in every row of a table, so that the ones of a mask are counted once for the table and not once a row.
fn places_of(scheme: u64, mask: u64) -> [u8; 64]
    ensures { Places scheme mask result }
{
    let mut places: [u8; 64] = [0; 64];
    for a in words::bits(mask) {
        places[a] = tables::rank(scheme, a) as u8;
    }
    places
}

impl<'a> Rows<'a> {
    ghost use Rattle.walks.specs.Columns.{IsColumn, column_of};

    // Where row i's cells begin.
    #[inline]
    fn start(&self, i: usize) -> usize
        requires { i < self.now.count }
        ensures { result ≡ row_in self.now.base self.now.scheme i }
    {
        self.base + i * self.width
    }

    // The column of an attribute of the scheme.
    #[inline]
    fn column(&self, a: usize) -> Column<'a>
        requires { bit_of self.now.scheme a ≡ true }
        ensures { IsColumn result self.now.cells.now (self.now.base + ones (self.now.scheme % 2 ^ a)) self.now.width self.now.count }
    {
        Column {
            cells: self.cells,
            first: self.base + tables::rank(self.scheme, a),
            width: self.width,
            count: self.count,
        }
    }

    // How the column of an attribute is walked: only the first may be known not to fall.
    #[inline]
    fn way(&self, a: usize) -> Way<'a>
        requires { bit_of self.now.scheme a ≡ true }
        ensures { IsColumn (column_of result) self.now.cells.now (self.now.base + ones (self.now.scheme % 2 ^ a)) self.now.width self.now.count }
    {
        let column = self.column(a);
        if self.rises && column.first == self.base {
            return Way::Halving(RisingColumn { column });
        }
        Way::RowByRow(column)
    }

    // Whether the first column does not fall from row to row.
    pub fn first_rises(&self) -> bool
        requires { 0 < self.now.scheme }
        ensures { result ≡ true → Rising self.now.cells.now self.now.base self.now.width self.now.count }
    {
        self.column(words::lowest(self.scheme)).rising().is_some()
    }

    // Whether row i, whose cells lie at these places, has the merged codes at the attributes of the mask, each of them a value.
    // Only the set bits of the mask are gone through, each with one read of the row and one of the merged row.
    fn fits_placed(&self, i: usize, mask: u64, places: &[u8; 64], merged: &MergedRow) -> bool
        requires there { i < self.now.count }
        requires placed { Places self.now.scheme mask places.now }
        requires part { Under mask self.now.scheme }
        requires valued { Values mask merged.now.codes }
        ensures { result ≡ matches self.now.cells.now self.now.scheme (row_in self.now.base self.now.scheme i) mask merged.now.codes }
    {
        let start = self.start(i);
        words::bits(mask).all(|a| merged.codes[a] == self.cells[start + places[a] as usize])
    }

    // Whether row i has the merged codes at the attributes that it shares, each of them a value.
    // Of one row alone: where its cells lie is worked out attribute by attribute, and no further than they agree.
    pub fn fits(&self, i: usize, merged: &MergedRow) -> bool
        requires { i < self.now.count }
        ensures { result ≡ matches self.now.cells.now self.now.scheme (row_in self.now.base self.now.scheme i) (bit_and self.now.scheme merged.now.attrs) merged.now.codes }
    {
        let start = self.start(i);
        words::bits(self.scheme & merged.attrs).all(|a| {
            let wanted = merged.codes[a];
            wanted != 0 && self.cells[start + tables::rank(self.scheme, a)] == wanted
        })
    }

    // The first row, from 0, that has the merged codes at the attributes that it shares, at least one.
    // Only a row with the code of the lowest of them is looked at further, and where one of the codes is 0 no row is. `near` says which row to look at
    // first, where the column is known not to fall.
    pub fn first_fit(&self, near: usize, merged: &MergedRow) -> Option<usize>
        requires { 0 < bit_and self.now.scheme merged.now.attrs }
        ensures first { FirstIn self.now.count (λ i. matches self.now.cells.now self.now.scheme (row_in self.now.base self.now.scheme i) (bit_and self.now.scheme merged.now.attrs) merged.now.codes) (unwrap_or result self.now.count) }
        ensures there { IfSome result (λ i. i < self.now.count) }
    {
        let shared = self.scheme & merged.attrs;
        if !merged.valued(shared) {
            return None;
        }
        let a = words::lowest(shared);
        let wanted = merged.codes[a];
        let way = self.way(a);
        let mut i = way.first(wanted, near)?;
        let mask = words::without_lowest(shared);
        if mask == 0 {
            return Some(i);
        }
        let places = places_of(self.scheme, mask);
        while !self.fits_placed(i, mask, &places, merged) {
            i = way.next(i + 1, wanted)?;
        }
        Some(i)
    }
}
