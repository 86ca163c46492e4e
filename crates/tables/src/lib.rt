#![tactic(auto)]

// The catalogue: what it says of each table, where a row's cells lie, which tables touch, and which refusal it meets.
ghost use Rattle.std.specs.Prelude.{◌≡◌, not, cond, ◌&&◌, ◌+◌, ◌*◌, ◌%◌, ◌^◌, ◌≤◌, ◌<◌, eqb, length, IfOk};
ghost use Rattle.laws.specs.Lists.{part};
ghost use Rattle.refusals.specs.Refusals.{fault_in};
ghost use Rattle.std.specs.Int.Bits.{bit_and};
ghost use Rattle.std.specs.Int.Count.{ones};
ghost use Rattle.tables.specs.Sizes.{most_tables, most_rows, most_cells};
ghost use Rattle.tables.specs.Catalogues.{count_of, scheme_of, first_cell, touch, touching_of, filled, given, no_tables, row_start, total, row_at};
ghost use Rattle.tables.specs.Checks.{size_fault, bad_scheme, count_fault, table_fault, shape_fault, misstored, stored_fault, catalogue_fault, Lawful, made_of, Makes};
ghost use Rattle.tables.specs.Versions.{version_of, most_rows_in, needless, version_number, Reads};

use refusals::Refusal;

// The most attributes, and the most tables.
const MOST_ATTRIBUTES: usize = 63;

const MOST_TABLES: usize = 8;

// The most cells that all tables have together.
const MOST_CELLS: usize = 8192;

// The most rows of a table in version 1.
const MOST_ROWS_ONE: u64 = 255;

// The most rows of a table in version 2 and in a catalogue.
const MOST_ROWS: u64 = 4095;

// "One record with m, n, and eight schemes and eight row counts", and "eight first-cell places and eight masks of touching tables": bit u of table t's
// mask says that t and u touch. Entries from n on are ignored.
// A place is at most 8,192 and a mask has a bit a table, so two bytes hold either: a catalogue is handed down by value.
// The arrays stand side by side, not as eight tables, since the documents and C have the record so.
#[derive(Clone, Copy)]
pub struct Catalogue {
    pub m: usize,
    pub n: usize,
    pub schemes: [u64; 8],
    pub rows: [u16; 8],
    pub places: [u16; 8],
    pub touching: [u16; 8],
}

// A row: its table from 0, and its number in it from 1.
#[derive(Clone, Copy)]
pub struct Row {
    pub table: usize,
    pub row: usize,
}

// How many cells a row of this scheme has.
// A scheme is a mask, so these are its ones.
pub fn width(scheme: u64) -> usize
    ensures { result ≡ ones scheme }
{
    u64::count_ones(scheme) as usize
}

// How many attributes below `a` the scheme has: the place of a's cell in its row.
// Cells lie by rising attribute. Often it is the first that is asked for, and then nothing is counted.
pub fn rank(scheme: u64, a: usize) -> usize
    requires { a < 64 }
    ensures { result ≡ ones (scheme % 2 ^ a) }
{
    let below = scheme % (1 << a);
    if below == 0 {
        return 0;
    }
    width(below)
}

// 4 where m or n is out of range.
// Whatever reads a catalogue looks at these two first.
pub fn check_sizes(m: usize, n: usize) -> Result<(), Refusal>
    ensures { fault_in result ≡ size_fault m n }
{
    if m < 1 || MOST_ATTRIBUTES < m || n < 1 || MOST_TABLES < n {
        return Err(Refusal::SizesOut);
    }
    Ok(())
}

// Whether a scheme is 0 or has an attribute from m on (5).
// The loader asks this as it reads the scheme, before the row count.
pub fn scheme_bad(m: usize, scheme: u64) -> bool
    requires { m < 64 }
    ensures { result ≡ bad_scheme m scheme }
{
    scheme == 0 || scheme >> m != 0
}

// 6 or 8 for a row count; a table may have `most` rows, and `used` cells lie before it. Else how many cells lie before the next table.
// The count is looked at first, so that the sum of the cells stays small.
pub fn check_count(
    most: u64,
    lent: usize,
    used: usize,
    scheme: u64,
    rows: u64,
) -> Result<usize, Refusal>
    requires { (most ≤ most_rows) × (used ≤ most_cells) }
    ensures fault { fault_in result ≡ count_fault most lent used scheme rows }
    ensures cells { IfOk result (λ cells. (cells ≡ used + rows * ones scheme) × (cells ≤ most_cells)) }
{
    if most < rows {
        return Err(Refusal::ManyRows);
    }
    let cells = used + (rows as usize) * width(scheme);
    if MOST_CELLS < cells || lent < cells {
        return Err(Refusal::ManyCells);
    }
    Ok(cells)
}

// 5, 6 or 8 for a table; `used` cells lie before it. Else how many cells lie before the next one.
// Open, the stream call and the writer ask this table by table.
pub fn check_table(
    m: usize,
    lent: usize,
    used: usize,
    scheme: u64,
    rows: u64,
) -> Result<usize, Refusal>
    requires { (m < 64) × (used ≤ most_cells) }
    ensures fault { fault_in result ≡ table_fault m lent used scheme rows }
    ensures cells { IfOk result (λ cells. (cells ≡ used + rows * ones scheme) × (cells ≤ most_cells)) }
{
    if scheme_bad(m, scheme) {
        return Err(Refusal::BadScheme);
    }
    check_count(MOST_ROWS, lent, used, scheme, rows)
}

// The first of 4 and, table by table, 5, 6 and 8; `lent` cells are lent.
// What is stored of the tables is not looked at here, since it is worked out from what this test lets pass.
fn check_shape(cat: Catalogue, lent: usize) -> Result<(), Refusal>
    ensures { fault_in result ≡ shape_fault cat lent }
{
    check_sizes(cat.m, cat.n)?;
    let mut used = 0;
    for t in 0..cat.n {
        used = check_table(cat.m, lent, used, cat.schemes[t], u64::from(cat.rows[t]))?;
    }
    Ok(())
}

// The bit of table u in table t's mask: 0 where they do not touch.
// A table never touches itself.
fn touch_bit(cat: Catalogue, t: usize, u: usize) -> u16
    requires { (t < most_tables) × (u < most_tables) }
    ensures { result ≡ cond (touch cat t u) (2 ^ u) 0 }
{
    if u != t && cat.schemes[t] & cat.schemes[u] != 0 {
        1 << u
    } else {
        0
    }
}

// The mask of the tables that touch table t.
// It is worked out where a catalogue is made and where a stored one is checked; everything else reads the stored one.
fn touching_of(cat: Catalogue, t: usize) -> u16
    requires { (t < cat.n) × (cat.n ≤ most_tables) }
    ensures { result ≡ touching_of cat t }
{
    let mut mask = 0;
    for u in 0..cat.n {
        mask += touch_bit(cat, t, u);
    }
    mask
}

// 16 where a stored place or mask below n is not the one worked out.
// Behind this test both are read and never worked out again.
fn check_stored(cat: Catalogue) -> Result<(), Refusal>
    requires { (cat.n ≤ most_tables) × (first_cell cat cat.n ≤ most_cells) }
    ensures { fault_in result ≡ stored_fault cat }
{
    let mut at = 0;
    for t in 0..cat.n {
        if cat.places[t] as usize != at || cat.touching[t] != touching_of(cat, t) {
            return Err(Refusal::Misstored);
        }
        at += cat.rows[t] as usize * width(cat.schemes[t]);
    }
    Ok(())
}

// The first refusal of the whole catalogue (4; then table by table 5, 6, 8; then 16); `lent` cells are lent.
// Whatever a catalogue is lent to makes this test first, so that all behind it may rely on a lawful catalogue.
pub fn check(cat: Catalogue, lent: usize) -> Result<(), Refusal>
    ensures { fault_in result ≡ catalogue_fault cat lent }
{
    check_shape(cat, lent)?;
    check_stored(cat)
}

// Tables that were checked: a lawful catalogue, and the cells that all its tables lie in.
// What works on tables takes them so, and asks nothing of them.
#[derive(Clone, Copy)]
pub struct Tables<'a> {
    pub catalogue: Catalogue,
    pub cells: &'a [u64],
    ghost lawful: { Lawful catalogue (length cells.now) },
}

impl<'a> Tables<'a> {
    // Tables of this catalogue in the lent cells, or the first refusal of the catalogue.
    pub fn new(catalogue: Catalogue, cells: &'a [u64]) -> Result<Tables<'a>, Refusal>
        ensures fault { fault_in result ≡ catalogue_fault catalogue (length cells.now) }
        ensures tables { IfOk result (λ tables. (tables.catalogue ≡ catalogue) × (tables.cells.now ≡ cells.now)) }
    {
        check(catalogue, cells.len())?;
        Ok(Tables { catalogue, cells })
    }

    // The cells of table t.
    pub fn cells_of(&self, t: usize) -> &'a [u64]
        requires { t < self.now.catalogue.n }
        ensures { let cat = self.now.catalogue in
            result.now ≡ part (first_cell cat t) (count_of cat t * ones (scheme_of cat t)) self.now.cells.now }
    {
        let cat = self.catalogue;
        let start = usize::from(cat.places[t]);
        let count = usize::from(cat.rows[t]) * width(cat.schemes[t]);
        &self.cells[start..start + count]
    }
}

// The catalogue with places and masks worked out; those that it came with are not looked at.
pub fn filled(cat: Catalogue) -> Catalogue
    requires { (cat.n ≤ most_tables) × (first_cell cat cat.n ≤ most_cells) }
    ensures { result ≡ filled cat }
{
    let mut places = [0; 8];
    let mut touching = [0; 8];
    let mut at = 0;
    for t in 0..cat.n {
        places[t] = at as u16;
        touching[t] = touching_of(cat, t);
        at += cat.rows[t] as usize * width(cat.schemes[t]);
    }
    Catalogue {
        places,
        touching,
        ..cat
    }
}

// What is said of tables, with nothing worked out yet.
pub fn given(m: usize, n: usize, schemes: [u64; 8], rows: [u16; 8]) -> Catalogue
    ensures { result ≡ given m n schemes rows }
{
    Catalogue {
        m,
        n,
        schemes,
        rows,
        places: [0; 8],
        touching: [0; 8],
    }
}

// A catalogue of zeros: what is given where there is a refusal.
pub fn no_tables() -> Catalogue
    ensures { result ≡ no_tables }
{
    given(0, 0, [0; 8], [0; 8])
}

// The catalogue of tables made by hand, places and masks filled, or the first of 4, 5, 6 and 8.
// No cells are lent yet, so there is room for as many as there can be.
pub fn make_catalogue(
    m: usize,
    n: usize,
    schemes: [u64; 8],
    rows: [u16; 8],
) -> Result<Catalogue, Refusal>
    ensures { Makes m n schemes rows (made_of result) }
{
    let cat = given(m, n, schemes, rows);
    check_shape(cat, MOST_CELLS)?;
    Ok(filled(cat))
}

// The most rows that a table may have in an image of this version, which is said by its number.
// Any number but 1 allows as many as a catalogue.
#[tactic(auto, unfolding(crate::specs::Versions::most_rows_in))]
pub fn most_rows_in(version: u64) -> u64
    ensures { result ≡ most_rows_in version }
{
    if version == 1 {
        MOST_ROWS_ONE
    } else {
        MOST_ROWS
    }
}

// Whether an image of these tables carries a version, said by its number, without need (20): it is 2, and no table passes 255 rows.
pub fn needless(version: u64, cat: Catalogue) -> bool
    requires { cat.n ≤ most_tables }
    ensures { result ≡ needless version cat }
{
    version == 2 && u64::from(cat.version()) == 1
}

// The versions of an image.
#[derive(Clone, Copy, PartialEq, Eq, Debug)]
pub enum Version {
    One,
    Two,
}

impl Version {
    // The most rows that a table may have in an image of this version.
    // The loader judges each row count by it.
    pub fn most_rows(self) -> u64
        ensures { result ≡ most_rows_in (version_number self) }
    {
        most_rows_in(u64::from(self))
    }

    // Whether an image of these tables carries this version without need (20): it is 2, and no table passes 255 rows.
    pub fn needless(self, cat: Catalogue) -> bool
        requires { cat.n ≤ most_tables }
        ensures { result ≡ needless (version_number self) cat }
    {
        needless(u64::from(self), cat)
    }
}

// The number that an image begins with.
impl From<Version> for u64 {
    ghost from_gives = { λ version k. k ≡ version_number version };

    fn from(version: Version) -> u64 {
        match version {
            Version::One => 1,
            Version::Two => 2,
        }
    }
}

// The version of that number; any other number is refused (3).
impl TryFrom<u64> for Version {
    type Error = Refusal;

    ghost try_from_gives = { Reads };

    fn try_from(number: u64) -> Result<Version, Refusal> {
        match number {
            1 => Ok(Version::One),
            2 => Ok(Version::Two),
            _ => Err(Refusal::UnknownVersion),
        }
    }
}

impl Catalogue {
    // The version that the image of these tables carries: 2 where a table passes 255 rows, else 1.
    // The writer puts it first.
    pub fn version(self) -> Version
        requires { self.n ≤ most_tables }
        ensures { version_number result ≡ version_of self }
    {
        if self.rows[..self.n]
            .iter()
            .any(|rows| MOST_ROWS_ONE < u64::from(*rows))
        {
            Version::Two
        } else {
            Version::One
        }
    }
}

// N: how many rows all tables have together.
pub fn total_rows(cat: Catalogue) -> usize
    requires { Lawful cat most_cells }
    ensures { result ≡ total cat }
{
    cat.rows[..cat.n].iter().map(|rows| *rows as usize).sum()
}

// Where the cells of a row begin.
pub fn row_start(cat: Catalogue, table: usize, row: usize) -> usize
    requires { Lawful cat most_cells × (table < cat.n) × (row ≤ count_of cat table) × (1 ≤ row) }
    ensures { result ≡ row_start cat table row }
{
    cat.places[table] as usize + (row - 1) * width(cat.schemes[table])
}

// The row at a place in row order.
pub fn row_at(cat: Catalogue, place: usize) -> Row
    requires { Lawful cat most_cells × (place < total cat) }
    ensures { result ≡ row_at cat place }
{
    let mut left = place;
    for table in 0..cat.n {
        let rows = cat.rows[table] as usize;
        if left < rows {
            return Row {
                table,
                row: left + 1,
            };
        }
        left -= rows;
    }
    // The place is below N, so this is never reached.
    Row {
        table: cat.n,
        row: left + 1,
    }
}

// The same of tables whose cells are lent.
impl Tables<'_> {
    // N: how many rows all tables have together.
    pub fn total_rows(&self) -> usize
        ensures { result ≡ total self.now.catalogue }
    {
        total_rows(self.catalogue)
    }

    // Where the cells of a row begin.
    pub fn row_start(&self, table: usize, row: usize) -> usize
        requires table { table < self.now.catalogue.n }
        requires low { 1 ≤ row }
        requires high { row ≤ count_of self.now.catalogue table }
        ensures { result ≡ row_start self.now.catalogue table row }
    {
        row_start(self.catalogue, table, row)
    }

    // The row at a place in row order.
    pub fn row_at(&self, place: usize) -> Row
        requires { place < total self.now.catalogue }
        ensures { result ≡ row_at self.now.catalogue place }
    {
        row_at(self.catalogue, place)
    }
}
