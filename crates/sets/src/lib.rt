#![tactic(auto)]

// Row sets as keys: the row test by the set's merged row, the extension, and the set that a trial comes to.
ghost use Rattle.std.specs.Prelude.{◌≡◌, true, false, ℕ, ◌<◌, ◌^◌};
ghost use Rattle.std.specs.Int.Bits.{bit_or};
ghost use Rattle.words.specs.Words.{bit_of};
ghost use Rattle.keys.specs.TwoWords.{number_of};
ghost use Rattle.tables.specs.Catalogues.{scheme_of, row_start, mask_in};
ghost use Rattle.disjunction.specs.Sets.{at};
ghost use Rattle.disjunction.specs.Rule.{extension, add_row, dropped, piece, trial};
ghost use Rattle.rows.specs.World.{world_of, set_of, place_of};
ghost use Rattle.rows.specs.Named.{Named, There};
ghost use Rattle.walks.specs.Merged.{Under, Merged, Added};
ghost use Rattle.sets.specs.Promises.{RisingIn, LaidOut, TablesOf, lacking, Reach, Comes, parts};

use keys::Key;
use tables::{Row, Tables};
use walks::{MergedRow, Rows};

// What an extension or a trial comes to: the key of the set, and how many row tests were made.
#[derive(Clone, Copy)]
pub struct Grown {
    pub key: Key,
    pub tests: usize,
}

// What a trial goes by and reads off the catalogue and the cells: of each table how many rows lie before it and how wide its rows are; how many rows there
// are; and which tables have a first column that does not fall.
#[derive(Clone, Copy)]
pub struct Measures {
    pub before: [u16; 8],
    pub widths: [u8; 8],
    pub total: usize,
    pub rising: u64,
}

// Checked tables with what trials go by: worked out once, it serves every trial of a call.
#[derive(Clone, Copy)]
pub struct Layout<'a> {
    pub tables: Tables<'a>,
    pub measures: Measures,
    ghost laid_out: { LaidOut tables.catalogue tables.cells.now measures },
}

// A row set under way in a trial: its key, and as a mask the tables that have a row in it.
// The mask tells at once which rows there are to look at, and with the catalogue's masks which tables touch the set.
#[derive(Clone, Copy)]
struct RowSet<'a> {
    layout: &'a Layout<'a>,
    key: Key,
    tables: u64,
    ghost named: { Named layout.now.tables.catalogue (number_of key) },
    ghost members: { TablesOf (set_of layout.now.tables.catalogue (number_of key)) tables },
}

// What a set has to share with other rows: its merged row, and the tables that touch one of its rows'.
#[derive(Clone, Copy)]
struct Touch {
    merged: MergedRow,
    reach: u64,
}

// The measures of the tables, with none known to rise.
// The ones of a scheme are counted here, once a call, and not where its rows are gone through.
fn measured(tables: &Tables<'_>) -> Measures
    ensures { LaidOut tables.now.catalogue tables.now.cells.now result }
{
    let catalogue = &tables.catalogue;
    let mut before: [u16; 8] = [0; 8];
    let mut widths: [u8; 8] = [0; 8];
    let mut total: usize = 0;
    for t in 0..catalogue.n {
        before[t] = total as u16;
        widths[t] = tables::width(catalogue.schemes[t]) as u8;
        total += catalogue.rows[t] as usize;
    }
    Measures {
        before,
        widths,
        total,
        rising: 0,
    }
}

impl Measures {
    ghost use Rattle.sets.specs.Layouts.{IsTable};

    // The measures of the tables, for at most this many trials. They refer to nothing, and may outlive the tables.
    // The columns are looked at only where there are trials enough to pay for it; else no table is known to rise, and each is walked row by row.
    // Never inlined, so that `Layout::new`, which calls it, is short enough to be.
    #[inline(never)]
    pub fn new(tables: &Tables<'_>, trials: usize) -> Measures
        ensures { LaidOut tables.now.catalogue tables.now.cells.now result }
    {
        let measures = measured(tables);
        if trials < 16 || trials < measures.total / 16 {
            return measures;
        }
        let rising = measures.rising_tables(tables);
        Measures { rising, ..measures }
    }

    // The rows of table t of the tables that were measured.
    #[inline]
    fn rows<'a>(&self, tables: &Tables<'a>, t: usize) -> Rows<'a>
        requires laid_out { LaidOut tables.now.catalogue tables.now.cells.now self.now }
        requires table { t < tables.now.catalogue.n }
        ensures { IsTable tables.now t result }
    {
        let catalogue = &tables.catalogue;
        Rows {
            cells: tables.cells,
            scheme: catalogue.schemes[t],
            width: self.widths[t] as usize,
            base: catalogue.places[t] as usize,
            count: catalogue.rows[t] as usize,
            rises: words::bit_of(self.rising, t),
        }
    }

    // The tables whose first column does not fall, as a mask.
    // Tables from an image are all among them, since their rows rise.
    fn rising_tables(&self, tables: &Tables<'_>) -> u64
        requires { LaidOut tables.now.catalogue tables.now.cells.now self.now }
        ensures { RisingIn tables.now.catalogue tables.now.cells.now result }
    {
        let mut rising: u64 = 0;
        for t in 0..tables.catalogue.n {
            if self.rows(tables, t).first_rises() {
                rising |= 1 << t;
            }
        }
        rising
    }
}

impl<'a> Layout<'a> {
    ghost use Rattle.sets.specs.Layouts.{world, rows_of, IsTable};

    // The layout of these tables, for at most this many trials.
    // In line, where it is called, LLVM lays the tables down where the layout stays. By themselves values so large go from hand to hand by copies that call
    // `memcpy`, which the archive for C would then want from outside.
    #[inline]
    pub fn new(tables: Tables<'a>, trials: usize) -> Layout<'a>
        ensures { result.tables ≡ tables.entry }
    {
        let measures = Measures::new(&tables, trials);
        Layout { tables, measures }
    }

    // The rows of table t.
    #[inline]
    fn rows(&self, t: usize) -> Rows<'a>
        requires { t < self.now.tables.catalogue.n }
        ensures { IsTable self.now.tables t result }
    {
        self.measures.rows(&self.tables, t)
    }

    // The set of a key, with its tables.
    // A key is gone through once for it, and after that only the tables of the mask are.
    fn set(&self, key: Key) -> RowSet<'_>
        requires { Named self.now.tables.catalogue (number_of key) }
        ensures { (result.layout.now ≡ self.now) × (result.key ≡ key) }
    {
        let mut tables: u64 = 0;
        for u in 0..self.tables.catalogue.n {
            if key.row(u) != 0 {
                tables |= 1 << u;
            }
        }
        RowSet {
            layout: self,
            key,
            tables,
        }
    }

    // The extension of a key's set; `near` says which row of a table to look at first.
    pub fn extend(&self, from: Key, near: usize) -> Grown
        requires { Named self.now.tables.catalogue (number_of from) }
        ensures { Comes self.now.tables.catalogue (extension (world_of self.now.tables.catalogue self.now.tables.cells.now) (set_of self.now.tables.catalogue (number_of from))) (number_of result.key) result.tests }
    {
        self.set(from).extended(near)
    }

    // "Trial of row s on set T: drop ..; add s; keep the piece that holds s; extend."
    // The search for the set it comes to is the caller's, who has the store.
    pub fn trial(&self, key: Key, row: Row) -> Grown
        requires { Named self.now.tables.catalogue (number_of key) × There self.now.tables.catalogue row.table row.row }
        ensures { Comes self.now.tables.catalogue (trial (world_of self.now.tables.catalogue self.now.tables.cells.now) (set_of self.now.tables.catalogue (number_of key)) (place_of row)) (number_of result.key) result.tests }
    {
        self.set(key).kept(row).piece(row).extended(row.row - 1)
    }
}

impl Touch {
    ghost use Rattle.sets.specs.Layouts.{world};

    // That of no row.
    #[inline]
    fn none() -> Touch
        ensures { (result.merged.attrs ≡ 0) × (result.reach ≡ 0) }
    {
        Touch {
            merged: MergedRow::empty(),
            reach: 0,
        }
    }

    // Adds a row of the tables.
    fn add(&mut self, layout: &Layout<'_>, row: Row)
        requires { There layout.now.tables.catalogue row.table row.row }
        ensures merged { Added layout.now.tables.cells.now (scheme_of layout.now.tables.catalogue row.table) (row_start layout.now.tables.catalogue row.table row.row) self.old.merged.attrs self.old.merged.codes self.new.merged.codes self.new.merged.attrs }
        ensures reach { self.new.reach ≡ bit_or self.old.reach (mask_in layout.now.tables.catalogue row.table) }
    {
        self.merged.add(&layout.rows(row.table), row.row - 1);
        self.reach |= layout.tables.catalogue.touching[row.table] as u64;
    }
}

impl<'a> RowSet<'a> {
    ghost use Rattle.sets.specs.Layouts.{world, rows_of};

    // The set's row of one of its tables.
    #[inline]
    fn row(&self, u: usize) -> Row
        requires { bit_of self.now.tables u ≡ true }
        ensures { (result.table ≡ u) × (result.row ≡ at (rows_of self.now) u) × There self.now.layout.now.tables.catalogue u result.row }
    {
        Row {
            table: u,
            row: self.key.row(u) as usize,
        }
    }

    // Adds the set's rows to what has none: what the set has to share.
    // Each of its rows is read once, from where its table's cells begin. A merged row is large: handed back by value it is copied with each trial, and a
    // listing takes up to 8 % more steps.
    fn share(&self, touch: &mut Touch)
        requires { (touch.old.merged.attrs ≡ 0) × (touch.old.reach ≡ 0) }
        ensures merged { Merged self.now.layout.now.tables.catalogue self.now.layout.now.tables.cells.now (at (rows_of self.now)) touch.new.merged.codes touch.new.merged.attrs }
        ensures reach { Reach self.now.layout.now.tables.catalogue (at (rows_of self.now)) touch.new.reach }
    {
        for u in words::bits(self.tables) {
            touch.add(self.layout, self.row(u));
        }
    }

    // "A round tests rows in row order from the first. The first yes is added and a new round begins; a round without yes ends it."
    // The walk of a round yields its row by break, and the rounds end by label when none fits. It comes only to tables that are live and touch the set: live
    // is a table that is neither present nor walked before. No row of another table may be added: a row that touches the set and does not fit it never fits
    // it later, since the set only grows. So a table is live no more once it is walked, in later rounds too; where it gives the row, the tables that touch
    // it are in reach from then on. All tests are counted, those of the tables passed over too, by how many rows lie before a table, and so the count is the
    // rule's. `near` says which row of a table to look at first.
    fn extended(&self, near: usize) -> Grown
        ensures { Comes self.now.layout.now.tables.catalogue (extension (world self.now.layout.now) (rows_of self.now)) (number_of result.key) result.tests }
    {
        let layout = self.layout;
        let mut touch = Touch::none();
        self.share(&mut touch);
        let mut key = self.key;
        let mut tests: usize = 0;
        let mut live: u64 = ((1 << layout.tables.catalogue.n) - 1) ^ self.tables;
        'rounds: loop {
            // No `for table in words::bits(..)`: a row that comes in brings new tables into reach, and `live` lasts beyond the walk, over all rounds.
            let hit = loop {
                if live & touch.reach == 0 {
                    break 'rounds;
                }
                let table = words::lowest(live & touch.reach);
                live -= 1 << table;
                if let Some(i) = layout.rows(table).first_fit(near, &touch.merged) {
                    break Row { table, row: i + 1 };
                }
            };
            touch.add(layout, hit);
            key = key.with_row(hit.table, hit.row as u64);
            tests += layout.measures.before[hit.table] as usize + hit.row;
        }
        Grown {
            key,
            tests: tests + layout.measures.total,
        }
    }

    // The set with a row of the tables in place of its own of that table.
    fn with(&self, x: Row) -> RowSet<'a>
        requires { There self.now.layout.now.tables.catalogue x.table x.row }
        ensures layout { result.layout.now ≡ self.now.layout.now }
        ensures rows { rows_of result ≡ add_row (rows_of self.now) (place_of x) }
        ensures tables { result.tables ≡ bit_or self.now.tables (2 ^ x.table) }
    {
        RowSet {
            layout: self.layout,
            key: self.key.with_row(x.table, x.row as u64),
            tables: self.tables | (1 << x.table),
        }
    }

    // The set without its rows of these tables, where a row stays.
    // What a trial drops goes by this, all of it at once.
    fn without(&self, gone: u64) -> RowSet<'a>
        requires own { Under gone self.now.tables }
        requires stays { (u : ℕ) × (bit_of self.now.tables u ≡ true) × (bit_of gone u ≡ false) }
        ensures layout { result.layout.now ≡ self.now.layout.now }
        ensures rows { rows_of result ≡ lacking (rows_of self.now) gone }
    {
        let mut key = self.key;
        for u in words::bits(gone) {
            key = key.with_row(u, 0);
        }
        RowSet {
            layout: self.layout,
            key,
            tables: self.tables ^ gone,
        }
    }

    // The tables of the set whose row has to go: it is another table's than x's, and not consistent with x.
    // Only those that touch x's table are asked. The row of x is made a merged row, which has a code where it is asked for at once.
    fn parted(&self, x: Row) -> u64
        requires { There self.now.layout.now.tables.catalogue x.table x.row }
        ensures { (u : ℕ) → bit_of result u ≡ parts (world self.now.layout.now) (rows_of self.now) (place_of x) u }
    {
        let layout = self.layout;
        let mut merged = MergedRow::empty();
        merged.add(&layout.rows(x.table), x.row - 1);
        let mut gone: u64 = 0;
        let asked = self.tables & layout.tables.catalogue.touching[x.table] as u64;
        for u in words::bits(asked) {
            if !layout.rows(u).fits(self.row(u).row - 1, &merged) {
                gone |= 1 << u;
            }
        }
        gone
    }

    // "Drop from T every row of s's table other than s and every row of another table not consistent with s; add s."
    // The row comes in first, and then what does not fit it goes.
    fn kept(&self, x: Row) -> RowSet<'a>
        requires { There self.now.layout.now.tables.catalogue x.table x.row }
        ensures layout { result.layout.now ≡ self.now.layout.now }
        ensures rows { rows_of result ≡ dropped (world self.now.layout.now) (rows_of self.now) (place_of x) }
    {
        self.with(x).without(self.parted(x))
    }

    // "Keep the piece that holds s": from x alone, tables of the set that touch what is there are added until there is none, and the rows of those left go.
    // The order in which they come in makes no difference, as there is one piece only; and where none is left, the piece is the set.
    fn piece(&self, x: Row) -> RowSet<'a>
        requires there { There self.now.layout.now.tables.catalogue x.table x.row }
        requires here { at (rows_of self.now) x.table ≡ x.row }
        ensures layout { result.layout.now ≡ self.now.layout.now }
        ensures rows { rows_of result ≡ piece (world self.now.layout.now) (rows_of self.now) (place_of x) }
    {
        let touching = &self.layout.tables.catalogue.touching;
        let mut left = self.tables - (1 << x.table);
        let mut reach = touching[x.table] as u64;
        // No `for u in words::bits(..)`: the mask grows as tables come in.
        while left & reach != 0 {
            let u = words::lowest(left & reach);
            left -= 1 << u;
            reach |= touching[u] as u64;
        }
        self.without(left)
    }
}
