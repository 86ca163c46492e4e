#![tactic(auto)]

// A catalogue's tables as those of the rule: the codes of their rows, and which keys name rows of them.
ghost use Rattle.std.specs.Prelude.{◌≡◌, true, ◌+◌, ◌≤◌, ◌<◌, length};
ghost use Rattle.std.specs.Int.Count.{ones};
ghost use Rattle.words.specs.Words.{bit_of};
ghost use Rattle.keys.specs.Keys.{most_tables};
ghost use Rattle.keys.specs.TwoWords.{number_of};
ghost use Rattle.tables.specs.Sizes.{most_cells};
ghost use Rattle.tables.specs.Catalogues.{scheme_of, code_at, code_of};
ghost use Rattle.tables.specs.Checks.{Lawful};
ghost use Rattle.rows.specs.Named.{There, named, rows_there};

use keys::Key;
use tables::{Catalogue, Tables};

// The code of attribute a in the row of this scheme whose cells begin at `start`.
// Cells lie by rising attribute, so it stands as far into the row as the scheme has attributes below a.
pub fn code_at(cells: &[u64], scheme: u64, start: usize, a: usize) -> u64
    requires { (start + ones scheme ≤ length cells.now) × (a < 64) × (bit_of scheme a ≡ true) }
    ensures { result ≡ code_at cells.now scheme start a }
{
    cells[start + tables::rank(scheme, a)]
}

// The code of attribute a in row r of table t.
pub fn code_of(tables: &Tables<'_>, t: usize, r: usize, a: usize) -> u64
    requires row { There tables.now.catalogue t r }
    requires attribute { (a < 64) × (bit_of (scheme_of tables.now.catalogue t) a ≡ true) }
    ensures { result ≡ code_of tables.now.catalogue tables.now.cells.now t r a }
{
    let scheme = tables.catalogue.schemes[t];
    code_at(tables.cells, scheme, tables.row_start(t, r), a)
}

// How many tables a key has room for.
const MOST_TABLES: usize = 8;

// How many rows a key may name in table t of any catalogue: none where there is no such table.
// Entries from n on are ignored, so they are not looked at.
pub fn rows_there(cat: Catalogue, t: usize) -> u64
    requires { t < most_tables }
    ensures { result ≡ rows_there cat t }
{
    if t < cat.n { u64::from(cat.rows[t]) } else { 0 }
}

// The same of tables whose cells are lent.
pub fn table_rows(tables: &Tables<'_>, t: usize) -> u64
    requires { t < most_tables }
    ensures { result ≡ rows_there tables.now.catalogue t }
{
    rows_there(tables.catalogue, t)
}

// Whether a key names rows, and only rows that are there.
// The cells are not looked at, so a lawful catalogue is asked for alone.
pub fn key_named(cat: Catalogue, key: Key) -> bool
    requires { Lawful cat most_cells }
    ensures { result ≡ named cat (number_of key) }
{
    if key.same(Key::none()) || key.has_spare() {
        return false;
    }
    for t in 0..MOST_TABLES {
        if rows_there(cat, t) < key.row(t) {
            return false;
        }
    }
    true
}

// The same of tables whose cells are lent.
// A used record is asked this before anything is read by its key.
pub fn named(tables: &Tables<'_>, key: Key) -> bool
    ensures { result ≡ named tables.now.catalogue (number_of key) }
{
    key_named(tables.catalogue, key)
}
