#![tactic(auto)]

// Padded rows: the row that a set stands for, written for the caller, and whether one such row covers another.
ghost use Rattle.std.specs.Prelude.{◌≡◌, ◌<◌, ◌≤◌, length};
ghost use Rattle.laws.specs.Lists.{put};
ghost use Rattle.keys.specs.TwoWords.{number_of};
ghost use Rattle.tables.specs.Checks.{Lawful};
ghost use Rattle.disjunction.specs.Cells.{code_below};
ghost use Rattle.rows.specs.World.{cells_in, set_of};
ghost use Rattle.rows.specs.Named.{Named};
ghost use Rattle.padding.specs.Padding.{gives_in, padded_row};
ghost use Rattle.padding.specs.Covering.{keeps, Covers};

use keys::Key;
use tables::{Catalogue, Tables};

// Whether table t is a member of the set and has attribute a.
// The lowest-numbered such table gives the padded row its code.
fn table_gives(tables: &Tables<'_>, key: Key, t: usize, a: usize) -> bool
    requires { (t < tables.now.catalogue.n) × (a < 64) }
    ensures { result ≡ gives_in tables.now.catalogue (number_of key) a t }
{
    key.row(t) != 0 && words::bit_of(tables.catalogue.schemes[t], a)
}

// The padded row's code of attribute a.
// Tables are asked from 0 on, so that the first to give a code is the lowest-numbered.
fn code_at(tables: &Tables<'_>, key: Key, a: usize) -> u64
    requires { Named tables.now.catalogue (number_of key) × (a < tables.now.catalogue.m) }
    ensures { result ≡ code_below (cells_in tables.now.catalogue tables.now.cells.now) (set_of tables.now.catalogue (number_of key)) a tables.now.catalogue.n }
{
    for t in 0..tables.catalogue.n {
        if table_gives(tables, key, t, a) {
            return rows::code_of(tables, t, key.row(t) as usize, a);
        }
    }
    0
}

// Writes the padded row of a set to the front of the lent row.
// It is called once for each set that is handed out; cells from m on stay.
pub fn pad_row(tables: &Tables<'_>, key: Key, padded: &mut [u64])
    requires { Named tables.now.catalogue (number_of key) × (tables.now.catalogue.m ≤ length padded.old) }
    ensures { padded.new ≡ put (padded_row tables.now.catalogue tables.now.cells.now (number_of key)) padded.old }
{
    for (a, code) in padded[..tables.catalogue.m].iter_mut().enumerate() {
        *code = code_at(tables, key, a);
    }
}

// Whether a code keeps another: the other is null, or they are the same.
// Two rows are compared by it, attribute by attribute.
fn code_kept(x: u64, y: u64) -> bool
    ensures { result ≡ keeps x y }
{
    y == 0 || x == y
}

// Whether one padded row covers another, for rows of any length: each value of the other is kept.
// A public yes or no: nothing is asked of the rows before.
pub fn covers(first: &[u64], second: &[u64]) -> bool
    ensures { Covers first.now second.now result }
{
    first.len() == second.len() && first.iter().zip(second).all(|(x, y)| code_kept(*x, *y))
}
